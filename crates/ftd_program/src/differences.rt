//! In what an entry that was asked for differs from the one that the desk keeps. `Memory` and
//! `Store` may come in place of that. The desk stands for the state as it was.

ghost use Rattle.std.specs.Prelude.{◌≡◌, Err, IfErr, IfOk};
ghost use Rattle.sqlite.specs.State.{HasCleanDisk};
ghost use Rattle.ftd_machine.specs.Runs.{IsFault};
ghost use Rattle.ftd_machine.specs.State.{State};
ghost use Rattle.ftd_desk.specs.Desks.{KeepsIfOpen, held};
ghost use Rattle.ftd_desk.specs.Telling.{StandsAsBefore};
ghost use Rattle.ftd_program.specs.Differences.{account_difference, payment_difference};
ghost use Rattle.ftd_program.specs.Differences.{run_difference};

use ftd_desk::Desk;
use ftd_machine::{Account, Refusal};
use ftd_replies::Differing;
use ftd_rules::{PayRun, Payment};
use sqlite::Alter;

/// A run, and the one of the account that has its number, if there is one.
pub(crate) fn run_difference<S: Alter>(
    desk: &mut Desk<S>,
    account: &str,
    number: u32,
    asked: PayRun,
) -> Result<Option<Differing>, Refusal>
    ensures knows { HasCleanDisk (held S.Store desk.new).db
        → (s : State) → KeepsIfOpen (held S.Store desk.old) s
        → IfOk result (λ found. found ≡ run_difference s account.now number asked) }
    ensures fault { IfErr result (λ fault. IsFault (Err fault)) }
    ensures stands { StandsAsBefore (held S.Store desk.old) (held S.Store desk.new) }
{
    match desk.kept_run(account, number)? {
        Some(it) => {
            let kept = it.value;
            Ok(Some(Differing::Runs { asked, kept }))
        }
        None => Ok(None),
    }
}

/// A payment, and the one of the account that has its number, if there is one.
pub(crate) fn payment_difference<S: Alter>(
    desk: &mut Desk<S>,
    account: &str,
    number: u32,
    asked: Payment,
) -> Result<Option<Differing>, Refusal>
    ensures knows { HasCleanDisk (held S.Store desk.new).db
        → (s : State) → KeepsIfOpen (held S.Store desk.old) s
        → IfOk result (λ found. found ≡ payment_difference s account.now number asked) }
    ensures fault { IfErr result (λ fault. IsFault (Err fault)) }
    ensures stands { StandsAsBefore (held S.Store desk.old) (held S.Store desk.new) }
{
    match desk.kept_payment(account, number)? {
        Some(it) => {
            let kept = it.value;
            Ok(Some(Differing::Payments { asked, kept }))
        }
        None => Ok(None),
    }
}

/// An account, and the one that is enrolled under its name, if there is one.
pub(crate) fn account_difference<S: Alter>(
    desk: &mut Desk<S>,
    name: &str,
    asked: Account,
) -> Result<Option<Differing>, Refusal>
    ensures knows { HasCleanDisk (held S.Store desk.new).db
        → (s : State) → KeepsIfOpen (held S.Store desk.old) s
        → IfOk result (λ found. found ≡ account_difference s name.now asked) }
    ensures fault { IfErr result (λ fault. IsFault (Err fault)) }
    ensures stands { StandsAsBefore (held S.Store desk.old) (held S.Store desk.new) }
{
    match desk.enrolled_account(name)? {
        Some(kept) => Ok(Some(Differing::Accounts { asked, kept })),
        None => Ok(None),
    }
}

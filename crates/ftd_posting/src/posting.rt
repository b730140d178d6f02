//! Pay runs are posted, and voided.

ghost use Rattle.std.specs.Prelude.{◌≡◌};
ghost use Rattle.ftd_store.specs.Finds.{CountsRuns};
ghost use Rattle.ftd_store.specs.Frame.{Calls};
ghost use Rattle.ftd_machine.specs.declared.requests.Request.TheVariants.{Post, Void};
ghost use Rattle.ftd_entries.specs.Words.{Serves};
ghost use Rattle.ftd_posting.specs.Repaired.{Becoming, PostsRun, VoidsRun};

use crate::known_runs::{known_for_post, known_for_void};
use ftd_machine::{Answer, Reply, post_check, void_check};
use ftd_repairs::{add_repaired, void_repaired};
use ftd_rules::PayRun;
use ftd_store::{StoreFault, Tx};
use sqlite::Alter;
use std::alloc::Global;

/// Posts a pay run of an account, under its number. The account has so many runs, voided ones too.
/// It is answered how the obligations that come differ from those that go, or why the run is
/// refused; a refused run changes nothing.
pub fn post<S: Alter>(
    tx: &mut Tx<'_, S>,
    alloc: Global,
    name: &str,
    number: u32,
    run: PayRun,
    count: u32,
) -> Result<Answer, StoreFault>
    ensures call { Calls S.Store tx.old tx.new result (λ answer before after t.
        CountsRuns name.now count t
        → Serves (Post name.now number run)
        answer before after t) }
    ensures repairs { Calls S.Store tx.old tx.new result (λ answer before after.
        Becoming (PostsRun name.now number run) answer before.now after.now) }
{
    let before = known_for_post(tx, alloc, name, number, run.payday)?;
    let checked = post_check(
        name,
        number,
        &run,
        before.account,
        before.kept,
        before.is_open,
        count,
    );
    let account = match checked {
        Ok(account) => account,
        Err(answer) => return Ok(answer),
    };
    let form = account.form;
    let difference = add_repaired(tx, alloc, name, form, number, run)?;
    Ok(Ok(Reply::Posted(difference)))
}

/// Voids the account's run of the number. It is answered how the obligations that come differ from
/// those that go, or why the number is refused; nothing changes then.
pub fn void<S: Alter>(
    tx: &mut Tx<'_, S>,
    alloc: Global,
    name: &str,
    number: u32,
) -> Result<Answer, StoreFault>
    ensures call { Calls S.Store tx.old tx.new result (Serves (Void name.now number)) }
    ensures repairs { Calls S.Store tx.old tx.new result (λ answer before after.
        Becoming (VoidsRun name.now number) answer before.now after.now) }
{
    let before = known_for_void(tx, alloc, name, number)?;
    let (account, run) = match void_check(name, number, before.account, before.kept) {
        Ok(found) => found,
        Err(answer) => return Ok(answer),
    };
    let form = account.form;
    let payday = run.payday;
    let difference = void_repaired(tx, alloc, name, form, number, payday)?;
    Ok(Ok(Reply::Posted(difference)))
}

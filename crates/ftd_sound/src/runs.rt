//! Runs, and their liability.

ghost use Rattle.std.specs.Prelude.{◌≡◌, ◌↔◌, ℕ, IsTrue, IfOk, true, All};
ghost use Rattle.ftd_rules.specs.declared.run.PayRun.{PayRun};
ghost use Rattle.ftd_rules.specs.declared.run.Voidable.{Voidable};
ghost use Rattle.ftd_machine.specs.Limits.{are_amounts};
ghost use Rattle.ftd_machine.specs.History.{liability_of};
ghost use Rattle.ftd_sound.specs.Private.Plain.{AreRuns, IsRun};
ghost use Rattle.ftd_sound.specs.Private.Lines.{sums_in};

use crate::limits::{are_amounts, is_number};
use crate::once::stand_once;
use crate::years::is_one_of;
use ftd_days::Cents;
use ftd_machine::{Account, MOST_ENTRIES};
use ftd_rules::{DaySum, PayRun, Voidable};
use std::alloc::{AllocError, Global};

/// Whether the runs are sound, where these years are open: at most 20,000, each with a number of
/// its own. `Err` says that memory ran out.
pub(crate) fn are_runs(
    alloc: Global,
    account: Account,
    years: &[u32],
    runs: &[(u32, Voidable<PayRun>)],
) -> Result<bool, AllocError>
    ensures { IfOk result (λ sound. IsTrue sound ↔ AreRuns account years.now runs.now) }
{
    if runs.len() > MOST_ENTRIES as usize {
        return Ok(false);
    }
    Ok(stand_once(alloc, runs)? && are_each(account, years, runs))
}

/// Whether each of the runs is sound.
fn are_each(account: Account, years: &[u32], runs: &[(u32, Voidable<PayRun>)]) -> bool
    ensures { IsTrue result ↔ All (λ e. IsRun account years.now e) runs.now }
{
    runs.iter().all(|run| is_run(account, years, run))
}

/// Whether the run is sound: its number, its amounts and its payday.
fn is_run(account: Account, years: &[u32], run: &(u32, Voidable<PayRun>)) -> bool
    ensures { IsTrue result ↔ IsRun account years.now run.now }
{
    let payday = run.1.value.payday;
    is_number(run.0)
        && are_amounts(&run.1.value)
        && is_one_of(years, payday.year())
        && account.start <= payday
}

/// The liability of the runs that are not void. `Err` says that memory ran out.
pub(crate) fn live_sums(
    alloc: Global,
    runs: &[(u32, Voidable<PayRun>)],
) -> Result<Vec<DaySum>, AllocError>
    requires { All (λ (e : ℕ × Voidable PayRun). are_amounts e.1.value ≡ true) runs.now }
    ensures { IfOk result (λ sums. sums.items ≡ sums_in runs.now) }
{
    let mut sums = Vec::new(alloc);
    for run in runs {
        if !run.1.voided {
            sums.push(liability_of(&run.1.value))?;
        }
    }
    Ok(sums)
}

/// The liability of a run, on its payday.
fn liability_of(run: &PayRun) -> DaySum
    requires { are_amounts run.now ≡ true }
    ensures { result ≡ liability_of run.now }
{
    DaySum {
        day: run.payday,
        cents: Cents(run.fit.0 + run.ss.0 + run.medicare.0),
    }
}

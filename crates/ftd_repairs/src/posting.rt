//! A pay run is added or made void, and the account's rows are repaired.

ghost use Rattle.std.specs.Prelude.{IsTrue};
ghost use Rattle.ftd_store.specs.Amounts.{HasStorableAmounts};
ghost use Rattle.ftd_store.specs.Changes.{with_run, with_void_run};
ghost use Rattle.ftd_repairs.specs.Reposted.{IsReposted};
ghost use Rattle.ftd_store.specs.Frame.{Rewrites};

use crate::patching::{is_storable, repair_rows};
use crate::reading::known_years;
use ftd_days::Day;
use ftd_machine::Difference;
use ftd_rules::{Form, PayRun};
use ftd_store::{StoreFault, Tx};
use sqlite::Alter;
use std::alloc::Global;

/// Whether cells hold the amounts of the run.
pub(crate) fn holds_run(run: &PayRun) -> bool
    ensures { IsTrue result → HasStorableAmounts run.now }
{
    is_storable(run.fit) && is_storable(run.ss) && is_storable(run.medicare)
}

/// Adds a run of the account, which is not void, and repairs the account's rows by its form. It
/// answers how the obligations that come differ from those that go. `Failed` also where the
/// account has a run of the number, where the payday's year is not open, where the calendar of an
/// open year from then on or of the year after is not given, and where an amount is 2^63 cents or
/// more.
pub fn add_repaired<S: Alter>(
    tx: &mut Tx<'_, S>,
    alloc: Global,
    account: &str,
    form: Form,
    number: u32,
    run: PayRun,
) -> Result<Difference, StoreFault>
    ensures call { Rewrites S.Store tx.old tx.new result (λ difference old new.
        IsReposted account.now form run.payday
        old (with_run account.now number run old) new difference) }
{
    if !holds_run(&run) {
        return tx.give_up(StoreFault::Failed);
    }
    let day = run.payday;
    let known = known_years(tx, alloc, account, day)?;
    tx.add_run(account, number, run)?;
    let difference = repair_rows(tx, alloc, account, form, day, known)?;
    Ok(difference)
}

/// Makes the account's run of the number void, which was paid on the day, and repairs the account's
/// rows by its form. It answers how the obligations that come differ from those that go. `Failed`
/// also where the account has no run of the number, where the payday's year is not open, and where
/// the calendar of an open year from then on or of the year after is not given.
pub fn void_repaired<S: Alter>(
    tx: &mut Tx<'_, S>,
    alloc: Global,
    account: &str,
    form: Form,
    number: u32,
    payday: Day,
) -> Result<Difference, StoreFault>
    ensures call { Rewrites S.Store tx.old tx.new result (λ difference old new.
        IsReposted account.now form payday
        old (with_void_run account.now number old) new difference) }
{
    let known = known_years(tx, alloc, account, payday)?;
    tx.void_run(account, number)?;
    let difference = repair_rows(tx, alloc, account, form, payday, known)?;
    Ok(difference)
}

//! A pay run is added, and the account's rows are repaired by what is known of it: several runs
//! are added one after the other, and its years, its other runs and its obligations are read once.

ghost use Rattle.std.specs.Prelude.{◌≡◌, IfOk, OnOk};
ghost use Rattle.ftd_days.specs.Holidays.{holidays_of};
ghost use Rattle.ftd_store.specs.Changes.{with_run};
ghost use Rattle.ftd_store.specs.Frame.{Reads, Rewrites};
ghost use Rattle.ftd_repairs.specs.Repaired.{RepairsBy};
ghost use Rattle.ftd_repairs.specs.Reposted.{AddsRun, IsLedger, IsRepostedBy, KnowsLedger};

use crate::patching::{lines_from, place_patch};
use crate::placing::{PlacedRows, place_rows};
use crate::posting::holds_run;
use crate::reading::{KnownYears, known_obligations, known_years};
use crate::repairing::repaired_by;
use crate::summing::add_run_to;
use ftd_buckets::{Patch, Window};
use ftd_days::Day;
use ftd_machine::Difference;
use ftd_rules::{DaySum, Form, Obligation, PayRun};
use ftd_store::{StoreFault, Tx};
use sqlite::Alter;
use std::alloc::Global;

/// What is known of an account while several of its runs are added.
#[derive(Drop)]
pub struct Ledger {
    /// Its open years, and the holidays.
    pub years: KnownYears,
    /// The first day of which it has sums and obligations.
    pub since: Day,
    /// The day sums of its live runs from that day on.
    pub sums: Vec<DaySum>,
    /// Its obligations that begin on that day or later, by first day.
    pub rows: Vec<Obligation>,
}

/// Adds the run to the day sums, and answers what replaces the account's rows by them. `Failed`
/// where the payday's year is not open, and where the amounts reach 60,000,000,000,000.00.
fn patch_with(
    alloc: Global,
    form: Form,
    run: &PayRun,
    years: &KnownYears,
    sums: &mut Vec<DaySum>,
) -> Result<Patch, StoreFault>
    ensures sums { OnOk result (AddsRun run.now sums.old.items sums.new.items) }
    ensures right { IfOk result (RepairsBy form run.now.payday sums.new.items
        years.now.lines.items (holidays_of years.now.holidays)) }
{
    add_run_to(sums, run)?;
    let Some(rest) = lines_from(&years.lines, run.payday) else {
        return Err(StoreFault::Failed);
    };
    let patch = repaired_by(alloc, form, rest, &years.holidays, sums, run.payday)?;
    Ok(patch)
}

impl Ledger {
    /// What is known of an account for runs with paydays from the first of the days on. `Failed`
    /// also where the calendar of an open year from then on or of the year after is not given.
    pub fn read<S: Alter>(
        tx: &mut Tx<'_, S>,
        alloc: Global,
        account: &str,
        days: Window,
    ) -> Result<Ledger, StoreFault>
        ensures call { Reads S.Store tx.old tx.new result (KnowsLedger account.now days) }
    {
        let years = known_years(tx, alloc, account, days.from)?;
        let sums = tx.day_sums(alloc, account, days.from, days.to)?;
        let rows = known_obligations(tx, alloc, account, days.from, days.to)?;
        Ok(Ledger {
            years,
            since: days.from,
            sums,
            rows,
        })
    }

    /// Adds a run of the account, which is not void, and repairs the account's rows by its form and
    /// by what is known; the ledger then knows the run and what stands in these rows. It answers
    /// how the obligations that come differ from those that go. `Failed` also where the account has
    /// a run of the number, where the payday's year is not open, where a row that goes may begin
    /// before the ledger's first day, and where an amount is 2^63 cents or more.
    pub fn add<S: Alter>(
        &mut self,
        tx: &mut Tx<'_, S>,
        alloc: Global,
        account: &str,
        form: Form,
        number: u32,
        run: PayRun,
    ) -> Result<Difference, StoreFault>
        ensures call { Rewrites S.Store tx.old tx.new result (λ difference old new.
            IsLedger account.now self.old old
            → IsRepostedBy account.now form run.payday self.old self.new difference
            (with_run account.now number run old) new) }
        ensures sums { OnOk result (AddsRun run self.old.sums.items self.new.sums.items) }
        ensures since { OnOk result (self.new.since ≡ self.old.since) }
        ensures holidays { OnOk result
            (holidays_of self.new.years.holidays ≡ holidays_of self.old.years.holidays) }
    {
        if !holds_run(&run) {
            return tx.give_up(StoreFault::Failed);
        }
        tx.add_run(account, number, run)?;
        let patch = match patch_with(alloc, form, &run, &self.years, &mut self.sums) {
            Ok(patch) => patch,
            Err(fault) => return tx.give_up(fault),
        };
        if patch.from < self.since {
            return tx.give_up(StoreFault::Failed);
        }
        let Ok(PlacedRows { gone, rows }) = place_rows(alloc, &self.rows, &patch) else {
            return tx.give_up(StoreFault::Memory);
        };
        let day = run.payday;
        let lines = &mut self.years.lines;
        let difference = place_patch(tx, alloc, account, day, lines, &gone, &patch)?;
        self.rows = rows;
        Ok(difference)
    }
}

//! The pay runs of an account, by number, each with its void.

ghost use Rattle.ftd_store.specs.Frame.{Reads};
ghost use Rattle.ftd_machine.specs.declared.requests.Request.TheVariants.{Post, Void};
ghost use Rattle.ftd_journal.specs.Numbers.{KnowsNextRun};
ghost use Rattle.ftd_journal.specs.Parts.{AddsPart, KnowsRuns, run_number, runs_part};

use crate::numbered::{Numbered, add_rows, after_last, by_number};
use ftd_days::{Day, MONTHS};
use ftd_machine::{AccountName, Request};
use ftd_store::{NumberedRun, StoreFault, Tx};
use sqlite::Alter;
use std::alloc::Global;

impl Numbered for NumberedRun {
    ghost number_of = { run_number };

    ghost is_voided = { λ row. row.run.voided };

    ghost request_of = { λ name row. Post name row.number row.run.value };

    ghost void_of = { λ name row. Void name row.number };

    fn number(&self) -> u32 {
        self.number
    }

    fn is_void(&self) -> bool {
        self.run.voided
    }

    fn request(&self, account: AccountName) -> Request {
        Request::Post {
            account,
            number: self.number,
            run: self.run.value,
        }
    }

    fn void_request(&self, account: AccountName) -> Request {
        Request::Void {
            account,
            number: self.number,
        }
    }
}

/// The runs of the account, by number. `Memory` where there was none.
fn runs<S: Alter>(
    tx: &mut Tx<'_, S>,
    alloc: Global,
    name: &str,
) -> Result<Vec<NumberedRun>, StoreFault>
    ensures call { Reads S.Store tx.old tx.new result (λ rows. KnowsRuns name.now rows.items) }
{
    let first = Day::first_of_month(0);
    let last = Day::last_of_month(MONTHS - 1);
    let found = tx.kept_runs(alloc, name, first, last)?;
    match by_number(found) {
        Ok(rows) => Ok(rows),
        Err(fault) => tx.give_up(fault),
    }
}

/// Adds the part of the account's journal that has its runs. After an error some requests may have
/// been added.
pub(crate) fn add_runs<S: Alter>(
    tx: &mut Tx<'_, S>,
    alloc: Global,
    name: &str,
    requests: &mut Vec<Request>,
) -> Result<(), StoreFault>
    ensures call { Reads S.Store tx.old tx.new result
        (λ done. AddsPart (runs_part name.now) requests.old.items requests.new.items) }
{
    let rows = runs(tx, alloc, name)?;
    match add_rows(alloc, name, &rows, requests) {
        Ok(()) => Ok(()),
        Err(fault) => tx.give_up(fault),
    }
}

/// The least number above all those of the account's runs, void ones too; 1 where it has none.
/// `Failed` where there is none below 2^32, and `Memory` where there was no memory.
pub fn next_run<S: Alter>(tx: &mut Tx<'_, S>, alloc: Global, name: &str) -> Result<u32, StoreFault>
    ensures call { Reads S.Store tx.old tx.new result (KnowsNextRun name.now) }
{
    let rows = runs(tx, alloc, name)?;
    match after_last(&rows) {
        Ok(number) => Ok(number),
        Err(fault) => tx.give_up(fault),
    }
}

//! The open years of an account, as they follow one another.

ghost use Rattle.std.specs.Prelude.{◌≡◌, ◌++◌, OnOk, map};
ghost use Rattle.ftd_store.specs.Frame.{Reads};
ghost use Rattle.ftd_journal.specs.Parts.{AddsPart, line_opened, years_part};

use crate::adding::add;
use ftd_machine::{AccountName, Entry, Request};
use ftd_rules::YearLine;
use ftd_store::{StoreFault, Tx};
use sqlite::Alter;
use std::alloc::Global;

/// Adds the requests by which the years of the lines were opened. `Memory` where there was none;
/// after it some of them may have been added.
fn add_lines(
    alloc: Global,
    name: &str,
    lines: &[YearLine],
    requests: &mut Vec<Request>,
) -> Result<(), StoreFault>
    ensures { OnOk result (requests.new.items ≡ requests.old.items
        ++ map (line_opened name.now) lines.now) }
{
    for line in lines {
        let account = AccountName::copy_of(alloc, name)?;
        let year = line.year;
        add(Request::Enter(Entry::Year { account, year }), requests)?;
    }
    Ok(())
}

/// Adds the part of the account's journal that has its open years. After an error some requests may
/// have been added.
pub(crate) fn add_years<S: Alter>(
    tx: &mut Tx<'_, S>,
    alloc: Global,
    name: &str,
    requests: &mut Vec<Request>,
) -> Result<(), StoreFault>
    ensures call { Reads S.Store tx.old tx.new result
        (λ done. AddsPart (years_part name.now) requests.old.items requests.new.items) }
{
    let lines = tx.years(alloc, name)?;
    match add_lines(alloc, name, &lines, requests) {
        Ok(()) => Ok(()),
        Err(fault) => tx.give_up(fault),
    }
}

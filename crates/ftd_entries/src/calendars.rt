//! Calendars are given.

ghost use Rattle.ftd_store.specs.Frame.{Calls};
ghost use Rattle.ftd_machine.specs.declared.requests.Request.TheVariants.{Enter};
ghost use Rattle.ftd_machine.specs.declared.requests.Entry.TheVariants as entry;
ghost use Rattle.ftd_entries.specs.Words.{Serves};

use ftd_days::Day;
use ftd_machine::{Answer, Reply, calendar_check};
use ftd_store::{StoreFault, Tx};
use sqlite::Alter;
use std::alloc::Global;

/// Takes the legal holidays of a year.
pub fn take_calendar<S: Alter>(
    tx: &mut Tx<'_, S>,
    alloc: Global,
    year: u32,
    days: &[Day],
) -> Result<Answer, StoreFault>
    ensures call { Calls S.Store tx.old tx.new result
        (Serves (Enter (entry.Calendar year days.now))) }
{
    let known = tx.calendar(alloc, year)?;
    if let Err(answer) = calendar_check(year, days, known.as_deref()) {
        return Ok(answer);
    }
    tx.add_calendar(year, days)?;
    Ok(Ok(Reply::Done))
}

//! A holiday is added.

ghost use Rattle.ftd_store.specs.Frame.{Calls};
ghost use Rattle.ftd_machine.specs.declared.requests.Request.TheVariants.{Enter};
ghost use Rattle.ftd_machine.specs.declared.requests.Entry.TheVariants as entry;
ghost use Rattle.ftd_entries.specs.Words.{Serves};

use crate::moving::{DayEntry, enter_and_move};
use ftd_days::Day;
use ftd_machine::{Answer, Reply, add_holiday_check};
use ftd_store::{StoreFault, Tx};
use sqlite::Alter;
use std::alloc::Global;

/// Adds a legal holiday to a year whose calendar was given, and moves the due dates that count it,
/// of all accounts. `Failed` also where the rows stand for no state that requests lead to.
pub fn add_holiday<S: Alter>(
    tx: &mut Tx<'_, S>,
    alloc: Global,
    day: Day,
) -> Result<Answer, StoreFault>
    ensures call { Calls S.Store tx.old tx.new result (Serves (Enter (entry.Holiday day))) }
{
    let year = day.year();
    let calendar = tx.calendar(alloc, year)?;
    let added = tx.added_holidays(alloc, year)?;
    if let Err(answer) = add_holiday_check(day, calendar.as_deref(), &added) {
        return Ok(answer);
    }
    enter_and_move(tx, alloc, &DayEntry::Added(day))?;
    Ok(Ok(Reply::Done))
}

//! The journal of the days: the calendars by year, the holidays that were added, and the changes of
//! each day that was given or added.

ghost use Rattle.std.specs.Prelude.{◌≡◌, ◌++◌, OnOk, map};
ghost use Rattle.ftd_store.specs.Frame.{Reads};
ghost use Rattle.ftd_machine.specs.Journal.{holiday_added};
ghost use Rattle.ftd_journal.specs.Days.{calendar_in_year, changes_in_year, holidays_in_year};
ghost use Rattle.ftd_journal.specs.Days.{part_of_year, whole_part};
ghost use Rattle.ftd_journal.specs.Parts.{AddsPart, KnowsDaysJournal};

use crate::adding::add;
use crate::changes::{add_changes_of, days_of_year};
use ftd_days::{Day, FIRST_YEAR, LAST_YEAR};
use ftd_machine::{Days, Entry, Request};
use ftd_store::{StoreFault, Tx};
use sqlite::Alter;
use std::alloc::Global;

// ---- calendars

/// Adds the request by which the year's calendar was given, if it was. After an error some requests
/// may have been added; so of each function here.
fn add_calendar<S: Alter>(
    tx: &mut Tx<'_, S>,
    alloc: Global,
    year: u32,
    requests: &mut Vec<Request>,
) -> Result<(), StoreFault>
    ensures call { Reads S.Store tx.old tx.new result
        (λ done. AddsPart (calendar_in_year year) requests.old.items requests.new.items) }
{
    let Some(days) = tx.calendar(alloc, year)? else {
        return Ok(());
    };
    let days = Days::from_vec(days);
    match add(Request::Enter(Entry::Calendar { year, days }), requests) {
        Ok(()) => Ok(()),
        Err(fault) => tx.give_up(fault),
    }
}

// ---- added holidays

/// Adds the requests by which these days were added. `Memory` where there was none.
fn add_days(days: &[Day], requests: &mut Vec<Request>) -> Result<(), StoreFault>
    ensures { OnOk result (requests.new.items ≡ requests.old.items
        ++ map holiday_added days.now) }
{
    for day in days {
        add(Request::Enter(Entry::Holiday { day: *day }), requests)?;
    }
    Ok(())
}

/// Adds the requests by which the holidays of the year were added.
fn add_holidays<S: Alter>(
    tx: &mut Tx<'_, S>,
    alloc: Global,
    year: u32,
    requests: &mut Vec<Request>,
) -> Result<(), StoreFault>
    ensures call { Reads S.Store tx.old tx.new result
        (λ done. AddsPart (holidays_in_year year) requests.old.items requests.new.items) }
{
    let days = tx.added_holidays(alloc, year)?;
    match add_days(&days, requests) {
        Ok(()) => Ok(()),
        Err(fault) => tx.give_up(fault),
    }
}

// ---- changes

/// Adds the requests by which the days of the year were taken back as holidays, or made some again.
fn add_changes<S: Alter>(
    tx: &mut Tx<'_, S>,
    alloc: Global,
    year: u32,
    requests: &mut Vec<Request>,
) -> Result<(), StoreFault>
    ensures call { Reads S.Store tx.old tx.new result
        (λ done. AddsPart (changes_in_year year) requests.old.items requests.new.items) }
{
    let days = days_of_year(tx, alloc, year)?;
    let changes = tx.holiday_changes(alloc, year)?;
    match add_changes_of(alloc, &days, &changes, requests) {
        Ok(()) => Ok(()),
        Err(fault) => tx.give_up(fault),
    }
}

// ---- year by year

/// A part of the journal of the days.
#[derive(Clone, Copy, Debug)]
enum DaysPart {
    /// The calendars, by year.
    Calendars,
    /// The holidays that were added, by day.
    Holidays,
    /// The changes of days, by day.
    Changes,
}

/// Adds the requests of the year that are of the part.
fn add_part_of_year<S: Alter>(
    tx: &mut Tx<'_, S>,
    alloc: Global,
    part: DaysPart,
    year: u32,
    requests: &mut Vec<Request>,
) -> Result<(), StoreFault>
    ensures call { Reads S.Store tx.old tx.new result
        (λ done. AddsPart (part_of_year part year) requests.old.items requests.new.items) }
{
    match part {
        DaysPart::Calendars => add_calendar(tx, alloc, year, requests),
        DaysPart::Holidays => add_holidays(tx, alloc, year, requests),
        DaysPart::Changes => add_changes(tx, alloc, year, requests),
    }
}

/// Adds the requests of the part, of each year.
fn add_part<S: Alter>(
    tx: &mut Tx<'_, S>,
    alloc: Global,
    part: DaysPart,
    requests: &mut Vec<Request>,
) -> Result<(), StoreFault>
    ensures call { Reads S.Store tx.old tx.new result
        (λ done. AddsPart (whole_part part) requests.old.items requests.new.items) }
{
    add_part_of_year(tx, alloc, part, FIRST_YEAR, requests)?;
    for year in FIRST_YEAR + 1..LAST_YEAR + 1 {
        add_part_of_year(tx, alloc, part, year, requests)?;
    }
    Ok(())
}

// ---- all

/// The journal of the days: the requests by which an empty desk comes to have the same calendars,
/// the same added holidays and the same changes of days, in their order. `Failed` where the rows do
/// not go together, as where a day has more changes than there are numbers; `Memory` where there
/// was no memory.
pub fn days_journal<S: Alter>(tx: &mut Tx<'_, S>, alloc: Global) -> Result<Vec<Request>, StoreFault>
    ensures call { Reads S.Store tx.old tx.new result
        (λ requests. KnowsDaysJournal requests.items) }
{
    let mut requests = Vec::new(alloc);
    add_part(tx, alloc, DaysPart::Calendars, &mut requests)?;
    add_part(tx, alloc, DaysPart::Holidays, &mut requests)?;
    add_part(tx, alloc, DaysPart::Changes, &mut requests)?;
    Ok(requests)
}

//! Whether the calendars, the added holidays and the changes of days are what requests may have
//! entered.

ghost use Rattle.std.specs.Prelude.{◌≡◌, ◌++◌, ◌↔◌, IfOk, IsTrue, map};
ghost use Rattle.std.specs.List.{list_all, list_any};
ghost use Rattle.ftd_days.specs.Business.{is_holiday};
ghost use Rattle.ftd_days.specs.Holidays.{holidays_of};
ghost use Rattle.ftd_machine.specs.Sound.{AreDistinct};
ghost use Rattle.ftd_sound.specs.Days.{calendar_in, with_days};
ghost use Rattle.ftd_sound.specs.Parts.{AreDaysSound};
ghost use Rattle.ftd_sound.specs.Private.Calendars.{are_in_calendars, changes_on, days_in, day_itself};
ghost use Rattle.ftd_sound.specs.Private.Calendars.{fits, has_few_changes, has_few_days, holds};
ghost use Rattle.ftd_sound.specs.Private.Calendars.{is_changeable, is_of, year_of_given};

use ftd_days::{Day, MOST_HOLIDAYS};
use ftd_machine::{MOST_NUMBER, calendar_check};
use std::alloc::{AllocError, Global};

/// The calendar of a year, as it was first given.
#[derive(Debug, Drop)]
pub struct Calendar {
    pub year: u32,
    /// The holidays.
    pub days: Vec<Day>,
}

/// A day that was taken back as a holiday, or made one again.
#[derive(Clone, Copy, Debug, PartialEq, Eq)]
pub struct DayChange {
    pub day: Day,
    /// Whether it was made one again.
    pub is_holiday: bool,
}

// ---- calendars

/// Whether the calendar may have been given, as the machine checks it.
fn fits(calendar: &Calendar) -> bool
    ensures { result ≡ fits calendar.now }
{
    calendar_check(calendar.year, &calendar.days, None).is_ok()
}

/// Whether each calendar may have been given.
fn all_fit(calendars: &[Calendar]) -> bool
    ensures { result ≡ list_all fits calendars.now }
{
    calendars.iter().all(|calendar| fits(calendar))
}

/// Whether the calendar is of the year.
fn is_of(year: u32, calendar: &Calendar) -> bool
    ensures { result ≡ is_of year calendar.now }
{
    calendar.year == year
}

/// Whether a calendar is given of the year.
fn is_given(calendars: &[Calendar], year: u32) -> bool
    ensures { result ≡ list_any (is_of year) calendars.now }
{
    calendars.iter().any(|calendar| is_of(year, calendar))
}

/// Whether no two of the calendars are of one year.
fn are_of_own_years(calendars: &[Calendar]) -> bool
    ensures { IsTrue result ↔ AreDistinct year_of_given calendars.now }
{
    let mut left = calendars;
    while let Some((first, rest)) = left.split_first() {
        if is_given(rest, first.year) {
            return false;
        }
        left = rest;
    }
    true
}

// ---- all days

/// The days that were given and those that were added. `Err` says that memory ran out.
fn all_days(alloc: Global, calendars: &[Calendar], added: &[Day]) -> Result<Vec<Day>, AllocError>
    ensures { IfOk result (λ all.
        all.items ≡ holidays_of (map calendar_in calendars.now) ++ added.now) }
{
    let mut all = Vec::new(alloc);
    for calendar in calendars {
        all.extend_from_slice(&calendar.days)?;
    }
    all.extend_from_slice(added)?;
    Ok(all)
}

/// Whether each day is of a year of which a calendar is given.
fn are_in_calendars(calendars: &[Calendar], days: &[Day]) -> bool
    ensures { result ≡ are_in_calendars calendars.now days.now }
{
    days.iter().all(|day| is_given(calendars, day.year()))
}

/// How many of the days are of the year.
fn days_in(year: u32, days: &[Day]) -> usize
    ensures { result ≡ days_in year days.now }
{
    days.iter().filter(|day| day.year() == year).count()
}

/// Whether at most 60 of the days are of the year of the calendar.
fn has_few_days(days: &[Day], calendar: &Calendar) -> bool
    ensures { result ≡ has_few_days days.now calendar.now }
{
    days_in(calendar.year, days) <= MOST_HOLIDAYS
}

/// Whether at most 60 of the days are of the year of each calendar.
fn are_few(calendars: &[Calendar], days: &[Day]) -> bool
    ensures { result ≡ list_all (has_few_days days.now) calendars.now }
{
    calendars
        .iter()
        .all(|calendar| has_few_days(days, calendar))
}

/// Whether the day is one of these.
fn is_among(day: Day, days: &[Day]) -> bool
    ensures { result ≡ is_holiday days.now day }
{
    days.iter().any(|holiday| *holiday == day)
}

/// Whether no day stands twice among these.
fn are_once(days: &[Day]) -> bool
    ensures { IsTrue result ↔ AreDistinct day_itself days.now }
{
    let mut left = days;
    while let Some((first, rest)) = left.split_first() {
        if is_among(*first, rest) {
            return false;
        }
        left = rest;
    }
    true
}

// ---- changes

/// Whether the day that was changed is one of these.
fn is_changeable(days: &[Day], change: &DayChange) -> bool
    ensures { result ≡ is_changeable days.now change.now }
{
    is_among(change.day, days)
}

/// How many of the changes are of the day.
fn changes_on(day: Day, changes: &[DayChange]) -> usize
    ensures { result ≡ changes_on day changes.now }
{
    changes.iter().filter(|change| change.day == day).count()
}

/// Whether the day of the change has at most 999,999,999 of these changes.
fn has_few_changes(changes: &[DayChange], change: &DayChange) -> bool
    ensures { result ≡ has_few_changes changes.now change.now }
{
    changes_on(change.day, changes) <= MOST_NUMBER as usize
}

/// Whether each change is of one of the days.
fn are_changeable(days: &[Day], changes: &[DayChange]) -> bool
    ensures { result ≡ list_all (is_changeable days.now) changes.now }
{
    changes.iter().all(|change| is_changeable(days, change))
}

/// Whether no day has more changes than there are numbers for them, 999,999,999.
fn are_few_changes(changes: &[DayChange]) -> bool
    ensures { result ≡ list_all (has_few_changes changes.now) changes.now }
{
    changes
        .iter()
        .all(|change| has_few_changes(changes, change))
}

// ---- all

/// Whether each of these holds.
fn all_hold(parts: &[bool]) -> bool
    ensures { result ≡ list_all holds parts.now }
{
    parts.iter().all(|holds| *holds)
}

/// Whether these calendars, added holidays and changes of days are what requests may have entered.
/// `Err` says that memory ran out.
pub fn days_are_sound(
    alloc: Global,
    calendars: &[Calendar],
    added: &[Day],
    changes: &[DayChange],
) -> Result<bool, AllocError>
    ensures { IfOk result (λ is.
        IsTrue is ↔ AreDaysSound (with_days calendars.now added.now changes.now)) }
{
    let all = all_days(alloc, calendars, added)?;
    Ok(all_hold(&[
        all_fit(calendars),
        are_of_own_years(calendars),
        are_in_calendars(calendars, added),
        are_few(calendars, &all),
        are_once(&all),
        are_changeable(&all, changes),
        are_few_changes(changes),
    ]))
}

//! Calendars and added holidays, as their rows show them.

ghost use Rattle.std.specs.Prelude.{◌≡◌, ◌++◌, ◌↔◌, IfOk, IsTrue, MatchOption, map, flat_map};
ghost use Rattle.std.specs.List.{list_all};
ghost use Rattle.ftd_sound.specs.Days.{calendar_in};
ghost use Rattle.ftd_store.specs.Added.{year_holiday_row};
ghost use Rattle.ftd_entries.specs.Standing.{holiday_entries};
ghost use Rattle.ftd_check.specs.Private.DayRows.{calendar_shown, day_shown, days_shown};
ghost use Rattle.ftd_check.specs.Private.DayRows.{is_of_own_year, GoesBefore};

use ftd_days::Day;
use ftd_sound::Calendar;
use ftd_store::YearHoliday;
use std::alloc::{AllocError, Global};

/// The days that are stored for the year, in the order of their rows. `Err` says that memory ran
/// out.
fn days_shown(alloc: Global, year: u32, holidays: &[YearHoliday]) -> Result<Vec<Day>, AllocError>
    ensures { IfOk result (λ days. days.items ≡ days_shown year holidays.now) }
{
    let mut days = Vec::new(alloc);
    for holiday in holidays {
        if holiday.year == year {
            days.push(holiday.day)?;
        }
    }
    Ok(days)
}

/// The calendars of these years, each with the days that are stored for its year. `Err` says that
/// memory ran out.
pub(crate) fn calendars_shown(
    alloc: Global,
    years: &[u32],
    holidays: &[YearHoliday],
) -> Result<Vec<Calendar>, AllocError>
    ensures { IfOk result (λ calendars.
        map calendar_in calendars.items ≡ map (calendar_shown holidays.now) years.now) }
{
    let mut calendars = Vec::new(alloc);
    for year in years {
        let days = days_shown(alloc, *year, holidays)?;
        calendars.push(Calendar { year: *year, days })?;
    }
    Ok(calendars)
}

/// The holidays that come after the days of the calendar, where they begin with these. None where
/// they do not.
fn after_calendar<'rows>(
    holidays: &'rows [YearHoliday],
    calendar: &Calendar,
) -> Option<&'rows [YearHoliday]>
    ensures cases { MatchOption result (¬ GoesBefore calendar.now holidays.now) (λ rest.
        map year_holiday_row holidays.now
        ≡ holiday_entries (calendar_in calendar.now) ++ map year_holiday_row rest.now) }
{
    let mut left = holidays;
    let mut days = calendar.days.as_slice();
    while let Some((day, later)) = days.split_first() {
        let Some((first, rest)) = left.split_first() else {
            return None;
        };
        if first.day != *day || first.year != calendar.year {
            return None;
        }
        left = rest;
        days = later;
    }
    Some(left)
}

/// Whether the holidays are the days of the calendars, one calendar after the other.
pub(crate) fn are_days_of(calendars: &[Calendar], holidays: &[YearHoliday]) -> bool
    ensures { IsTrue result ↔ (map year_holiday_row holidays.now
        ≡ flat_map holiday_entries (map calendar_in calendars.now)) }
{
    let mut rows = holidays;
    let mut left = calendars;
    while let Some((calendar, later)) = left.split_first() {
        let Some(rest) = after_calendar(rows, calendar) else {
            return false;
        };
        rows = rest;
        left = later;
    }
    rows.is_empty()
}

/// Whether each holiday is stored for the year of its day.
pub(crate) fn are_of_own_years(holidays: &[YearHoliday]) -> bool
    ensures { result ≡ list_all is_of_own_year holidays.now }
{
    holidays
        .iter()
        .all(|holiday| holiday.day.year() == holiday.year)
}

/// The days of the holidays. `Err` says that memory ran out.
pub(crate) fn days_of(alloc: Global, holidays: &[YearHoliday]) -> Result<Vec<Day>, AllocError>
    ensures { IfOk result (λ days. days.items ≡ map day_shown holidays.now) }
{
    let mut days = Vec::new(alloc);
    for holiday in holidays {
        days.push(holiday.day)?;
    }
    Ok(days)
}

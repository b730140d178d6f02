//! The last day and the holidays that a function is asked for.

ghost use Rattle.std.specs.Prelude.{◌≡◌, ◌++◌, ◌≤◌, All, IfOk, IsErrOf};
ghost use Rattle.ftd_days.specs.Calendar.{last_day, year_of};
ghost use Rattle.ftd_days.specs.Holidays.{holidays_of};
ghost use Rattle.ftd_c.specs.Calls.{AreCalendars, IsAsked};

use crate::codes::{CallFault, day_of};
use ftd_days::{Day, Holidays, LAST_OPEN_YEAR};
use std::alloc::Global;

/// The days of these numbers.
fn days_of(alloc: Global, numbers: &[u32]) -> Result<Vec<Day>, CallFault>
    ensures days { IfOk result (λ days. days.items ≡ numbers.now) }
    ensures range { IsErrOf result CallFault.OutOfRange → ¬ All (λ n. n ≤ last_day) numbers.now }
{
    let mut days = Vec::new(alloc);
    for number in numbers {
        days.push(day_of(*number)?)?;
    }
    Ok(days)
}

/// The holidays of a year and of the next.
fn calendars(
    alloc: Global,
    year: u32,
    this_year: &[u32],
    next_year: &[u32],
) -> Result<Holidays, CallFault>
    requires { year ≤ LAST_OPEN_YEAR }
    ensures holidays { IfOk result (λ given. holidays_of given ≡ this_year.now ++ next_year.now) }
    ensures range { IsErrOf result CallFault.OutOfRange
        → ¬ AreCalendars year this_year.now next_year.now }
{
    let mut holidays = Holidays::new(alloc);
    holidays.add_year(year, &days_of(alloc, this_year)?)?;
    holidays.add_year(year + 1, &days_of(alloc, next_year)?)?;
    Ok(holidays)
}

/// The last day, and the holidays of its year and of the next.
pub fn day_and_holidays(
    alloc: Global,
    last: u32,
    this_year: &[u32],
    next_year: &[u32],
) -> Result<(Day, Holidays), CallFault>
    ensures day { IfOk result (λ it. (it.0 ≡ last)) }
    ensures to { IfOk result (λ it. year_of it.0 ≤ LAST_OPEN_YEAR) }
    ensures holidays { IfOk result (λ it. holidays_of it.1 ≡ this_year.now ++ next_year.now) }
    ensures range { IsErrOf result CallFault.OutOfRange
        → ¬ IsAsked last this_year.now next_year.now }
{
    let last = day_of(last)?;
    if last.year() > LAST_OPEN_YEAR {
        return Err(CallFault::OutOfRange);
    }
    let holidays = calendars(alloc, last.year(), this_year, next_year)?;
    Ok((last, holidays))
}

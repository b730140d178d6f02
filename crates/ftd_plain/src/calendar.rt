//! The holidays of a year and the next.

ghost use Rattle.std.specs.Prelude.{◌≡◌, ◌==◌, ◌≤◌, MatchResult};
ghost use Rattle.std.specs.List.{prefix_len};
ghost use Rattle.ftd_days.specs.Calendar.{year_of};
ghost use Rattle.ftd_days.specs.Holidays.{holidays_of};
ghost use Rattle.ftd_plain.specs.Plain.{IsCalendar};
ghost use Rattle.ftd_plain.specs.Taking.{CalendarFails};

use crate::fault::PlainFault;
use ftd_days::{Day, FIRST_YEAR, Holidays, LAST_OPEN_YEAR};
use std::alloc::Global;

/// How many of the days, from the first on, are of the year.
fn days_of(year: u32, days: &[Day]) -> usize
    ensures { result ≡ prefix_len (λ day. year_of day == year) days.now }
{
    days.iter().take_while(|day| day.year() == year).count()
}

/// The holidays as a calendar of the year and the next. `BadCalendar` where they don't rise, don't
/// all lie in these years, or are more than 60 for one.
pub fn calendar(alloc: Global, year: u32, holidays: &[Day]) -> Result<Holidays, PlainFault>
    requires from { FIRST_YEAR ≤ year }
    requires to { year ≤ LAST_OPEN_YEAR }
    ensures { MatchResult result
        (λ given. IsCalendar year holidays.now × (holidays_of given ≡ holidays.now))
        (λ fault. CalendarFails year holidays.now fault) }
{
    let (this_year, next_year) = holidays.split_at(days_of(year, holidays));
    let mut given = Holidays::new(alloc);
    given.add_year(year, this_year)?;
    given.add_year(year + 1, next_year)?;
    Ok(given)
}

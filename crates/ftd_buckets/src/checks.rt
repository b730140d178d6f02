//! Tests for what `Repair` asks of its callers.

ghost use Rattle.std.specs.Prelude.{◌≡◌, ◌<◌, ◌≤◌, ◌↔◌, IsTrue, All};
ghost use Rattle.ftd_days.specs.Calendar.{year_start};
ghost use Rattle.ftd_rules.specs.Liability.{SumsRise};
ghost use Rattle.ftd_rules.specs.Years.{YearsFrom, year_last};
ghost use Rattle.ftd_buckets.specs.Histories.{MayBegin, TurnsWithin};

use crate::Window;
use ftd_days::{Day, FIRST_YEAR, LAST_OPEN_YEAR, LAST_YEAR};
use ftd_rules::year::{first_day, last_day};
use ftd_rules::{DaySum, Kind, YearLine};

/// Whether a repair may begin with these lines for a change of the day: they are of years of 2001
/// to 2098 without a gap, the first that of the day, and each turn lies in its year and beside a
/// monthly opening.
pub fn may_begin(lines: &[YearLine], day: Day) -> bool
    ensures { IsTrue result ↔ MayBegin day lines.now }
{
    match lines {
        [] => false,
        [first, ..] => is_in(first.year, day) && follow(first.year, lines),
    }
}

/// Whether the day is one of the year, a year of 2001 to 2098.
fn is_in(year: u32, day: Day) -> bool
    ensures { IsTrue result
        ↔ ((FIRST_YEAR ≤ year) × (year ≤ LAST_OPEN_YEAR) × (year_start year ≤ day)
        × (day ≤ year_last year)) }
{
    if year < FIRST_YEAR || year > LAST_OPEN_YEAR {
        return false;
    }
    first_day(year) <= day && day <= last_day(year)
}

/// Whether the lines are of the years from `year` on without a gap, none after 2098, each with its
/// turn in its year and beside a monthly opening.
fn follow(year: u32, lines: &[YearLine]) -> bool
    requires { FIRST_YEAR ≤ year }
    ensures { IsTrue result ↔ (YearsFrom year lines.now × All TurnsWithin lines.now) }
{
    match lines {
        [] => year <= LAST_YEAR,
        [line, later @ ..] => is_line_of(year, line) && follow(year + 1, later),
    }
}

/// Whether the line is of the year, one up to 2098, with its turn in it and beside a monthly
/// opening.
fn is_line_of(year: u32, line: &YearLine) -> bool
    requires { FIRST_YEAR ≤ year }
    ensures { IsTrue result
        ↔ ((line.now.year ≡ year) × (year ≤ LAST_OPEN_YEAR) × TurnsWithin line.now) }
{
    line.year == year && year <= LAST_OPEN_YEAR && turns_within(line)
}

/// Whether the line's turn, if it has one, lies in its year and beside a monthly opening.
fn turns_within(line: &YearLine) -> bool
    requires from { FIRST_YEAR ≤ line.now.year }
    requires to { line.now.year ≤ LAST_OPEN_YEAR }
    ensures { IsTrue result ↔ TurnsWithin line.now }
{
    let Some(turn) = line.turn else {
        return true;
    };
    match line.opening {
        Kind::Semiweekly => false,
        Kind::Monthly => is_in(line.year, turn),
    }
}

impl Window {
    /// Whether the days of the sums rise, each a day of the window. What a repair is fed has to.
    pub fn has_rising(&self, sums: &[DaySum]) -> bool
        ensures { IsTrue result ↔ SumsRise self.now.from self.now.to sums.now }
    {
        rise(self.from, self.to, sums)
    }
}

/// Whether the days of the sums rise, from `first` to `last`.
fn rise(first: Day, last: Day, sums: &[DaySum]) -> bool
    ensures { IsTrue result ↔ SumsRise first last sums.now }
{
    match sums {
        [] => true,
        [sum] => first <= sum.day && sum.day <= last,
        [sum, later @ ..] => {
            let day = sum.day;
            first <= day && day < last && rise(day.tomorrow(), last, later)
        }
    }
}

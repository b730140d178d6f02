//! The limits of what a request may say.

ghost use Rattle.std.specs.Prelude.{◌≡◌, ◌<◌, ◌+◌, ◌==◌, ◌↔◌, IsTrue, nat_lt};
ghost use Rattle.std.specs.List.{list_all, sum_by};
ghost use Rattle.ftd_days.specs.Calendar.{quarter_start, year_of};
ghost use Rattle.ftd_rules.specs.Liability.{cents_of};
ghost use Rattle.ftd_rules.specs.Verdicts.{amount_of};
ghost use Rattle.ftd_machine.specs.Limits.{are_amounts, is_amount};
ghost use Rattle.ftd_machine.specs.Limits.{is_number, are_rising, is_calendar};
ghost use Rattle.ftd_machine.specs.Limits.{can_be_opened, can_be_reported, can_have_calendar};

use ftd_days::{Cents, Day, FIRST_YEAR, LAST_OPEN_YEAR, LAST_YEAR, MOST_HOLIDAYS, Quarter};
use ftd_rules::{AMOUNTS_END, DaySum, DueRow, MOST_CENTS, PayRun};

/// The most runs of an account, and the most payments, voided ones too.
pub const MOST_ENTRIES: u32 = 20_000;

/// The greatest number of a run, of a payment, or of a correction.
pub const MOST_NUMBER: u32 = 999_999_999;

/// The first year whose total may be reported: a lookback period begins up to two years before the
/// year that it is for.
pub const FIRST_REPORTED_YEAR: u32 = 1999;

/// Whether the year may be opened.
pub(crate) fn can_be_opened(year: u32) -> bool
    ensures { result ≡ can_be_opened year }
{
    FIRST_YEAR <= year && year <= LAST_OPEN_YEAR
}

/// Whether the year's holidays may be given.
pub(crate) fn can_have_calendar(year: u32) -> bool
    ensures { result ≡ can_have_calendar year }
{
    FIRST_YEAR <= year && year <= LAST_YEAR
}

/// Whether the year's total may be reported.
pub(crate) fn can_be_reported(year: u32) -> bool
    ensures { result ≡ can_be_reported year }
{
    FIRST_REPORTED_YEAR <= year && year <= LAST_OPEN_YEAR
}

/// Whether a request may name the amount.
pub(crate) fn is_amount(cents: Cents) -> bool
    ensures { result ≡ is_amount cents }
{
    cents.0 <= MOST_CENTS
}

/// Whether the three amounts of the run are such that a request may name them.
pub(crate) fn are_amounts(run: &PayRun) -> bool
    ensures { result ≡ are_amounts run.now }
{
    is_amount(run.fit) && is_amount(run.ss) && is_amount(run.medicare)
}

/// Whether it is the number of a run or of a payment.
pub(crate) fn is_number(number: u32) -> bool
    ensures { result ≡ is_number number }
{
    1 <= number && number <= MOST_NUMBER
}

/// Whether each day is before the next.
pub fn are_rising(days: &[Day]) -> bool
    ensures { result ≡ are_rising days.now }
{
    days.iter()
        .zip(days.iter().skip(1))
        .all(|(day, next)| day < next)
}

/// Whether each day lies in the year.
fn are_in_year(year: u32, days: &[Day]) -> bool
    ensures { result ≡ list_all (λ day. year_of day == year) days.now }
{
    days.iter().all(|day| day.year() == year)
}

/// Whether the days are a calendar of the year: at most 60 of its days, rising.
pub(crate) fn is_calendar(year: u32, days: &[Day]) -> bool
    ensures { result ≡ is_calendar year days.now }
{
    days.len() <= MOST_HOLIDAYS && are_in_year(year, days) && are_rising(days)
}

/// Whether the day comes before the quarter ends, or on its last day.
pub(crate) fn is_before_end(day: Day, quarter: Quarter) -> bool
    ensures { result ≡ nat_lt day (quarter_start (quarter + 1)) }
{
    day <= quarter.last()
}

/// Whether the amounts of the rows are together below the end.
pub(crate) fn are_rows_bounded(rows: &[DueRow]) -> bool
    ensures { IsTrue result ↔ (sum_by amount_of rows.now < AMOUNTS_END) }
{
    let mut total = 0;
    for row in rows {
        if row.obligation.cents.0 >= AMOUNTS_END - total {
            return false;
        }
        total += row.obligation.cents.0;
    }
    true
}

/// Whether the amounts of the days are together below 6,000,000,000,000,000 cents.
pub fn are_sums_bounded(sums: &[DaySum]) -> bool
    ensures { IsTrue result ↔ (sum_by cents_of sums.now < AMOUNTS_END) }
{
    let mut total = 0;
    for sum in sums {
        if sum.cents.0 >= AMOUNTS_END - total {
            return false;
        }
        total += sum.cents.0;
    }
    true
}

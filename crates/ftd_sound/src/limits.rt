//! The limits of what is kept.

ghost use Rattle.std.specs.Prelude.{◌≡◌};
ghost use Rattle.ftd_machine.specs.Limits.{are_amounts, is_amount, is_number};
ghost use Rattle.ftd_machine.specs.Limits.{can_be_opened, can_be_reported, can_have_calendar};

use ftd_days::{Cents, FIRST_YEAR, LAST_OPEN_YEAR, LAST_YEAR};
use ftd_machine::{FIRST_REPORTED_YEAR, MOST_NUMBER};
use ftd_rules::{MOST_CENTS, PayRun};

/// Whether the year may be open.
pub(crate) fn can_be_opened(year: u32) -> bool
    ensures { result ≡ can_be_opened year }
{
    FIRST_YEAR <= year && year <= LAST_OPEN_YEAR
}

/// Whether the year's holidays may be given.
pub(crate) fn can_have_calendar(year: u32) -> bool
    ensures { result ≡ can_have_calendar year }
{
    FIRST_YEAR <= year && year <= LAST_YEAR
}

/// Whether the year's total may be reported.
pub(crate) fn can_be_reported(year: u32) -> bool
    ensures { result ≡ can_be_reported year }
{
    FIRST_REPORTED_YEAR <= year && year <= LAST_OPEN_YEAR
}

/// Whether it is at most the largest amount, 999,999,999.99.
pub(crate) fn is_amount(cents: Cents) -> bool
    ensures { result ≡ is_amount cents }
{
    cents.0 <= MOST_CENTS
}

/// Whether each of the three amounts of the run is.
pub(crate) fn are_amounts(run: &PayRun) -> bool
    ensures { result ≡ are_amounts run.now }
{
    is_amount(run.fit) && is_amount(run.ss) && is_amount(run.medicare)
}

/// Whether it is the number of a run or of a payment.
pub(crate) fn is_number(number: u32) -> bool
    ensures { result ≡ is_number number }
{
    1 <= number && number <= MOST_NUMBER
}

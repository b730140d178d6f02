//! The checks of corrections, in the order in which they decide. Each function passes, with what it
//! found where something rests on that, or fails with what the first check that answers says. None
//! takes memory.

ghost use Rattle.std.specs.Prelude.{◌≡◌, ◌≤◌, ◌∷◌, [], Some, option_copied};
ghost use Rattle.ftd_machine.specs.Checks.{PassesWith, Passes};
ghost use Rattle.ftd_machine.specs.Requests.{change_holiday_checks, correct_account_checks};
ghost use Rattle.ftd_machine.specs.Requests.{correct_total_checks, is_next, missing_for};
ghost use Rattle.ftd_machine.specs.Requests.{same_beginning};

use crate::checks::{Answer, is_form, known_as, needs};
use crate::entries::{Account, Beginning, ReturnPeriod};
use crate::limits::{can_be_reported, can_have_calendar, is_amount, is_number};
use crate::replies::Refusal;
use ftd_days::{Cents, Day, LAST_OPEN_YEAR};
use ftd_rules::is_account_name;

/// The number is the next one of the corrections, of which there are so many.
fn is_next(number: u32, count: u32) -> Result<(), Answer>
    requires positive { 1 ≤ number }
    ensures { Passes (is_next number count ∷ []) result }
{
    needs(number - 1 == count, Refusal::NumberSkipped(count))
}

/// The refusal of a total that is not reported.
fn missing_for(period: &ReturnPeriod) -> Refusal
    ensures { result ≡ missing_for period.now }
{
    match period {
        ReturnPeriod::Quarter(quarter) => Refusal::QuarterMissing(*quarter),
        ReturnPeriod::Year(year) => Refusal::YearMissing(*year),
    }
}

/// The checks of a total that is corrected, where this is known of the account, of the period and
/// of the number, and how many corrections the total has. They find the account.
pub fn correct_total_check(
    name: &str,
    period: &ReturnPeriod,
    number: u32,
    cents: Cents,
    account: Option<Account>,
    reported: Option<Cents>,
    known: Option<Cents>,
    count: u32,
) -> Result<Account, Answer>
    ensures { PassesWith
        (correct_total_checks name.now period.now number cents account reported known count)
        (λ found. account ≡ Some found) result }
{
    needs(is_account_name(name.as_bytes()), Refusal::BadName)?;
    needs(can_be_reported(period.year()), Refusal::BadYear)?;
    needs(is_amount(cents), Refusal::BadCents)?;
    needs(is_number(number), Refusal::BadNumber)?;
    let account = account.ok_or(Err(Refusal::UnknownAccount))?;
    needs(is_form(account.form, period.form()), Refusal::WrongForm)?;
    needs(reported.is_some(), missing_for(period))?;
    if let Some(known) = known {
        return Err(known_as(known.0 == cents.0, Refusal::CorrectionDiffers));
    }
    is_next(number, count)?;
    Ok(account)
}

/// The checks of a day that is taken back as a holiday, or made one again, where this is known of
/// its year, of the days added to it, and of the number, and how many changes the day has.
pub fn change_holiday_check(
    day: Day,
    number: u32,
    is_one: bool,
    calendar: Option<&[Day]>,
    added: &[Day],
    known: Option<bool>,
    count: u32,
) -> Result<(), Answer>
    ensures { Passes (change_holiday_checks day number is_one
        (option_copied calendar.entry) added.now known count) result }
{
    needs(can_have_calendar(day.year()), Refusal::BadDay)?;
    needs(is_number(number), Refusal::BadNumber)?;
    let Some(calendar) = calendar else {
        return Err(Err(Refusal::CalendarMissing(day.year())));
    };
    needs(
        calendar.contains(&day) || added.contains(&day),
        Refusal::NoHoliday,
    )?;
    if let Some(known) = known {
        return Err(known_as(known == is_one, Refusal::CorrectionDiffers));
    }
    is_next(number, count)
}

/// Whether the correction that is known begins the account so.
fn is_same_beginning(known: &Beginning, beginning: &Beginning) -> bool
    ensures { result ≡ same_beginning beginning.now known.now }
{
    known.start == beginning.start && known.carried == beginning.carried
}

/// The checks of an account that is put right, where this is known of it and of the number, whether
/// nothing rests on it, and how many corrections it has.
pub fn correct_account_check(
    name: &str,
    number: u32,
    beginning: &Beginning,
    account: Option<Account>,
    known: Option<Beginning>,
    is_unused: bool,
    count: u32,
) -> Result<(), Answer>
    ensures { Passes (correct_account_checks name.now number beginning.now account known is_unused
        count) result }
{
    needs(is_account_name(name.as_bytes()), Refusal::BadName)?;
    needs(beginning.start.year() <= LAST_OPEN_YEAR, Refusal::BadDay)?;
    needs(is_number(number), Refusal::BadNumber)?;
    needs(account.is_some(), Refusal::UnknownAccount)?;
    if let Some(known) = known {
        let same = is_same_beginning(&known, beginning);
        return Err(known_as(same, Refusal::CorrectionDiffers));
    }
    needs(is_unused, Refusal::AccountInUse)?;
    is_next(number, count)
}

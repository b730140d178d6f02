//! Totals of quarters and of years, and their corrections.

ghost use Rattle.std.specs.Prelude.{◌≡◌, ◌↔◌, IsTrue, IfOk, Some, length, map};
ghost use Rattle.ftd_rules.specs.Lists.{Has};
ghost use Rattle.ftd_machine.specs.Requests.{is_form, starts_in_time};
ghost use Rattle.ftd_machine.specs.Sound.{IsReportable};
ghost use Rattle.ftd_sound.specs.Private.Plain.{AreTotals, AreOfPeriods, AreOfReported, AreCounted};
ghost use Rattle.ftd_sound.specs.Private.Plain.{AreAllAmounts, amounts_under, key_in};

use crate::figures::numbered;
use crate::limits::{can_be_reported, is_amount};
use crate::once::stand_once;
use ftd_days::{Cents, Quarter};
use ftd_machine::{Account, MOST_NUMBER, ReturnPeriod};
use ftd_rules::Form;
use std::alloc::{AllocError, Global};

/// Whether the totals of quarters that were reported, and their corrections, are sound. `Err` says
/// that memory ran out.
pub(crate) fn are_quarter_totals(
    alloc: Global,
    account: Account,
    reported: &[(Quarter, Cents)],
    corrected: &[(Quarter, Cents)],
) -> Result<bool, AllocError>
    ensures { IfOk result (λ sound. IsTrue sound
        ↔ (AreOfPeriods account ReturnPeriod.Quarter reported.now
        × AreTotals reported.now corrected.now)) }
{
    if !are_of_quarters(account, reported) {
        return Ok(false);
    }
    let reported = numbered(alloc, reported)?;
    let corrected = numbered(alloc, corrected)?;
    are_totals(alloc, &reported, &corrected)
}

/// The same of totals of years.
pub(crate) fn are_year_totals(
    alloc: Global,
    account: Account,
    reported: &[(u32, Cents)],
    corrected: &[(u32, Cents)],
) -> Result<bool, AllocError>
    ensures { IfOk result (λ sound. IsTrue sound
        ↔ (AreOfPeriods account ReturnPeriod.Year reported.now
        × AreTotals reported.now corrected.now)) }
{
    if !are_of_years(account, reported) {
        return Ok(false);
    }
    are_totals(alloc, reported, corrected)
}

/// Whether totals of these quarters may be kept of the account.
fn are_of_quarters(account: Account, totals: &[(Quarter, Cents)]) -> bool
    ensures { IsTrue result ↔ AreOfPeriods account ReturnPeriod.Quarter totals.now }
{
    totals.iter().all(|total| is_reportable(account, ReturnPeriod::Quarter(total.0)))
}

/// Whether totals of these years may be kept of the account.
fn are_of_years(account: Account, totals: &[(u32, Cents)]) -> bool
    ensures { IsTrue result ↔ AreOfPeriods account ReturnPeriod.Year totals.now }
{
    totals.iter().all(|total| is_reportable(account, ReturnPeriod::Year(total.0)))
}

/// Whether a total of the period may be kept of the account.
fn is_reportable(account: Account, period: ReturnPeriod) -> bool
    ensures { IsTrue result ↔ IsReportable (Some account) period }
{
    is_form(account.form, period.form())
        && can_be_reported(period.year())
        && starts_in_time(account, period)
}

/// Whether it is the same form.
fn is_form(form: Form, other: Form) -> bool
    ensures { result ≡ is_form form other }
{
    match form {
        Form::F941 => matches!(other, Form::F941),
        Form::F943 => matches!(other, Form::F943),
    }
}

/// Whether the employer starts before the period ends.
fn starts_in_time(account: Account, period: ReturnPeriod) -> bool
    ensures { result ≡ starts_in_time period account }
{
    match period {
        ReturnPeriod::Quarter(quarter) => account.start <= quarter.last(),
        ReturnPeriod::Year(year) => account.start.year() <= year,
    }
}

/// Whether the totals that were reported, and their corrections, are sound but for their periods,
/// where the keys are the numbers of quarters or years. `Err` says that memory ran out.
fn are_totals(
    alloc: Global,
    reported: &[(u32, Cents)],
    corrected: &[(u32, Cents)],
) -> Result<bool, AllocError>
    ensures { IfOk result (λ sound. IsTrue sound ↔ AreTotals reported.now corrected.now) }
{
    Ok(
        stand_once(alloc, reported)?
            && are_all_amounts(reported)
            && are_all_amounts(corrected)
            && are_of_reported(reported, corrected)
            && are_counted(reported, corrected),
    )
}

/// Whether each amount is at most 999,999,999.99.
fn are_all_amounts(totals: &[(u32, Cents)]) -> bool
    ensures { IsTrue result ↔ AreAllAmounts totals.now }
{
    totals.iter().all(|total| is_amount(total.1))
}

/// Whether each correction is one of a total that was reported.
fn are_of_reported(reported: &[(u32, Cents)], corrected: &[(u32, Cents)]) -> bool
    ensures { IsTrue result ↔ AreOfReported reported.now corrected.now }
{
    corrected.iter().all(|total| has_key(reported, total.0))
}

/// Whether there is a total under the key.
fn has_key(totals: &[(u32, Cents)], key: u32) -> bool
    ensures { IsTrue result ↔ Has (map key_in totals.now) key }
{
    totals.iter().any(|total| total.0 == key)
}

/// Whether each total was corrected at most 999,999,999 times.
fn are_counted(reported: &[(u32, Cents)], corrected: &[(u32, Cents)]) -> bool
    ensures { IsTrue result ↔ AreCounted reported.now corrected.now }
{
    reported.iter().all(|total| corrections_of(total.0, corrected) <= MOST_NUMBER as usize)
}

/// How many corrections there are of the total under the key.
fn corrections_of(key: u32, corrected: &[(u32, Cents)]) -> usize
    ensures { result ≡ length (amounts_under key corrected.now) }
{
    corrected.iter().filter(|total| total.0 == key).count()
}

//! What is kept of one account.

ghost use Rattle.std.specs.Prelude.{◌≡◌, ◌↔◌, ℕ, List, IsTrue, IfOk, IfNone, IfSome};
ghost use Rattle.ftd_days.specs.Holidays.{holidays_of};
ghost use Rattle.ftd_rules.specs.Obligations.{AreObligations};
ghost use Rattle.ftd_machine.specs.History.{AreLinesOf, form_of, live_sums};
ghost use Rattle.ftd_sound.specs.Own.{IsOwnSound};
ghost use Rattle.ftd_sound.specs.Entered.{entries_in};
ghost use Rattle.ftd_sound.specs.Private.Plain.{AreStarts, IsSoundButTotals, account_now};
ghost use Rattle.ftd_sound.specs.Private.Lines.{figures_in};

use crate::figures::{Figures, numbered, quarter_figures, year_figures};
use crate::lines::lines_of;
use crate::payments::are_payments;
use crate::runs::{are_runs, live_sums};
use crate::starts::{in_force, starts_in_range};
use crate::totals::{are_quarter_totals, are_year_totals};
use crate::years::are_years;
use ftd_days::{Cents, Holidays, Quarter};
use ftd_machine::{Account, Beginning, MOST_NUMBER};
use ftd_rules::{Assessment, PayRun, Payment, Voidable, assess};
use std::alloc::{AllocError, Global};

/// What is kept of one account. Each list has its entries in the order in which they were entered.
#[derive(Drop)]
pub struct Own {
    /// The account as it was enrolled.
    pub account: Account,
    /// How the account begins, each time that this was put right.
    pub moves: Vec<Beginning>,
    /// The totals of quarters as they were first reported, in cents.
    pub reported: Vec<(Quarter, Cents)>,
    /// The corrections of totals of quarters, in cents.
    pub corrected: Vec<(Quarter, Cents)>,
    /// The totals of years as they were first reported, in cents.
    pub reported_years: Vec<(u32, Cents)>,
    /// The corrections of totals of years, in cents.
    pub corrected_years: Vec<(u32, Cents)>,
    /// The open years.
    pub open_years: Vec<u32>,
    /// The runs, voided ones too, each under its number.
    pub runs: Vec<(u32, Voidable<PayRun>)>,
    /// The payments, voided ones too, each under its number.
    pub payments: Vec<(u32, Voidable<Payment>)>,
}

/// The open years and the obligations of an account, where what is kept of it is what requests may
/// have entered: `None` says that it is not. `given` has the years whose calendars are given, and
/// `holidays` the legal holidays in force. `Err` says that memory ran out.
pub fn assess_own(
    alloc: Global,
    given: &[u32],
    own: &Own,
    holidays: &Holidays,
) -> Result<Option<Assessment>, AllocError>
    ensures unsound { IfOk result (λ found. IfNone found
        ((name : List ℕ) → IsOwnSound given.now (entries_in name own.now) → ⊥)) }
    ensures sound { IfOk result (λ found. IfSome found
        (λ _. (name : List ℕ) → IsOwnSound given.now (entries_in name own.now))) }
    ensures years { IfOk result (λ found. IfSome found
        (λ a. (name : List ℕ) → AreLinesOf (entries_in name own.now) a.years)) }
    ensures rows { IfOk result (λ found. IfSome found
        (λ a. (name : List ℕ) → AreObligations (form_of (entries_in name own.now).account) a.years
        (live_sums (entries_in name own.now)) (holidays_of holidays.now) a.rows)) }
{
    let account = in_force(&own.moves, own.account);
    if !is_sound_but_totals(alloc, given, own, account)? {
        return Ok(None);
    }
    let figures = figures_of(alloc, own)?;
    let Some(lines) = lines_of(alloc, &account, &figures, &own.open_years)? else {
        return Ok(None);
    };
    let sums = live_sums(alloc, &own.runs)?;
    Ok(Some(assess(account.form, alloc, &lines, &sums, holidays)?))
}

/// Whether all that is kept of the account, which is so in force, is sound, but for the lookback
/// totals of its open years.
fn is_sound_but_totals(
    alloc: Global,
    given: &[u32],
    own: &Own,
    account: Account,
) -> Result<bool, AllocError>
    requires { account ≡ account_now own.now }
    ensures { IfOk result (λ sound. IsTrue sound ↔ IsSoundButTotals given.now own.now) }
{
    if !are_starts(own) {
        return Ok(false);
    }
    if !are_quarter_totals(alloc, account, &own.reported, &own.corrected)? {
        return Ok(false);
    }
    if !are_year_totals(alloc, account, &own.reported_years, &own.corrected_years)? {
        return Ok(false);
    }
    if !are_years(given, account, &own.open_years) {
        return Ok(false);
    }
    if !are_runs(alloc, account, &own.open_years, &own.runs)? {
        return Ok(false);
    }
    are_payments(alloc, account, &own.open_years, &own.payments)
}

/// Whether no first day is after 2098, and there are not too many.
fn are_starts(own: &Own) -> bool
    ensures { IsTrue result ↔ AreStarts own.now }
{
    own.moves.len() <= MOST_NUMBER as usize
        && starts_in_range(own.account.start)
        && own
            .moves
            .iter()
            .all(|beginning| starts_in_range(beginning.start))
}

/// The totals in force.
fn figures_of(alloc: Global, own: &Own) -> Result<Figures, AllocError>
    ensures quarters { IfOk result (λ figures.
        figures.quarters.items ≡ figures_in own.now.reported.items own.now.corrected.items) }
    ensures years { IfOk result (λ figures. figures.years.items
        ≡ figures_in own.now.reported_years.items own.now.corrected_years.items) }
{
    let corrected = numbered(alloc, &own.corrected)?;
    Ok(Figures {
        quarters: quarter_figures(alloc, &own.reported, &corrected)?,
        years: year_figures(alloc, &own.reported_years, &own.corrected_years)?,
    })
}

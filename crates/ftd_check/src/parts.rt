//! The parts of what is kept of an account, by the values of their rows.

ghost use Rattle.std.specs.Prelude.{IfOk};
ghost use Rattle.ftd_check.specs.Private.Parts.{ArePosted, AreBegun, AreQuarters, AreYears};

use crate::values::{
    corrected_quarters, corrected_years, moves, numbered_payments, numbered_runs,
    reported_quarters, reported_years,
};
use ftd_days::{Cents, Quarter};
use ftd_machine::{Account, Beginning};
use ftd_rules::{Form, PayRun, Payment, Voidable};
use ftd_store::{
    AccountCorrection, NumberedPayment, NumberedRun, QuarterCorrection, QuarterTotal,
    YearCorrection, YearTotal,
};
use std::alloc::{AllocError, Global};

/// An account, and how it begins each time that this was put right.
#[derive(Drop)]
pub(crate) struct Begun {
    /// The account as it was enrolled.
    pub(crate) account: Account,
    /// How it begins by its corrections.
    pub(crate) moves: Vec<Beginning>,
}

/// The totals of quarters.
#[derive(Drop)]
pub(crate) struct Quarters {
    /// As they were first reported.
    pub(crate) reported: Vec<(Quarter, Cents)>,
    /// Their corrections.
    pub(crate) corrected: Vec<(Quarter, Cents)>,
}

/// The totals of years.
#[derive(Drop)]
pub(crate) struct Years {
    /// As they were first reported.
    pub(crate) reported: Vec<(u32, Cents)>,
    /// Their corrections.
    pub(crate) corrected: Vec<(u32, Cents)>,
}

/// The runs and the payments, voided ones too, each under its number.
#[derive(Drop)]
pub(crate) struct Posted {
    /// The runs.
    pub(crate) runs: Vec<(u32, Voidable<PayRun>)>,
    /// The payments.
    pub(crate) payments: Vec<(u32, Voidable<Payment>)>,
}

/// The account by its row and its form, and how it begins by its corrections. None where it does
/// not have one form, and where the numbers of the corrections do not count from 1. An error where
/// there is no memory.
pub(crate) fn account_begun(
    alloc: Global,
    account: ftd_store::Account,
    forms: &[Form],
    corrections: &[AccountCorrection],
) -> Result<Option<Begun>, AllocError>
    ensures { IfOk result (λ found. AreBegun account forms.now corrections.now found) }
{
    if forms.len() != 1 {
        return Ok(None);
    }
    let Some(moves) = moves(alloc, corrections)? else {
        return Ok(None);
    };
    let account = Account {
        start: account.start,
        carried: account.carried,
        form: forms[0],
    };
    Ok(Some(Begun { account, moves }))
}

/// The totals of quarters. None where the numbers of the corrections of one do not count from 1. An
/// error where there is no memory.
pub(crate) fn quarter_totals(
    alloc: Global,
    reported: &[QuarterTotal],
    corrected: &[QuarterCorrection],
) -> Result<Option<Quarters>, AllocError>
    ensures { IfOk result (λ found. AreQuarters reported.now corrected.now found) }
{
    let Some(corrected) = corrected_quarters(alloc, corrected)? else {
        return Ok(None);
    };
    let reported = reported_quarters(alloc, reported)?;
    Ok(Some(Quarters {
        reported,
        corrected,
    }))
}

/// The totals of years. None where the numbers of the corrections of one do not count from 1. An
/// error where there is no memory.
pub(crate) fn year_totals(
    alloc: Global,
    reported: &[YearTotal],
    corrected: &[YearCorrection],
) -> Result<Option<Years>, AllocError>
    ensures { IfOk result (λ found. AreYears reported.now corrected.now found) }
{
    let Some(corrected) = corrected_years(alloc, corrected)? else {
        return Ok(None);
    };
    let reported = reported_years(alloc, reported)?;
    Ok(Some(Years {
        reported,
        corrected,
    }))
}

/// The runs and the payments. An error where there is no memory.
pub(crate) fn numbers_posted(
    alloc: Global,
    runs: &[NumberedRun],
    payments: &[NumberedPayment],
) -> Result<Posted, AllocError>
    ensures { IfOk result (λ posted. ArePosted runs.now payments.now posted) }
{
    let runs = numbered_runs(alloc, runs)?;
    let payments = numbered_payments(alloc, payments)?;
    Ok(Posted { runs, payments })
}

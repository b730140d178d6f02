//! What is kept of an account, by the values of its rows.

ghost use Rattle.std.specs.Prelude.{◌≡◌, map, IfOk};
ghost use Rattle.std.specs.List.Sorted.{IsPermutation, IsNonDecreasing};
ghost use Rattle.ftd_check.specs.Private.Values.{account_key, quarter_key, year_key};
ghost use Rattle.ftd_check.specs.Private.Values.{beginning_corrected, quarter_total_pair};
ghost use Rattle.ftd_check.specs.Private.Values.{year_total_pair, quarter_pair, year_pair};
ghost use Rattle.ftd_check.specs.Private.Values.{run_pair, payment_pair, AreUnder};
ghost use Rattle.ftd_check.specs.OwnRows.{year_of_stored};

use crate::numbers::are_numbered;
use ftd_days::{Cents, Quarter};
use ftd_machine::Beginning;
use ftd_rules::{PayRun, Payment, Voidable};
use ftd_store::{
    AccountCorrection, NumberedPayment, NumberedRun, QuarterCorrection, QuarterTotal, StoredYear,
    YearCorrection, YearTotal,
};
use std::alloc::{AllocError, Global};

/// The numbers of the corrections, all under one key. An error where there is no memory.
fn account_keys(alloc: Global, rows: &[AccountCorrection]) -> Result<Vec<(u32, u32)>, AllocError>
    ensures { IfOk result (λ keys. keys.items ≡ map account_key rows.now) }
{
    rows.iter().map(|row| (0, row.number)).collect(alloc)
}

/// How the account begins by each correction. An error where there is no memory.
fn beginnings(alloc: Global, rows: &[AccountCorrection]) -> Result<Vec<Beginning>, AllocError>
    ensures { IfOk result (λ moves. moves.items ≡ map beginning_corrected rows.now) }
{
    rows.iter()
        .map(|row| Beginning {
            start: row.account.start,
            carried: row.account.carried,
        })
        .collect(alloc)
}

/// How the account begins by its corrections, each time that it was put right. None where their
/// numbers do not count from 1. An error where there is no memory.
pub(crate) fn moves(
    alloc: Global,
    rows: &[AccountCorrection],
) -> Result<Option<Vec<Beginning>>, AllocError>
    ensures { IfOk result (λ found. AreUnder account_key beginning_corrected rows.now found) }
{
    let keys = account_keys(alloc, rows)?;
    if !are_numbered(alloc, &keys)? {
        return Ok(None);
    }
    Ok(Some(beginnings(alloc, rows)?))
}

/// The quarter of each correction, and its number. An error where there is no memory.
fn quarter_keys(alloc: Global, rows: &[QuarterCorrection]) -> Result<Vec<(u32, u32)>, AllocError>
    ensures { IfOk result (λ keys. keys.items ≡ map quarter_key rows.now) }
{
    rows.iter()
        .map(|row| (row.quarter.quarters(), row.correction.number))
        .collect(alloc)
}

/// The quarter of each correction, and its total. An error where there is no memory.
fn quarter_pairs(
    alloc: Global,
    rows: &[QuarterCorrection],
) -> Result<Vec<(Quarter, Cents)>, AllocError>
    ensures { IfOk result (λ pairs. pairs.items ≡ map quarter_pair rows.now) }
{
    rows.iter()
        .map(|row| (row.quarter, row.correction.cents))
        .collect(alloc)
}

/// The corrections of totals of quarters. None where the numbers of those of a quarter do not count
/// from 1. An error where there is no memory.
pub(crate) fn corrected_quarters(
    alloc: Global,
    rows: &[QuarterCorrection],
) -> Result<Option<Vec<(Quarter, Cents)>>, AllocError>
    ensures { IfOk result (λ found. AreUnder quarter_key quarter_pair rows.now found) }
{
    let keys = quarter_keys(alloc, rows)?;
    if !are_numbered(alloc, &keys)? {
        return Ok(None);
    }
    Ok(Some(quarter_pairs(alloc, rows)?))
}

/// The year of each correction, and its number. An error where there is no memory.
fn year_keys(alloc: Global, rows: &[YearCorrection]) -> Result<Vec<(u32, u32)>, AllocError>
    ensures { IfOk result (λ keys. keys.items ≡ map year_key rows.now) }
{
    rows.iter()
        .map(|row| (row.year, row.correction.number))
        .collect(alloc)
}

/// The year of each correction, and its total. An error where there is no memory.
fn year_pairs(alloc: Global, rows: &[YearCorrection]) -> Result<Vec<(u32, Cents)>, AllocError>
    ensures { IfOk result (λ pairs. pairs.items ≡ map year_pair rows.now) }
{
    rows.iter()
        .map(|row| (row.year, row.correction.cents))
        .collect(alloc)
}

/// The corrections of totals of years. None where the numbers of those of a year do not count from
/// 1. An error where there is no memory.
pub(crate) fn corrected_years(
    alloc: Global,
    rows: &[YearCorrection],
) -> Result<Option<Vec<(u32, Cents)>>, AllocError>
    ensures { IfOk result (λ found. AreUnder year_key year_pair rows.now found) }
{
    let keys = year_keys(alloc, rows)?;
    if !are_numbered(alloc, &keys)? {
        return Ok(None);
    }
    Ok(Some(year_pairs(alloc, rows)?))
}

/// The totals of quarters as they were first reported. An error where there is no memory.
pub(crate) fn reported_quarters(
    alloc: Global,
    rows: &[QuarterTotal],
) -> Result<Vec<(Quarter, Cents)>, AllocError>
    ensures { IfOk result (λ pairs. pairs.items ≡ map quarter_total_pair rows.now) }
{
    rows.iter()
        .map(|row| (row.quarter, row.cents))
        .collect(alloc)
}

/// The totals of years as they were first reported. An error where there is no memory.
pub(crate) fn reported_years(
    alloc: Global,
    rows: &[YearTotal],
) -> Result<Vec<(u32, Cents)>, AllocError>
    ensures { IfOk result (λ pairs. pairs.items ≡ map year_total_pair rows.now) }
{
    rows.iter().map(|row| (row.year, row.cents)).collect(alloc)
}

/// The open years, in their order. An error where there is no memory.
pub(crate) fn years_of(alloc: Global, rows: &[StoredYear]) -> Result<Vec<u32>, AllocError>
    ensures years { IfOk result (λ years.
        IsPermutation (map year_of_stored rows.now) years.items) }
    ensures in_order { IfOk result (λ years. IsNonDecreasing years.items) }
{
    let mut years = years_read(alloc, rows)?;
    years.sort_unstable();
    Ok(years)
}

/// The open years, in the order of their rows. An error where there is no memory.
fn years_read(alloc: Global, rows: &[StoredYear]) -> Result<Vec<u32>, AllocError>
    ensures { IfOk result (λ years. years.items ≡ map year_of_stored rows.now) }
{
    rows.iter().map(|row| row.year).collect(alloc)
}

/// The runs, each under its number. An error where there is no memory.
pub(crate) fn numbered_runs(
    alloc: Global,
    rows: &[NumberedRun],
) -> Result<Vec<(u32, Voidable<PayRun>)>, AllocError>
    ensures { IfOk result (λ runs. runs.items ≡ map run_pair rows.now) }
{
    rows.iter().map(|row| (row.number, row.run)).collect(alloc)
}

/// The payments, each under its number. An error where there is no memory.
pub(crate) fn numbered_payments(
    alloc: Global,
    rows: &[NumberedPayment],
) -> Result<Vec<(u32, Voidable<Payment>)>, AllocError>
    ensures { IfOk result (λ payments. payments.items ≡ map payment_pair rows.now) }
{
    rows.iter()
        .map(|row| (row.number, row.payment))
        .collect(alloc)
}

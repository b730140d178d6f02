//! The open years of an account, each with its lookback total by the totals as they were first
//! reported.

ghost use Rattle.std.specs.Prelude.{◌≡◌, ◌≤◌, ◌↔◌, All, IfErr, IfOk, IsTrue, OnErr, map};
ghost use Rattle.ftd_rules.specs.Lookback.{IsLookback, IsYearLookback};
ghost use Rattle.ftd_store.specs.Lists.{Pairs};
ghost use Rattle.ftd_store.specs.Frame.{Reads};
ghost use Rattle.ftd_kept.specs.Kept.{IsKeptYear, IsLookbackBy, KnowsYears, LacksLookback};
ghost use Rattle.ftd_kept.specs.Kept.{LacksOne, LacksQuarter, LacksYear};
ghost use Rattle.ftd_kept.specs.Kept.{quarter_figure, year_figure};

use ftd_days::{Cents, Day, FIRST_YEAR, LAST_OPEN_YEAR, Quarter};
use ftd_machine::{Account, KeptYear};
use ftd_rules::{Form, MOST_CENTS, YearLine, lookback, lookback_943};
use ftd_store::{QuarterTotal, StoreFault, Tx, YearTotal};
use sqlite::Alter;
use std::alloc::{AllocError, Global};

/// The open years of the account, by year. `Failed` also where a total of one's lookback period is
/// missing or is more than 999,999,999.99, and where one is none of 2001 to 2098.
pub(crate) fn open_years<S: Alter>(
    tx: &mut Tx<'_, S>,
    alloc: Global,
    name: &str,
    account: &Account,
) -> Result<Vec<KeptYear>, StoreFault>
    ensures call { Reads S.Store tx.old tx.new result
        (λ rows. KnowsYears name.now account.now rows.items) }
{
    let lines = tx.years(alloc, name)?;
    let quarters = tx.reported_totals(alloc, name)?;
    let years = tx.reported_year_totals(alloc, name)?;
    match by_totals(alloc, account, &lines, &quarters, &years) {
        Ok(rows) => Ok(rows),
        Err(fault) => tx.give_up(fault),
    }
}

/// The open years of the account with these lines, where it reported these totals first. `Failed`
/// where a total is missing or too large or a year is none of 2001 to 2098, and `Memory` where
/// there was no memory.
fn by_totals(
    alloc: Global,
    account: &Account,
    lines: &[YearLine],
    quarters: &[QuarterTotal],
    years: &[YearTotal],
) -> Result<Vec<KeptYear>, StoreFault>
    ensures told { IfOk result (λ rows.
        Pairs (IsKeptYear account.now (map quarter_figure quarters.now) (map year_figure years.now))
        lines.now rows.items) }
    ensures failed { IfErr result (λ fault. fault ≡ StoreFault.Failed
        → LacksOne account.now (map quarter_figure quarters.now) (map year_figure years.now)
        lines.now) }
{
    let quarters = quarter_figures(alloc, quarters)?;
    let years = year_figures(alloc, years)?;
    told_years(alloc, account, lines, &quarters, &years)
}

/// The totals of quarters, each with its quarter.
fn quarter_figures(
    alloc: Global,
    totals: &[QuarterTotal],
) -> Result<Vec<(Quarter, Cents)>, AllocError>
    ensures { IfOk result (λ figures. figures.items ≡ map quarter_figure totals.now) }
{
    let mut figures = Vec::new(alloc);
    for total in totals {
        figures.push((total.quarter, total.cents))?;
    }
    Ok(figures)
}

/// The totals of years, each with its year.
fn year_figures(alloc: Global, totals: &[YearTotal]) -> Result<Vec<(u32, Cents)>, AllocError>
    ensures { IfOk result (λ figures. figures.items ≡ map year_figure totals.now) }
{
    let mut figures = Vec::new(alloc);
    for total in totals {
        figures.push((total.year, total.cents))?;
    }
    Ok(figures)
}

/// The open years with these lines, as they are told by these totals. The errors are those of
/// `by_totals`.
#[tactic(auto, using(crate::proofs::YearsKnown::year_more))]
fn told_years(
    alloc: Global,
    account: &Account,
    lines: &[YearLine],
    quarters: &[(Quarter, Cents)],
    years: &[(u32, Cents)],
) -> Result<Vec<KeptYear>, StoreFault>
    ensures told { IfOk result (λ rows.
        Pairs (IsKeptYear account.now quarters.now years.now) lines.now rows.items) }
    ensures failed { IfErr result (λ fault. fault ≡ StoreFault.Failed
        → LacksOne account.now quarters.now years.now lines.now) }
{
    let mut rows = Vec::new(alloc);
    for line in lines {
        let first_lookback = lookback_total(quarters, years, account, line.year)?;
        rows.push(KeptYear {
            line: *line,
            first_lookback,
        })?;
    }
    Ok(rows)
}

/// The lookback total of a year by these totals: on Form 941 by those of quarters, on Form 943 by
/// those of years. `Failed` where one is missing or too large, and where the year is none of 2001
/// to 2098.
fn lookback_total(
    quarters: &[(Quarter, Cents)],
    years: &[(u32, Cents)],
    account: &Account,
    year: u32,
) -> Result<Cents, StoreFault>
    ensures total { IfOk result
        (IsLookbackBy account.now.form quarters.now years.now account.now.start year) }
    ensures failed { OnErr result
        (LacksLookback account.now.form quarters.now years.now account.now.start year) }
{
    if year < FIRST_YEAR || LAST_OPEN_YEAR < year {
        return Err(StoreFault::Failed);
    }
    match account.form {
        Form::F941 => lookback_by_quarters(quarters, account.start, year),
        Form::F943 => lookback_by_years(years, account.start, year),
    }
}

/// The lookback total of a year by these totals of quarters. `Failed` where one of them is more
/// than 999,999,999.99, or one of the lookback period is missing.
fn lookback_by_quarters(
    quarters: &[(Quarter, Cents)],
    start: Day,
    year: u32,
) -> Result<Cents, StoreFault>
    requires from { FIRST_YEAR ≤ year }
    requires to { year ≤ LAST_OPEN_YEAR }
    ensures total { IfOk result (λ total. IsLookback quarters.now start year total.0) }
    ensures failed { OnErr result (LacksQuarter quarters.now start year) }
{
    if !are_amounts(quarters) {
        return Err(StoreFault::Failed);
    }
    match lookback(quarters, start, year) {
        Ok(total) => Ok(total),
        Err(_) => Err(StoreFault::Failed),
    }
}

/// Whether each of the totals is at most 999,999,999.99.
fn are_amounts(figures: &[(Quarter, Cents)]) -> bool
    ensures { IsTrue result ↔ All (λ figure. figure.1.0 ≤ MOST_CENTS) figures.now }
{
    figures.iter().all(|figure| figure.1.0 <= MOST_CENTS)
}

/// The lookback total of a year by these totals of years. `Failed` where that of the lookback
/// period is missing.
fn lookback_by_years(years: &[(u32, Cents)], start: Day, year: u32) -> Result<Cents, StoreFault>
    requires from { FIRST_YEAR ≤ year }
    requires to { year ≤ LAST_OPEN_YEAR }
    ensures total { IfOk result (λ total. IsYearLookback years.now start year total) }
    ensures failed { OnErr result (LacksYear years.now start year) }
{
    match lookback_943(years, start, year) {
        Ok(total) => Ok(total),
        Err(_) => Err(StoreFault::Failed),
    }
}

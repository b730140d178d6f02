//! Lookback totals, by the figures that an account reported.

ghost use Rattle.std.specs.Prelude.{◌≡◌, ◌≤◌, All, IfOk};
ghost use Rattle.ftd_store.specs.Frame.{Reads};
ghost use Rattle.ftd_entries.specs.Totals.{IsTotalOn941, IsTotalOn943, KnowsTotal, KnowsTotalOn941};
ghost use Rattle.ftd_entries.specs.Totals.{KnowsTotalOn943, figures_found, figure_before};

use crate::in_force::figure;
use ftd_days::{Cents, Day, FIRST_YEAR, LAST_OPEN_YEAR, Quarter};
use ftd_machine::{Account, Refusal, ReturnPeriod};
use ftd_rules::{Form, MOST_CENTS, lookback, lookback_943, lookback_start};
use ftd_store::{StoreFault, Tx};
use sqlite::Alter;
use std::alloc::{AllocError, Global};

/// The total of the account's lookback period of the year, or the refusal that names which of its
/// figures is missing.
pub fn lookback_total<S: Alter>(
    tx: &mut Tx<'_, S>,
    alloc: Global,
    name: &str,
    account: Account,
    year: u32,
) -> Result<Result<Cents, Refusal>, StoreFault>
    requires from { FIRST_YEAR ≤ year }
    requires to { year ≤ LAST_OPEN_YEAR }
    ensures call { Reads S.Store tx.old tx.new result (KnowsTotal name.now account year) }
{
    match account.form {
        Form::F941 => total_941(tx, alloc, name, account.start, year),
        Form::F943 => total_943(tx, alloc, name, account.start, year),
    }
}

/// The lookback total on Form 941, or the refusal that names the earliest quarter whose figure is
/// missing.
fn total_941<S: Alter>(
    tx: &mut Tx<'_, S>,
    alloc: Global,
    name: &str,
    start: Day,
    year: u32,
) -> Result<Result<Cents, Refusal>, StoreFault>
    requires from { FIRST_YEAR ≤ year }
    requires to { year ≤ LAST_OPEN_YEAR }
    ensures call { Reads S.Store tx.old tx.new result (KnowsTotalOn941 name.now start year) }
{
    let quarters = lookback_start(year);
    let (third, fourth) = (Quarter::at(quarters), Quarter::at(quarters + 1));
    let (first, second) = (Quarter::at(quarters + 2), Quarter::at(quarters + 3));
    let found = [
        (
            third,
            figure(tx, alloc, name, ReturnPeriod::Quarter(third))?,
        ),
        (
            fourth,
            figure(tx, alloc, name, ReturnPeriod::Quarter(fourth))?,
        ),
        (
            first,
            figure(tx, alloc, name, ReturnPeriod::Quarter(first))?,
        ),
        (
            second,
            figure(tx, alloc, name, ReturnPeriod::Quarter(second))?,
        ),
    ];
    match total_of_found(alloc, &found, start, year) {
        Ok(total) => Ok(total),
        Err(fault) => tx.give_up(fault),
    }
}

/// The same, where this was found for the four quarters. `Failed` where a figure is more than
/// 999,999,999.99.
fn total_of_found(
    alloc: Global,
    found: &[(Quarter, Option<Cents>)],
    start: Day,
    year: u32,
) -> Result<Result<Cents, Refusal>, StoreFault>
    requires from { FIRST_YEAR ≤ year }
    requires to { year ≤ LAST_OPEN_YEAR }
    ensures { IfOk result (λ total. IsTotalOn941 (figures_found found.now) start year total) }
{
    let Ok(figures) = figures_found(alloc, found) else {
        return Err(StoreFault::Memory);
    };
    if !figures.iter().all(|figure| figure.1.0 <= MOST_CENTS) {
        return Err(StoreFault::Failed);
    }
    Ok(total_of_quarters(&figures, start, year))
}

/// The figures that were found, each with its quarter.
fn figures_found(
    alloc: Global,
    found: &[(Quarter, Option<Cents>)],
) -> Result<Vec<(Quarter, Cents)>, AllocError>
    ensures { IfOk result (λ figures. figures.items ≡ figures_found found.now) }
{
    let mut figures = Vec::new(alloc);
    for (quarter, cents) in found {
        if let Some(cents) = cents {
            figures.push((*quarter, *cents))?;
        }
    }
    Ok(figures)
}

/// The lookback total on Form 943, or the refusal that names the year whose figure is missing.
fn total_943<S: Alter>(
    tx: &mut Tx<'_, S>,
    alloc: Global,
    name: &str,
    start: Day,
    year: u32,
) -> Result<Result<Cents, Refusal>, StoreFault>
    requires from { FIRST_YEAR ≤ year }
    requires to { year ≤ LAST_OPEN_YEAR }
    ensures call { Reads S.Store tx.old tx.new result (KnowsTotalOn943 name.now start year) }
{
    let found = figure(tx, alloc, name, ReturnPeriod::Year(year - 2))?;
    Ok(total_of_year(found, start, year))
}

/// The same, where this was reported for the second year before.
fn total_of_year(found: Option<Cents>, start: Day, year: u32) -> Result<Cents, Refusal>
    requires from { FIRST_YEAR ≤ year }
    requires to { year ≤ LAST_OPEN_YEAR }
    ensures { IsTotalOn943 (figure_before year found) start year result }
{
    match found {
        Some(cents) => total_of_years(&[(year - 2, cents)], start, year),
        None => total_of_years(&[], start, year),
    }
}

/// The same, where these figures were reported.
fn total_of_years(reported: &[(u32, Cents)], start: Day, year: u32) -> Result<Cents, Refusal>
    requires from { FIRST_YEAR ≤ year }
    requires to { year ≤ LAST_OPEN_YEAR }
    ensures { IsTotalOn943 reported.now start year result }
{
    match lookback_943(reported, start, year) {
        Ok(total) => Ok(total),
        Err(missing) => Err(Refusal::YearMissing(missing.0)),
    }
}

/// The lookback total on Form 941 where these figures were reported, or the refusal that names the
/// earliest quarter whose figure is missing.
fn total_of_quarters(reported: &[(Quarter, Cents)], start: Day, year: u32) -> Result<Cents, Refusal>
    requires from { FIRST_YEAR ≤ year }
    requires to { year ≤ LAST_OPEN_YEAR }
    requires figures { All (λ figure. figure.1.0 ≤ MOST_CENTS) reported.now }
    ensures { IsTotalOn941 reported.now start year result }
{
    match lookback(reported, start, year) {
        Ok(total) => Ok(total),
        Err(missing) => Err(Refusal::QuarterMissing(missing.0)),
    }
}

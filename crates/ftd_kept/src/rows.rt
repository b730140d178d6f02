//! Rows of what is kept, as they are told.

ghost use Rattle.std.specs.Prelude.{◌≡◌, ◌++◌, ◌∷◌, [], IfOk, OnOk, map};
ghost use Rattle.ftd_rules.specs.Lists.{are_in_order};
ghost use Rattle.ftd_machine.specs.Agenda.{EachToLater};
ghost use Rattle.ftd_machine.specs.Kept.{IsTotalBefore, IsRunBefore, period_number};
ghost use Rattle.ftd_kept.specs.Kept.{kept_run, kept_quarter, kept_year, is_run_before};
ghost use Rattle.ftd_kept.specs.Kept.{is_total_before};

use ftd_machine::{KeptRun, KeptTotal, ReturnPeriod};
use ftd_store::{NumberedRun, QuarterTotal, StoreFault, YearTotal};
use std::alloc::{AllocError, Global};

/// Adds a row. `Memory` where there was none.
pub(crate) fn add_row<T: Drop>(row: T, rows: &mut Vec<T>) -> Result<(), StoreFault>
    ensures { OnOk result (rows.new.items ≡ rows.old.items ++ row ∷ []) }
{
    rows.push(row)?;
    Ok(())
}

// ---- runs

/// A run, as it is told.
fn kept_run(row: &NumberedRun) -> KeptRun
    ensures { result ≡ kept_run row.now }
{
    KeptRun {
        number: row.number,
        run: row.run.value,
        voided: row.run.voided,
    }
}

/// Whether a run comes before another one: by payday, and on one payday by number.
fn is_run_before(run: &KeptRun, next: &KeptRun) -> bool
    ensures { result ≡ is_run_before run.now next.now }
{
    run.run.payday < next.run.payday
        || run.run.payday == next.run.payday && run.number < next.number
}

/// Whether each run comes before the next.
fn are_runs_in_order(runs: &[KeptRun]) -> bool
    ensures { result ≡ are_in_order is_run_before runs.now }
{
    runs.iter()
        .zip(runs.iter().skip(1))
        .all(|(run, next)| is_run_before(run, next))
}

/// The runs, as they are told.
fn kept_runs(alloc: Global, rows: &[NumberedRun]) -> Result<Vec<KeptRun>, AllocError>
    ensures { IfOk result (λ runs. runs.items ≡ map kept_run rows.now) }
{
    let mut runs = Vec::new(alloc);
    for row in rows {
        runs.push(kept_run(row))?;
    }
    Ok(runs)
}

/// The runs, as they are told. `Failed` where they do not go on by payday and number, and `Memory`
/// where there was no memory.
#[tactic(auto, using(crate::proofs::KeptOrder::runs_in_order))]
pub(crate) fn told_runs(alloc: Global, rows: &[NumberedRun]) -> Result<Vec<KeptRun>, StoreFault>
    ensures told { IfOk result (λ runs. runs.items ≡ map kept_run rows.now) }
    ensures in_order { IfOk result (λ runs. EachToLater IsRunBefore runs.items) }
{
    let runs = kept_runs(alloc, rows)?;
    if !are_runs_in_order(&runs) {
        return Err(StoreFault::Failed);
    }
    Ok(runs)
}

// ---- reported totals

/// Whether a total is of an earlier quarter or year than another one.
fn is_total_before(total: &KeptTotal, next: &KeptTotal) -> bool
    ensures { result ≡ is_total_before total.now next.now }
{
    period_number(&total.period) < period_number(&next.period)
}

/// The number of quarters after the first of 1900, or the year.
fn period_number(period: &ReturnPeriod) -> u32
    ensures { result ≡ period_number period.now }
{
    match period {
        ReturnPeriod::Quarter(quarter) => quarter.quarters(),
        ReturnPeriod::Year(year) => *year,
    }
}

/// Whether each total is of an earlier quarter or year than the next.
fn are_totals_in_order(totals: &[KeptTotal]) -> bool
    ensures { result ≡ are_in_order is_total_before totals.now }
{
    totals
        .iter()
        .zip(totals.iter().skip(1))
        .all(|(total, next)| is_total_before(total, next))
}

/// The totals, where each is of an earlier quarter or year than the next. `Failed` where they are
/// not.
#[tactic(auto, using(crate::proofs::KeptOrder::totals_in_order))]
fn in_turn(totals: Vec<KeptTotal>) -> Result<Vec<KeptTotal>, StoreFault>
    ensures same { IfOk result (λ told. told.items ≡ totals.items) }
    ensures in_order { IfOk result (λ told. EachToLater IsTotalBefore told.items) }
{
    if !are_totals_in_order(&totals) {
        return Err(StoreFault::Failed);
    }
    Ok(totals)
}

/// The totals of quarters, as they were first reported. `Failed` where they do not go on by
/// quarter, and `Memory` where there was no memory.
pub(crate) fn told_quarters(
    alloc: Global,
    rows: &[QuarterTotal],
) -> Result<Vec<KeptTotal>, StoreFault>
    ensures told { IfOk result (λ totals. totals.items ≡ map kept_quarter rows.now) }
    ensures in_order { IfOk result (λ totals. EachToLater IsTotalBefore totals.items) }
{
    let mut totals = Vec::new(alloc);
    for row in rows {
        totals.push(KeptTotal {
            period: ReturnPeriod::Quarter(row.quarter),
            cents: row.cents,
            first: row.cents,
        })?;
    }
    in_turn(totals)
}

/// The totals of years, as they were first reported. `Failed` where they do not go on by year, and
/// `Memory` where there was no memory.
pub(crate) fn told_years(alloc: Global, rows: &[YearTotal]) -> Result<Vec<KeptTotal>, StoreFault>
    ensures told { IfOk result (λ totals. totals.items ≡ map kept_year rows.now) }
    ensures in_order { IfOk result (λ totals. EachToLater IsTotalBefore totals.items) }
{
    let mut totals = Vec::new(alloc);
    for row in rows {
        totals.push(KeptTotal {
            period: ReturnPeriod::Year(row.year),
            cents: row.cents,
            first: row.cents,
        })?;
    }
    in_turn(totals)
}

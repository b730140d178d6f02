//! How an account's obligations and open years differ before and after a change.

ghost use Rattle.std.specs.Prelude.{◌≡◌, ◌⊎◌, ◌↔◌, [], IsTrue, IfOk};
ghost use Rattle.ftd_rules.specs.declared.YearLine.{YearLine};
ghost use Rattle.ftd_rules.specs.Lists.{Has, KeysRise};
ghost use Rattle.ftd_rules.specs.Obligations.{ByFirstDay};
ghost use Rattle.ftd_machine.specs.History.{year_of_line};
ghost use Rattle.ftd_machine.specs.Posting.{AreOnlyIn, Spans, Differ, IsScheduledAs};
ghost use Rattle.ftd_machine.specs.Posting.{AreOnOtherSchedules};
ghost use Rattle.ftd_repairs.specs.Replaced.{with_years};

use ftd_days::Day;
use ftd_machine::Difference;
use ftd_rules::{Obligation, Obligations, YearLine, YearLines};
use std::alloc::{AllocError, Global};

/// Whether the row is one of these.
fn is_among(row: &Obligation, rows: &[Obligation]) -> bool
    ensures { IsTrue result ↔ Has rows.now row.now }
{
    rows.contains(row)
}

/// The rows that are not among the others.
fn only_in(
    alloc: Global,
    rows: &[Obligation],
    others: &[Obligation],
) -> Result<Vec<Obligation>, AllocError>
    ensures { IfOk result (λ only. ByFirstDay rows.now
        → AreOnlyIn rows.now others.now only.items) }
{
    let mut only = Vec::new(alloc);
    for row in rows {
        if !is_among(row, others) {
            only.push(*row)?;
        }
    }
    Ok(only)
}

/// The least first day and the greatest last day of the rows; the day twice where there is none.
fn reach(day: Day, rows: &[Obligation]) -> (Day, Day)
    ensures { Spans rows.now result.0 result.1
        ⊎ ((rows.now ≡ []) × (result.0 ≡ day) × (result.1 ≡ day)) }
{
    let Some(first) = rows.first() else {
        return (day, day);
    };
    let mut from = first.first;
    let mut to = first.last;
    for row in rows {
        from = from.min(row.first);
        to = to.max(row.last);
    }
    (from, to)
}

/// Whether the lines are of one year, with one opening and one turn.
fn is_scheduled_as(line: &YearLine, other: &YearLine) -> bool
    ensures { IsTrue result ↔ IsScheduledAs line.now other.now }
{
    line.year == other.year && line.opening == other.opening && line.turn == other.turn
}

/// Whether one of the lines is scheduled as this one.
fn has_schedule(lines: &[YearLine], line: &YearLine) -> bool
    ensures { IsTrue result
        ↔ ((old : YearLine) × Has lines.now old × IsScheduledAs old line.now) }
{
    match lines {
        [] => false,
        [old, later @ ..] => is_scheduled_as(old, line) || has_schedule(later, line),
    }
}

/// The lines that are on another schedule than before.
fn on_other_schedules(
    alloc: Global,
    before: &[YearLine],
    after: &[YearLine],
) -> Result<Vec<YearLine>, AllocError>
    ensures { IfOk result (λ years. KeysRise year_of_line after.now
        → AreOnOtherSchedules before.now after.now years.items) }
{
    let mut years = Vec::new(alloc);
    for line in after {
        if !has_schedule(before, line) {
            years.push(*line)?;
        }
    }
    Ok(years)
}

/// How the rows differ before and after a change. The day is told twice where they do not. No year
/// is told.
pub(crate) fn difference(
    alloc: Global,
    day: Day,
    before: &[Obligation],
    after: &[Obligation],
) -> Result<Difference, AllocError>
    ensures { IfOk result (λ d. ByFirstDay before.now → ByFirstDay after.now
        → Differ before.now after.now day d) }
{
    let removed = only_in(alloc, before, after)?;
    let added = only_in(alloc, after, before)?;
    let mut rows = Vec::from_slice(alloc, &removed)?;
    rows.extend_from_slice(&added)?;
    let (from, to) = reach(day, &rows);
    Ok(Difference {
        from,
        to,
        removed: Obligations::from_vec(removed),
        added: Obligations::from_vec(added),
        years: YearLines::from_vec(Vec::new(alloc)),
    })
}

/// The difference, with the years that are on another schedule than before.
pub(crate) fn with_years(
    alloc: Global,
    difference: Difference,
    before: &[YearLine],
    after: &[YearLine],
) -> Result<Difference, AllocError>
    ensures years { IfOk result (λ d. KeysRise year_of_line after.now
        → AreOnOtherSchedules before.now after.now d.years) }
    ensures rows { IfOk result (λ d. d ≡ with_years difference d.years) }
{
    let years = on_other_schedules(alloc, before, after)?;
    Ok(Difference {
        years: YearLines::from_vec(years),
        ..difference
    })
}

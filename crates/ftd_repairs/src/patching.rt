//! A patch is put in the place of an account's rows.

ghost use Rattle.std.specs.Prelude.{◌≡◌, ◌++◌, ◌∷◌, ◌↔◌, [], List, IsTrue, IfSome, MatchOption};
ghost use Rattle.std.specs.Prelude.{All};
ghost use Rattle.ftd_rules.specs.declared.Obligation.{Obligation};
ghost use Rattle.ftd_rules.specs.declared.YearLine.{YearLine};
ghost use Rattle.ftd_buckets.specs.Histories.{MayBegin};
ghost use Rattle.ftd_store.specs.Amounts.{IsStorable};
ghost use Rattle.ftd_repairs.specs.Rescheduled.{IsRescheduled, IsUnnamed, HasLines, PutsInto};
ghost use Rattle.ftd_repairs.specs.Rescheduled.{PutsRows};
ghost use Rattle.ftd_repairs.specs.Replaced.{AreBetween};
ghost use Rattle.ftd_repairs.specs.Reposted.{Places, RepairsRows};
ghost use Rattle.ftd_store.specs.Changes.{with_year};
ghost use Rattle.ftd_store.specs.Frame.{Rewrites, Writes};

use crate::comparing::{difference, with_years};
use crate::reading::{KnownYears, known_obligations};
use crate::repairing::repaired;
use ftd_buckets::{Patch, may_begin};
use ftd_days::{Cents, Day};
use ftd_machine::Difference;
use ftd_rules::{Form, Obligation, YearLine};
use ftd_store::{StoreFault, Tx};
use sqlite::Alter;
use std::alloc::Global;

/// 2^63 cents, the least amount that no cell of the store holds.
const STORED_END: u64 = 9_223_372_036_854_775_808;

/// Whether a cell holds the amount.
pub(crate) fn is_storable(amount: Cents) -> bool
    ensures { IsTrue result ↔ IsStorable amount }
{
    amount.0 < STORED_END
}

/// Whether cells hold the lookback totals of the lines.
fn hold_lookbacks(lines: &[YearLine]) -> bool
    ensures { IsTrue result → All (λ line. IsStorable line.lookback) lines.now }
{
    lines.iter().all(|line| is_storable(line.lookback))
}

/// Whether cells hold the amounts of the rows.
fn hold_amounts(rows: &[Obligation]) -> bool
    ensures { IsTrue result → All (λ row. IsStorable row.cents) rows.now }
{
    rows.iter().all(|row| is_storable(row.cents))
}

/// The lines from the day's year on, with which a repair may begin. None where that year is not
/// open, and where the lines are none of years without a gap that turn within their years.
pub(crate) fn lines_from(lines: &[YearLine], day: Day) -> Option<&[YearLine]>
    ensures rest { IfSome result (λ rest. (earlier : List YearLine)
        × (lines.now ≡ earlier ++ rest.now)) }
    ensures may_begin { IfSome result (λ rest. MayBegin day rest.now) }
{
    let year = day.year();
    for (i, line) in lines.iter().enumerate() {
        if line.year == year {
            let (_, rest) = lines.split_at(i);
            return if may_begin(rest, day) {
                Some(rest)
            } else {
                None
            };
        }
    }
    None
}

/// The line with the opening and the turn of the changed one of its year. None where there is none.
fn rescheduled(line: &YearLine, changed: &[YearLine]) -> Option<YearLine>
    ensures { MatchOption result (IsUnnamed changed.now line.now)
        (IsRescheduled changed.now line.now) }
{
    for other in changed {
        if other.year == line.year {
            return Some(YearLine {
                year: line.year,
                lookback: line.lookback,
                carried: line.carried,
                opening: other.opening,
                turn: other.turn,
            });
        }
    }
    None
}

/// The row that comes, where one alone goes and one alone comes that begins on the same day.
fn changed_row(gone: &[Obligation], rows: &[Obligation]) -> Option<Obligation>
    ensures { IfSome result (λ row. (was : Obligation) × (gone.now ≡ was ∷ [])
        × (rows.now ≡ row ∷ []) × (was.first ≡ row.first)) }
{
    if let ([was], [row]) = (gone, rows) {
        if was.first == row.first {
            return Some(*row);
        }
    }
    None
}

/// Puts the rows of the patch in the place of those that go, which are the account's obligations
/// that begin on its days. Most often one row alone gets another amount: that is one statement.
fn put_rows<S: Alter>(
    tx: &mut Tx<'_, S>,
    account: &str,
    gone: &[Obligation],
    patch: &Patch,
) -> Result<(), StoreFault>
    requires amounts { All (λ row. IsStorable row.cents) patch.now.rows }
    ensures call { Rewrites S.Store tx.old tx.new result (λ done old new.
        AreBetween account.now patch.now.from patch.now.to gone.now old
        → PutsRows account.now patch.now old new) }
{
    if let Some(row) = changed_row(gone, patch.rows.as_slice()) {
        tx.set_obligation(account, row)?;
        return Ok(());
    }
    tx.replace_obligations(account, patch.from, patch.to, patch.rows.as_slice())?;
    Ok(())
}

/// The line becomes another one, here and in the account's row of its year.
pub(crate) fn put_line<S: Alter>(
    tx: &mut Tx<'_, S>,
    account: &str,
    line: &mut YearLine,
    after: YearLine,
) -> Result<(), StoreFault>
    requires { IsStorable after.lookback }
    ensures line { line.new ≡ after }
    ensures call { Writes S.Store tx.old tx.new result (with_year account.now after) }
{
    *line = after;
    tx.put_year(account, *line)
}

/// Puts the patch in the place of the account's obligations that begin on its days, which are
/// given, and its openings and turns into the account's lines, here and in the table.
fn put_patch<S: Alter>(
    tx: &mut Tx<'_, S>,
    account: &str,
    lines: &mut [YearLine],
    gone: &[Obligation],
    patch: &Patch,
) -> Result<(), StoreFault>
    requires amounts { All (λ row. IsStorable row.cents) patch.now.rows }
    requires lookbacks { All (λ line. IsStorable line.lookback) lines.old }
    ensures call { Rewrites S.Store tx.old tx.new result (λ done old new.
        AreBetween account.now patch.now.from patch.now.to gone.now old
        → HasLines account.now lines.old old
        → PutsInto account.now lines.old patch.now lines.new old new) }
{
    put_rows(tx, account, gone, patch)?;
    for i in 0..lines.len() {
        if let Some(after) = rescheduled(&lines[i], patch.years.as_slice()) {
            put_line(tx, account, &mut lines[i], after)?;
        }
    }
    Ok(())
}

/// Puts the patch in the place of the account's obligations that begin on its days, which are
/// given, and answers how the obligations that come differ from these, and which years are on
/// another schedule. The lines become what they are then. `Failed` also where an amount is 2^63
/// cents or more.
pub(crate) fn place_patch<S: Alter>(
    tx: &mut Tx<'_, S>,
    alloc: Global,
    account: &str,
    day: Day,
    lines: &mut [YearLine],
    gone: &[Obligation],
    patch: &Patch,
) -> Result<Difference, StoreFault>
    ensures call { Rewrites S.Store tx.old tx.new result (λ difference old new.
        AreBetween account.now patch.now.from patch.now.to gone.now old
        → HasLines account.now lines.old old
        → Places account.now day lines.old patch.now lines.new difference old new) }
{
    if !hold_lookbacks(lines) || !hold_amounts(patch.rows.as_slice()) {
        return tx.give_up(StoreFault::Failed);
    }
    let Ok(before) = Vec::from_slice(alloc, lines) else {
        return tx.give_up(StoreFault::Memory);
    };
    let Ok(difference) = difference(alloc, day, gone, patch.rows.as_slice()) else {
        return tx.give_up(StoreFault::Memory);
    };
    put_patch(tx, account, lines, gone, patch)?;
    let Ok(told) = with_years(alloc, difference, &before, lines) else {
        return tx.give_up(StoreFault::Memory);
    };
    Ok(told)
}

/// Repairs the account's rows after a change of its runs of the day, by what was read of it before.
/// `Failed` also where the day's year is not open.
pub(crate) fn repair_rows<S: Alter>(
    tx: &mut Tx<'_, S>,
    alloc: Global,
    account: &str,
    form: Form,
    day: Day,
    known: KnownYears,
) -> Result<Difference, StoreFault>
    ensures call { Rewrites S.Store tx.old tx.new result (RepairsRows account.now form day known) }
{
    let KnownYears {
        mut lines,
        holidays,
    } = known;
    let Some(rest) = lines_from(&lines, day) else {
        return tx.give_up(StoreFault::Failed);
    };
    let patch = repaired(tx, alloc, account, form, rest, &holidays, day)?;
    let gone = known_obligations(tx, alloc, account, patch.from, patch.to)?;
    let difference = place_patch(tx, alloc, account, day, &mut lines, &gone, &patch)?;
    Ok(difference)
}

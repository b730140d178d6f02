//! A year of an account gets another lookback total, and the account's rows are repaired.

ghost use Rattle.std.specs.Prelude.{◌≡◌, ◌≤◌, IfSome, drop};
ghost use Rattle.ftd_days.specs.Holidays.{holidays_of};
ghost use Rattle.ftd_rules.specs.Years.{AreOpenYears};
ghost use Rattle.ftd_store.specs.Frame.{Rewrites};
ghost use Rattle.ftd_repairs.specs.Reopened.{IsAt, IsRetotaled, Retotals};
ghost use Rattle.ftd_repairs.specs.Reopening.{with_total};
ghost use Rattle.ftd_repairs.specs.Rescheduled.{HasLines};

use crate::patching::{is_storable, lines_from, place_patch, put_line};
use crate::reading::{KnownYears, known_years};
use crate::reopening::{Replacement, reopened};
use ftd_days::{Cents, Day, FIRST_YEAR, Holidays, LAST_OPEN_YEAR};
use ftd_machine::Difference;
use ftd_rules::year::first_day;
use ftd_rules::{Form, YearLine};
use ftd_store::{StoreFault, Tx};
use sqlite::Alter;
use std::alloc::Global;

/// Where the line of the year is among these. None where the year is not open, and where the lines
/// from it on are none of years without a gap.
fn place_of(lines: &[YearLine], year: u32) -> Option<usize>
    requires from { FIRST_YEAR ≤ year }
    requires to { year ≤ LAST_OPEN_YEAR }
    ensures at { IfSome result (IsAt year lines.now) }
    ensures years { IfSome result (λ at. AreOpenYears (drop at lines.now)) }
{
    let rest = lines_from(lines, first_day(year))?;
    Some(lines.len() - rest.len())
}

/// The line with another lookback total.
fn with_total(line: &YearLine, total: Cents) -> YearLine
    ensures { result ≡ with_total total line.now }
{
    YearLine {
        lookback: total,
        ..*line
    }
}

/// Puts the total into the line of the year, and repairs the account's rows by its form, by what
/// was read of it before. The lines become what they are then. The day is told twice where no
/// obligation differs. `Failed` also where the year is not open.
fn put_total<S: Alter>(
    tx: &mut Tx<'_, S>,
    alloc: Global,
    account: &str,
    form: Form,
    day: Day,
    year: u32,
    total: Cents,
    lines: &mut [YearLine],
    holidays: &Holidays,
) -> Result<Difference, StoreFault>
    requires from { FIRST_YEAR ≤ year }
    requires to { year ≤ LAST_OPEN_YEAR }
    ensures call { Rewrites S.Store tx.old tx.new result (λ difference old new.
        HasLines account.now lines.old old
        → Retotals account.now form day year total lines.old (holidays_of holidays.now) difference
        old new) }
{
    let Some(at) = place_of(lines, year) else {
        return tx.give_up(StoreFault::Failed);
    };
    if !is_storable(total) {
        return tx.give_up(StoreFault::Failed);
    }
    let after = with_total(&lines[at], total);
    put_line(tx, account, &mut lines[at], after)?;
    let Replacement { patch, gone } = reopened(
        tx, alloc, account, form, lines, at, year, holidays,
    )?;
    let difference = place_patch(tx, alloc, account, day, lines, &gone, &patch)?;
    Ok(difference)
}

/// Gives the year of the account another lookback total, and repairs the account's rows by its
/// form: those of the years from this one on are replaced, as long as a year opens otherwise than
/// before, and no further. It answers how the obligations that come differ from those that go, and
/// the day twice where none does. `Failed` also where the year is not open, where the calendar of
/// an open year from then on or of the year after is not given, and where an amount is 2^63 cents
/// or more.
pub fn correct_lookback<S: Alter>(
    tx: &mut Tx<'_, S>,
    alloc: Global,
    account: &str,
    form: Form,
    day: Day,
    year: u32,
    total: Cents,
) -> Result<Difference, StoreFault>
    requires from { FIRST_YEAR ≤ year }
    requires to { year ≤ LAST_OPEN_YEAR }
    ensures call { Rewrites S.Store tx.old tx.new result (λ difference old new.
        IsRetotaled account.now form day year total old new difference) }
{
    let KnownYears {
        mut lines,
        holidays,
    } = known_years(tx, alloc, account, first_day(year))?;
    let difference = put_total(
        tx, alloc, account, form, day, year, total, &mut lines, &holidays,
    )?;
    Ok(difference)
}

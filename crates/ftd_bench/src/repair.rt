//! Repair of an account, and what it leaves beside a new assessment.

ghost use Rattle.std.specs.Prelude.{◌≡◌, ◌≤◌};
ghost use Rattle.ftd_buckets.specs.Standing.{amount_held};

use crate::history::{Account, day_at, sums_between, total_of};
use anyhow::{Context, Result, bail, ensure};
use ftd_buckets::{Next, Patch, Repair, Window, may_begin};
use ftd_days::{Day, Holidays};
use ftd_rules::{AMOUNTS_END, Assessment, DaySum, Obligation, YearLine};
use std::alloc::Global;

/// The sums of the days of the window.
fn window_sums(alloc: Global, account: &Account, window: Window) -> Result<Vec<DaySum>> {
    let start = day_at(account.first, 0)?.number();
    let from = usize::try_from(window.from.number().saturating_sub(start))?;
    let to = usize::try_from(window.to.number().saturating_sub(start))?;
    sums_between(alloc, account, from, to)
}

/// The patch after a change of the day, and how many windows it took. The lines are those before
/// the change.
pub fn repair_day(
    alloc: Global,
    account: &Account,
    lines: &[YearLine],
    day: Day,
    holidays: &Holidays,
) -> Result<(Patch, u32)> {
    let place = lines
        .iter()
        .position(|line| line.year == day.year())
        .context("an open year")?;
    let (_, later) = lines.split_at(place.min(lines.len()));
    ensure!(may_begin(later, day), "lines that may be repaired");
    let (repair, window) = Repair::begin(account.form, alloc, later, holidays, day);
    fed(alloc, account, repair, window, 0, 1)
}

/// Feeds the repair, which holds no more than `before`, until it is done.
fn fed(
    alloc: Global,
    account: &Account,
    repair: Repair,
    window: Window,
    before: u64,
    windows: u32,
) -> Result<(Patch, u32)>
    requires asked { repair.asked ≡ window }
    requires held { amount_held repair ≤ before }
{
    if windows > 99 {
        bail!("too many windows");
    }
    let sums = window_sums(alloc, account, window)?;
    ensure!(window.has_rising(&sums), "rising days");
    let total = total_of(&sums).context("amounts of a history")?;
    ensure!(before < AMOUNTS_END - total, "amounts of a history");
    match repair.feed(&sums)? {
        Next::Need(repair, window) => fed(
            alloc,
            account,
            repair,
            window,
            before + total,
            windows + 1,
        ),
        Next::Done(patch) => Ok((patch, windows)),
    }
}

/// Whether the patch makes the one assessment the other.
pub fn is_mended(
    alloc: Global,
    before: &Assessment,
    patch: &Patch,
    after: &Assessment,
) -> Result<bool> {
    let mut rows: Vec<Obligation> = Vec::new(alloc);
    for row in before.rows.as_slice() {
        if row.first < patch.from {
            rows.push(*row)?;
        }
    }
    rows.extend_from_slice(patch.rows.as_slice())?;
    for row in before.rows.as_slice() {
        if patch.to < row.first {
            rows.push(*row)?;
        }
    }
    let mut lines: Vec<YearLine> = Vec::new(alloc);
    for line in before.years.as_slice() {
        let new = patch
            .years
            .as_slice()
            .iter()
            .find(|new| new.year == line.year);
        lines.push(*new.unwrap_or(line))?;
    }
    Ok(rows.as_slice() == after.rows.as_slice() && lines.as_slice() == after.years.as_slice())
}

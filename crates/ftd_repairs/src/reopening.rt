//! The years of an account that open anew, from one on whose lookback total has changed.

ghost use Rattle.std.specs.Prelude.{◌≡◌, ◌+◌, ◌<◌, ◌≤◌, ◌↔◌, IfOk, IsSome, IsTrue, drop};
ghost use Rattle.std.specs.List.{sum_by};
ghost use Rattle.ftd_days.specs.Calendar.{year_start};
ghost use Rattle.ftd_days.specs.Holidays.{holidays_of};
ghost use Rattle.ftd_rules.specs.Liability.{cents_of, SumsRise};
ghost use Rattle.ftd_rules.specs.Years.{AreOpenYears, TurnedBefore, year_last};
ghost use Rattle.ftd_store.specs.Frame.{Reads};
ghost use Rattle.ftd_repairs.specs.Reopened.{IsAt};
ghost use Rattle.ftd_repairs.specs.Anew.{AddsYear, AddsYearOf, IsPatchFrom, ReopensRows};
ghost use Rattle.ftd_repairs.specs.Anew.{ReplacesFrom};

use crate::reading::known_obligations;
use crate::windows::window_sums;
use ftd_buckets::{Patch, Window, opens};
use ftd_days::{Day, FIRST_YEAR, Holidays, LAST_OPEN_YEAR};
use ftd_rules::year::{add_year, first_day, last_day};
use ftd_rules::{AMOUNTS_END, DaySum, Form, Obligation, Obligations, YearLine, YearLines};
use ftd_store::{StoreFault, Tx};
use sqlite::Alter;
use std::alloc::{AllocError, Global};

/// What is known of the years that open otherwise than before, which follow one another.
#[derive(Drop)]
pub(crate) struct Anew {
    /// The last day of the last of them; where there is none, the day before the first year.
    pub to: Day,
    /// Whether the year of that day has a turn.
    pub turned: bool,
    /// Their obligations.
    pub rows: Vec<Obligation>,
    /// Their lines.
    pub years: Vec<YearLine>,
    /// The amount of their day sums, in cents.
    pub total: u64,
}

/// What replaces some of an account's rows, and these.
#[derive(Drop)]
pub(crate) struct Replacement {
    pub patch: Patch,
    /// Its obligations that begin on the days of the patch, by first day.
    pub gone: Vec<Obligation>,
}

/// Whether the year before has a turn.
fn has_turned(lines: &[YearLine], year: u32) -> bool
    ensures { IsTrue result ↔ TurnedBefore lines.now year }
{
    match lines {
        [] => false,
        [line, later @ ..] => turns_into(line, year) || has_turned(later, year),
    }
}

/// Whether the line is of the year before, and has a turn.
fn turns_into(line: &YearLine, year: u32) -> bool
    ensures { IsTrue result ↔ ((line.now.year + 1 ≡ year) × IsSome line.now.turn) }
{
    line.year < year && year - line.year == 1 && line.turn.is_some()
}

/// Adds the obligations and the line of a year that opens otherwise, by its day sums, which with
/// those of the years before have this amount.
fn add_sums(
    form: Form,
    line: &YearLine,
    holidays: &Holidays,
    sums: &[DaySum],
    total: u64,
    known: Anew,
) -> Result<Anew, AllocError>
    requires from { FIRST_YEAR ≤ line.now.year }
    requires to { line.now.year ≤ LAST_OPEN_YEAR }
    requires rise { SumsRise (year_start line.now.year) (year_last line.now.year) sums.now }
    requires small { sum_by cents_of sums.now < AMOUNTS_END }
    ensures adds { IfOk result
        (AddsYear form line.now (holidays_of holidays.now) sums.now known) }
    ensures total { IfOk result (λ later. later.total ≡ total) }
{
    holidays.end_before_2100();
    let Anew {
        to: _,
        turned,
        mut rows,
        mut years,
        total: _,
    } = known;
    let new = add_year(form, *line, turned, sums, holidays, &mut rows)?;
    years.push(new)?;
    Ok(Anew {
        to: last_day(line.year),
        turned: new.turn.is_some(),
        rows,
        years,
        total,
    })
}

/// Adds the obligations and the line of a year that opens otherwise, by its day sums in the tables.
/// `Failed` also where these do not rise, and where the amounts reach 60,000,000,000,000.00.
fn add_anew<S: Alter>(
    tx: &mut Tx<'_, S>,
    alloc: Global,
    account: &str,
    form: Form,
    line: &YearLine,
    holidays: &Holidays,
    known: Anew,
) -> Result<Anew, StoreFault>
    requires from { FIRST_YEAR ≤ line.now.year }
    requires to { line.now.year ≤ LAST_OPEN_YEAR }
    requires small { known.total < AMOUNTS_END }
    ensures call { Reads S.Store tx.old tx.new result
        (AddsYearOf account.now form line.now (holidays_of holidays.now) known) }
    ensures to { IfOk result (λ later. later.to ≡ year_last line.now.year) }
    ensures small { IfOk result (λ later. later.total < AMOUNTS_END) }
{
    let window = Window {
        from: first_day(line.year),
        to: last_day(line.year),
    };
    let read = window_sums(tx, alloc, account, window, known.total)?;
    match add_sums(form, line, holidays, &read.sums, read.total, known) {
        Ok(later) => Ok(later),
        Err(_) => tx.give_up(StoreFault::Memory),
    }
}

/// What replaces the rows of the years from this day on that open otherwise.
fn patch_from(from: Day, known: Anew) -> Patch
    ensures { IsPatchFrom from known result }
{
    let Anew {
        to,
        turned: _,
        rows,
        years,
        total: _,
    } = known;
    Patch {
        from,
        to,
        rows: Obligations::from_vec(rows),
        years: YearLines::from_vec(years),
    }
}

/// What replaces the rows of the years from this day on that open otherwise, and these rows.
/// `Failed` also where two of them begin on one day.
fn known_replacement<S: Alter>(
    tx: &mut Tx<'_, S>,
    alloc: Global,
    account: &str,
    from: Day,
    known: Anew,
) -> Result<Replacement, StoreFault>
    ensures call { Reads S.Store tx.old tx.new result (ReplacesFrom account.now from known) }
{
    let patch = patch_from(from, known);
    let gone = known_obligations(tx, alloc, account, patch.from, patch.to)?;
    Ok(Replacement { patch, gone })
}

/// What replaces the account's rows after the lookback total of the year has changed. The lines
/// have the new total, and their openings and turns before the change. Year by year is read, as
/// long as the year opens otherwise, and no further.
pub(crate) fn reopened<S: Alter>(
    tx: &mut Tx<'_, S>,
    alloc: Global,
    account: &str,
    form: Form,
    lines: &[YearLine],
    at: usize,
    year: u32,
    holidays: &Holidays,
) -> Result<Replacement, StoreFault>
    requires at { IsAt year lines.now at }
    requires years { AreOpenYears (drop at lines.now) }
    requires from { FIRST_YEAR ≤ year }
    requires to { year ≤ LAST_OPEN_YEAR }
    ensures call { Reads S.Store tx.old tx.new result
        (ReopensRows account.now form year lines.now (holidays_of holidays.now)) }
{
    holidays.end_before_2100();
    let from = first_day(year);
    let mut known = Anew {
        to: from.yesterday(),
        turned: has_turned(lines, year),
        rows: Vec::new(alloc),
        years: Vec::new(alloc),
        total: 0,
    };
    let (_, rest) = lines.split_at(at);
    for line in rest {
        if opens(line, known.turned) == line.opening {
            return known_replacement(tx, alloc, account, from, known);
        }
        known = add_anew(tx, alloc, account, form, line, holidays, known)?;
    }
    known_replacement(tx, alloc, account, from, known)
}

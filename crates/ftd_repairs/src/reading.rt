//! What is read of an account before it changes: its open years, the holidays, and its obligations.

ghost use Rattle.std.specs.Prelude.{◌<◌, ◌≤◌, IsTrue};
ghost use Rattle.ftd_rules.specs.Lists.{Has};
ghost use Rattle.ftd_rules.specs.Obligations.{ByFirstDay};
ghost use Rattle.ftd_rules.specs.declared.YearLine.{YearLine};
ghost use Rattle.ftd_store.specs.Frame.{Reads};
ghost use Rattle.ftd_repairs.specs.Calendars.{KnowsYears};
ghost use Rattle.ftd_repairs.specs.Replaced.{AreBetween};

use ftd_days::{Day, Holidays, LAST_OPEN_YEAR};
use ftd_rules::{Obligation, YearLine};
use ftd_store::{StoreFault, Tx};
use sqlite::Alter;
use std::alloc::Global;

/// What is read of an account before it changes.
#[derive(Drop)]
pub struct KnownYears {
    /// The lines of its open years, by year.
    pub lines: Vec<YearLine>,
    /// The holidays of these years from that of a day on, and of the years after them.
    pub holidays: Holidays,
}

/// A year that comes after those of the lines, where they are of years up to 2098.
fn year_after(lines: &[YearLine]) -> u32
    ensures { (line : YearLine) → Has lines.now line → line.year ≤ LAST_OPEN_YEAR
        → line.year < result }
{
    let mut end = 0;
    for line in lines {
        if end <= line.year {
            end = line.year.saturating_add(1);
        }
    }
    end
}

/// The account's open years, and the holidays of those from the day's on and of the year after.
/// `Failed` also where the calendar of one of these years is not given.
pub(crate) fn known_years<S: Alter>(
    tx: &mut Tx<'_, S>,
    alloc: Global,
    account: &str,
    day: Day,
) -> Result<KnownYears, StoreFault>
    ensures call { Reads S.Store tx.old tx.new result (KnowsYears account.now day) }
{
    let lines = tx.years(alloc, account)?;
    let holidays = tx.holidays(alloc, day.year(), year_after(&lines))?;
    Ok(KnownYears { lines, holidays })
}

/// Whether each row begins before the next.
fn rise(rows: &[Obligation]) -> bool
    ensures { IsTrue result → ByFirstDay rows.now }
{
    match rows {
        [] => true,
        [_] => true,
        [row, later @ ..] => row.first < later[0].first && rise(later),
    }
}

/// The account's obligations that begin on the days from one to another, by first day. `Failed`
/// also where two begin on one day.
pub(crate) fn known_obligations<S: Alter>(
    tx: &mut Tx<'_, S>,
    alloc: Global,
    account: &str,
    from: Day,
    to: Day,
) -> Result<Vec<Obligation>, StoreFault>
    ensures call { Reads S.Store tx.old tx.new result
        (λ rows. AreBetween account.now from to rows.items) }
{
    let rows = tx.obligations(alloc, account, from, to)?;
    if !rise(&rows) {
        return tx.give_up(StoreFault::Failed);
    }
    Ok(rows)
}

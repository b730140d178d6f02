//! The open years of the accounts.

ghost use Rattle.std.specs.Prelude.{◌≡◌, ◌≢◌, ◌↔◌, Err, List, [], ◌∷◌, IsTrue, IfOk, IfErr, OnOk};
ghost use Rattle.std.specs.Prelude.{None};
ghost use Rattle.std.specs.List.{All};
ghost use Rattle.std.specs.Option.{option_map};
ghost use Rattle.ftd_rules.specs.Years.{AreOpenYears};
ghost use Rattle.ftd_store.specs.Cells.{year_cells, IsYearCells};
ghost use Rattle.ftd_store.specs.Years.{year_line, year_lines, is_carried, HasFittingTurn};

use crate::account_cells::Account;
use crate::cells::{StoredDay, StoredSchedule};
use crate::faults::StoreFault;
use crate::reader::FromRow;
use ftd_days::{Cents, Day, FIRST_YEAR, LAST_OPEN_YEAR, LAST_YEAR};
use ftd_rules::{Kind, YearLine};
use sqlite::Row;
use std::alloc::Global;

/// An open year as it is stored. Whether the account is carried into it stands with the account.
#[derive(Clone, Copy, Debug, PartialEq, Eq)]
pub struct StoredYear {
    pub year: u32,
    /// What was reported for the lookback period.
    pub lookback: Cents,
    /// The schedule on the first day of the year.
    pub opening: Kind,
    /// The day of the year on which the account turned semiweekly.
    pub turn: Option<Day>,
}

impl StoredYear {
    /// The year as a line, with whether the account is carried into it.
    pub fn line(self, carried: bool) -> YearLine
        ensures { result ≡ year_line carried self }
    {
        YearLine {
            year: self.year,
            lookback: self.lookback,
            carried,
            opening: self.opening,
            turn: self.turn,
        }
    }
}

impl FromRow for StoredYear {
    ghost shown = { year_cells };

    ghost is_readable = { IsYearCells };

    fn from_row(row: &Row) -> Result<StoredYear, StoreFault> {
        if row.column_count() != 4 {
            return Err(StoreFault::Failed);
        }
        let year = row.get(0)?;
        let lookback = row.get(1)?;
        let opening: StoredSchedule = row.get(2)?;
        let turn: Option<StoredDay> = row.get(3)?;
        Ok(StoredYear {
            year,
            lookback: Cents(lookback),
            opening: opening.0,
            turn: day_of(turn),
        })
    }
}

/// The turn as it is stored, NULL where there is none.
pub fn stored_turn(turn: Option<Day>) -> Option<StoredDay>
    ensures { turn ≡ option_map (λ day. day.0) result }
{
    match turn {
        Some(day) => Some(StoredDay(day)),
        None => None,
    }
}

fn day_of(stored: Option<StoredDay>) -> Option<Day>
    ensures { result ≡ option_map (λ day. day.0) stored }
{
    match stored {
        Some(day) => Some(day.0),
        None => None,
    }
}

// the years as lines, the first carried as the account is and no other. `Failed` where there are
// years and no account, `Memory` where there is none
fn lines_of(
    alloc: Global,
    account: Option<Account>,
    years: &[StoredYear],
) -> Result<Vec<YearLine>, StoreFault>
    ensures lines { IfOk result (λ lines. lines.items ≡ year_lines (is_carried account) years.now) }
    ensures there { OnOk result (account ≡ None → years.now ≡ []) }
    ensures bad { result ≡ Err StoreFault.Failed → (account ≡ None) × (years.now ≢ []) }
{
    if account.is_none() && !years.is_empty() {
        return Err(StoreFault::Failed);
    }
    let mut carried = account.is_some_and(|account| account.carried);
    let mut lines = Vec::new(alloc);
    for year in years {
        lines.push(year.line(carried))?;
        carried = false;
    }
    Ok(lines)
}

// whether a turn lies in its year and beside a monthly opening
fn turn_fits(line: &YearLine) -> bool
    ensures { IsTrue result ↔ HasFittingTurn line.now }
{
    match line.turn {
        Some(turn) => line.opening == Kind::Monthly && turn.year() == line.year,
        None => true,
    }
}

// the first line's year; any year serves where there is none
fn first_year(lines: &[YearLine]) -> u32
    ensures some { (line : YearLine) (more : List YearLine) → lines.now ≡ line ∷ more
        → result ≡ line.year }
    ensures none { lines.now ≡ [] → result ≡ FIRST_YEAR }
{
    match lines.first() {
        Some(line) => line.year,
        None => FIRST_YEAR,
    }
}

// whether the years go on one by one within 2001 to 2098, and each turn lies in its year and beside
// a monthly opening; `Failed` where they do not
fn check_years(lines: &[YearLine]) -> Result<(), StoreFault>
    ensures whole { OnOk result (AreOpenYears lines.now) }
    ensures turns { OnOk result (All HasFittingTurn lines.now) }
    ensures bad { IfErr result (λ e. (e ≡ StoreFault.Failed) × (AreOpenYears lines.now
        → ¬ All HasFittingTurn lines.now)) }
{
    let first = first_year(lines);
    if first < FIRST_YEAR || first > LAST_YEAR {
        return Err(StoreFault::Failed);
    }
    let mut year = first;
    for line in lines {
        if line.year != year || year > LAST_OPEN_YEAR || !turn_fits(line) {
            return Err(StoreFault::Failed);
        }
        year += 1;
    }
    Ok(())
}

/// The years as lines, the first carried as the account is and no other. `Failed` where the years
/// do not go on one by one within 2001 to 2098, where a turn lies outside its year or beside a
/// semiweekly opening, and where there are years and no account; `Memory` where there is none.
pub fn open_years(
    alloc: Global,
    account: Option<Account>,
    years: &[StoredYear],
) -> Result<Vec<YearLine>, StoreFault>
    ensures lines { IfOk result (λ lines. lines.items ≡ year_lines (is_carried account) years.now) }
    ensures there { OnOk result (account ≡ None → years.now ≡ []) }
    ensures whole { IfOk result (λ lines. AreOpenYears lines.items) }
    ensures turns { IfOk result (λ lines. All HasFittingTurn lines.items) }
    ensures bad { result ≡ Err StoreFault.Failed → AreOpenYears (year_lines
        (is_carried account) years.now)
        → All HasFittingTurn (year_lines (is_carried account) years.now) → (account ≡ None)
        × (years.now ≢ []) }
{
    let lines = lines_of(alloc, account, years)?;
    check_years(&lines)?;
    Ok(lines)
}

//! The days of a year that were given or added as holidays, each with whether it is one.

ghost use Rattle.std.specs.Prelude.{◌≡◌, ◌++◌, map, IfOk, OnOk};
ghost use Rattle.ftd_store.specs.Frame.{Reads};
ghost use Rattle.ftd_kept.specs.Kept.{KnowsHolidays, told_days, told_holiday};

use ftd_days::Day;
use ftd_machine::{KeptHoliday, are_rising};
use ftd_store::{HolidayChange, StoreFault, Tx, is_kept};
use sqlite::Alter;
use std::alloc::{AllocError, Global};

/// The days of a year whose calendar was given with these: those, and then the days that were added
/// to it. `Failed` also where the latter do not rise.
pub(crate) fn all_holidays<S: Alter>(
    tx: &mut Tx<'_, S>,
    alloc: Global,
    year: u32,
    given: &[Day],
) -> Result<Vec<KeptHoliday>, StoreFault>
    ensures call { Reads S.Store tx.old tx.new result
        (λ rows. KnowsHolidays year given.now rows.items) }
{
    let added = tx.added_holidays(alloc, year)?;
    let changes = tx.holiday_changes(alloc, year)?;
    if !are_rising(&added) {
        return tx.give_up(StoreFault::Failed);
    }
    match told_days(alloc, &changes, given, &added) {
        Ok(rows) => Ok(rows),
        Err(AllocError) => tx.give_up(StoreFault::Memory),
    }
}

/// The days that were given, and then those that were added, as they are told by these changes.
fn told_days(
    alloc: Global,
    changes: &[HolidayChange],
    given: &[Day],
    added: &[Day],
) -> Result<Vec<KeptHoliday>, AllocError>
    ensures { IfOk result (λ rows. rows.items ≡ told_days changes.now given.now added.now) }
{
    let mut rows = Vec::new(alloc);
    add_days(changes, false, given, &mut rows)?;
    add_days(changes, true, added, &mut rows)?;
    Ok(rows)
}

/// Adds days that were given, or that were added later, as they are told by these changes. After an
/// error some of them may have been added.
fn add_days(
    changes: &[HolidayChange],
    added: bool,
    days: &[Day],
    rows: &mut Vec<KeptHoliday>,
) -> Result<(), AllocError>
    ensures { OnOk result
        (rows.new.items ≡ rows.old.items ++ map (told_holiday changes.now added) days.now) }
{
    for day in days {
        rows.push(KeptHoliday {
            day: *day,
            added,
            is_holiday: is_kept(changes, *day),
        })?;
    }
    Ok(())
}

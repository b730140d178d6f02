//! The calendars, the added holidays and the changes of days that the tables keep.

ghost use Rattle.std.specs.Prelude.{IfOk};
ghost use Rattle.ftd_store.specs.Frame.{Reads};
ghost use Rattle.ftd_check.specs.Days.{ReadsDays};
ghost use Rattle.ftd_check.specs.Private.ReadDayRows.{Shows};

use crate::calendars::{are_days_of, are_of_own_years, calendars_shown, days_of};
use crate::changes::{are_numbered, changes_shown};
use crate::day_rows::{DayRows, day_rows};
use ftd_days::Day;
use ftd_sound::{Calendar, DayChange, days_are_sound};
use ftd_store::{StoreFault, Tx};
use sqlite::Alter;
use std::alloc::{AllocError, Global};

/// The calendars, the added holidays and the changes of days, each in the order in which they were
/// accepted.
#[derive(Drop)]
pub(crate) struct KeptDays {
    /// The calendars, as they were first given.
    pub(crate) calendars: Vec<Calendar>,
    /// The holidays that were added to them.
    pub(crate) added: Vec<Day>,
    /// The days that were taken back as holidays, and those that were made holidays again.
    pub(crate) changes: Vec<DayChange>,
}

/// The days whose rows these are, where they are sound. None where the rows are not those of sound
/// days. `Err` says that memory ran out.
fn days_shown(alloc: Global, rows: &DayRows) -> Result<Option<KeptDays>, AllocError>
    ensures { IfOk result (λ kept. Shows rows.now kept) }
{
    let calendars = calendars_shown(alloc, &rows.years, &rows.holidays)?;
    if !are_days_of(&calendars, &rows.holidays) {
        return Ok(None);
    }
    if !are_of_own_years(&rows.added) {
        return Ok(None);
    }
    if !are_numbered(&rows.changes) {
        return Ok(None);
    }
    let added = days_of(alloc, &rows.added)?;
    let changes = changes_shown(alloc, &rows.changes)?;
    let are_sound = days_are_sound(alloc, &calendars, &added, &changes)?;
    if !are_sound {
        return Ok(None);
    }
    Ok(Some(KeptDays {
        calendars,
        added,
        changes,
    }))
}

/// The calendars, the added holidays and the changes of days that the tables keep, where they are
/// sound. None where the tables do not keep such days. `Err` says that a call of the transaction
/// failed, or that memory ran out.
pub(crate) fn kept_days<S: Alter>(
    tx: &mut Tx<'_, S>,
    alloc: Global,
) -> Result<Option<KeptDays>, StoreFault>
    ensures call { Reads S.Store tx.old tx.new result ReadsDays }
{
    let Some(rows) = day_rows(tx, alloc)? else {
        return Ok(None);
    };
    match days_shown(alloc, &rows) {
        Ok(kept) => Ok(kept),
        Err(AllocError) => tx.give_up(StoreFault::Memory),
    }
}

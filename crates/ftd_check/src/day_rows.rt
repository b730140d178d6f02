//! The rows of the days, as they are read.

ghost use Rattle.ftd_store.specs.Frame.{Reads};
ghost use Rattle.ftd_check.specs.Private.ReadDayRows.{ReadsDayRows};

use ftd_store::{StoreFault, Tx, YearHoliday, YearHolidayChange};
use sqlite::Alter;
use std::alloc::Global;

/// The rows of the calendars, of the added holidays and of the changes of days, each in the order
/// in which they were added.
#[derive(Drop)]
pub(crate) struct DayRows {
    /// The years whose calendars are given.
    pub(crate) years: Vec<u32>,
    /// The days of the calendars.
    pub(crate) holidays: Vec<YearHoliday>,
    /// The added holidays.
    pub(crate) added: Vec<YearHoliday>,
    /// The changes of days.
    pub(crate) changes: Vec<YearHolidayChange>,
}

/// The rows of the days. None where a row shows no value: then they are not the rows of sound days.
/// `Err` says that a call of the transaction failed, or that memory ran out.
pub(crate) fn day_rows<S: Alter>(
    tx: &mut Tx<'_, S>,
    alloc: Global,
) -> Result<Option<DayRows>, StoreFault>
    ensures call { Reads S.Store tx.old tx.new result ReadsDayRows }
{
    let Some(years) = tx.calendar_years_by_row(alloc)? else {
        return Ok(None);
    };
    let Some(holidays) = tx.holidays_by_row(alloc)? else {
        return Ok(None);
    };
    let Some(added) = tx.added_holidays_by_row(alloc)? else {
        return Ok(None);
    };
    let Some(changes) = tx.holiday_changes_by_row(alloc)? else {
        return Ok(None);
    };
    Ok(Some(DayRows {
        years,
        holidays,
        added,
        changes,
    }))
}

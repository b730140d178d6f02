//! Corrections and holidays, each with the quarter or the year that it is for.

ghost use Rattle.ftd_store.specs.AddedRows.{quarter_correction_cells, year_correction_cells};
ghost use Rattle.ftd_store.specs.AddedRows.{year_holiday_cells, year_holiday_change_cells};
ghost use Rattle.ftd_store.specs.AddedRows.{IsQuarterCorrectionCells, IsYearCorrectionCells};
ghost use Rattle.ftd_store.specs.AddedRows.{IsYearHolidayCells, IsYearHolidayChangeCells};

use crate::cells::{StoredDay, StoredFlag};
use crate::correction_cells::{Correction, HolidayChange};
use crate::faults::StoreFault;
use crate::reader::FromRow;
use ftd_days::{Cents, Day, Quarter};
use sqlite::Row;

/// A correction of the total that was reported for a quarter.
#[derive(Clone, Copy, Debug, PartialEq, Eq)]
pub struct QuarterCorrection {
    pub quarter: Quarter,
    pub correction: Correction,
}

/// A correction of the total that was reported for a year.
#[derive(Clone, Copy, Debug, PartialEq, Eq)]
pub struct YearCorrection {
    pub year: u32,
    pub correction: Correction,
}

/// A holiday, and the year that it is stored for.
#[derive(Clone, Copy, Debug, PartialEq, Eq)]
pub struct YearHoliday {
    pub day: Day,
    pub year: u32,
}

/// A change of a day, and the year that it is stored for.
#[derive(Clone, Copy, Debug, PartialEq, Eq)]
pub struct YearHolidayChange {
    pub change: HolidayChange,
    pub year: u32,
}

// The year of the quarter and its number, 1 to 4, and then the cells of a correction.
impl FromRow for QuarterCorrection {
    ghost shown = { quarter_correction_cells };

    ghost is_readable = { IsQuarterCorrectionCells };

    fn from_row(row: &Row) -> Result<QuarterCorrection, StoreFault> {
        if row.column_count() != 4 {
            return Err(StoreFault::Failed);
        }
        let year = row.get(0)?;
        let part: u32 = row.get(1)?;
        let number = row.get(2)?;
        let cents = row.get(3)?;
        let Ok(part) = u8::try_from(part) else {
            return Err(StoreFault::Failed);
        };
        let correction = Correction {
            number,
            cents: Cents(cents),
        };
        match Quarter::new(year, part) {
            Some(quarter) => Ok(QuarterCorrection {
                quarter,
                correction,
            }),
            None => Err(StoreFault::Failed),
        }
    }
}

// The year, and then the cells of a correction.
impl FromRow for YearCorrection {
    ghost shown = { year_correction_cells };

    ghost is_readable = { IsYearCorrectionCells };

    fn from_row(row: &Row) -> Result<YearCorrection, StoreFault> {
        if row.column_count() != 3 {
            return Err(StoreFault::Failed);
        }
        let year = row.get(0)?;
        let number = row.get(1)?;
        let cents = row.get(2)?;
        let correction = Correction {
            number,
            cents: Cents(cents),
        };
        Ok(YearCorrection { year, correction })
    }
}

impl FromRow for YearHoliday {
    ghost shown = { year_holiday_cells };

    ghost is_readable = { IsYearHolidayCells };

    fn from_row(row: &Row) -> Result<YearHoliday, StoreFault> {
        if row.column_count() != 2 {
            return Err(StoreFault::Failed);
        }
        let day: StoredDay = row.get(0)?;
        let year = row.get(1)?;
        Ok(YearHoliday { day: day.0, year })
    }
}

// The cells of a change of a day, and then the year.
impl FromRow for YearHolidayChange {
    ghost shown = { year_holiday_change_cells };

    ghost is_readable = { IsYearHolidayChangeCells };

    fn from_row(row: &Row) -> Result<YearHolidayChange, StoreFault> {
        if row.column_count() != 4 {
            return Err(StoreFault::Failed);
        }
        let day: StoredDay = row.get(0)?;
        let number = row.get(1)?;
        let is_holiday: StoredFlag = row.get(2)?;
        let year = row.get(3)?;
        let change = HolidayChange {
            day: day.0,
            number,
            is_holiday: is_holiday.0,
        };
        Ok(YearHolidayChange { change, year })
    }
}

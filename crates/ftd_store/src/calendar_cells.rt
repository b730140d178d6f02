//! Holidays, years and counts: rows of one cell.

ghost use Rattle.ftd_store.specs.Cells.{day_cells, count_cells, IsDayCells, IsCountCells};

use crate::cells::StoredDay;
use crate::faults::StoreFault;
use crate::reader::FromRow;
use ftd_days::Day;
use sqlite::Row;

impl FromRow for Day {
    ghost shown = { day_cells };

    ghost is_readable = { IsDayCells };

    fn from_row(row: &Row) -> Result<Day, StoreFault> {
        if row.column_count() != 1 {
            return Err(StoreFault::Failed);
        }
        let day: StoredDay = row.get(0)?;
        Ok(day.0)
    }
}

// A count, or the number of a year.
impl FromRow for u32 {
    ghost shown = { count_cells };

    ghost is_readable = { IsCountCells };

    fn from_row(row: &Row) -> Result<u32, StoreFault> {
        if row.column_count() != 1 {
            return Err(StoreFault::Failed);
        }
        Ok(row.get(0)?)
    }
}

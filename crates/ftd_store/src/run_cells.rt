//! The pay runs of the accounts.

ghost use Rattle.ftd_store.specs.Cells.{pay_run_cells, stored_run_cells, IsPayRunCells};
ghost use Rattle.ftd_store.specs.Cells.{IsStoredRunCells};

use crate::cells::{StoredDay, StoredFlag};
use crate::faults::StoreFault;
use crate::reader::FromRow;
use ftd_days::Cents;
use ftd_rules::{PayRun, Voidable};
use sqlite::Row;

impl FromRow for PayRun {
    ghost shown = { pay_run_cells };

    ghost is_readable = { IsPayRunCells };

    fn from_row(row: &Row) -> Result<PayRun, StoreFault> {
        if row.column_count() != 4 {
            return Err(StoreFault::Failed);
        }
        let payday: StoredDay = row.get(0)?;
        let fit = row.get(1)?;
        let ss = row.get(2)?;
        let medicare = row.get(3)?;
        Ok(PayRun {
            payday: payday.0,
            fit: Cents(fit),
            ss: Cents(ss),
            medicare: Cents(medicare),
        })
    }
}

impl FromRow for Voidable<PayRun> {
    ghost shown = { stored_run_cells };

    ghost is_readable = { IsStoredRunCells };

    fn from_row(row: &Row) -> Result<Voidable<PayRun>, StoreFault> {
        if row.column_count() != 5 {
            return Err(StoreFault::Failed);
        }
        let payday: StoredDay = row.get(0)?;
        let fit = row.get(1)?;
        let ss = row.get(2)?;
        let medicare = row.get(3)?;
        let voided: StoredFlag = row.get(4)?;
        let value = PayRun {
            payday: payday.0,
            fit: Cents(fit),
            ss: Cents(ss),
            medicare: Cents(medicare),
        };
        Ok(Voidable {
            value,
            voided: voided.0,
        })
    }
}

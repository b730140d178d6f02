//! The payments of the accounts.

ghost use Rattle.ftd_store.specs.Cells.{payment_cells, stored_payment_cells, IsPaymentCells};
ghost use Rattle.ftd_store.specs.Cells.{IsStoredPaymentCells};

use crate::cells::{StoredDay, StoredFlag};
use crate::faults::StoreFault;
use crate::reader::FromRow;
use ftd_days::Cents;
use ftd_rules::{Payment, Voidable};
use sqlite::Row;

// The day that it is for, the day on which it was made, and its amount.
impl FromRow for Payment {
    ghost shown = { payment_cells };

    ghost is_readable = { IsPaymentCells };

    fn from_row(row: &Row) -> Result<Payment, StoreFault> {
        if row.column_count() != 3 {
            return Err(StoreFault::Failed);
        }
        let for_day: StoredDay = row.get(0)?;
        let paid: StoredDay = row.get(1)?;
        let cents = row.get(2)?;
        Ok(Payment {
            paid: paid.0,
            for_day: for_day.0,
            cents: Cents(cents),
        })
    }
}

// The day on which it was made, the day that it is for, its amount, and whether it is void.
impl FromRow for Voidable<Payment> {
    ghost shown = { stored_payment_cells };

    ghost is_readable = { IsStoredPaymentCells };

    fn from_row(row: &Row) -> Result<Voidable<Payment>, StoreFault> {
        if row.column_count() != 4 {
            return Err(StoreFault::Failed);
        }
        let paid: StoredDay = row.get(0)?;
        let for_day: StoredDay = row.get(1)?;
        let cents = row.get(2)?;
        let voided: StoredFlag = row.get(3)?;
        let value = Payment {
            paid: paid.0,
            for_day: for_day.0,
            cents: Cents(cents),
        };
        Ok(Voidable {
            value,
            voided: voided.0,
        })
    }
}

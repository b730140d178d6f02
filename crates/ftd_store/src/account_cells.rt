//! The accounts, and what they reported.

ghost use Rattle.ftd_store.specs.Cells.{account_cells, form_cells, cents_cells, IsAccountCells};
ghost use Rattle.ftd_store.specs.Cells.{IsFormCells, IsCentsCells};

use crate::cells::{StoredDay, StoredFlag, StoredForm};
use crate::faults::StoreFault;
use crate::reader::FromRow;
use ftd_days::{Cents, Day};
use ftd_rules::Form;
use sqlite::Row;

/// An employer's account.
#[derive(Clone, Copy, Debug, PartialEq, Eq)]
pub struct Account {
    /// The first day that it is for.
    pub start: Day,
    /// Whether it came in as semiweekly.
    pub carried: bool,
}

impl FromRow for Account {
    ghost shown = { account_cells };

    ghost is_readable = { IsAccountCells };

    fn from_row(row: &Row) -> Result<Account, StoreFault> {
        if row.column_count() != 2 {
            return Err(StoreFault::Failed);
        }
        let start: StoredDay = row.get(0)?;
        let carried: StoredFlag = row.get(1)?;
        Ok(Account {
            start: start.0,
            carried: carried.0,
        })
    }
}

impl FromRow for Form {
    ghost shown = { form_cells };

    ghost is_readable = { IsFormCells };

    fn from_row(row: &Row) -> Result<Form, StoreFault> {
        if row.column_count() != 1 {
            return Err(StoreFault::Failed);
        }
        let form: StoredForm = row.get(0)?;
        Ok(form.0)
    }
}

// An amount alone, as the total of a quarter or a year.
impl FromRow for Cents {
    ghost shown = { cents_cells };

    ghost is_readable = { IsCentsCells };

    fn from_row(row: &Row) -> Result<Cents, StoreFault> {
        if row.column_count() != 1 {
            return Err(StoreFault::Failed);
        }
        Ok(Cents(row.get(0)?))
    }
}

//! The obligations of the accounts.

ghost use Rattle.ftd_store.specs.Cells.{obligation_cells, account_obligation_cells};
ghost use Rattle.ftd_store.specs.Cells.{IsObligationCells, IsAccountObligationCells};

use crate::cells::{StoredDay, StoredRule};
use crate::faults::StoreFault;
use crate::reader::FromRow;
use ftd_days::Cents;
use ftd_rules::Obligation;
use sqlite::Row;

/// An obligation, and whose it is.
#[derive(Debug, Drop)]
pub struct AccountObligation {
    /// The name of the account.
    pub account: String,
    pub obligation: Obligation,
}

impl FromRow for Obligation {
    ghost shown = { obligation_cells };

    ghost is_readable = { IsObligationCells };

    fn from_row(row: &Row) -> Result<Obligation, StoreFault> {
        if row.column_count() != 5 {
            return Err(StoreFault::Failed);
        }
        let first: StoredDay = row.get(0)?;
        let last: StoredDay = row.get(1)?;
        let rule: StoredRule = row.get(2)?;
        let cents = row.get(3)?;
        let due: StoredDay = row.get(4)?;
        Ok(Obligation {
            first: first.0,
            last: last.0,
            rule: rule.0,
            cents: Cents(cents),
            due: due.0,
        })
    }
}

impl FromRow for AccountObligation {
    ghost shown = { account_obligation_cells };

    ghost is_readable = { IsAccountObligationCells };

    fn from_row(row: &Row) -> Result<AccountObligation, StoreFault> {
        if row.column_count() != 6 {
            return Err(StoreFault::Failed);
        }
        let account = row.get(0)?;
        let first: StoredDay = row.get(1)?;
        let last: StoredDay = row.get(2)?;
        let rule: StoredRule = row.get(3)?;
        let cents = row.get(4)?;
        let due: StoredDay = row.get(5)?;
        let obligation = Obligation {
            first: first.0,
            last: last.0,
            rule: rule.0,
            cents: Cents(cents),
            due: due.0,
        };
        Ok(AccountObligation {
            account,
            obligation,
        })
    }
}

//! What was put right: corrections of totals and of accounts, and changes of holidays, each with
//! its number.

ghost use Rattle.ftd_store.specs.CorrectionRows.{correction_cells};
ghost use Rattle.ftd_store.specs.CorrectionRows.{account_correction_cells};
ghost use Rattle.ftd_store.specs.CorrectionRows.{holiday_change_cells, IsCorrectionCells};
ghost use Rattle.ftd_store.specs.CorrectionRows.{IsAccountCorrectionCells, IsHolidayChangeCells};
ghost use Rattle.ftd_store.specs.CorrectionRows.{as_corrected, last_account};
ghost use Rattle.std.specs.Prelude.{◌≡◌};

use crate::account_cells::Account;
use crate::cells::{StoredDay, StoredFlag};
use crate::faults::StoreFault;
use crate::reader::FromRow;
use ftd_days::{Cents, Day};
use sqlite::Row;

/// A correction of a total: of a quarter's, or of a year's.
#[derive(Clone, Copy, Debug, PartialEq, Eq)]
pub struct Correction {
    /// 1 for the first correction of the total, 2 for the next.
    pub number: u32,
    /// What the total is.
    pub cents: Cents,
}

/// A correction of an account's first day, and of whether it was carried over.
#[derive(Clone, Copy, Debug, PartialEq, Eq)]
pub struct AccountCorrection {
    /// 1 for the first correction of the account, 2 for the next.
    pub number: u32,
    /// What the account is.
    pub account: Account,
}

/// A change of a day: that it is no holiday, or that it is one again.
#[derive(Clone, Copy, Debug, PartialEq, Eq)]
pub struct HolidayChange {
    pub day: Day,
    /// 1 for the first change of the day, 2 for the next.
    pub number: u32,
    /// Whether the day is a holiday.
    pub is_holiday: bool,
}

impl FromRow for Correction {
    ghost shown = { correction_cells };

    ghost is_readable = { IsCorrectionCells };

    fn from_row(row: &Row) -> Result<Correction, StoreFault> {
        if row.column_count() != 2 {
            return Err(StoreFault::Failed);
        }
        let number = row.get(0)?;
        let cents = row.get(1)?;
        Ok(Correction {
            number,
            cents: Cents(cents),
        })
    }
}

// The number, then the cells of the account.
impl FromRow for AccountCorrection {
    ghost shown = { account_correction_cells };

    ghost is_readable = { IsAccountCorrectionCells };

    fn from_row(row: &Row) -> Result<AccountCorrection, StoreFault> {
        if row.column_count() != 3 {
            return Err(StoreFault::Failed);
        }
        let number = row.get(0)?;
        let start: StoredDay = row.get(1)?;
        let carried: StoredFlag = row.get(2)?;
        let account = Account {
            start: start.0,
            carried: carried.0,
        };
        Ok(AccountCorrection { number, account })
    }
}

impl FromRow for HolidayChange {
    ghost shown = { holiday_change_cells };

    ghost is_readable = { IsHolidayChangeCells };

    fn from_row(row: &Row) -> Result<HolidayChange, StoreFault> {
        if row.column_count() != 3 {
            return Err(StoreFault::Failed);
        }
        let day: StoredDay = row.get(0)?;
        let number = row.get(1)?;
        let is_holiday: StoredFlag = row.get(2)?;
        Ok(HolidayChange {
            day: day.0,
            number,
            is_holiday: is_holiday.0,
        })
    }
}

/// The account as its last correction has it, or as it was enrolled where there is none. None where
/// there is no account.
pub fn as_corrected(account: Option<Account>, corrections: &[AccountCorrection]) -> Option<Account>
    ensures { result ≡ as_corrected account corrections.now }
{
    Some(last_account(account?, corrections))
}

/// The account as the last of these corrections has it, or as it is here where there is none.
fn last_account(account: Account, corrections: &[AccountCorrection]) -> Account
    ensures { result ≡ last_account account corrections.now }
{
    let mut account = account;
    for correction in corrections {
        account = correction.account;
    }
    account
}

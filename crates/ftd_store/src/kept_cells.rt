//! Rows in lists of what is kept.

ghost use Rattle.ftd_store.specs.KeptRows.{named_account_cells};
ghost use Rattle.ftd_store.specs.KeptRows.{named_form_cells, quarter_total_cells};
ghost use Rattle.ftd_store.specs.KeptRows.{year_total_cells, numbered_run_cells};
ghost use Rattle.ftd_store.specs.KeptRows.{numbered_payment_cells, IsNamedAccountCells};
ghost use Rattle.ftd_store.specs.KeptRows.{IsNamedFormCells, IsQuarterTotalCells, IsYearTotalCells};
ghost use Rattle.ftd_store.specs.KeptRows.{IsNumberedRunCells, IsNumberedPaymentCells};

use crate::account_cells::Account;
use crate::cells::{StoredDay, StoredFlag, StoredForm};
use crate::faults::StoreFault;
use crate::reader::FromRow;
use ftd_days::{Cents, Quarter};
use ftd_rules::{Form, PayRun, Payment, Voidable};
use sqlite::Row;

/// An account, and its name.
#[derive(Debug, Drop)]
pub struct NamedAccount {
    pub name: String,
    pub account: Account,
}

/// A form, and whose it is.
#[derive(Debug, Drop)]
pub struct NamedForm {
    /// The name of the account.
    pub account: String,
    pub form: Form,
}

/// The total that was reported for a quarter.
#[derive(Clone, Copy, Debug, PartialEq, Eq)]
pub struct QuarterTotal {
    pub quarter: Quarter,
    pub cents: Cents,
}

/// The total that was reported for a year.
#[derive(Clone, Copy, Debug, PartialEq, Eq)]
pub struct YearTotal {
    pub year: u32,
    pub cents: Cents,
}

/// A run, and its number.
#[derive(Clone, Copy, Debug, PartialEq, Eq)]
pub struct NumberedRun {
    pub number: u32,
    pub run: Voidable<PayRun>,
}

/// A payment, and its number.
#[derive(Clone, Copy, Debug, PartialEq, Eq)]
pub struct NumberedPayment {
    pub number: u32,
    pub payment: Voidable<Payment>,
}

impl FromRow for NamedAccount {
    ghost shown = { named_account_cells };

    ghost is_readable = { IsNamedAccountCells };

    fn from_row(row: &Row) -> Result<NamedAccount, StoreFault> {
        if row.column_count() != 3 {
            return Err(StoreFault::Failed);
        }
        let name = row.get(0)?;
        let start: StoredDay = row.get(1)?;
        let carried: StoredFlag = row.get(2)?;
        let account = Account {
            start: start.0,
            carried: carried.0,
        };
        Ok(NamedAccount { name, account })
    }
}

impl FromRow for NamedForm {
    ghost shown = { named_form_cells };

    ghost is_readable = { IsNamedFormCells };

    fn from_row(row: &Row) -> Result<NamedForm, StoreFault> {
        if row.column_count() != 2 {
            return Err(StoreFault::Failed);
        }
        let account = row.get(0)?;
        let form: StoredForm = row.get(1)?;
        Ok(NamedForm {
            account,
            form: form.0,
        })
    }
}

// The year of the quarter and its number, 1 to 4, and the amount.
impl FromRow for QuarterTotal {
    ghost shown = { quarter_total_cells };

    ghost is_readable = { IsQuarterTotalCells };

    fn from_row(row: &Row) -> Result<QuarterTotal, StoreFault> {
        if row.column_count() != 3 {
            return Err(StoreFault::Failed);
        }
        let year = row.get(0)?;
        let number: u32 = row.get(1)?;
        let cents = row.get(2)?;
        let Ok(number) = u8::try_from(number) else {
            return Err(StoreFault::Failed);
        };
        match Quarter::new(year, number) {
            Some(quarter) => Ok(QuarterTotal {
                quarter,
                cents: Cents(cents),
            }),
            None => Err(StoreFault::Failed),
        }
    }
}

impl FromRow for YearTotal {
    ghost shown = { year_total_cells };

    ghost is_readable = { IsYearTotalCells };

    fn from_row(row: &Row) -> Result<YearTotal, StoreFault> {
        if row.column_count() != 2 {
            return Err(StoreFault::Failed);
        }
        let year = row.get(0)?;
        let cents = row.get(1)?;
        Ok(YearTotal {
            year,
            cents: Cents(cents),
        })
    }
}

// The number, then the cells of a run of a key.
impl FromRow for NumberedRun {
    ghost shown = { numbered_run_cells };

    ghost is_readable = { IsNumberedRunCells };

    fn from_row(row: &Row) -> Result<NumberedRun, StoreFault> {
        if row.column_count() != 6 {
            return Err(StoreFault::Failed);
        }
        let number = row.get(0)?;
        let payday: StoredDay = row.get(1)?;
        let fit = row.get(2)?;
        let ss = row.get(3)?;
        let medicare = row.get(4)?;
        let voided: StoredFlag = row.get(5)?;
        let value = PayRun {
            payday: payday.0,
            fit: Cents(fit),
            ss: Cents(ss),
            medicare: Cents(medicare),
        };
        let run = Voidable {
            value,
            voided: voided.0,
        };
        Ok(NumberedRun { number, run })
    }
}

// The number, then the cells of a payment of a key.
impl FromRow for NumberedPayment {
    ghost shown = { numbered_payment_cells };

    ghost is_readable = { IsNumberedPaymentCells };

    fn from_row(row: &Row) -> Result<NumberedPayment, StoreFault> {
        if row.column_count() != 5 {
            return Err(StoreFault::Failed);
        }
        let number = row.get(0)?;
        let paid: StoredDay = row.get(1)?;
        let for_day: StoredDay = row.get(2)?;
        let cents = row.get(3)?;
        let voided: StoredFlag = row.get(4)?;
        let value = Payment {
            paid: paid.0,
            for_day: for_day.0,
            cents: Cents(cents),
        };
        let payment = Voidable {
            value,
            voided: voided.0,
        };
        Ok(NumberedPayment { number, payment })
    }
}

//! The payments of an account, by number, each with its void.

ghost use Rattle.ftd_store.specs.Frame.{Reads};
ghost use Rattle.ftd_machine.specs.declared.requests.Request.TheVariants.{Pay, VoidPay};
ghost use Rattle.ftd_journal.specs.Numbers.{KnowsNextPayment};
ghost use Rattle.ftd_journal.specs.Parts.{AddsPart, KnowsPayments, payment_number, payments_part};

use crate::numbered::{Numbered, add_rows, after_last, by_number};
use ftd_days::{Day, MONTHS};
use ftd_machine::{AccountName, Request};
use ftd_store::{NumberedPayment, StoreFault, Tx};
use sqlite::Alter;
use std::alloc::Global;

impl Numbered for NumberedPayment {
    ghost number_of = { payment_number };

    ghost is_voided = { λ row. row.payment.voided };

    ghost request_of = { λ name row. Pay name row.number row.payment.value };

    ghost void_of = { λ name row. VoidPay name row.number };

    fn number(&self) -> u32 {
        self.number
    }

    fn is_void(&self) -> bool {
        self.payment.voided
    }

    fn request(&self, account: AccountName) -> Request {
        Request::Pay {
            account,
            number: self.number,
            payment: self.payment.value,
        }
    }

    fn void_request(&self, account: AccountName) -> Request {
        Request::VoidPay {
            account,
            number: self.number,
        }
    }
}

/// The payments of the account, by number. `Memory` where there was none.
fn payments<S: Alter>(
    tx: &mut Tx<'_, S>,
    alloc: Global,
    name: &str,
) -> Result<Vec<NumberedPayment>, StoreFault>
    ensures call { Reads S.Store tx.old tx.new result (λ rows. KnowsPayments name.now rows.items) }
{
    let first = Day::first_of_month(0);
    let last = Day::last_of_month(MONTHS - 1);
    let found = tx.kept_payments(alloc, name, first, last)?;
    match by_number(found) {
        Ok(rows) => Ok(rows),
        Err(fault) => tx.give_up(fault),
    }
}

/// Adds the part of the account's journal that has its payments. After an error some requests may
/// have been added.
pub(crate) fn add_payments<S: Alter>(
    tx: &mut Tx<'_, S>,
    alloc: Global,
    name: &str,
    requests: &mut Vec<Request>,
) -> Result<(), StoreFault>
    ensures call { Reads S.Store tx.old tx.new result
        (λ done. AddsPart (payments_part name.now) requests.old.items requests.new.items) }
{
    let rows = payments(tx, alloc, name)?;
    match add_rows(alloc, name, &rows, requests) {
        Ok(()) => Ok(()),
        Err(fault) => tx.give_up(fault),
    }
}

/// The least number above all those of the account's payments, void ones too; 1 where it has none.
/// `Failed` where there is none below 2^32, and `Memory` where there was no memory.
pub fn next_payment<S: Alter>(
    tx: &mut Tx<'_, S>,
    alloc: Global,
    name: &str,
) -> Result<u32, StoreFault>
    ensures call { Reads S.Store tx.old tx.new result (KnowsNextPayment name.now) }
{
    let rows = payments(tx, alloc, name)?;
    match after_last(&rows) {
        Ok(number) => Ok(number),
        Err(fault) => tx.give_up(fault),
    }
}

//! The payments of the accounts.

ghost use Rattle.std.specs.Prelude.{pos, filter};
ghost use Rattle.ftd_sql.specs.declared.TableName.TheVariants.{Payments};
ghost use Rattle.ftd_sql.specs.Tests.{is_payment};
ghost use Rattle.ftd_store.specs.Amounts.{IsStorable};
ghost use Rattle.ftd_store.specs.Changes.{with_payment, with_void_payment};
ghost use Rattle.ftd_store.specs.Finds.{FindsPayment, CountsPayments, ListsPayments};
ghost use Rattle.ftd_store.specs.Frame.{Reads, Writes, WritesOne};

use crate::readings::Reading;
use crate::tx::Tx;
use crate::{StoreFault, StoredCents, StoredDay, StoredFlag};
use ftd_days::Day;
use ftd_rules::{Payment, Voidable};
use ftd_sql::{TableName, texts};
use sqlite::{Alter, params};
use std::alloc::Global;

impl<'store, S: Alter> Tx<'store, S> {
    /// The account's payment of the number, void or not, or None.
    pub fn payment(
        &mut self,
        account: &str,
        number: u32,
    ) -> Result<Option<Voidable<Payment>>, StoreFault>
        ensures call { Reads S.Store self.old self.new result (FindsPayment account.now number) }
    {
        self.read_only(Reading::ReadPayment, params![account, number])
    }

    /// How many payments the account has, void ones too. `Failed` also where they are 2^32 or more.
    pub fn count_payments(&mut self, account: &str) -> Result<u32, StoreFault>
        ensures call { Reads S.Store self.old self.new result (CountsPayments account.now) }
    {
        self.count(Reading::CountPayments, params![account])
    }

    /// Adds a payment of the account, which is not void. `Failed` where the account has one of the
    /// number, and where the account is not there.
    pub fn add_payment(
        &mut self,
        account: &str,
        number: u32,
        payment: Payment,
    ) -> Result<(), StoreFault>
        requires { IsStorable payment.cents }
        ensures call { Writes S.Store self.old self.new result
            (with_payment account.now number payment) }
    {
        let paid = StoredDay(payment.paid);
        let for_day = StoredDay(payment.for_day);
        let cents = StoredCents {
            cents: payment.cents,
        };
        let voided = StoredFlag(false);
        self.add(
            TableName::Payments,
            params![account, number, paid, for_day, cents, voided],
        )
    }

    /// Makes the account's payment of the number void, or leaves it so. `Failed` where there is
    /// none.
    pub fn void_payment(&mut self, account: &str, number: u32) -> Result<(), StoreFault>
        ensures call { WritesOne S.Store self.old self.new result
            (λ t. filter (is_payment account.now (pos number)) (t Payments))
            (with_void_payment account.now number) }
    {
        self.change_one(texts::VOID_PAYMENT, params![account, number])
    }

    /// The account's payments for the days from `from` to `to` that are not void, by day and
    /// number.
    pub fn payments_for(
        &mut self,
        alloc: Global,
        account: &str,
        from: Day,
        to: Day,
    ) -> Result<Vec<Payment>, StoreFault>
        ensures call { Reads S.Store self.old self.new result (ListsPayments account.now from to) }
    {
        self.read_all(
            alloc,
            Reading::ListPayments,
            params![account, StoredDay(from), StoredDay(to)],
        )
    }
}

//! Payments are taken, and voided.

ghost use Rattle.ftd_days.specs.Calendar.{year_of};
ghost use Rattle.ftd_store.specs.Finds.{CountsPayments};
ghost use Rattle.ftd_store.specs.Frame.{Calls, Reads};
ghost use Rattle.ftd_machine.specs.declared.requests.Request.TheVariants.{Pay, VoidPay};
ghost use Rattle.ftd_entries.specs.Payments.{KnowsForPay};
ghost use Rattle.ftd_entries.specs.Words.{Serves};

use crate::accounts::known_account;
use crate::years::is_open;
use ftd_days::Day;
use ftd_machine::{Account, Answer, Reply, pay_check, void_payment_check};
use ftd_rules::{Payment, Voidable};
use ftd_store::{StoreFault, Tx};
use sqlite::Alter;
use std::alloc::Global;

/// What is known before a payment is taken.
#[derive(Drop)]
pub(crate) struct KnownForPay {
    /// The account, if it is enrolled.
    pub account: Option<Account>,
    /// The account's payment of the number, if there is one.
    pub payment: Option<Voidable<Payment>>,
    /// Whether the year of the day that the payment is for is open.
    pub is_open: bool,
}

/// What is known of an account before a payment of this number is taken for the day.
fn known_for_pay<S: Alter>(
    tx: &mut Tx<'_, S>,
    alloc: Global,
    name: &str,
    number: u32,
    for_day: Day,
) -> Result<KnownForPay, StoreFault>
    ensures call { Reads S.Store tx.old tx.new result
        (KnowsForPay name.now number (year_of for_day)) }
{
    let account = known_account(tx, alloc, name)?;
    let payment = tx.payment(name, number)?;
    let is_open = is_open(tx, alloc, name, for_day.year())?;
    Ok(KnownForPay {
        account,
        payment,
        is_open,
    })
}

/// Takes a payment of an account, under its number. The account has so many payments, voided ones
/// too.
pub fn pay<S: Alter>(
    tx: &mut Tx<'_, S>,
    alloc: Global,
    name: &str,
    number: u32,
    payment: Payment,
    count: u32,
) -> Result<Answer, StoreFault>
    ensures call { Calls S.Store tx.old tx.new result (λ answer before after t.
        CountsPayments name.now count t
        → Serves (Pay name.now number payment)
        answer before after t) }
{
    let before = known_for_pay(tx, alloc, name, number, payment.for_day)?;
    let checked = pay_check(
        name,
        number,
        &payment,
        before.account,
        before.payment,
        before.is_open,
        count,
    );
    if let Err(answer) = checked {
        return Ok(answer);
    }
    tx.add_payment(name, number, payment)?;
    Ok(Ok(Reply::Done))
}

/// Voids the account's payment of the number.
pub fn void_payment<S: Alter>(
    tx: &mut Tx<'_, S>,
    alloc: Global,
    name: &str,
    number: u32,
) -> Result<Answer, StoreFault>
    ensures call { Calls S.Store tx.old tx.new result (Serves (VoidPay name.now number)) }
{
    let account = known_account(tx, alloc, name)?;
    let kept = tx.payment(name, number)?;
    if let Err(answer) = void_payment_check(name, number, account, kept) {
        return Ok(answer);
    }
    tx.void_payment(name, number)?;
    Ok(Ok(Reply::Done))
}

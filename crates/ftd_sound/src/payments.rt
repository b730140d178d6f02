//! Payments.

ghost use Rattle.std.specs.Prelude.{◌↔◌, IsTrue, IfOk, All};
ghost use Rattle.ftd_sound.specs.Private.Plain.{ArePayments, IsPayment};

use crate::limits::{can_have_calendar, is_amount, is_number};
use crate::once::stand_once;
use crate::years::is_one_of;
use ftd_machine::{Account, MOST_ENTRIES};
use ftd_rules::{Payment, Voidable};
use std::alloc::{AllocError, Global};

/// Whether the payments are sound, where these years are open: at most 20,000, each with a number
/// of its own. `Err` says that memory ran out.
pub(crate) fn are_payments(
    alloc: Global,
    account: Account,
    years: &[u32],
    payments: &[(u32, Voidable<Payment>)],
) -> Result<bool, AllocError>
    ensures { IfOk result (λ sound. IsTrue sound ↔ ArePayments account years.now payments.now) }
{
    if payments.len() > MOST_ENTRIES as usize {
        return Ok(false);
    }
    Ok(stand_once(alloc, payments)? && are_each(account, years, payments))
}

/// Whether each of the payments is sound.
fn are_each(account: Account, years: &[u32], payments: &[(u32, Voidable<Payment>)]) -> bool
    ensures { IsTrue result ↔ All (λ e. IsPayment account years.now e) payments.now }
{
    payments
        .iter()
        .all(|payment| is_payment(account, years, payment))
}

/// Whether the payment is sound: its number, its amount, the day on which it was made, and the day
/// that it is for.
fn is_payment(account: Account, years: &[u32], payment: &(u32, Voidable<Payment>)) -> bool
    ensures { IsTrue result ↔ IsPayment account years.now payment.now }
{
    let value = payment.1.value;
    is_number(payment.0)
        && is_amount(value.cents)
        && 1 <= value.cents.0
        && can_have_calendar(value.paid.year())
        && is_one_of(years, value.for_day.year())
        && account.start <= value.for_day
}

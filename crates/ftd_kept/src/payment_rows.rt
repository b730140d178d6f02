//! Rows of payments, as they are told.

ghost use Rattle.std.specs.Prelude.{◌≡◌, ◌↔◌, IfOk, IsTrue, filter};
ghost use Rattle.ftd_rules.specs.Laws.{Covers};
ghost use Rattle.ftd_rules.specs.Lists.{are_in_order};
ghost use Rattle.ftd_machine.specs.Agenda.{EachToLater};
ghost use Rattle.ftd_machine.specs.Kept.{IsPaymentBefore, IsHeldBy};
ghost use Rattle.ftd_store.specs.Lists.{Pairs};
ghost use Rattle.ftd_kept.specs.Payments.{IsKeptPayment, IsPaymentFor, earlier, is_live_payment};
ghost use Rattle.ftd_kept.specs.Payments.{is_payment_before, kept_payment};

use ftd_days::Day;
use ftd_machine::KeptPayment;
use ftd_rules::Obligation;
use ftd_store::{NumberedPayment, StoreFault};
use std::alloc::{AllocError, Global};

/// Whether the deposit period of the obligation holds the day.
fn holds(obligation: &Obligation, day: Day) -> bool
    ensures { IsTrue result ↔ Covers obligation.now day }
{
    obligation.first <= day && day <= obligation.last
}

/// The first day of the obligation whose deposit period holds the day, the earliest of several.
#[tactic(auto, using(crate::proofs::Held::held_by_this, crate::proofs::Held::held_before))]
pub(crate) fn held_by(owed: &[Obligation], day: Day) -> Option<Day>
    ensures { IsHeldBy owed.now day result }
{
    let mut held: Option<Day> = None;
    for obligation in owed {
        if holds(obligation, day) {
            held = Some(earlier(held, obligation.first));
        }
    }
    held
}

/// The earlier of two days, where there is the one.
fn earlier(day: Option<Day>, other: Day) -> Day
    ensures { result ≡ earlier day other }
{
    match day {
        Some(day) => day.min(other),
        None => other,
    }
}

/// A payment, as it is told.
fn kept_payment(row: &NumberedPayment, obligation: Option<Day>) -> KeptPayment
    ensures { result ≡ kept_payment row.now obligation }
{
    KeptPayment {
        number: row.number,
        payment: row.payment.value,
        voided: row.payment.voided,
        obligation,
    }
}

/// Whether a payment comes before another one: by the day that it is for, and for one day by
/// number.
fn is_payment_before(payment: &KeptPayment, next: &KeptPayment) -> bool
    ensures { result ≡ is_payment_before payment.now next.now }
{
    payment.payment.for_day < next.payment.for_day
        || payment.payment.for_day == next.payment.for_day && payment.number < next.number
}

/// Whether each payment comes before the next.
fn are_payments_in_order(payments: &[KeptPayment]) -> bool
    ensures { result ≡ are_in_order is_payment_before payments.now }
{
    payments
        .iter()
        .zip(payments.iter().skip(1))
        .all(|(payment, next)| is_payment_before(payment, next))
}

/// The payments, as they are told.
#[tactic(auto, using(crate::proofs::Held::told_more))]
fn kept_payments(
    alloc: Global,
    rows: &[NumberedPayment],
    owed: &[Obligation],
) -> Result<Vec<KeptPayment>, AllocError>
    ensures { IfOk result (λ payments.
        Pairs (IsKeptPayment owed.now) rows.now payments.items) }
{
    let mut payments = Vec::new(alloc);
    for row in rows {
        let obligation = held_by(owed, row.payment.value.for_day);
        payments.push(kept_payment(row, obligation))?;
    }
    Ok(payments)
}

/// The payments, as they are told. `Failed` where they do not go on by the day that they are for
/// and number, and `Memory` where there was no memory.
#[tactic(auto, using(crate::proofs::PaymentOrder::payments_in_order))]
pub(crate) fn told_payments(
    alloc: Global,
    rows: &[NumberedPayment],
    owed: &[Obligation],
) -> Result<Vec<KeptPayment>, StoreFault>
    ensures told { IfOk result (λ payments.
        Pairs (IsKeptPayment owed.now) rows.now payments.items) }
    ensures in_order { IfOk result (λ payments. EachToLater IsPaymentBefore payments.items) }
{
    let payments = kept_payments(alloc, rows, owed)?;
    if !are_payments_in_order(&payments) {
        return Err(StoreFault::Failed);
    }
    Ok(payments)
}

/// The payments that are not void, as they are told for the obligation that begins on the day.
fn live_payments(
    alloc: Global,
    rows: &[NumberedPayment],
    first: Day,
) -> Result<Vec<KeptPayment>, AllocError>
    ensures { IfOk result (λ payments.
        Pairs (IsPaymentFor first) (filter is_live_payment rows.now) payments.items) }
{
    let mut payments = Vec::new(alloc);
    for row in rows {
        if !row.payment.voided {
            payments.push(kept_payment(row, Some(first)))?;
        }
    }
    Ok(payments)
}

/// The payments that are not void, as they are told for the obligation that begins on the day.
/// `Failed` where they do not go on by the day that they are for and number, and `Memory` where
/// there was no memory.
#[tactic(auto, using(crate::proofs::PaymentOrder::payments_in_order))]
pub(crate) fn told_for(
    alloc: Global,
    rows: &[NumberedPayment],
    first: Day,
) -> Result<Vec<KeptPayment>, StoreFault>
    ensures told { IfOk result (λ payments.
        Pairs (IsPaymentFor first) (filter is_live_payment rows.now) payments.items) }
    ensures in_order { IfOk result (λ payments. EachToLater IsPaymentBefore payments.items) }
{
    let payments = live_payments(alloc, rows, first)?;
    if !are_payments_in_order(&payments) {
        return Err(StoreFault::Failed);
    }
    Ok(payments)
}

//! What the tables tell of an account's return period: its liability, and what was paid for it.

ghost use Rattle.std.specs.Prelude.{◌≡◌, ◌+◌, ◌<◌, ◌≤◌, IsTrue, IfOk, IfSome};
ghost use Rattle.std.specs.List.{sum_by};
ghost use Rattle.ftd_days.specs.Calendar.{quarter_year};
ghost use Rattle.ftd_rules.specs.Liability.{cents_of};
ghost use Rattle.ftd_rules.specs.Payments.{payment_cents};
ghost use Rattle.ftd_store.specs.Finds.{ListsPayments};
ghost use Rattle.ftd_store.specs.Frame.{Reads};
ghost use Rattle.ftd_entries.specs.Returns.{KnowsLiability, KnowsPayments, KnowsPreceding};
ghost use Rattle.ftd_entries.specs.Returns.{KnowsPeriod};

use crate::figure;
use ftd_days::{Cents, Day, FIRST_YEAR, Quarter};
use ftd_machine::ReturnPeriod;
use ftd_rules::{AMOUNTS_END, DaySum, Form, Payment, period};
use ftd_store::{StoreFault, Tx};
use sqlite::Alter;
use std::alloc::Global;

/// What is known of the return period of a quarter.
#[derive(Drop)]
pub struct ReturnFacts {
    /// Its first day.
    pub first: Day,
    /// Its last day.
    pub last: Day,
    /// The payments for its days that are not void.
    pub payments: Vec<Payment>,
    /// Its liability.
    pub total: Cents,
    /// The figure of the quarter before, which counts on Form 941 alone.
    pub preceding: Option<Cents>,
}

/// The amount of the sums, or None where it reaches 60,000,000,000,000.00.
fn total_of_sums(sums: &[DaySum]) -> Option<Cents>
    ensures { IfSome result (λ total. total.0 ≡ sum_by cents_of sums.now) }
{
    let mut total = 0;
    for sum in sums {
        if AMOUNTS_END - total <= sum.cents.0 {
            return None;
        }
        total += sum.cents.0;
    }
    Some(Cents(total))
}

/// Whether the payments are together less than 60,000,000,000,000.00.
fn are_below_end(payments: &[Payment]) -> bool
    ensures { IsTrue result → sum_by payment_cents payments.now < AMOUNTS_END }
{
    let mut total = 0;
    for payment in payments {
        if AMOUNTS_END - total <= payment.cents.0 {
            return false;
        }
        total += payment.cents.0;
    }
    true
}

/// The account's liability of the days. `Failed` also where it reaches 60,000,000,000,000.00.
fn liability_of<S: Alter>(
    tx: &mut Tx<'_, S>,
    alloc: Global,
    name: &str,
    first: Day,
    last: Day,
) -> Result<Cents, StoreFault>
    ensures call { Reads S.Store tx.old tx.new result (KnowsLiability name.now first last) }
{
    let sums = tx.day_sums(alloc, name, first, last)?;
    match total_of_sums(&sums) {
        Some(total) => Ok(total),
        None => tx.give_up(StoreFault::Failed),
    }
}

/// The account's payments for the days that are not void, those of the table's rows. `Failed` also
/// where they reach 60,000,000,000,000.00.
pub fn payments_of<S: Alter>(
    tx: &mut Tx<'_, S>,
    alloc: Global,
    name: &str,
    first: Day,
    last: Day,
) -> Result<Vec<Payment>, StoreFault>
    ensures call { Reads S.Store tx.old tx.new result
        (λ payments. KnowsPayments name.now first last payments.items) }
    ensures rows { Reads S.Store tx.old tx.new result (ListsPayments name.now first last) }
    ensures small { IfOk result (λ payments.
        sum_by payment_cents payments.items < AMOUNTS_END) }
{
    let payments = tx.payments_for(alloc, name, first, last)?;
    if !are_below_end(&payments) {
        return tx.give_up(StoreFault::Failed);
    }
    Ok(payments)
}

/// The figure of the quarter before, as it is in force, which counts on Form 941 alone.
fn preceding<S: Alter>(
    tx: &mut Tx<'_, S>,
    alloc: Global,
    name: &str,
    form: Form,
    quarter: Quarter,
) -> Result<Option<Cents>, StoreFault>
    requires { FIRST_YEAR ≤ quarter_year quarter }
    ensures call { Reads S.Store tx.old tx.new result (KnowsPreceding name.now form quarter) }
{
    let before = ReturnPeriod::Quarter(Quarter::at(quarter.quarters() - 1));
    let found = figure(tx, alloc, name, before)?;
    match form {
        Form::F941 => Ok(found),
        Form::F943 => Ok(None),
    }
}

/// What is known of the return period of the quarter.
pub fn return_period<S: Alter>(
    tx: &mut Tx<'_, S>,
    alloc: Global,
    name: &str,
    form: Form,
    quarter: Quarter,
) -> Result<ReturnFacts, StoreFault>
    requires { FIRST_YEAR ≤ quarter_year quarter }
    ensures call { Reads S.Store tx.old tx.new result (KnowsPeriod name.now form quarter) }
    ensures small { IfOk result (λ period.
        sum_by payment_cents period.payments.items < AMOUNTS_END) }
{
    let (first, last) = period::return_period(form, quarter.first());
    let payments = payments_of(tx, alloc, name, first, last)?;
    let total = liability_of(tx, alloc, name, first, last)?;
    let preceding = preceding(tx, alloc, name, form, quarter)?;
    Ok(ReturnFacts {
        first,
        last,
        payments,
        total,
        preceding,
    })
}

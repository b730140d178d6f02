//! Money that counts for nothing, over all accounts: payments for a day of no obligation, and what
//! was paid for an obligation beyond its amount.

ghost use Rattle.std.specs.Prelude.{◌≡◌, ◌⊎◌, ◌<◌, ◌↔◌, ◌++◌, ◌∷◌, [], IfOk, OnOk};
ghost use Rattle.std.specs.List.{sum_by};
ghost use Rattle.ftd_rules.specs.Lists.{Has, are_in_order};
ghost use Rattle.ftd_rules.specs.Payments.{payment_cents};
ghost use Rattle.ftd_store.specs.Frame.{Calls, Reads};
ghost use Rattle.ftd_machine.specs.declared.lists.UnappliedRow.{UnappliedRow as UnappliedRowValue};
ghost use Rattle.ftd_machine.specs.declared.requests.Question.TheVariants as questions;
ghost use Rattle.ftd_machine.specs.declared.requests.Request.TheVariants.{Question};
ghost use Rattle.ftd_entries.specs.Words.{Serves};
ghost use Rattle.ftd_kept.specs.Unapplied.{Adds, IsOfOne, IsOverpaidRow, IsStrayRow};
ghost use Rattle.ftd_kept.specs.Unapplied.{KnowsOwnUnapplied, KnowsUnapplied};
ghost use Rattle.ftd_kept.specs.Unapplied.{is_day_before, is_number_before};
ghost use Rattle.ftd_kept.specs.Unapplied.{is_unapplied_before, obligation_row, paid_for};
ghost use Rattle.ftd_kept.specs.Unapplied.{stray_row};

use crate::payment_rows::held_by;
use ftd_days::{Cents, Day, MONTHS};
use ftd_entries::{all_accounts, payments_of};
use ftd_machine::{
    AccountName, Answer, Facts, Reply, UnappliedList, UnappliedRow, UnappliedRows, unapplied_check,
};
use ftd_rules::{AMOUNTS_END, Obligation, Payment, paid_by};
use ftd_store::{NumberedPayment, StoreFault, Tx};
use sqlite::Alter;
use std::alloc::Global;

// ---- one account

/// All that the payments count for the obligation.
fn paid_for(obligation: &Obligation, payments: &[Payment]) -> Cents
    requires { sum_by payment_cents payments.now < AMOUNTS_END }
    ensures { result.0 ≡ paid_for payments.now obligation.now }
{
    let end = Day::last_of_month(MONTHS - 1);
    paid_by(payments, obligation.first, obligation.last, end, end)
}

/// Adds the row of an obligation of the account, for which so much was paid. `Memory` where there
/// was none.
fn add_obligation(
    alloc: Global,
    name: &str,
    obligation: &Obligation,
    paid: Cents,
    rows: &mut Vec<UnappliedRow>,
) -> Result<(), StoreFault>
    ensures { OnOk result (rows.new.items
        ≡ rows.old.items ++ obligation_row name.now obligation.now paid ∷ []) }
{
    let account = AccountName::from_string(String::from_str(alloc, name)?);
    rows.push(UnappliedRow {
        account,
        payment: None,
        first: obligation.first,
        last: obligation.last,
        amount: obligation.cents,
        paid,
    })?;
    Ok(())
}

/// Adds the row of an obligation of the account, where the payments count more for it than its
/// amount. `Memory` where there was none.
fn add_if_overpaid(
    alloc: Global,
    name: &str,
    obligation: &Obligation,
    payments: &[Payment],
    rows: &mut Vec<UnappliedRow>,
) -> Result<(), StoreFault>
    requires { sum_by payment_cents payments.now < AMOUNTS_END }
    ensures { OnOk result (Adds (IsOverpaidRow name.now payments.now obligation.now)
        rows.old.items rows.new.items) }
{
    let paid = paid_for(obligation, payments);
    if paid.0 <= obligation.cents.0 {
        return Ok(());
    }
    add_obligation(alloc, name, obligation, paid, rows)?;
    Ok(())
}

/// Adds the rows of those of the account's obligations for which the payments count more than the
/// amount. `Memory` where there was none.
fn add_overpaid(
    alloc: Global,
    name: &str,
    owed: &[Obligation],
    payments: &[Payment],
    rows: &mut Vec<UnappliedRow>,
) -> Result<(), StoreFault>
    requires { sum_by payment_cents payments.now < AMOUNTS_END }
    ensures { OnOk result (Adds (IsOfOne (IsOverpaidRow name.now payments.now) owed.now)
        rows.old.items rows.new.items) }
{
    for obligation in owed {
        add_if_overpaid(alloc, name, obligation, payments, rows)?;
    }
    Ok(())
}

/// Adds the row of a payment of the account. `Memory` where there was none.
fn add_payment(
    alloc: Global,
    name: &str,
    row: &NumberedPayment,
    rows: &mut Vec<UnappliedRow>,
) -> Result<(), StoreFault>
    ensures { OnOk result
        (rows.new.items ≡ rows.old.items ++ stray_row name.now row.now ∷ []) }
{
    let account = AccountName::from_string(String::from_str(alloc, name)?);
    let payment = row.payment.value;
    rows.push(UnappliedRow {
        account,
        payment: Some(row.number),
        first: payment.for_day,
        last: payment.for_day,
        amount: Cents(0),
        paid: payment.cents,
    })?;
    Ok(())
}

/// Adds the row of a payment of the account, where it is not void and none of the obligations holds
/// its day. `Memory` where there was none.
fn add_if_stray(
    alloc: Global,
    name: &str,
    row: &NumberedPayment,
    owed: &[Obligation],
    rows: &mut Vec<UnappliedRow>,
) -> Result<(), StoreFault>
    ensures { OnOk result (Adds (IsStrayRow name.now owed.now row.now)
        rows.old.items rows.new.items) }
{
    if row.payment.voided {
        return Ok(());
    }
    match held_by(owed, row.payment.value.for_day) {
        Some(_) => {}
        None => add_payment(alloc, name, row, rows)?,
    }
    Ok(())
}

/// Adds the rows of those of the account's payments that are not void, and for a day that none of
/// the obligations holds. `Memory` where there was none.
fn add_stray(
    alloc: Global,
    name: &str,
    found: &[NumberedPayment],
    owed: &[Obligation],
    rows: &mut Vec<UnappliedRow>,
) -> Result<(), StoreFault>
    ensures { OnOk result (Adds (IsOfOne (IsStrayRow name.now owed.now) found.now)
        rows.old.items rows.new.items) }
{
    for row in found {
        add_if_stray(alloc, name, row, owed, rows)?;
    }
    Ok(())
}

/// The rows of the account, by first day. `Memory` where there was none.
fn own_rows(
    alloc: Global,
    name: &str,
    owed: &[Obligation],
    payments: &[Payment],
    found: &[NumberedPayment],
) -> Result<Vec<UnappliedRow>, StoreFault>
    requires { sum_by payment_cents payments.now < AMOUNTS_END }
    ensures { IfOk result (λ rows. (x : UnappliedRowValue) → Has rows.items x
        ↔ (IsOfOne (IsOverpaidRow name.now payments.now) owed.now x
        ⊎ IsOfOne (IsStrayRow name.now owed.now) found.now x)) }
{
    let mut rows: Vec<UnappliedRow> = Vec::new(alloc);
    add_overpaid(alloc, name, owed, payments, &mut rows)?;
    add_stray(alloc, name, found, owed, &mut rows)?;
    rows.sort_by_key(|row| row.first)?;
    Ok(rows)
}

/// The rows of the account up to the day, by first day.
fn own_unapplied<S: Alter>(
    tx: &mut Tx<'_, S>,
    alloc: Global,
    name: &str,
    until: Day,
) -> Result<Vec<UnappliedRow>, StoreFault>
    ensures call { Reads S.Store tx.old tx.new result
        (λ rows. KnowsOwnUnapplied name.now until rows.items) }
{
    let first = Day::first_of_month(0);
    let owed = tx.obligations(alloc, name, first, until)?;
    let payments = payments_of(tx, alloc, name, first, Day::last_of_month(MONTHS - 1))?;
    let found = tx.kept_payments(alloc, name, first, until)?;
    match own_rows(alloc, name, &owed, &payments, &found) {
        Ok(rows) => Ok(rows),
        Err(fault) => tx.give_up(fault),
    }
}

// ---- all accounts

/// Adds the rows behind the others. `Memory` where there was none.
fn add_rows(own: Vec<UnappliedRow>, rows: &mut Vec<UnappliedRow>) -> Result<(), StoreFault>
    ensures { OnOk result (rows.new.items ≡ rows.old.items ++ own.items) }
{
    for row in own {
        rows.push(row)?;
    }
    Ok(())
}

/// The rows of all accounts up to the day, account by account.
fn all_unapplied<S: Alter>(
    tx: &mut Tx<'_, S>,
    alloc: Global,
    until: Day,
) -> Result<Vec<UnappliedRow>, StoreFault>
    ensures call { Reads S.Store tx.old tx.new result
        (λ rows. KnowsUnapplied until rows.items) }
{
    let accounts = all_accounts(tx, alloc)?;
    let mut rows: Vec<UnappliedRow> = Vec::new(alloc);
    for account in &accounts {
        let own = own_unapplied(tx, alloc, account.name.as_str(), until)?;
        if let Err(fault) = add_rows(own, &mut rows) {
            return tx.give_up(fault);
        }
    }
    Ok(rows)
}

/// Whether an obligation or a payment under the one number comes before that of the other: an
/// obligation before a payment, and payments by number.
fn is_number_before(number: Option<u32>, next: Option<u32>) -> bool
    ensures { result ≡ is_number_before number next }
{
    match (number, next) {
        (_, None) => false,
        (None, Some(_)) => true,
        (Some(number), Some(next)) => number < next,
    }
}

/// Whether a row comes before another one of the account: by first day, and on one day by number.
fn is_day_before(row: &UnappliedRow, next: &UnappliedRow) -> bool
    ensures { result ≡ is_day_before row.now next.now }
{
    row.first < next.first || row.first == next.first && is_number_before(row.payment, next.payment)
}

/// Whether a row comes before another one: by account, then by first day and number.
fn is_unapplied_before(row: &UnappliedRow, next: &UnappliedRow) -> bool
    ensures { result ≡ is_unapplied_before row.now next.now }
{
    let (account, other) = (row.account.as_str(), next.account.as_str());
    account < other || account == other && is_day_before(row, next)
}

/// Whether each row comes before the next.
fn are_unapplied_in_order(rows: &[UnappliedRow]) -> bool
    ensures { result ≡ are_in_order is_unapplied_before rows.now }
{
    rows.iter()
        .zip(rows.iter().skip(1))
        .all(|(row, next)| is_unapplied_before(row, next))
}

/// Tells which money counts for nothing, over all accounts, of the days up to one. `Failed` also
/// where the rows do not go on by account, first day and number.
pub fn unapplied_money<S: Alter>(
    tx: &mut Tx<'_, S>,
    alloc: Global,
    until: Day,
) -> Result<Answer, StoreFault>
    ensures call { Calls S.Store tx.old tx.new result
        (Serves (Question (questions.Unapplied until))) }
{
    let rows = all_unapplied(tx, alloc, until)?;
    if let Err(answer) = unapplied_check(until) {
        return Ok(answer);
    }
    if !are_unapplied_in_order(&rows) {
        return tx.give_up(StoreFault::Failed);
    }
    Ok(Ok(Reply::Told(Facts::Unapplied(UnappliedList {
        until,
        rows: UnappliedRows::from_vec(rows),
    }))))
}

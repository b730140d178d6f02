//! The obligations of all accounts that are due between two days, by what the tables have. They are
//! read account by account, and of each account those alone that begin late enough. What is paid in
//! full is left out where only the rest is asked for.

ghost use Rattle.std.specs.Prelude.{◌≡◌, ◌-◌, ◌<◌, IfOk, OnOk, filter};
ghost use Rattle.std.specs.List.{sum_by};
ghost use Rattle.ftd_days.specs.Calendar.{year_of, year_start};
ghost use Rattle.ftd_rules.specs.Payments.{payment_cents};
ghost use Rattle.ftd_store.specs.Frame.{Reads};
ghost use Rattle.ftd_questions.specs.Listing.{AddsDue, ListsDue, ListsOwn, is_due_on, is_unpaid};

use ftd_days::Day;
use ftd_entries::{all_accounts, payments_of};
use ftd_rules::{AMOUNTS_END, Obligation, Payment, paid_by};
use ftd_store::{AccountObligation, StoreFault, Tx};
use sqlite::Alter;
use std::alloc::Global;

/// The first day of the year before that of a day, or of 1900 where that is its year. What is due
/// on the day or later begins there or later: a deposit is due in the year of its days or in the
/// next.
fn year_before(day: Day) -> Day
    ensures { result ≡ year_start (year_of day - 1) }
{
    let years = day.month_number() / 12;
    Day::first_of_month(12 * years.saturating_sub(1))
}

/// Whether the payments do not reach the amount of the obligation, as of a day.
fn is_unpaid(obligation: &Obligation, payments: &[Payment], as_of: Day) -> bool
    requires { sum_by payment_cents payments.now < AMOUNTS_END }
    ensures { result ≡ is_unpaid payments.now as_of obligation.now }
{
    let (first, last) = (obligation.first, obligation.last);
    paid_by(payments, first, last, as_of, as_of) < obligation.cents
}

/// Those of the obligations whose amounts the payments do not reach, as of a day.
fn unpaid_of(
    alloc: Global,
    owed: &[Obligation],
    payments: &[Payment],
    as_of: Day,
) -> Result<Vec<Obligation>, StoreFault>
    requires { sum_by payment_cents payments.now < AMOUNTS_END }
    ensures { IfOk result (λ left.
        left.items ≡ filter (is_unpaid payments.now as_of) owed.now) }
{
    let mut left = Vec::new(alloc);
    for obligation in owed {
        if is_unpaid(obligation, payments, as_of) {
            left.push(*obligation)?;
        }
    }
    Ok(left)
}

/// An account's obligations that may be due on one of the days, by first day; without those that
/// are paid in full as of a day, where one is given.
fn own_due<S: Alter>(
    tx: &mut Tx<'_, S>,
    alloc: Global,
    name: &str,
    from: Day,
    to: Day,
    unpaid: &Option<Day>,
) -> Result<Vec<Obligation>, StoreFault>
    ensures call { Reads S.Store tx.old tx.new result
        (λ owed. ListsOwn unpaid.now from to name.now owed.items) }
{
    let owed = tx.obligations(alloc, name, year_before(from), to)?;
    let Some(as_of) = *unpaid else {
        return Ok(owed);
    };
    let payments = payments_of(tx, alloc, name, Day::first_of_month(0), to)?;
    match unpaid_of(alloc, &owed, &payments, as_of) {
        Ok(left) => Ok(left),
        Err(fault) => tx.give_up(fault),
    }
}

/// Whether the obligation is due on one of the days.
fn is_due_on(obligation: &Obligation, from: Day, to: Day) -> bool
    ensures { result ≡ is_due_on from to obligation.now }
{
    from <= obligation.due && obligation.due <= to
}

/// Adds those of an account's obligations that are due on one of the days, in their order. `Memory`
/// where there was no memory; then some of them may have been added.
fn add_due(
    alloc: Global,
    account: &str,
    owed: &[Obligation],
    from: Day,
    to: Day,
    listed: &mut Vec<AccountObligation>,
) -> Result<(), StoreFault>
    ensures { OnOk result
        (AddsDue from to account.now owed.now listed.old.items listed.new.items) }
{
    for obligation in owed {
        if is_due_on(obligation, from, to) {
            let account = String::from_str(alloc, account)?;
            listed.push(AccountObligation {
                account,
                obligation: *obligation,
            })?;
        }
    }
    Ok(())
}

/// The obligations of all accounts that are due from one day to another, both included, by account
/// and first day; without those that are paid in full as of a day, where one is given.
pub(crate) fn due_between<S: Alter>(
    tx: &mut Tx<'_, S>,
    alloc: Global,
    from: Day,
    to: Day,
    unpaid: Option<Day>,
) -> Result<Vec<AccountObligation>, StoreFault>
    ensures call { Reads S.Store tx.old tx.new result
        (λ listed. ListsDue unpaid from to listed.items) }
{
    let accounts = all_accounts(tx, alloc)?;
    let mut listed: Vec<AccountObligation> = Vec::new(alloc);
    for account in &accounts {
        let name = account.name.as_str();
        let owed = own_due(tx, alloc, name, from, to, &unpaid)?;
        if let Err(fault) = add_due(alloc, name, &owed, from, to, &mut listed) {
            return tx.give_up(fault);
        }
    }
    Ok(listed)
}

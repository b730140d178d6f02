//! The obligations that an import added, account by account.

ghost use Rattle.std.specs.Prelude.{◌≡◌, IfOk};
ghost use Rattle.std.specs.List.{list_any};
ghost use Rattle.ftd_imports.specs.Added.{added_by, added_then, begins_in, changes_in, changes_of};
ghost use Rattle.ftd_imports.specs.Added.{is_in, is_of, is_same, names, new_rows, still_added};
ghost use Rattle.ftd_imports.specs.Added.{was_before};

use crate::changes::AccountChange;
use crate::collection::Collection;
use ftd_days::Day;
use ftd_machine::AccountName;
use ftd_rules::{Obligation, Obligations};
use std::alloc::{AllocError, Global};

/// The obligations that an import added to an account: those that are there now, and were not there
/// before it.
#[derive(Drop)]
pub struct AccountAdded {
    /// The account.
    pub account: AccountName,
    /// The obligations, in the order in which they were added.
    pub rows: Obligations,
}

/// Whether one of the rows begins on the day.
fn begins_in(rows: &[Obligation], day: Day) -> bool
    ensures { result ≡ begins_in rows.now day }
{
    rows.iter().any(|row| row.first == day)
}

/// Whether both are of the same days, rule, amount and due date.
fn is_same(row: &Obligation, other: &Obligation) -> bool
    ensures { result ≡ is_same row.now other.now }
{
    row == other
}

/// Whether the obligation is one of the rows.
fn is_in(rows: &[Obligation], row: &Obligation) -> bool
    ensures { result ≡ is_in rows.now row.now }
{
    rows.iter().any(|it| is_same(row, it))
}

/// Whether the change removes or adds the obligation.
fn names(row: &Obligation, change: &AccountChange) -> bool
    ensures { result ≡ names row.now change.now }
{
    is_in(change.removed.as_slice(), row) || is_in(change.added.as_slice(), row)
}

/// Whether the change is the account's.
fn is_of(account: &str, change: &AccountChange) -> bool
    ensures { result ≡ is_of account.now change.now }
{
    change.account.as_str() == account
}

/// Whether one of the changes is the account's.
fn is_named(account: &str, changes: &[AccountChange]) -> bool
    ensures { result ≡ list_any (is_of account.now) changes.now }
{
    changes.iter().any(|change| is_of(account, change))
}

/// The changes of the account.
fn changes_of<'a>(
    alloc: Global,
    account: &str,
    changes: &'a [AccountChange],
) -> Result<Vec<&'a AccountChange>, AllocError>
    ensures { IfOk result (λ own. changes_in own.items ≡ changes_of account.now changes.now) }
{
    let mut own = Vec::new(alloc);
    for change in changes {
        if is_of(account, change) {
            own.push(change)?;
        }
    }
    Ok(own)
}

/// Of the rows those that the change does not remove, and those that it adds.
fn rows_then(
    alloc: Global,
    rows: &[Obligation],
    change: &AccountChange,
) -> Result<Vec<Obligation>, AllocError>
    ensures { IfOk result (λ then. then.items ≡ added_then rows.now change.now) }
{
    let mut then = Vec::new(alloc);
    for row in rows {
        if !begins_in(change.removed.as_slice(), row.first) {
            then.push(*row)?;
        }
    }
    then.extend_from_slice(change.added.as_slice())?;
    Ok(then)
}

/// The obligations that the changes of an account added, and that no later one removed.
fn still_added(alloc: Global, own: &[&AccountChange]) -> Result<Vec<Obligation>, AllocError>
    ensures { IfOk result (λ rows. rows.items ≡ still_added (changes_in own.now)) }
{
    let mut rows = Vec::new(alloc);
    for change in own {
        rows = rows_then(alloc, &rows, change)?;
    }
    Ok(rows)
}

/// Whether the account had the obligation before its changes.
fn was_before(own: &[&AccountChange], row: &Obligation) -> bool
    ensures { result ≡ was_before (changes_in own.now) row.now }
{
    for change in own {
        if names(row, change) {
            return is_in(change.removed.as_slice(), row);
        }
    }
    false
}

/// The obligations that the changes of an account added, that no later one removed, and that were
/// not there before.
fn new_rows(alloc: Global, own: &[&AccountChange]) -> Result<Vec<Obligation>, AllocError>
    ensures { IfOk result (λ rows. rows.items ≡ new_rows (changes_in own.now)) }
{
    let mut rows = Vec::new(alloc);
    for row in &still_added(alloc, own)? {
        if !was_before(own, row) {
            rows.push(*row)?;
        }
    }
    Ok(rows)
}

/// The obligations that were added to the account.
fn account_added(
    alloc: Global,
    account: &str,
    changes: &[AccountChange],
) -> Result<AccountAdded, AllocError>
    ensures { IfOk result (λ added. (added.account ≡ account.now)
        × (added.rows ≡ new_rows (changes_of account.now changes.now))) }
{
    let own = changes_of(alloc, account, changes)?;
    let rows = new_rows(alloc, &own)?;
    Ok(AccountAdded {
        account: AccountName::from_string(String::from_str(alloc, account)?),
        rows: Obligations::from_vec(rows),
    })
}

/// The obligations that changes added to each account: those that are there after them, and were
/// not there before. The accounts are in the order of their last changes. An error if there is no
/// memory; the changes stay as they are.
pub fn added_by(changes: &Collection<AccountChange>) -> Result<Vec<AccountAdded>, AllocError>
    ensures { IfOk result (λ list. list.items ≡ added_by changes.now.entries.items) }
{
    let alloc = changes.alloc;
    let changes = changes.entries.as_slice();
    let mut list = Vec::new(alloc);
    for (i, change) in changes.iter().enumerate() {
        let account = change.account.as_str();
        if !is_named(account, &changes[i + 1..]) {
            list.push(account_added(alloc, account, changes)?)?;
        }
    }
    Ok(list)
}

//! Whether the rows of all accounts are those of sound ones.

ghost use Rattle.std.specs.Prelude.{◌≡◌, ◌↔◌, IfOk, IsTrue};
ghost use Rattle.std.specs.List.{list_any};
ghost use Rattle.ftd_days.specs.Holidays.{holidays_of};
ghost use Rattle.ftd_store.specs.Frame.{Reads};
ghost use Rattle.ftd_check.specs.Accounts.{AreNames, ChecksAccount, ChecksAccounts, name_read};
ghost use Rattle.ftd_check.specs.Private.Names.{has_name};
ghost use Rattle.ftd_check.specs.declared.soundness.Part.TheVariants as parts;

use crate::account::is_sound;
use crate::own_rows::own_rows;
use crate::sizes::{Sizes, own_sizes};
use crate::soundness::Part;
use ftd_days::Holidays;
use ftd_machine::AccountName;
use ftd_rules::is_account_name;
use ftd_store::{NamedAccount, StoreFault, Tx};
use sqlite::Alter;
use std::alloc::{AllocError, Global};

/// Whether the account has the name.
fn has_name(name: &str, account: &NamedAccount) -> bool
    ensures { result ≡ has_name name.now account.now }
{
    account.name.as_bytes() == name.as_bytes()
}

/// Whether one of the accounts has the name.
fn is_among(name: &str, accounts: &[NamedAccount]) -> bool
    ensures { result ≡ list_any (has_name name.now) accounts.now }
{
    accounts.iter().any(|account| has_name(name, account))
}

/// Whether each has the name of an account, and no two have the same name.
fn are_names(accounts: &[NamedAccount]) -> bool
    ensures { IsTrue result ↔ AreNames accounts.now }
{
    let mut left = accounts;
    while let Some((first, rest)) = left.split_first() {
        if !is_account_name(first.name.as_bytes()) {
            return false;
        }
        if is_among(&first.name, rest) {
            return false;
        }
        left = rest;
    }
    true
}

/// How many rows the account has, where they are those of a sound one. None where they are not.
/// `given` has the years whose calendars are given. `Err` says that a call of the transaction
/// failed, or that memory ran out.
fn check_account<S: Alter>(
    tx: &mut Tx<'_, S>,
    alloc: Global,
    account: &NamedAccount,
    given: &[u32],
    holidays: &Holidays,
) -> Result<Option<Sizes>, StoreFault>
    ensures call { Reads S.Store tx.old tx.new result
        (ChecksAccount account.now given.now (holidays_of holidays.now)) }
{
    let Some(rows) = own_rows(tx, alloc, &account.name, account.account)? else {
        return Ok(None);
    };
    match is_sound(alloc, given, holidays, &rows) {
        Ok(true) => Ok(Some(own_sizes(&rows))),
        Ok(false) => Ok(None),
        Err(AllocError) => tx.give_up(StoreFault::Memory),
    }
}

/// The account, as the part that shows that the tables are unsound. `Err` says that memory ran out.
fn part_of(alloc: Global, account: &NamedAccount) -> Result<Part, AllocError>
    ensures { IfOk result (λ part. part ≡ parts.Account (name_read account.now)) }
{
    Ok(Part::Account(AccountName::copy_of(alloc, &account.name)?))
}

/// How many rows all accounts have together, where they are those of sound ones. `Ok` of an `Err`
/// has the part that shows that they are not: the list of accounts, or the first account in it whose
/// rows are not those of a sound one. `given` has the years whose calendars are given. `Err` says
/// that a call of the transaction failed, or that memory ran out.
pub(crate) fn check_accounts<S: Alter>(
    tx: &mut Tx<'_, S>,
    alloc: Global,
    given: &[u32],
    holidays: &Holidays,
) -> Result<Result<Sizes, Part>, StoreFault>
    ensures call { Reads S.Store tx.old tx.new result
        (ChecksAccounts given.now (holidays_of holidays.now)) }
{
    let Some(accounts) = tx.accounts_by_row(alloc)? else {
        return Ok(Err(Part::Accounts));
    };
    if !are_names(&accounts) {
        return Ok(Err(Part::Accounts));
    }
    let mut sizes = Sizes::NONE;
    let mut left = accounts.as_slice();
    while let Some((account, later)) = left.split_first() {
        let Some(own) = check_account(tx, alloc, account, given, holidays)? else {
            let Ok(part) = part_of(alloc, account) else {
                return tx.give_up(StoreFault::Memory);
            };
            return Ok(Err(part));
        };
        sizes = sizes.plus(&own);
        left = later;
    }
    Ok(Ok(sizes))
}

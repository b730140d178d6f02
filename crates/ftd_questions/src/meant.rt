//! The account that may be meant by a mistyped name.

ghost use Rattle.std.specs.Prelude.{◌≡◌, Err, IfErr, IfOk};
ghost use Rattle.sqlite.specs.State.{HasCleanDisk};
ghost use Rattle.ftd_store.specs.Frame.{Reads};
ghost use Rattle.ftd_store.specs.Seen.{seen};
ghost use Rattle.ftd_machine.specs.Runs.{IsFault};
ghost use Rattle.ftd_machine.specs.State.{State};
ghost use Rattle.ftd_questions.specs.Nearest.{IsMeant, IsNearestOf, KnowsMeant, names_of};
ghost use Rattle.ftd_questions.specs.Nearest.{texts_of};
ghost use Rattle.ftd_questions.specs.Walks.{Stays, KeptIfOpen};

use crate::faults::refusal_of;
use crate::names::nearest;
use ftd_entries::all_accounts;
use ftd_machine::{AccountName, KeptAccount, Refusal};
use ftd_store::{Store, StoreFault, Tx};
use sqlite::Alter;
use std::alloc::{AllocError, Global};

/// The names of the accounts.
fn names_of<'a>(alloc: Global, accounts: &'a [KeptAccount]) -> Result<Vec<&'a str>, AllocError>
    ensures { IfOk result (λ names. texts_of names.items ≡ names_of accounts.now) }
{
    let mut names = Vec::new(alloc);
    for account in accounts {
        names.push(account.name.as_str())?;
    }
    Ok(names)
}

/// Of the accounts, the name that is nearest to what was typed. None if none is near.
fn meant_among(
    alloc: Global,
    typed: &str,
    accounts: &[KeptAccount],
) -> Result<Option<AccountName>, AllocError>
    ensures { IfOk result (IsNearestOf (names_of accounts.now) typed.now) }
{
    let names = names_of(alloc, accounts)?;
    match nearest(alloc, typed, &names)? {
        Some(place) => {
            let name = String::from_str(alloc, names[place])?;
            Ok(Some(AccountName::from_string(name)))
        }
        None => Ok(None),
    }
}

/// Of all accounts, the name that is nearest to what was typed. None if none is near.
fn meant_in<S: Alter>(
    tx: &mut Tx<'_, S>,
    alloc: Global,
    typed: &str,
) -> Result<Option<AccountName>, StoreFault>
    ensures call { Reads S.Store tx.old tx.new result (KnowsMeant typed.now) }
{
    let accounts = all_accounts(tx, alloc)?;
    match meant_among(alloc, typed, &accounts) {
        Ok(found) => Ok(found),
        Err(_) => tx.give_up(StoreFault::Memory),
    }
}

/// Of all accounts, the name that is nearest to what was typed, the first of several by name. None
/// if none is near: at most two edits away, and at most one for every three bytes that were typed.
/// It is read in a transaction that is dropped. `Memory` and `Store` where there was no memory or
/// the store failed. The tables stay as they are, whatever comes of it.
pub fn meant_account<S: Alter>(
    store: &mut Store<S>,
    alloc: Global,
    typed: &str,
) -> Result<Option<AccountName>, Refusal>
    ensures knows { HasCleanDisk (seen S.Store store.new) → (s : State)
        → KeptIfOpen (seen S.Store store.old) s → IfOk result (IsMeant s typed.now) }
    ensures fault { IfErr result (λ refusal. IsFault (Err refusal)) }
    ensures stays { Stays (seen S.Store store.old) (seen S.Store store.new) }
{
    let mut tx = match store.begin() {
        Ok(tx) => tx,
        Err(fault) => return Err(refusal_of(fault)),
    };
    match meant_in(&mut tx, alloc, typed) {
        Ok(found) => Ok(found),
        Err(fault) => Err(refusal_of(fault)),
    }
}

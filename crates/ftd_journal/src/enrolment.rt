//! An account as it was enrolled, and as it was put right.

ghost use Rattle.std.specs.Prelude.{◌≡◌, ◌++◌, ◌∷◌, [], IfOk, OnOk, map};
ghost use Rattle.ftd_store.specs.Frame.{Reads};
ghost use Rattle.ftd_machine.specs.Journal.{corrections};
ghost use Rattle.ftd_machine.specs.declared.requests.Correction.TheVariants as correction;
ghost use Rattle.ftd_machine.specs.declared.requests.Entry.TheVariants as entry;
ghost use Rattle.ftd_machine.specs.declared.requests.Request.TheVariants.{Enter};
ghost use Rattle.ftd_entries.specs.Known.{beginnings_of};
ghost use Rattle.ftd_journal.specs.Parts.{AddsPart, account_correction, enrolment_part};

use crate::adding::{add, add_corrections};
use ftd_machine::{Account, AccountName, Beginning, Correction, Entry, Request};
use ftd_store::{AccountCorrection, StoreFault, Tx};
use sqlite::Alter;
use std::alloc::Global;

/// Adds the request by which the account was enrolled. `Memory` where there was none.
fn add_first(
    alloc: Global,
    name: &str,
    account: Account,
    requests: &mut Vec<Request>,
) -> Result<(), StoreFault>
    ensures { OnOk result (requests.new.items ≡ requests.old.items
        ++ Enter (entry.Account name.now account) ∷ []) }
{
    let name = AccountName::copy_of(alloc, name)?;
    add(Request::Enter(Entry::Account { name, account }), requests)
}

/// The corrections of the account. `Memory` where there was none.
fn account_corrections(
    alloc: Global,
    name: &str,
    rows: &[AccountCorrection],
) -> Result<Vec<Correction>, StoreFault>
    ensures { IfOk result (λ given. given.items ≡ map (account_correction name.now) rows.now) }
{
    let mut given = Vec::new(alloc);
    for row in rows {
        let account = AccountName::copy_of(alloc, name)?;
        let beginning = Beginning {
            start: row.account.start,
            carried: row.account.carried,
        };
        add(Correction::Account { account, beginning }, &mut given)?;
    }
    Ok(given)
}

/// Adds the requests of the corrections of the account. `Failed` where there are too many for their
/// numbers, and `Memory` where there was no memory; after either some of them may have been added.
fn add_later(
    alloc: Global,
    name: &str,
    rows: &[AccountCorrection],
    requests: &mut Vec<Request>,
) -> Result<(), StoreFault>
    ensures { OnOk result (requests.new.items ≡ requests.old.items
        ++ corrections (λ beginning. correction.Account name.now beginning)
        (beginnings_of rows.now)) }
{
    let given = account_corrections(alloc, name, rows)?;
    add_corrections(given, requests)
}

/// Adds the requests of the account with these corrections. The errors are those of `add_later`.
fn add_by(
    alloc: Global,
    name: &str,
    account: Account,
    rows: &[AccountCorrection],
    requests: &mut Vec<Request>,
) -> Result<(), StoreFault>
    ensures { OnOk result (requests.new.items ≡ requests.old.items
        ++ Enter (entry.Account name.now account)
        ∷ corrections (λ beginning. correction.Account name.now beginning)
        (beginnings_of rows.now)) }
{
    add_first(alloc, name, account, requests)?;
    add_later(alloc, name, rows, requests)
}

/// Adds the part of the account's journal that has its enrolment, where it was enrolled so, and its
/// corrections. After an error some requests may have been added.
pub(crate) fn add_enrolment<S: Alter>(
    tx: &mut Tx<'_, S>,
    alloc: Global,
    name: &str,
    account: Account,
    requests: &mut Vec<Request>,
) -> Result<(), StoreFault>
    ensures call { Reads S.Store tx.old tx.new result (λ done.
        AddsPart (enrolment_part name.now account) requests.old.items requests.new.items) }
{
    let rows = tx.account_corrections(alloc, name)?;
    match add_by(alloc, name, account, &rows, requests) {
        Ok(()) => Ok(()),
        Err(fault) => tx.give_up(fault),
    }
}

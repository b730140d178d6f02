//! The journals that the tables of a store have, and the numbers that runs and payments take, each
//! read in a transaction that is dropped.

ghost use Rattle.std.specs.Prelude.{◌≡◌, Err, IfErr, IfOk, option_map};
ghost use Rattle.sqlite.specs.State.{HasCleanDisk};
ghost use Rattle.ftd_store.specs.Seen.{seen};
ghost use Rattle.ftd_machine.specs.Journal.{days_journal};
ghost use Rattle.ftd_machine.specs.Runs.{IsFault};
ghost use Rattle.ftd_machine.specs.State.{State, entries_of};
ghost use Rattle.ftd_questions.specs.Walks.{KeptIfOpen, Stays};
ghost use Rattle.ftd_journal.specs.Numbers.{IsNextNumber};
ghost use Rattle.ftd_journal.specs.Parts.{journal_of};

use ftd_machine::{Refusal, Request};
use ftd_questions::refusal_of;
use ftd_store::Store;
use sqlite::Alter;
use std::alloc::Global;

/// The journal of the days: the requests by which an empty desk comes to have the same calendars,
/// the same added holidays and the same changes of days, in their order. It is read in a
/// transaction that is dropped. `Memory` and `Store` where there was no memory or the store failed.
/// The tables stay as they are, whatever comes of it.
pub(crate) fn days_journal<S: Alter>(
    store: &mut Store<S>,
    alloc: Global,
) -> Result<Vec<Request>, Refusal>
    ensures knows { HasCleanDisk (seen S.Store store.new) → (s : State)
        → KeptIfOpen (seen S.Store store.old) s
        → IfOk result (λ requests. requests.items ≡ days_journal s) }
    ensures fault { IfErr result (λ refusal. IsFault (Err refusal)) }
    ensures stays { Stays (seen S.Store store.old) (seen S.Store store.new) }
{
    let mut tx = match store.begin() {
        Ok(tx) => tx,
        Err(fault) => return Err(refusal_of(fault)),
    };
    match ftd_journal::days_journal(&mut tx, alloc) {
        Ok(requests) => Ok(requests),
        Err(fault) => Err(refusal_of(fault)),
    }
}

/// The journal of the account of the name: the requests by which a desk that has the same days, and
/// nothing of the account, comes to have the same of it, in their order. None where no account has
/// the name. It is read in a transaction that is dropped. `Memory` and `Store` where there was no
/// memory or the store failed. The tables stay as they are, whatever comes of it.
pub(crate) fn account_journal<S: Alter>(
    store: &mut Store<S>,
    alloc: Global,
    name: &str,
) -> Result<Option<Vec<Request>>, Refusal>
    ensures knows { HasCleanDisk (seen S.Store store.new) → (s : State)
        → KeptIfOpen (seen S.Store store.old) s
        → IfOk result (λ found. option_map (λ it. it.items) found ≡ journal_of s name.now) }
    ensures fault { IfErr result (λ refusal. IsFault (Err refusal)) }
    ensures stays { Stays (seen S.Store store.old) (seen S.Store store.new) }
{
    let mut tx = match store.begin() {
        Ok(tx) => tx,
        Err(fault) => return Err(refusal_of(fault)),
    };
    match ftd_journal::account_journal(&mut tx, alloc, name) {
        Ok(found) => Ok(found),
        Err(fault) => Err(refusal_of(fault)),
    }
}

/// The least number above all those of the account's runs, void ones too. It is read in a
/// transaction that is dropped. `Memory` and `Store` where there was no memory or the store failed.
/// The tables stay as they are, whatever comes of it.
pub(crate) fn next_run<S: Alter>(
    store: &mut Store<S>,
    alloc: Global,
    name: &str,
) -> Result<u32, Refusal>
    ensures knows { HasCleanDisk (seen S.Store store.new) → (s : State)
        → KeptIfOpen (seen S.Store store.old) s
        → IfOk result (λ number. IsNextNumber (entries_of s name.now).runs number) }
    ensures fault { IfErr result (λ refusal. IsFault (Err refusal)) }
    ensures stays { Stays (seen S.Store store.old) (seen S.Store store.new) }
{
    let mut tx = match store.begin() {
        Ok(tx) => tx,
        Err(fault) => return Err(refusal_of(fault)),
    };
    match ftd_journal::next_run(&mut tx, alloc, name) {
        Ok(number) => Ok(number),
        Err(fault) => Err(refusal_of(fault)),
    }
}

/// The least number above all those of the account's payments, void ones too. It is read in a
/// transaction that is dropped. `Memory` and `Store` where there was no memory or the store failed.
/// The tables stay as they are, whatever comes of it.
pub(crate) fn next_payment<S: Alter>(
    store: &mut Store<S>,
    alloc: Global,
    name: &str,
) -> Result<u32, Refusal>
    ensures knows { HasCleanDisk (seen S.Store store.new) → (s : State)
        → KeptIfOpen (seen S.Store store.old) s
        → IfOk result (λ number. IsNextNumber (entries_of s name.now).payments number) }
    ensures fault { IfErr result (λ refusal. IsFault (Err refusal)) }
    ensures stays { Stays (seen S.Store store.old) (seen S.Store store.new) }
{
    let mut tx = match store.begin() {
        Ok(tx) => tx,
        Err(fault) => return Err(refusal_of(fault)),
    };
    match ftd_journal::next_payment(&mut tx, alloc, name) {
        Ok(number) => Ok(number),
        Err(fault) => Err(refusal_of(fault)),
    }
}

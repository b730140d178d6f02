//! A check of the tables of a store, in a transaction that is dropped.

ghost use Rattle.std.specs.Prelude.{Err, IfErr, IfOk};
ghost use Rattle.sqlite.specs.State.{HasCleanDisk};
ghost use Rattle.ftd_check.specs.Soundness.{Finds};
ghost use Rattle.ftd_machine.specs.Runs.{IsFault};
ghost use Rattle.ftd_questions.specs.Walks.{StandIfOpen, Stays};
ghost use Rattle.ftd_sql.specs.Standing.{Tables};
ghost use Rattle.ftd_store.specs.Seen.{seen};

use ftd_check::{Soundness, check_tables};
use ftd_machine::Refusal;
use ftd_questions::refusal_of;
use ftd_store::Store;
use sqlite::Alter;
use std::alloc::Global;

/// Whether the tables are those of a sound state, and how many rows they have then, or the first
/// part of them that shows that they are not. They are read in a transaction that is dropped.
/// `Memory` and `Store` where there was no memory or the store failed. The tables stay as they are,
/// whatever comes of it.
pub(crate) fn check<S: Alter>(store: &mut Store<S>, alloc: Global) -> Result<Soundness, Refusal>
    ensures knows { HasCleanDisk (seen S.Store store.new) → (t : Tables)
        → StandIfOpen (seen S.Store store.old) t → IfOk result (λ found. Finds found t) }
    ensures fault { IfErr result (λ refusal. IsFault (Err refusal)) }
    ensures stays { Stays (seen S.Store store.old) (seen S.Store store.new) }
{
    let mut tx = match store.begin() {
        Ok(tx) => tx,
        Err(fault) => return Err(refusal_of(fault)),
    };
    match check_tables(&mut tx, alloc) {
        Ok(found) => Ok(found),
        Err(fault) => Err(refusal_of(fault)),
    }
}

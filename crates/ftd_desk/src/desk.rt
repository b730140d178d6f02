//! The desk: requests one after the other, each in a transaction of its own.

ghost use Rattle.std.specs.Prelude.{◌≡◌, ◌⊎◌, All, Err, IfOk, OnErr};
ghost use Rattle.ftd_store.specs.Seen.{seen};
ghost use Rattle.ftd_machine.specs.Laws.{IsBounded};
ghost use Rattle.ftd_machine.specs.State.{State};
ghost use Rattle.ftd_desk.specs.Desks.{store_of, IsStopped, held, Rests, Keeps};
ghost use Rattle.ftd_sql.specs.States.{CrashKeeps};
ghost use Rattle.ftd_desk.specs.Shown.{ShowsAsked};
ghost use Rattle.ftd_desk.specs.Words.{Handles, RepairsRows, HandlesAll};

mod all_or_none;
mod checking;
mod listing;
mod mending;
mod opening;
mod reading;
mod telling;

use crate::bounds::bounded;
use crate::counts::is_change;
use crate::known::Known;
use crate::listed::{Answered, serve_alone};
use ftd_machine::{Answer, Refusal, Request};
use ftd_questions::refusal_of;
use ftd_store::Store;
use sqlite::Alter;
use std::alloc::{AllocError, Global};
use std::mem;

/// The deposit desk over its tables. It keeps from request to request how many runs and payments
/// some accounts have, and what is known of those of which runs were posted in lists, and forgets
/// them after a fault.
#[derive(Drop)]
pub struct Desk<S: Alter> {
    alloc: Global,
    store: Store<S>,
    stopped: bool,
    known: Known,
}

impl<S: Alter> Desk<S> {
    /// The desk over these tables. What it lists takes its memory from the allocator.
    pub fn new(alloc: Global, store: Store<S>) -> Desk<S>
        ensures over { store_of result ≡ store }
        ensures goes { ¬ IsStopped result }
        ensures keeps { (s : State) → Rests (seen S.Store store) s → Keeps (held S.Store result) s }
    {
        Desk {
            alloc,
            store,
            stopped: false,
            known: Known::none(alloc),
        }
    }

    /// The tables are given back.
    pub fn into_store(self) -> Store<S>
        ensures { result ≡ store_of self }
    {
        self.store
    }

    /// Answers the request. `Memory` and `Store` change nothing. After a commit that failed the
    /// desk is stopped: it answers `Store` to everything, and does not touch the tables; only then
    /// may a crash find what a request changes that was answered `Store`. A list of which the
    /// amounts are together 6,000,000,000,000,000 cents or more is none of an account's, and
    /// answered with `Store`. A due list, an agenda, what is owed and an explanation have the
    /// rows of the tables as they stand, whatever else these hold.
    pub fn handle(&mut self, request: &Request) -> Answer
        ensures handles { Handles (held S.Store self.old) (held S.Store self.new)
            request.now result }
        ensures repairs { RepairsRows (held S.Store self.old).db (held S.Store self.new).db
            request.now result }
        ensures shows { ShowsAsked (held S.Store self.old).db (held S.Store self.new).db
            request.now result }
        ensures bounded { IfOk result IsBounded }
        ensures stops { OnErr result (IsStopped self.new
            ⊎ CrashKeeps (held S.Store self.old).db (held S.Store self.new).db) }
        ensures stopped { IsStopped self.old
            → (result ≡ Err Refusal.Store) × (self.new ≡ self.old) }
    {
        if self.stopped {
            return Err(Refusal::Store);
        }
        let known = mem::replace(&mut self.known, Known::none(self.alloc));
        let mut tx = match self.store.begin() {
            Ok(tx) => tx,
            Err(fault) => return Err(refusal_of(fault)),
        };
        let Answered { answer, known } = match serve_alone(&mut tx, self.alloc, known, request) {
            Ok(served) => served,
            Err(fault) => return Err(refusal_of(fault)),
        };
        if !is_change(&answer) {
            self.known = known;
            return bounded(answer);
        }
        if tx.commit().is_err() {
            self.stopped = true;
            return Err(Refusal::Store);
        }
        self.known = known;
        answer
    }

    /// Answers the requests one after the other. `Err` says that there was no memory for the list
    /// of answers; nothing was asked then. Only where the desk is stopped at the end may a crash
    /// find what a request changes that was answered `Store`.
    pub fn run(&mut self, requests: &[Request]) -> Result<Vec<Answer>, AllocError>
        ensures runs { IfOk result (λ answers. HandlesAll (IsStopped self.new)
            (held S.Store self.old) (held S.Store self.new) requests.now answers.items) }
        ensures err { OnErr result (self.new ≡ self.old) }
        ensures stopped { IsStopped self.old → IfOk result (λ answers.
            All (λ answer. answer ≡ Err Refusal.Store) answers.items) × (self.new ≡ self.old) }
    {
        let mut answers = Vec::with_capacity(self.alloc, requests.len())?;
        for request in requests {
            let answer = self.handle(request);
            answers.push_reserved(answer);
        }
        Ok(answers)
    }
}

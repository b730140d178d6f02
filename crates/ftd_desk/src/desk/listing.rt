//! Requests one after the other, all in one transaction, which is kept or dropped.

ghost use Rattle.std.specs.Prelude.{◌≡◌, ◌⊎◌, Err, IfOk, OnErr};
ghost use Rattle.ftd_desk.specs.Desks.{IsStopped, held};
ghost use Rattle.ftd_sql.specs.States.{CrashKeeps};
ghost use Rattle.ftd_desk.specs.Trials.{Tries};
ghost use Rattle.ftd_desk.specs.Words.{AreAnswers, HandlesTogether, listed};

use crate::desk::Desk;
use crate::known::Known;
use crate::listed::serve_all;
use ftd_machine::{Answer, Refusal, Request};
use ftd_questions::refusal_of;
use sqlite::Alter;
use std::mem;

impl<S: Alter> Desk<S> {
    /// Answers the requests one after the other in one transaction: what they change is kept
    /// together, or, where there is a fault, not at all. `Memory` and `Store` change nothing. After
    /// a commit that failed the desk is stopped; only then may a crash find what they change.
    pub fn together(&mut self, requests: &[Request]) -> Result<Vec<Answer>, Refusal>
        ensures together { HandlesTogether (held S.Store self.old)
            (held S.Store self.new) requests.now (listed result) }
        ensures answers { IfOk result (λ answers. AreAnswers requests.now answers.items) }
        ensures keeps { OnErr result (IsStopped self.new
            ⊎ CrashKeeps (held S.Store self.old).db (held S.Store self.new).db) }
        ensures stopped { IsStopped self.old
            → (listed result ≡ Err Refusal.Store) × (self.new ≡ self.old) }
    {
        if self.stopped {
            return Err(Refusal::Store);
        }
        let Some((first, later)) = requests.split_first() else {
            return Ok(Vec::new(self.alloc));
        };
        let known = mem::replace(&mut self.known, Known::none(self.alloc));
        let mut tx = match self.store.begin() {
            Ok(tx) => tx,
            Err(fault) => return Err(refusal_of(fault)),
        };
        let served = match serve_all(&mut tx, self.alloc, known, first, later) {
            Ok(served) => served,
            Err(fault) => return Err(refusal_of(fault)),
        };
        if tx.commit().is_err() {
            self.stopped = true;
            return Err(Refusal::Store);
        }
        self.known = served.known;
        Ok(served.answers)
    }

    /// What the desk would answer to the requests, one after the other. They are answered in one
    /// transaction, which is dropped: the desk stands for the state as it was. `Memory` and `Store`
    /// where there is a fault, as from `together`.
    pub fn trial(&mut self, requests: &[Request]) -> Result<Vec<Answer>, Refusal>
        ensures trial { Tries (held S.Store self.old) (held S.Store self.new) requests.now
            (listed result) }
        ensures answers { IfOk result (λ answers. AreAnswers requests.now answers.items) }
        ensures goes { IsStopped self.new → IsStopped self.old }
        ensures stopped { IsStopped self.old
            → (listed result ≡ Err Refusal.Store) × (self.new ≡ self.old) }
    {
        if self.stopped {
            return Err(Refusal::Store);
        }
        let Some((first, later)) = requests.split_first() else {
            return Ok(Vec::new(self.alloc));
        };
        let known = mem::replace(&mut self.known, Known::none(self.alloc));
        let mut tx = match self.store.begin() {
            Ok(tx) => tx,
            Err(fault) => return Err(refusal_of(fault)),
        };
        match serve_all(&mut tx, self.alloc, known, first, later) {
            Ok(served) => Ok(served.answers),
            Err(fault) => Err(refusal_of(fault)),
        }
    }
}

//! Requests one after the other, all in one transaction, which is kept only where each has a reply.

ghost use Rattle.std.specs.Prelude.{◌≡◌};
ghost use Rattle.ftd_desk.specs.Desks.{IsStopped, held};
ghost use Rattle.ftd_desk.specs.Unrefused.{AsksAll};

use crate::desk::Desk;
use crate::known::Known;
use crate::listed::serve_all;
use crate::unrefused::{AllOrNone, are_replies};
use ftd_machine::Request;
use sqlite::Alter;
use std::mem;

impl<S: Alter> Desk<S> {
    /// Answers the requests one after the other in one transaction: what they change is kept
    /// together where each of them has a reply; else nothing is. After a commit that failed the
    /// desk is stopped; only then may a crash find what they change that was not answered.
    pub fn all_or_none(&mut self, requests: &[Request]) -> AllOrNone
        ensures asks { AsksAll (held S.Store self.old) (held S.Store self.new)
            requests.now result }
        ensures stopped { IsStopped self.old
            → (result ≡ AllOrNone.Stopped) × (self.new ≡ self.old) }
    {
        if self.stopped {
            return AllOrNone::Stopped;
        }
        let Some((first, later)) = requests.split_first() else {
            return AllOrNone::Kept(Vec::new(self.alloc));
        };
        let known = mem::replace(&mut self.known, Known::none(self.alloc));
        let mut tx = match self.store.begin() {
            Ok(tx) => tx,
            Err(_) => return AllOrNone::Dropped,
        };
        let served = match serve_all(&mut tx, self.alloc, known, first, later) {
            Ok(served) => served,
            Err(_) => return AllOrNone::Dropped,
        };
        if !are_replies(&served.answers) {
            return AllOrNone::Dropped;
        }
        if tx.commit().is_err() {
            self.stopped = true;
            return AllOrNone::Stopped;
        }
        self.known = served.known;
        AllOrNone::Kept(served.answers)
    }
}

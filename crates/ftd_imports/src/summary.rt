//! What an import says of its records.

ghost use Rattle.std.specs.Prelude.{◌≡◌, ◌<◌, ◌≤◌, ◌+◌, ◌∷◌, [], vec_len, vec_capacity};
ghost use Rattle.ftd_imports.specs.Outcomes.{Counts, IsNothing, fault_of, most_counted, posted};
ghost use Rattle.ftd_imports.specs.Outcomes.{skipped, tally, text_cause};

use crate::changes::{AccountChange, account_change};
use crate::collection::Collection;
use crate::refusals::{RefusedRecord, refused_record};
use ftd_csv::RecordFault;
use ftd_machine::{Answer, Refusal, Reply, Request};
use std::alloc::Global;
use thiserror::Error;

/// Why a record was not posted.
#[derive(Clone, Copy, Debug, PartialEq, Eq)]
pub enum Finding {
    /// This is the least of its fields that is bad, counted from 1; 0 where it has more fields than
    /// the header, or fewer.
    Malformed(u8),
    /// The desk refused its post.
    Refused(Refusal),
}

/// A record that was not posted, by its number; the header has number 1.
#[derive(Clone, Copy, Debug, PartialEq, Eq)]
pub struct Note {
    pub number: u32,
    pub finding: Finding,
}

/// How many records were posted (of which the desk took the entry), were there already, were
/// refused and were malformed, with a note for each of the last two, in the order of the records;
/// what those that were refused were to enter, and how those that were posted changed the
/// obligations of accounts.
#[derive(Drop)]
pub struct Summary {
    pub posted: usize,
    pub already: usize,
    pub refused: usize,
    pub malformed: usize,
    pub notes: Vec<Note>,
    pub refusals: Collection<RefusedRecord>,
    pub changes: Collection<AccountChange>,
}

/// Why an import stopped.
#[derive(Clone, Copy, Debug, PartialEq, Eq, Error)]
pub enum StopCause {
    /// The first record is not the header of the sheet, or there is none.
    #[error("refused header")]
    BadHeader,
    /// The text has more than 16 MiB.
    #[error("refused length")]
    TooLong,
    /// There was no memory.
    #[error("failed 21 Memory")]
    Memory,
    /// The store failed, or the desk is stopped.
    #[error("failed 22 Store")]
    Store,
}

/// An import that stopped: what it did up to there, and why.
#[derive(Drop)]
pub struct ImportStop {
    /// The summary of the records before the one that stopped.
    pub done: Summary,
    pub cause: StopCause,
}

/// Why there are no records to post.
pub(crate) fn cause_of(fault: RecordFault) -> StopCause
    ensures { result ≡ text_cause fault }
{
    match fault {
        RecordFault::BadHeader => StopCause::BadHeader,
        RecordFault::TooLong => StopCause::TooLong,
        RecordFault::Memory => StopCause::Memory,
    }
}

/// The cause by which the answer to a post stops an import, if it does.
pub(crate) fn fault_of(answer: &Answer) -> Option<StopCause>
    ensures { result ≡ fault_of answer.now }
{
    match answer {
        Err(Refusal::Memory) => Some(StopCause::Memory),
        Err(Refusal::Store) => Some(StopCause::Store),
        _ => None,
    }
}

impl Summary {
    /// Of no records.
    pub(crate) fn none(alloc: Global) -> Summary
        ensures { IsNothing result }
    {
        Summary {
            posted: 0,
            already: 0,
            refused: 0,
            malformed: 0,
            notes: Vec::new(alloc),
            refusals: Collection::none(alloc),
            changes: Collection::none(alloc),
        }
    }

    /// Counts a malformed record, and notes it. There is room for the note.
    pub(crate) fn skip(&mut self, number: u32, field: u8)
        requires room { vec_len self.old.notes < vec_capacity self.old.notes }
        requires fits { tally self.old < most_counted }
        ensures counts { Counts self.old (skipped number field ∷ []) self.new }
        ensures adds { vec_len self.new.notes ≤ vec_len self.old.notes + 1 }
        ensures room { vec_capacity self.new.notes ≡ vec_capacity self.old.notes }
        ensures grows { tally self.new ≤ tally self.old + 1 }
    {
        self.malformed += 1;
        self.notes.push_reserved(Note {
            number,
            finding: Finding::Malformed(field),
        });
    }

    /// Counts a record that was posted and answered so, notes it and what it was to enter where it
    /// was refused, and how its post changed the obligations of its account. There is room for the
    /// first note.
    pub(crate) fn count(&mut self, number: u32, post: &Request, answer: &Answer)
        requires room { vec_len self.old.notes < vec_capacity self.old.notes }
        requires fits { tally self.old < most_counted }
        ensures counts { Counts self.old (posted number post.now answer.now ∷ []) self.new }
        ensures adds { vec_len self.new.notes ≤ vec_len self.old.notes + 1 }
        ensures room { vec_capacity self.new.notes ≡ vec_capacity self.old.notes }
        ensures grows { tally self.new ≤ tally self.old + 1 }
    {
        match answer {
            Ok(Reply::Posted(_) | Reply::Done) => self.posted += 1,
            Ok(Reply::Already) => self.already += 1,
            Ok(Reply::Told(_)) => {}
            Err(refusal) => {
                self.refused += 1;
                self.notes.push_reserved(Note {
                    number,
                    finding: Finding::Refused(*refusal),
                });
                let record = refused_record(self.refusals.alloc, number, post, *refusal);
                self.refusals.add(record);
            }
        }
        if let (Request::Post { account, .. }, Ok(Reply::Posted(difference))) = (post, answer) {
            let change = account_change(self.changes.alloc, account.as_str(), difference);
            self.changes.add(change);
        }
    }
}

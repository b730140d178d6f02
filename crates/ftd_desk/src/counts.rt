//! The counts that a desk keeps from request to request.

ghost use Rattle.std.specs.Prelude.{◌≡◌, ◌+◌, [], if◌then◌else◌, IfSome};
ghost use Rattle.ftd_machine.specs.Laws.{is_change};
ghost use Rattle.ftd_desk.specs.Kept.{Takes, kept_of};
ghost use Rattle.ftd_desk.specs.Words.{is_fault};

use crate::kept::Kept;
use ftd_machine::{Answer, Reply};
use std::alloc::Global;

/// How many runs and how many payments the accounts have that were asked for last, voided ones too.
#[derive(Drop)]
pub(crate) struct Counts {
    pub runs: Kept<u32>,
    pub payments: Kept<u32>,
}

/// Whether the answer says that something is kept that was not before.
pub(crate) fn is_change(answer: &Answer) -> bool
    ensures { result ≡ is_change answer.now }
{
    match answer {
        Ok(Reply::Done | Reply::Posted(_)) => true,
        Ok(Reply::Already | Reply::Told(_)) | Err(_) => false,
    }
}

/// Whether the answer says that there was no memory, or that the store failed.
pub(crate) fn is_fault(answer: &Answer) -> bool
    ensures { result ≡ is_fault answer.now }
{
    match answer {
        Ok(_) => false,
        Err(refusal) => refusal.is_failure(),
    }
}

/// The number after one more was asked for, and answered so. None where no larger number is.
fn after(number: u32, answer: &Answer) -> Option<u32>
    ensures { IfSome result (λ later. later
        ≡ (if is_change answer.now then number + 1 else number)) }
{
    if !is_change(answer) {
        return Some(number);
    }
    number.checked_add(1)
}

impl Counts {
    /// Nothing was counted yet. What is counted later takes its memory from the allocator.
    pub fn none(alloc: Global) -> Counts
        ensures runs { result.runs.entries.items ≡ [] }
        ensures payments { result.payments.entries.items ≡ [] }
    {
        Counts {
            runs: Kept::none(alloc),
            payments: Kept::none(alloc),
        }
    }
}

impl Kept<u32> {
    /// The number that is kept of the account, if one is.
    pub fn number(&self, name: &str) -> Option<u32>
        ensures { result ≡ kept_of self.now name.now }
    {
        self.entries
            .iter()
            .find(|count| count.is_of(name))
            .map(|count| count.content)
    }

    /// Keeps that the account had so many before one more was asked for, and answered so.
    pub fn keep(&mut self, alloc: Global, name: &str, number: u32, answer: &Answer)
        ensures { Takes (kept_of self.old) (kept_of self.new) name.now
            (if is_change answer.now then number + 1 else number) }
    {
        match after(number, answer) {
            Some(later) => self.set(alloc, name, later),
            None => self.entries.clear(),
        }
    }
}

//! The records of an import that the desk refused.

ghost use Rattle.std.specs.Prelude.{◌≡◌, Some, IfOk, option_map};
ghost use Rattle.ftd_imports.specs.Refused.{posted_entry, refused_record};

use ftd_machine::{Account, AccountName, Entry, Refusal, Request, ReturnPeriod};
use ftd_rules::{PayRun, Payment};
use std::alloc::{AllocError, Global};

/// What a record is to enter.
#[derive(Clone, Copy, Debug, PartialEq, Eq)]
pub enum RecordEntry {
    /// A pay run, under its number.
    Run { number: u32, run: PayRun },
    /// An account.
    Account(Account),
    /// The total that is reported for a period.
    Total(ReturnPeriod),
    /// A payment, under its number.
    Payment { number: u32, payment: Payment },
}

/// A record that the desk refused, by its number; the header has number 1.
#[derive(Drop)]
pub struct RefusedRecord {
    pub number: u32,
    /// The name of the employer's account.
    pub employer: AccountName,
    pub entry: RecordEntry,
    pub refusal: Refusal,
}

/// The record of this number, by what it is to enter, and why it was refused.
fn refused(
    alloc: Global,
    number: u32,
    employer: &str,
    entry: RecordEntry,
    refusal: Refusal,
) -> Result<RefusedRecord, AllocError>
    ensures { IfOk result (λ it. (it.number ≡ number) × (it.employer ≡ employer.now)
        × (it.entry ≡ entry) × (it.refusal ≡ refusal)) }
{
    Ok(RefusedRecord {
        number,
        employer: AccountName::from_string(String::from_str(alloc, employer)?),
        entry,
        refusal,
    })
}

/// The record of this number, by its post, and why that was refused. An error if there is no
/// memory, and of a request by which no record is posted.
pub(crate) fn refused_record(
    alloc: Global,
    number: u32,
    post: &Request,
    refusal: Refusal,
) -> Result<RefusedRecord, AllocError>
    ensures { IfOk result (λ those.
        option_map (refused_record number refusal) (posted_entry post.now) ≡ Some those) }
{
    let (employer, entry) = match post {
        Request::Post {
            account,
            number,
            run,
        } => (
            account,
            RecordEntry::Run {
                number: *number,
                run: *run,
            },
        ),
        Request::Enter(Entry::Account { name, account }) => (name, RecordEntry::Account(*account)),
        Request::Enter(
            Entry::Total {
                account,
                period,
                ..
            },
        ) => (account, RecordEntry::Total(*period)),
        Request::Pay {
            account,
            number,
            payment,
        } => (
            account,
            RecordEntry::Payment {
                number: *number,
                payment: *payment,
            },
        ),
        _ => return Err(AllocError),
    };
    refused(alloc, number, employer.as_str(), entry, refusal)
}

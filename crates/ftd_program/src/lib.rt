//! What the program does with what words ask, and what it prints.
#![tactic(auto)]

mod added_notes;
mod checking;
mod differences;
mod journal;
mod mending;
mod noting;
mod numbering;
mod open_accounts;
mod open_years;
mod performing;
mod printing;
mod record_notes;
mod settle;
mod summaries;

pub use crate::journal::{JournalFault, write_journal};
pub use crate::noting::put_note;
pub use crate::performing::{JobEnd, fail_output, perform, print_line, print_refusal, print_reply};
pub use crate::printing::print_plain;
pub use ftd_replies::tell;

//! The journal of a desk, as its tables have it: the requests by which an empty desk becomes this
//! one. That of the days is one list, and that of an account by its name another, so that no more
//! than one account has to be held at a time. Each is one function on a transaction, which changes
//! nothing.
#![tactic(auto)]

mod adding;
mod changes;
mod days;
mod enrolment;
pub mod laws;
mod numbered;
mod own_journal;
mod payments;
mod runs;
mod totals;
mod years;

pub use crate::days::days_journal;
pub use crate::own_journal::account_journal;
pub use crate::payments::next_payment;
pub use crate::runs::next_run;

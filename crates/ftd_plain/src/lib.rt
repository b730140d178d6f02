//! The deposits of one employer in one year, out of its pay runs as CSV, without a desk.
#![tactic(auto)]

mod calendar;
mod deposits;
mod fault;
mod runs;

pub use crate::deposits::plain;
pub use crate::fault::PlainFault;

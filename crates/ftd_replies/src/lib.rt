//! The lines that tell of replies and of refusals, and what can be done about them.
#![tactic(auto)]

mod added;
mod below;
mod differing;
mod enrolment;
mod hints;
pub mod laws;
mod line_requests;
mod notes;
mod questions;
mod refusals;
mod replies;
mod request_lines;
mod telling;

pub use crate::below::write_below;
pub use crate::differing::{Differing, write_difference};
pub use crate::enrolment::Enrolment;
pub use crate::hints::{HintFacts, account_in, write_hints, write_told};
pub use crate::line_requests::request_in;
pub use crate::notes::{asked_after, write_note};
pub use crate::refusals::{status_of, write_refusal};
pub use crate::replies::write_reply;
pub use crate::request_lines::{write_request, write_requests};
pub use crate::telling::{put, tell};

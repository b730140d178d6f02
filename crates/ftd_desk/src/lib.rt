//! The deposit desk over its tables: each request in one transaction.
#![tactic(auto)]

mod answering;
mod books;
mod bounds;
mod checking;
mod counts;
mod desk;
mod journals;
mod kept;
mod known;
pub mod laws;
mod listed;
mod requests;
mod unrefused;

pub use crate::desk::Desk;
pub use crate::unrefused::AllOrNone;
pub use ftd_check::{Part, Sizes, Soundness};
pub use ftd_questions::DueFault;

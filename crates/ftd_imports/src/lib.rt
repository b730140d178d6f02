//! Pay runs, accounts, reported totals and payments out of CSV, posted to the desk.
#![tactic(auto)]

mod added;
mod changes;
mod collection;
mod importing;
pub mod laws;
mod lists;
mod posting;
mod progress;
mod refusals;
mod summary;
mod trial;

pub use crate::added::{AccountAdded, added_by};
pub use crate::changes::AccountChange;
pub use crate::collection::Collection;
pub use crate::importing::import;
pub use crate::progress::{Progress, Quiet};
pub use crate::refusals::{RecordEntry, RefusedRecord};
pub use crate::summary::{Finding, ImportStop, Note, StopCause, Summary};
pub use crate::trial::import_trial;

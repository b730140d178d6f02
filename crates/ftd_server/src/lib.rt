//! The desk over HTTP: what it answers to messages, and connections over it.
#![tactic(auto)]

mod accounts;
mod facts;
mod office;
mod refusals;
mod refused;
mod respond;

pub use crate::accounts::account_response;
pub use crate::facts::server_frame;
pub use crate::office::{ByTables, serve, still_answers};
pub use crate::refusals::refusal_response;
pub use crate::respond::desk_response;

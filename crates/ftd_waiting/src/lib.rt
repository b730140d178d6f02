//! Connections that were accepted and wait for their turn: the one on which something comes first
//! is served first, so that a silent one holds nobody up.
#![tactic(auto)]

mod room;
mod waiting;
mod watch;
mod writable;

pub use crate::room::{MOST_WAITING, Next, WaitingRoom};
pub use crate::writable::takes_at_once;

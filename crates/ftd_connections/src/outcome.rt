//! What becomes of connections.

use crate::connection::Cause;

/// What became of a connection.
#[derive(Clone, Copy, Debug, PartialEq, Eq)]
pub enum Outcome {
    /// The listener gave none, or there was no memory for it.
    Missed,
    /// It was served, or nothing came on it in time.
    Served,
    /// Serving it failed.
    Failed(Cause),
}

/// One connection, and what answers its messages after it.
#[derive(Clone, Copy, Debug, PartialEq, Eq)]
pub struct Turn {
    /// What became of the connection.
    pub outcome: Outcome,
    /// Whether that still answers.
    pub answers: bool,
}

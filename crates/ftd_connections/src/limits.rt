//! How much a server takes upon itself.

use std::time::Duration;

/// How much a server takes upon itself.
#[derive(Clone, Copy, Debug, PartialEq, Eq)]
pub struct Limits {
    /// How many connections it takes.
    pub connections: u32,
    /// How many seconds a peer may be idle between two messages, and before the first, from when
    /// it was accepted.
    pub idle: u32,
    /// How many seconds a read inside a message or a write waits for the peer.
    pub silence: u32,
    /// For how many seconds one connection is read and written.
    pub duration: u32,
}

/// So many seconds.
pub(crate) fn seconds(count: u32) -> Duration {
    Duration::from_secs(u64::from(count))
}

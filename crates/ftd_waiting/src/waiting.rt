//! One connection that waits.

use std::io::ErrorKind;
use std::net::TcpStream;
use std::time::{Clock, Duration, Instant};

/// A connection that was accepted and waits for its turn.
#[derive(Drop)]
pub(crate) struct Waiting {
    stream: TcpStream,
    since: Option<Instant>,
    is_watched: bool,
}

impl Waiting {
    /// A connection that waits from now on. One that is watched does not block.
    pub(crate) fn new<C: Clock>(clock: &C, stream: TcpStream, is_watched: bool) -> Waiting {
        Waiting {
            stream,
            since: Instant::now(clock).ok(),
            is_watched,
        }
    }

    /// Whether its turn has come: there is something to read, its end too, or reading fails. One
    /// that is not watched does not wait.
    pub(crate) fn is_ready(&self) -> bool {
        let mut first = [0; 1];
        !self.is_watched
            || match self.stream.peek(&mut first) {
                Ok(_) => true,
                Err(error) => !matches!(error.kind(), ErrorKind::WouldBlock),
            }
    }

    /// How much is left of the time for which it may wait: none where the clock fails.
    pub(crate) fn time_left<C: Clock>(&self, clock: &C, limit: Duration) -> Duration {
        let Some(since) = self.since else {
            return Duration::ZERO;
        };
        match since.elapsed(clock) {
            Ok(gone) => limit.saturating_sub(gone),
            Err(_) => Duration::ZERO,
        }
    }

    /// Its stream.
    pub(crate) fn into_stream(self) -> TcpStream {
        self.stream
    }
}

//! The wait for whatever comes first on one of several sockets.

use mio::unix::SourceFd;
use mio::{Events, Interest, Poll, Token};
use std::io::Result;
use std::net::Net;
use std::os::fd::AsRawFd;
use std::time::Duration;

/// How many sockets one wait reports at most; the others are reported by the next one.
const REPORTED: usize = 64;

/// Waits for several sockets at once. Which of them something came on is asked of each afterwards.
#[derive(Drop)]
pub(crate) struct Watch {
    poll: Poll,
    events: Events,
}

impl Watch {
    /// A watch over no socket yet. An error where the system gives none, or there is no memory.
    pub(crate) fn new<R: Net + AllocGlobal>(rt: &R) -> Result<Watch> {
        Ok(Watch {
            poll: Poll::new(rt)?,
            events: Events::with_capacity(rt.alloc(), REPORTED)?,
        })
    }

    /// Watches one more socket, which does not block. An error where the system refuses.
    pub(crate) fn add<S: AsRawFd>(&self, socket: &S) -> Result<()> {
        let fd = socket.as_raw_fd();
        self.poll
            .registry()
            .register(&mut SourceFd(&fd), Token(0), Interest::READABLE)
    }

    /// Watches a socket no more. An error where it was not watched.
    pub(crate) fn remove<S: AsRawFd>(&self, socket: &S) -> Result<()> {
        let fd = socket.as_raw_fd();
        self.poll.registry().deregister(&mut SourceFd(&fd))
    }

    /// Waits until something has come since the last wait, or for so long; without a limit until
    /// something comes. It may return earlier.
    pub(crate) fn wait(&mut self, limit: Option<Duration>) -> Result<()> {
        self.poll.poll(&mut self.events, limit)
    }
}

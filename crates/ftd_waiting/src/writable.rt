//! Whether a write is taken at once.

use mio::unix::SourceFd;
use mio::{Events, Interest, Poll, Token};
use std::io::{ErrorKind, Result};
use std::net::Net;
use std::os::fd::AsRawFd;
use std::time::Duration;

/// Whether the system reports that there is room for a write.
fn reports_room<R: Net + AllocGlobal, F: AsRawFd>(rt: &R, file: &F) -> Result<bool> {
    let mut poll = Poll::new(rt)?;
    let mut events = Events::with_capacity(rt.alloc(), 1)?;
    let fd = file.as_raw_fd();
    poll.registry()
        .register(&mut SourceFd(&fd), Token(0), Interest::WRITABLE)?;
    poll.poll(&mut events, Some(Duration::ZERO))?;
    Ok(!events.is_empty())
}

/// Whether a line that is written to the file is taken at once. A file that can't be watched, as
/// one on a disk, takes it.
pub fn takes_at_once<R: Net + AllocGlobal, F: AsRawFd>(rt: &R, file: &F) -> bool {
    match reports_room(rt, file) {
        Ok(has_room) => has_room,
        Err(error) => error.kind() == ErrorKind::PermissionDenied,
    }
}

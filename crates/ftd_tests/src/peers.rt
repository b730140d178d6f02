//! Peers that send and take their bytes in pieces, or fail.

use ftd_connections::{ServeFault, ServedConnection};
use ftd_desk::Desk;
use ftd_ports::Port;
use ftd_server::serve;
use sqlite::MemStore;
use std::alloc::Global;
use std::io::{Error, ErrorKind, Read};

/// A reader that gives so many bytes at its first call, and then the others in pieces. At its first
/// call after so many bytes it fails.
#[derive(Drop)]
pub(crate) struct Sender<'a> {
    pub rest: &'a [u8],
    pub first: usize,
    pub piece: usize,
    pub fails_after: usize,
}

impl<'a> Read for Sender<'a> {
    fn read(&mut self, buf: &mut [u8]) -> std::io::Result<usize> {
        if self.fails_after == 0 {
            return Err(Error::from(ErrorKind::Other));
        }
        let count = self
            .first
            .max(1)
            .min(buf.len())
            .min(self.rest.len())
            .min(self.fails_after);
        let (front, back) = self.rest.split_at(count);
        buf[..count].copy_from_slice(front);
        self.rest = back;
        self.first = self.piece;
        self.fails_after = self.fails_after.saturating_sub(count);
        Ok(count)
    }
}

/// Serves what the sender sends: how it ends, and what is written.
pub(crate) fn exchange(
    alloc: Global,
    desk: &mut Desk<MemStore>,
    sender: Sender<'_>,
) -> (Result<ServedConnection, ServeFault>, Vec<u8>) {
    let mut source = Port::new(sender);
    let mut target = Port::new(Vec::new(alloc));
    let served = serve(alloc, desk, &mut source, &mut target);
    (served, target.into_inner())
}

/// A sender of these bytes at once, which then ends.
pub(crate) fn whole(input: &[u8]) -> Sender<'_> {
    cut(input, usize::MAX, usize::MAX)
}

/// A sender of these bytes, so many at first, and then in pieces of so many.
pub(crate) fn cut(input: &[u8], first: usize, piece: usize) -> Sender<'_> {
    Sender {
        rest: input,
        first,
        piece,
        fails_after: usize::MAX,
    }
}

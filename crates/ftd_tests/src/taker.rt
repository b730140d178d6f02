//! A writer that takes so many bytes and then fails.

use std::io::{Error, ErrorKind, Write};

/// Takes bytes while there is room, and then fails.
#[derive(Drop)]
pub(crate) struct Taker {
    /// The bytes that it took.
    pub taken: Vec<u8>,
    /// How many more it takes.
    pub room: usize,
}

impl Write for Taker {
    fn write(&mut self, bytes: &[u8]) -> std::io::Result<usize> {
        let count = bytes.len().min(self.room);
        if count == 0 {
            return Err(Error::from(ErrorKind::Other));
        }
        if self.taken.extend_from_slice(&bytes[..count]).is_err() {
            return Err(Error::from(ErrorKind::Other));
        }
        self.room = self.room.saturating_sub(count);
        Ok(count)
    }

    fn flush(&mut self) -> std::io::Result<()> {
        Ok(())
    }
}

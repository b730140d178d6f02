//! The lines of a body.

ghost use Rattle.std.specs.Prelude.{Some, ℕ, Bool, List, Option};

use ftd_cli::{Piece, next_piece};
use ftd_shell::{Script, Unread};
use std::alloc::Global;

/// What is told where there is no memory for a line.
const NO_MEMORY: &[u8] = b"failed 21 Memory\n";

/// The lines of a body in memory.
#[derive(Drop)]
pub(crate) struct BodyLines<'a> {
    pub(crate) alloc: Global,
    /// The bytes that are left.
    pub(crate) left: &'a [u8],
    /// There was no memory for a line.
    pub(crate) has_failed: bool,
}

impl Script for BodyLines<'_> {
    ghost left = { λ lines. Some lines.left.now };

    ghost failed = { λ lines. lines.has_failed };

    fn next(&mut self) -> Result<Piece, Unread> {
        match next_piece(self.alloc, &mut self.left) {
            Ok(piece) => Ok(piece),
            Err(_) => {
                self.has_failed = true;
                let mut said = Vec::new(self.alloc);
                let _ = said.extend_from_slice(NO_MEMORY);
                Err(Unread { status: 3, said })
            }
        }
    }

    fn is_ready(&self) -> bool {
        true
    }
}

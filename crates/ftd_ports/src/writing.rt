//! Texts written whole to a target.

ghost use Rattle.std.specs.List.{flat_map};
ghost use Rattle.ftd_ports.specs.Writing.{Writes};

use crate::Target;
use thiserror::Error;

/// A text was not written whole, since its target failed.
#[derive(Clone, Copy, Debug, PartialEq, Eq, Error)]
#[error("the text could not be written")]
pub struct WriteFault;

/// Writes the bytes. Where the target fails, a prefix of them was written.
pub fn write_all<W: Target>(target: &mut W, bytes: &[u8]) -> Result<(), WriteFault>
    ensures { Writes result (W.taken target.old) (W.taken target.new)
        (W.failed target.new) bytes.now }
{
    let mut rest = bytes;
    while !rest.is_empty() {
        match target.put(rest) {
            Ok(count) => rest = rest.split_at(count).1,
            Err(_) => return Err(WriteFault),
        }
    }
    Ok(())
}

/// Writes the pieces one after the other. Where the target fails, a prefix of them was written.
pub fn write_pieces<W: Target>(target: &mut W, pieces: &[&[u8]]) -> Result<(), WriteFault>
    ensures { Writes result (W.taken target.old) (W.taken target.new)
        (W.failed target.new) (flat_map (λ piece. piece.now) pieces.now) }
{
    for piece in pieces {
        write_all(target, piece)?;
    }
    Ok(())
}

//! Sources whose peer may send nothing for a while.

ghost use Rattle.std.specs.Prelude.{◌≡◌, Bool, not};

use ftd_ports::{Port, Source};
use std::io::Read;

/// A source whose peer may send nothing for a while between two messages.
pub trait Peer: Source {
    /// Whether the peer was idle for too long.
    ghost idle: { Self → Bool };

    /// Waits until the peer sends something or ends. False where it was idle for too long.
    fn waits(&mut self) -> bool
        ensures idle { idle self.new ≡ not result }
        ensures keeps { Self.left self.new ≡ Self.left self.old };
}

/// What a reader gives is waited for by its next call: it is never idle.
impl<T: Read> Peer for Port<T> {
    ghost use Rattle.std.specs.Prelude.{false};

    ghost idle = { λ port. false };

    fn waits(&mut self) -> bool {
        true
    }
}

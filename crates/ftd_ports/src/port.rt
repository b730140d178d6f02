//! Sources and targets of bytes: readers and writers that, once a call of them has failed, answer
//! the fault from then on.

ghost use Rattle.std.specs.Prelude.{◌≡◌, ◌≤◌, ◌<◌, ℕ, List, [], Option, Bool, true, false, length};
ghost use Rattle.std.specs.Prelude.{take, IfOk, OnOk, OnErr};
ghost use Rattle.std.specs.Io.KnownBytes.{Keeps, Appends, Consumes, IsAtEnd};

use std::io::{ErrorKind, Read, Write};
use thiserror::Error;

/// How often in a row a call that the system interrupted is tried again.
const TRIES: u32 = 100;

/// A call of a source or a target failed.
#[derive(Clone, Copy, Debug, PartialEq, Eq, Error)]
#[error("a reader or a writer failed")]
pub struct PortFault;

/// A source of bytes.
pub trait Source {
    /// The bytes that it has left, where it tells them.
    ghost left: { Self → Option (List ℕ) };

    /// Whether a call of it has failed.
    ghost failed: { Self → Bool };

    /// Puts the next bytes at the front of the buffer, and answers how many. None at a buffer with
    /// room means that no more come. A fault loses no byte, and comes again at each later call.
    fn get(&mut self, buf: &mut [u8]) -> Result<usize, PortFault>
        ensures count { IfOk result (λ n. n ≤ length buf.new) }
        ensures gives { IfOk result
            (λ n. Consumes (left self.old) (left self.new) (take n buf.new)) }
        ensures end { IfOk result (λ n. n ≡ 0 → 0 < length buf.new → IsAtEnd (left self.new)) }
        ensures works { OnOk result ((failed self.old ≡ false) × (failed self.new ≡ false)) }
        ensures fails { OnErr result (failed self.new ≡ true) }
        ensures keeps { OnErr result (Keeps (left self.old) (left self.new)) };
}

/// A target of bytes.
pub trait Target {
    /// The bytes that it has taken, where it tells them.
    ghost taken: { Self → Option (List ℕ) };

    /// Whether a call of it has failed.
    ghost failed: { Self → Bool };

    /// Takes bytes from the front of these, at least one if there is one, and answers how many. A
    /// fault takes none, and comes again at each later call.
    fn put(&mut self, bytes: &[u8]) -> Result<usize, PortFault>
        ensures count { IfOk result (λ n. n ≤ length bytes.now) }
        ensures some { IfOk result (λ n. n ≡ 0 → bytes.now ≡ []) }
        ensures takes { IfOk result
            (λ n. Appends (taken self.old) (taken self.new) (take n bytes.now)) }
        ensures works { OnOk result ((failed self.old ≡ false) × (failed self.new ≡ false)) }
        ensures fails { OnErr result (failed self.new ≡ true) }
        ensures keeps { OnErr result (Keeps (taken self.old) (taken self.new)) };
}

/// A source made of a reader, or a target made of a writer.
#[derive(Drop)]
pub struct Port<T> {
    inner: T,
    failed: bool,
}

impl<T> Port<T> {
    ghost use Rattle.ftd_ports.specs.Ports.{inner_of, has_failed};

    /// A port that has not failed.
    pub fn new(inner: T) -> Port<T>
        ensures inner { inner_of result ≡ inner }
        ensures works { has_failed result ≡ false }
    {
        Port {
            inner,
            failed: false,
        }
    }

    /// The reader or writer of the port.
    pub fn into_inner(self) -> T
        ensures { result ≡ inner_of self }
    {
        let Port { inner, failed: _ } = self;
        inner
    }
}

impl<T: Read> Source for Port<T> {
    ghost use Rattle.ftd_ports.specs.Ports.{inner_of, has_failed};

    ghost left = { λ port. T.remaining (inner_of port) };

    ghost failed = { has_failed };

    fn get(&mut self, buf: &mut [u8]) -> Result<usize, PortFault> {
        if self.failed {
            return Err(PortFault);
        }
        for _ in 0..TRIES {
            match self.inner.read(buf) {
                Ok(count) => return Ok(count),
                Err(fault) if fault.kind() == ErrorKind::Interrupted => {}
                Err(_) => break,
            }
        }
        self.failed = true;
        Err(PortFault)
    }
}

impl<T: Write> Target for Port<T> {
    ghost use Rattle.ftd_ports.specs.Ports.{inner_of, has_failed};

    ghost taken = { λ port. T.contents (inner_of port) };

    ghost failed = { has_failed };

    fn put(&mut self, bytes: &[u8]) -> Result<usize, PortFault> {
        if self.failed {
            return Err(PortFault);
        }
        for _ in 0..TRIES {
            match self.inner.write(bytes) {
                Ok(0) if !bytes.is_empty() => break,
                Ok(count) => return Ok(count),
                Err(fault) if fault.kind() == ErrorKind::Interrupted => {}
                Err(_) => break,
            }
        }
        self.failed = true;
        Err(PortFault)
    }
}

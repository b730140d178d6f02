//! The lines that a server writes on standard error.

ghost use Rattle.std.specs.Prelude.{None, false};

use ftd_ports::{PortFault, Target};
use ftd_waiting::takes_at_once;
use std::io::Write;

/// Standard error for the lines of a server. A line that is not taken at once, as by a pipe that
/// nobody reads, is left out, so that it holds nobody up; the next one that is taken comes below a
/// line that counts them. What standard error has taken is not known here.
#[derive(Drop)]
pub(crate) struct ServerLines<'a> {
    rt: &'a HostRuntime,
    /// The line that is being written.
    line: Vec<u8>,
    /// How many lines were left out since the last one that was taken.
    left_out: u64,
}

impl<'a> ServerLines<'a> {
    /// Standard error, of which no line was left out.
    pub(crate) fn new(rt: &'a HostRuntime) -> ServerLines<'a> {
        ServerLines {
            rt,
            line: Vec::new(rt.alloc()),
            left_out: 0,
        }
    }

    /// Writes a line that is whole, or leaves it out.
    fn end_line(&mut self) {
        let mut err = self.rt.stderr();
        if !takes_at_once(self.rt, &err) {
            self.left_out = self.left_out.saturating_add(1);
            return;
        }
        if self.left_out > 0 {
            // Where standard error fails, serving goes on.
            let _ = eprint!(self.rt; "and {} more\n", self.left_out);
            self.left_out = 0;
        }
        let _ = err.write_all(&self.line);
    }
}

impl Target for ServerLines<'_> {
    ghost taken = { λ _. None };

    ghost failed = { λ _. false };

    fn put(&mut self, bytes: &[u8]) -> Result<usize, PortFault> {
        // Where there is no memory for it, a line is cut.
        let _ = self.line.extend_from_slice(bytes);
        if bytes.last() == Some(&b'\n') {
            self.end_line();
            self.line.clear();
        }
        Ok(bytes.len())
    }
}

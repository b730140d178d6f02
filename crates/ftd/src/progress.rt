//! The progress of an import, on the terminal.

use ftd_imports::Progress;
use std::io::IsTerminal;
use std::time::{Duration, Instant};

/// How many milliseconds an import takes before the line is shown.
const BEFORE: u64 = 1_000;

/// For how many milliseconds the line stays as it is.
const BETWEEN: u64 = 200;

/// A line on standard error, as `4096 of 20000 records`, which is written over itself, and cleared
/// at the end. It is shown where standard error is a terminal, once the import takes longer than a
/// second. Where the clock, memory or the terminal fails, the line is left as it is.
#[derive(Drop)]
pub struct ProgressLine<'a> {
    rt: &'a HostRuntime,
    /// When the line is written next; None where standard error is no terminal.
    next: Option<Instant>,
    /// So many columns are written.
    width: usize,
}

impl<'a> ProgressLine<'a> {
    /// The line of an import that begins now.
    pub fn new(rt: &'a HostRuntime) -> ProgressLine<'a> {
        let next = if rt.stderr().is_terminal() {
            after(rt, BEFORE)
        } else {
            None
        };
        ProgressLine { rt, next, width: 0 }
    }

    /// Writes the line.
    fn show(&mut self, done: usize, all: usize) {
        let rt = self.rt;
        if let Ok(line) = format!(in rt.alloc(); "{done} of {all} records") {
            let _ = eprint!(rt; "\r{line}");
            self.width = line.len();
        }
    }
}

/// The time so many milliseconds from now.
fn after(rt: &HostRuntime, wait: u64) -> Option<Instant> {
    Instant::now(rt)
        .ok()?
        .checked_add(Duration::from_millis(wait))
}

impl Progress for ProgressLine<'_> {
    fn tell(&mut self, done: usize, all: usize) {
        let (Some(next), Ok(now)) = (self.next, Instant::now(self.rt)) else {
            return;
        };
        if now >= next {
            self.show(done, all);
            self.next = after(self.rt, BETWEEN);
        }
    }

    fn end(&mut self) {
        if self.width > 0 {
            let _ = eprint!(self.rt; "\r{:width$}\r", "", width = self.width);
            self.width = 0;
        }
    }
}

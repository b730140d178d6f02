//! Streams that are read and written until a time is over.

use std::io::{Error, ErrorKind, Read, Result, Write};
use std::time::{Clock, Duration, Instant};

/// A time that has begun, and is over after so long.
#[derive(Drop)]
pub struct Timer<'a, C> {
    clock: &'a C,
    begun: Option<Instant>,
    limit: Duration,
}

impl<'a, C: Clock> Timer<'a, C> {
    /// A time of so long that begins.
    pub fn new(clock: &'a C, limit: Duration) -> Timer<'a, C> {
        Timer {
            clock,
            begun: Instant::now(clock).ok(),
            limit,
        }
    }

    /// How much of the time is left: none where it is over, or the clock fails.
    pub fn time_left(&self) -> Duration {
        let Some(begun) = self.begun else {
            return Duration::ZERO;
        };
        match begun.elapsed(self.clock) {
            Ok(gone) => self.limit.saturating_sub(gone),
            Err(_) => Duration::ZERO,
        }
    }

    /// Fails once the time is over.
    fn check(&self) -> Result<()> {
        if self.time_left().is_zero() {
            return Err(Error::from(ErrorKind::TimedOut));
        }
        Ok(())
    }
}

/// A stream that is read and written until a time is over: later reads and writes fail, also those
/// of a peer that sends or takes a byte now and then. Where the clock fails, they do. What it gives
/// and takes is what the stream gives and takes.
#[derive(Drop)]
pub struct TimedStream<'a, C, S> {
    timer: &'a Timer<'a, C>,
    stream: S,
}

impl<'a, C: Clock, S> TimedStream<'a, C, S> {
    ghost use Rattle.std.specs.Prelude.{◌≡◌};
    ghost use Rattle.ftd_connections.specs.Wires.{stream_of};

    /// The stream, until the time is over.
    pub fn new(timer: &'a Timer<'a, C>, stream: S) -> TimedStream<'a, C, S>
        ensures { stream_of result ≡ stream }
    {
        TimedStream { timer, stream }
    }

    /// The stream, whether the time is over or not.
    pub fn into_stream(self) -> S
        ensures { result ≡ stream_of self.entry }
    {
        let TimedStream { timer: _, stream } = self;
        stream
    }
}

impl<'a, C: Clock, S: Read> Read for TimedStream<'a, C, S> {
    ghost use Rattle.ftd_connections.specs.Wires.{stream_of};

    ghost remaining = { λ timed. S.remaining (stream_of timed) };

    fn read(&mut self, buf: &mut [u8]) -> Result<usize> {
        self.timer.check()?;
        self.stream.read(buf)
    }
}

impl<'a, C: Clock, S: Write> Write for TimedStream<'a, C, S> {
    ghost use Rattle.ftd_connections.specs.Wires.{stream_of};

    ghost contents = { λ timed. S.contents (stream_of timed) };

    fn write(&mut self, bytes: &[u8]) -> Result<usize> {
        self.timer.check()?;
        self.stream.write(bytes)
    }

    fn flush(&mut self) -> Result<()> {
        self.stream.flush()
    }
}

//! The stream of a connection as a source.

ghost use Rattle.std.specs.Prelude.{◌≡◌, Bool, true};

use crate::timed::{TimedStream, Timer};
use ftd_http::Peer;
use ftd_ports::{Port, PortFault, Source};
use std::io::Read;
use std::time::{Clock, Duration};

/// A stream on which something can be waited for.
pub trait Waits {
    /// Whether it can come about that its peer is silent for as long as it is waited for.
    ghost may_be_silent: { Self → Bool };

    /// Whether the stream gives nothing for so long. Later reads wait for `silence`.
    fn is_silent(&self, wait: Duration, silence: Duration) -> bool
        ensures { result ≡ true → may_be_silent self.now ≡ true };
}

/// The stream of a connection as a source, which gives what the stream gives. Inside a message it
/// fails where the peer is silent for too long, and it fails once its time is over.
#[derive(Drop)]
pub struct Wire<'a, C, S, P: Waits> {
    port: Port<TimedStream<'a, C, S>>,
    timer: &'a Timer<'a, C>,
    peer: P,
    idle: Duration,
    silence: Duration,
    was_idle: bool,
    /// It was idle only where its peer was silent.
    ghost silent: { was_idle ≡ true → P.may_be_silent peer ≡ true },
}

impl<'a, C: Clock, S, P: Waits> Wire<'a, C, S, P> {
    ghost use Rattle.std.specs.Prelude.{◌≡◌};
    ghost use Rattle.ftd_connections.specs.Wires.{peer_of, reader_of};

    /// The stream of a peer that may be idle for so long between two messages, and silent for so
    /// long inside one. It is read by `stream` and waited on by `peer`.
    pub fn new(
        timer: &'a Timer<'a, C>,
        stream: S,
        peer: P,
        idle: Duration,
        silence: Duration,
    ) -> Wire<'a, C, S, P>
        ensures reader { reader_of result ≡ stream }
        ensures peer { peer_of result ≡ peer }
    {
        Wire {
            port: Port::new(TimedStream::new(timer, stream)),
            timer,
            peer,
            idle,
            silence,
            was_idle: false,
        }
    }

    /// What it is read by, and what it is waited on by.
    pub fn into_parts(self) -> (S, P)
        ensures reader { result.0 ≡ reader_of self.entry }
        ensures peer { result.1 ≡ peer_of self.entry }
    {
        let Wire {
            port,
            timer: _,
            peer,
            idle: _,
            silence: _,
            was_idle: _,
        } = self;
        (port.into_inner().into_stream(), peer)
    }
}

impl<'a, C: Clock, S: Read, P: Waits> Source for Wire<'a, C, S, P> {
    ghost use Rattle.ftd_ports.specs.Ports.{has_failed};
    ghost use Rattle.ftd_connections.specs.Wires.{port_of, reader_of};

    ghost left = { λ wire. S.remaining (reader_of wire) };

    ghost failed = { λ wire. has_failed (port_of wire) };

    fn get(&mut self, buf: &mut [u8]) -> Result<usize, PortFault> {
        self.port.get(buf)
    }
}

impl<'a, C: Clock, S: Read, P: Waits> Peer for Wire<'a, C, S, P> {
    ghost use Rattle.ftd_connections.specs.Wires.{was_idle};

    ghost idle = { was_idle };

    fn waits(&mut self) -> bool {
        let left = self.timer.time_left();
        // A peer that is waited for until the time is over is not idle: its next read fails.
        self.was_idle = self.idle < left && self.peer.is_silent(self.idle, self.silence);
        !self.was_idle
    }
}

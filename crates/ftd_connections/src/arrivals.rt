//! Where connections come from, and where they go.

ghost use Rattle.std.specs.Prelude.{Bool};
ghost use Rattle.ftd_connections.specs.declared.arrivals.Arrival.{Arrival};
ghost use Rattle.ftd_connections.specs.declared.arrivals.Connection.{Connection};

use crate::limits::Limits;
use crate::wire::Waits;
use std::io::{Read, Write};
use std::time::Clock;

/// A connection: its stream, by three handles of it.
#[derive(Drop)]
pub struct Connection<S> {
    /// By which it is read.
    pub reader: S,
    /// By which it is written.
    pub writer: S,
    /// By which its peer is waited for.
    pub peer: S,
}

/// Whose turn it is.
#[derive(Drop)]
pub enum Arrival<S> {
    /// This connection has something to read, or has ended or failed, which reading it tells.
    Ready(Connection<S>),
    /// This connection was silent for too long, and is to be closed.
    Idle(Connection<S>),
    /// There was none, or no memory for it.
    Missed,
}

/// Where connections come from, one after the other, and where each is closed.
///
/// What a stream has left to read and what it has taken are ghost members of `std`'s `Read` and
/// `Write`. A contract that is generic in this trait names them, whatever stream it is. `std` says
/// of a socket that they are not known; so what is claimed of the bytes of a socket rests on this:
/// they are what its reads gave and what its writes took.
pub trait Arrivals {
    /// The stream of a connection.
    type Stream: Read + Write + Waits + Drop;

    /// Those that wait before one is given, what is given, and those that wait after it.
    ghost gives: { Self → Arrival Self.Stream → Self → Type 0 };

    /// Those that wait before a connection is closed, the connection as it is then, whether it
    /// lingers, and those that wait after it.
    ghost closes: { Self → Connection Self.Stream → Bool → Self → Type 0 };

    /// Waits for the connection whose turn is next, after which so many others may be taken.
    fn next_arrival<R: Clock + AllocGlobal>(
        &mut self,
        rt: &R,
        limits: Limits,
        others: u32,
    ) -> Arrival<Self::Stream>
        ensures { gives self.old result self.new };

    /// Closes a connection that it gave. One whose peer may still send is to linger: nothing more is
    /// written, and what comes is read and dropped, so that the peer can read all that was written.
    fn close<C: Clock>(&mut self, clock: &C, connection: Connection<Self::Stream>, lingers: bool)
        ensures { closes self.old connection lingers self.new };
}

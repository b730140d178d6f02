//! The connections of a listener's sockets.

use crate::arrivals::{Arrival, Arrivals, Connection};
use crate::closing::end;
use crate::limits::{Limits, seconds};
use crate::wire::Waits;
use ftd_waiting::{Next, WaitingRoom};
use std::alloc::{AllocError, Global};
use std::io;
use std::io::{ErrorKind, Read, Write};
use std::net::TcpStream;
use std::rc::Rc;
use std::time::{Clock, Duration};

/// One of several handles of the stream of a socket. Which bytes it gives and takes, `std` does not
/// say.
#[derive(Drop)]
pub struct Socket {
    stream: Rc<TcpStream>,
}

impl Read for Socket {
    fn read(&mut self, buf: &mut [u8]) -> io::Result<usize> {
        let mut stream = &*self.stream;
        stream.read(buf)
    }
}

impl Write for Socket {
    fn write(&mut self, bytes: &[u8]) -> io::Result<usize> {
        let mut stream = &*self.stream;
        stream.write(bytes)
    }

    fn flush(&mut self) -> io::Result<()> {
        let mut stream = &*self.stream;
        stream.flush()
    }
}

impl Waits for Socket {
    ghost use Rattle.std.specs.Prelude.{true};

    ghost may_be_silent = { λ socket. true };

    fn is_silent(&self, wait: Duration, silence: Duration) -> bool {
        let stream = &*self.stream;
        // Where the system sets no limit on waiting, the peer is waited for without one.
        let _ = stream.set_read_timeout(Some(wait));
        let mut first = [0; 1];
        let peeked = stream.peek(&mut first);
        let _ = stream.set_read_timeout(Some(silence));
        match peeked {
            Ok(_) => false,
            Err(error) => matches!(error.kind(), ErrorKind::WouldBlock | ErrorKind::TimedOut),
        }
    }
}

/// The connection of a stream, whose writes wait so long for the peer.
fn connection_of(
    alloc: Global,
    stream: TcpStream,
    silence: Duration,
) -> Result<Connection<Socket>, AllocError> {
    // Where the system sets no limit on waiting, the connection is served without one.
    let _ = stream.set_write_timeout(Some(silence));
    // No answer is to wait until the peer has acknowledged the one before.
    let _ = stream.set_nodelay(true);
    let stream = Rc::new(alloc, stream)?;
    Ok(Connection {
        reader: Socket {
            stream: stream.clone()?,
        },
        writer: Socket {
            stream: stream.clone()?,
        },
        peer: Socket { stream },
    })
}

/// The connections of a listener that wait together. Which of them is given, and what its bytes
/// are, no contract can say.
impl<'a> Arrivals for WaitingRoom<'a> {
    ghost use Rattle.std.specs.Prelude.{◌≡◌};

    type Stream = Socket;

    ghost gives = { λ before arrival after. Unit {0} };

    ghost closes = { λ before connection lingers after. after ≡ before };

    fn next_arrival<R: Clock + AllocGlobal>(
        &mut self,
        rt: &R,
        limits: Limits,
        others: u32,
    ) -> Arrival<Socket> {
        let silence = seconds(limits.silence);
        match self.next(rt, seconds(limits.idle), others) {
            Next::Ready(stream) => match connection_of(rt.alloc(), stream, silence) {
                Ok(connection) => Arrival::Ready(connection),
                Err(_) => Arrival::Missed,
            },
            Next::Idle(stream) => match connection_of(rt.alloc(), stream, silence) {
                Ok(connection) => Arrival::Idle(connection),
                Err(_) => Arrival::Missed,
            },
            Next::Missed => Arrival::Missed,
        }
    }

    fn close<C: Clock>(&mut self, clock: &C, connection: Connection<Socket>, lingers: bool)
        ensures { self.new ≡ self.old }
    {
        if lingers {
            end(clock, &connection.writer.stream);
        }
    }
}

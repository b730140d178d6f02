//! The end of a connection that the server closes.

use crate::timed::Timer;
use std::io::Read;
use std::net::{Shutdown, TcpStream};
use std::time::{Clock, Duration};

/// How often what the peer still sends is read, at most 4,096 bytes at a time.
const READS: u32 = 16;

/// Ends a stream so that the peer can read all that was written, also where it still sends: nothing
/// more is written, what comes is read and dropped, at most 65,536 bytes for at most a second.
pub fn end<C: Clock>(clock: &C, stream: &TcpStream) {
    if stream.shutdown(Shutdown::Write).is_err() {
        return;
    }
    let timer = Timer::new(clock, Duration::from_secs(1));
    let mut dropped = [0; 4096];
    for _ in 0..READS {
        let left = timer.time_left();
        if left.is_zero() || stream.set_read_timeout(Some(left)).is_err() {
            return;
        }
        let mut rest = stream;
        match rest.read(&mut dropped) {
            Ok(0) | Err(_) => return,
            Ok(_) => {}
        }
    }
}

//! The next message of a source.

ghost use Rattle.std.specs.Prelude.{◌≡◌, ◌≤◌, false, true, vec_len, IfOk, OnOk, OnErr, IsErrOf};
ghost use Rattle.std.specs.Bool.{MatchBool};
ghost use Rattle.std.specs.Io.KnownBytes.{IsAtEnd};
ghost use Rattle.ftd_http.specs.Reading.{Reads, Takes, IsNext};

use crate::Status;
use crate::look::{Look, MOST_FIELDS, Parts, look_at};
use crate::peer::Peer;
use ftd_ports::Source;
use httparse::spans::EMPTY_HEADER_SPAN;

/// What comes next.
#[derive(Clone, Copy, Debug)]
pub enum Next {
    /// A whole message.
    Whole(Parts),
    /// A message that its head refuses.
    Refused(Status),
    /// The end, between two messages.
    Closed,
    /// The end, inside a message.
    Truncated,
    /// None: the peer was idle for too long, between two messages.
    Idle,
}

/// Why no message could be read.
#[derive(Clone, Copy, Debug, PartialEq, Eq)]
pub enum ReadFault {
    /// The source has failed.
    Read,
    /// There was no memory for the bytes read.
    Memory,
}

/// Reads until the next message stands whole at the front of the buffer, is refused, or can't come.
/// Bytes read beyond it stay in the buffer. Where nothing of it is there yet, the peer is waited
/// for. `Read` where the source has failed: the buffer has all that it gave. `Memory` where there
/// is none for what it gave last, which is lost then.
pub fn next_message<R: Peer>(source: &mut R, buf: &mut Vec<u8>) -> Result<Next, ReadFault>
    ensures next { IfOk result
        (λ next. IsNext buf.new.items (R.left source.new) (R.idle source.new) next) }
    ensures reads { OnOk result
        (Reads (R.left source.old) (R.left source.new) buf.old.items buf.new.items) }
    ensures takes { OnErr result (Takes (R.left source.old) (R.left source.new)) }
    ensures fault { IsErrOf result ReadFault.Read → R.failed source.new ≡ true }
{
    if buf.is_empty() && !source.waits() {
        return Ok(Next::Idle);
    }
    read_message(source, buf)
}

/// Reads until the next message stands whole at the front of the buffer, is refused, or can't come.
fn read_message<R: Source>(source: &mut R, buf: &mut Vec<u8>) -> Result<Next, ReadFault>
    ensures next { IfOk result (λ next. IsNext buf.new.items (R.left source.new) false next) }
    ensures reads { OnOk result
        (Reads (R.left source.old) (R.left source.new) buf.old.items buf.new.items) }
    ensures takes { OnErr result (Takes (R.left source.old) (R.left source.new)) }
    ensures fault { IsErrOf result ReadFault.Read → R.failed source.new ≡ true }
{
    let mut headers = [EMPTY_HEADER_SPAN; MOST_FIELDS];
    let mut ended = false;
    'looks: loop {
        match look_at(buf, &mut headers) {
            Look::Whole(parts) => return Ok(Next::Whole(parts)),
            Look::Refused(status) => return Ok(Next::Refused(status)),
            Look::More(want) => {
                if ended {
                    if buf.is_empty() {
                        return Ok(Next::Closed);
                    }
                    return Ok(Next::Truncated);
                }
                match fill(source, buf, want) {
                    Ok(full) => ended = !full,
                    Err(fault) => return Err(fault),
                }
            }
        }
    }
}

/// Reads until the buffer has so many bytes. False where the source ends before.
fn fill<R: Source>(source: &mut R, buf: &mut Vec<u8>, want: usize) -> Result<bool, ReadFault>
    ensures full { IfOk result
        (λ full. MatchBool full (want ≤ vec_len buf.new) (IsAtEnd (R.left source.new))) }
    ensures reads { OnOk result
        (Reads (R.left source.old) (R.left source.new) buf.old.items buf.new.items) }
    ensures takes { OnErr result (Takes (R.left source.old) (R.left source.new)) }
    ensures fault { IsErrOf result ReadFault.Read → R.failed source.new ≡ true }
{
    let mut chunk = [0; 4096];
    'fills: while buf.len() < want {
        let Ok(count) = source.get(&mut chunk) else {
            return Err(ReadFault::Read);
        };
        if count == 0 {
            return Ok(false);
        }
        if buf.extend_from_slice(&chunk[..count]).is_err() {
            return Err(ReadFault::Memory);
        }
    }
    Ok(true)
}

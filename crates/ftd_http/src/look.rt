//! A look at the bytes read so far.

ghost use Rattle.std.specs.Prelude.{◌≡◌, length};
ghost use Rattle.httparse.specs.Spans.{IsRequestOf, IsRequestWithin};
ghost use Rattle.ftd_http.specs.Looks.{IsLook};

use crate::Status;
use crate::lengths::{asks_to_close, body_length};
use httparse::Status as Parsed;
use httparse::spans::{HeaderSpan, RequestSpans, Span, parse_request};

/// How many fields a head may have.
pub const MOST_FIELDS: usize = 64;

/// The greatest length of a head, with its empty line.
pub const HEAD_LIMIT: usize = 16_384;

/// Where the parts of a message stand in the bytes read, of which it is the first.
#[derive(Clone, Copy, Debug)]
pub struct Parts {
    /// The method.
    pub method: Span,
    /// The target.
    pub target: Span,
    /// Where the body begins.
    pub body: usize,
    /// Where the message ends, and its body.
    pub end: usize,
    /// Whether the message asks for the connection to close after its answer.
    pub closes: bool,
}

/// What a look finds.
#[derive(Clone, Copy, Debug)]
pub enum Look {
    /// A whole message.
    Whole(Parts),
    /// A message that its head refuses.
    Refused(Status),
    /// So many bytes are wanted in all.
    More(usize),
}

/// Looks for a message at the front of the bytes.
pub fn look_at(buf: &[u8], headers: &mut [HeaderSpan]) -> Look
    requires { length headers.old ≡ MOST_FIELDS }
    ensures { IsLook buf.now result }
{
    match parse_request(buf, headers) {
        Ok(Parsed::Complete(head)) => frame(buf, head, headers),
        Ok(Parsed::Partial) => {
            if buf.len() < HEAD_LIMIT {
                Look::More(buf.len() + 1)
            } else {
                Look::Refused(Status::BadRequest)
            }
        }
        Err(_) => Look::Refused(Status::BadRequest),
    }
}

/// Looks for the body after a head.
fn frame(buf: &[u8], head: RequestSpans, headers: &[HeaderSpan]) -> Look
    requires room { length headers.now ≡ MOST_FIELDS }
    requires head { IsRequestOf buf.now headers.now head }
    requires within { IsRequestWithin buf.now headers.now head }
    ensures { IsLook buf.now result }
{
    if head.len > HEAD_LIMIT {
        return Look::Refused(Status::BadRequest);
    }
    let fields = &headers[..head.headers];
    let count = match body_length(buf, head.method.of(buf), fields) {
        Ok(count) => count,
        Err(status) => return Look::Refused(status),
    };
    let end = head.len + count;
    if buf.len() < end {
        return Look::More(end);
    }
    Look::Whole(Parts {
        method: head.method,
        target: head.path,
        body: head.len,
        end,
        closes: asks_to_close(buf, head.version, fields),
    })
}

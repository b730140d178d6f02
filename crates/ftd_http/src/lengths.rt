//! What a head says of its message.

ghost use Rattle.std.specs.Prelude.{◌≡◌, ◌≤◌, length, map, All, IfOk};
ghost use Rattle.httparse.specs.Spans.{header_bytes, IsHeaderWithin};
ghost use Rattle.ftd_http.specs.Heads.{number_in, body_length_of, asks_to_close};

use crate::Status;
use crate::fields::{are_all, find, has_listed};
use crate::origins::origin_fault;
use ftd_days::digits::number;
use httparse::spans::HeaderSpan;

/// The greatest length of a body.
pub const BODY_LIMIT: u64 = 1_048_576;

/// The number that 1 to 10 digits spell. None for every other text.
pub fn number_in(text: &[u8]) -> Option<u64>
    ensures { result ≡ number_in text.now }
{
    let (first, others) = text.split_first()?;
    if others.len() > 9 || !first.is_ascii_digit() {
        return None;
    }
    let low = number(others)?;
    let high = u64::from(first - b'0') * 10u64.pow(others.len() as u32);
    Some(high + u64::from(low))
}

/// How long the body of a message is, or the first fault of its head.
#[tactic(auto, unfolding(crate::specs::Heads::body_length_of))]
pub fn body_length(buf: &[u8], method: &[u8], headers: &[HeaderSpan]) -> Result<usize, Status>
    requires { All (IsHeaderWithin (length buf.now)) headers.now }
    ensures value { result ≡ body_length_of method.now (map (header_bytes buf.now) headers.now) }
    ensures limit { IfOk result (λ count. count ≤ BODY_LIMIT) }
{
    if let Some(fault) = origin_fault(buf, headers) {
        return Err(fault);
    }
    if find(buf, headers, b"transfer-encoding").is_some() {
        return Err(Status::NotImplemented);
    }
    let Some((text, others)) = find(buf, headers, b"content-length") else {
        if method == b"POST".as_slice() {
            return Err(Status::LengthRequired);
        }
        return Ok(0);
    };
    if !are_all(buf, others, b"content-length", text) {
        return Err(Status::BadRequest);
    }
    let Some(count) = number_in(text) else {
        return Err(Status::BadRequest);
    };
    if count > BODY_LIMIT {
        return Err(Status::ContentTooLarge);
    }
    Ok(count as usize)
}

/// Whether the connection closes after the answer.
#[tactic(auto, unfolding(crate::specs::Heads::asks_to_close))]
pub fn asks_to_close(buf: &[u8], version: u8, headers: &[HeaderSpan]) -> bool
    requires { All (IsHeaderWithin (length buf.now)) headers.now }
    ensures { result ≡ asks_to_close version (map (header_bytes buf.now) headers.now) }
{
    version == 0 || has_listed(buf, headers, b"connection", b"close")
}

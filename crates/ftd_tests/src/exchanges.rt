//! One exchange, however its bytes are cut, and inputs that end early or are too long.

use crate::desks::new_desk;
use crate::peers::{cut, exchange, whole};
use ftd_connections::{End, ServedConnection};
use std::alloc::Global;
use std::process::Abort;
use std::test::Fail;

/// An account is enrolled, and its schedule asked for before a year is open. The first message has
/// 85 bytes.
pub(crate) const INPUT: &[u8] =
    b"POST /accounts HTTP/1.1\r\nContent-Length: 38\r\n\r\n{\"account\":\"elm\",\"start\":\"2024-05-01\"}GET /accounts/elm/status/2024-05-08 HTTP/1.1\r\nConnection: close\r\n\r\n";

/// Its answers. The first has 87 bytes.
pub(crate) const OUTPUT: &[u8] =
    b"HTTP/1.1 200 OK\r\nContent-Type: application/json\r\nContent-Length: 16\r\n\r\n{\"reply\":\"done\"}HTTP/1.1 409 Conflict\r\nContent-Type: application/json\r\nContent-Length: 51\r\nConnection: close\r\n\r\n{\"detail\":\"2024\",\"name\":\"YearNotOpen\",\"refused\":18}";

/// The answer to a message that is refused by its head.
const BAD: &[u8] = b"HTTP/1.1 400 Bad Request\r\nContent-Length: 0\r\nConnection: close\r\n\r\n";

/// A new desk is served the input, in a first piece and then pieces of so many bytes.
fn is_answered(rt: &impl Abort, alloc: Global, first: usize, piece: usize) -> Result<(), Fail> {
    let (served, written) = exchange(alloc, &mut new_desk(alloc)?, cut(INPUT, first, piece));
    let end = End::Asked;
    assert_eq!(rt;
        served,
        Ok(ServedConnection { answered: 2, end }),
        "{first} {piece}"
    );
    assert_eq!(rt; written.as_slice(), OUTPUT);
    Ok(())
}

#[test]
fn the_answers_are_the_same_wherever_the_bytes_are_cut(rt: HostRuntime) -> Result<(), Fail> {
    for first in 0..INPUT.len() {
        is_answered(&rt, rt.alloc(), first, usize::MAX)?;
    }
    is_answered(&rt, rt.alloc(), usize::MAX, usize::MAX)?;
    is_answered(&rt, rt.alloc(), 1, 1)
}

/// Serves the first bytes of the input, which end after the first message or before.
fn ends_early(rt: &impl Abort, alloc: Global, input: &[u8]) -> Result<(), Fail> {
    let count = input.len();
    let (served, written) = exchange(alloc, &mut new_desk(alloc)?, whole(input));
    let (answered, length) = if count < 85 { (0, 0) } else { (1, 87) };
    let end = if count == 0 || count == 85 {
        End::Closed
    } else {
        End::Truncated
    };
    assert_eq!(rt; served, Ok(ServedConnection { answered, end }), "{count}");
    assert_eq!(rt; written.as_slice(), &OUTPUT[..length]);
    Ok(())
}

#[test]
fn an_input_that_ends_early_is_answered_in_part(rt: HostRuntime) -> Result<(), Fail> {
    for count in 0..INPUT.len() {
        ends_early(&rt, rt.alloc(), &INPUT[..count])?;
    }
    Ok(())
}

/// An input, what is written for it on a new desk, how many messages are answered, and how it ends.
type Row<'a> = (&'a [u8], &'a [u8], u32, End);

fn answers(rt: &impl Abort, alloc: Global, row: Row<'_>) -> Result<(), Fail> {
    let (input, text, answered, end) = row;
    let (served, written) = exchange(alloc, &mut new_desk(alloc)?, whole(input));
    assert_eq!(rt; served, Ok(ServedConnection { answered, end }));
    assert_eq!(rt; written.as_slice(), text);
    Ok(())
}

const FAULTS_OF_HEADS: [(&[u8], &[u8], u32, End); 6] = [
    (
        b"POST /accounts HTTP/1.1\r\n\r\n",
        b"HTTP/1.1 411 Length Required\r\nContent-Length: 0\r\nConnection: close\r\n\r\n",
        1,
        End::BadMessage,
    ),
    (
        b"POST /none HTTP/1.1\r\nTransfer-Encoding: chunked\r\nContent-Length: x\r\n\r\n",
        b"HTTP/1.1 501 Not Implemented\r\nContent-Length: 0\r\nConnection: close\r\n\r\n",
        1,
        End::BadMessage,
    ),
    (
        b"POST /accounts HTTP/1.1\r\nContent-Length: 007\r\nContent-Length: 7\r\n\r\n",
        BAD,
        1,
        End::BadMessage,
    ),
    (
        b"POST /accounts HTTP/1.1\r\nContent-Length: 1048577\r\n\r\n",
        b"HTTP/1.1 413 Content Too Large\r\nContent-Length: 0\r\nConnection: close\r\n\r\n",
        1,
        End::BadMessage,
    ),
    (
        b"DELETE /accounts HTTP/1.1\r\nConnection: Close\r\n\r\n",
        b"HTTP/1.1 405 Method Not Allowed\r\nAllow: POST\r\nContent-Length: 0\r\nConnection: close\r\n\r\n",
        1,
        End::Asked,
    ),
    (
        b"GET /accounts/elm/runs/ HTTP/1.0\r\n\r\n",
        b"HTTP/1.1 404 Not Found\r\nContent-Length: 0\r\nConnection: close\r\n\r\n",
        1,
        End::Asked,
    ),
];

#[test]
fn faults_have_their_order_and_their_bytes(rt: HostRuntime) -> Result<(), Fail> {
    for row in FAULTS_OF_HEADS {
        answers(&rt, rt.alloc(), row)?;
    }
    Ok(())
}

#[test]
fn a_connection_has_a_hundred_messages(rt: HostRuntime) -> Result<(), Fail> {
    let mut input = Vec::new(rt.alloc());
    for _ in 0..101 {
        input.extend_from_slice(b"GET /none HTTP/1.1\r\n\r\n")?;
    }
    let sender = cut(input.as_slice(), 4000, 4000);
    let (served, written) = exchange(rt.alloc(), &mut new_desk(rt.alloc())?, sender);
    let end = End::Limit;
    assert_eq!(rt; served, Ok(ServedConnection { answered: 100, end }));
    // Each answer has 45 bytes, and the last has `Connection: close` besides.
    assert_eq!(rt; written.len(), 100 * 45 + 19);
    Ok(())
}

#[test]
fn a_head_has_16384_bytes_and_64_fields_at_most(rt: HostRuntime) -> Result<(), Fail> {
    let alloc = rt.alloc();
    let mut input = Vec::new(alloc);
    for _ in 0..16_383 {
        input.push(b'a')?;
    }
    answers(&rt, alloc, (input.as_slice(), b"", 0, End::Truncated))?;
    input.push(b'a')?;
    answers(&rt, alloc, (input.as_slice(), BAD, 1, End::BadMessage))?;
    let mut many = Vec::from_slice(alloc, b"GET /none HTTP/1.1\r\n")?;
    for _ in 0..65 {
        many.extend_from_slice(b"a: b\r\n")?;
    }
    many.extend_from_slice(b"\r\n")?;
    answers(&rt, alloc, (many.as_slice(), BAD, 1, End::BadMessage))
}

#[test]
fn the_longest_body_is_read_whole(rt: HostRuntime) -> Result<(), Fail> {
    let alloc = rt.alloc();
    let mut input = Vec::from_slice(
        alloc,
        b"POST /accounts HTTP/1.1\r\nContent-Length: 1048576\r\n\r\n",
    )?;
    for _ in 0..16_384 {
        input.extend_from_slice(&[b' '; 64])?;
    }
    let text = b"HTTP/1.1 400 Bad Request\r\nContent-Length: 0\r\n\r\n";
    answers(&rt, alloc, (input.as_slice(), text, 1, End::Closed))
}

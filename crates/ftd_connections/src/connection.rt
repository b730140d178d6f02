//! Serving a connection.

ghost use Rattle.std.specs.Prelude.{Some, ◌||◌, ◌-◌, ◌==◌, ◌≡◌, ◌<◌, ◌≤◌, List, ℕ};
ghost use Rattle.std.specs.Prelude.{true, false};
ghost use Rattle.std.specs.Prelude.{IfOk, IfErr, OnOk, drop, vec_len};
ghost use Rattle.std.specs.Io.KnownBytes.{Appends};
ghost use Rattle.ftd_ports.specs.Writing.{Writes};
ghost use Rattle.ftd_http.specs.Asking.{is_for_browser};
ghost use Rattle.ftd_http.specs.Messages.{Message};
ghost use Rattle.ftd_http.specs.Looks.{IsMessageAt, ArePartsOf};
ghost use Rattle.ftd_http.specs.Routes.{all_routes};
ghost use Rattle.ftd_connections.specs.Serving.{Answered, Broken, ServesMessages, Breaks, Proceeds};
ghost use Rattle.ftd_connections.specs.Serving.{IsAnswer, BreaksOff, HasFailed, asks_to_end};
ghost use Rattle.ftd_connections.specs.Serving.{refusal_text};

use crate::machine::Machine;
use crate::response::{bare_response, write_response};
use ftd_http::{
    Inquiry, Next, Parts, Peer, ReadFault, Status, make_router, next_message, what_is_asked,
};
use ftd_ports::{Target, WriteFault};
use ftd_verbs::Verb;
use matchit::Router;
use std::alloc::Global;

/// How a connection ends.
#[derive(Clone, Copy, Debug, PartialEq, Eq)]
pub enum End {
    /// The peer closed it, between two messages.
    Closed,
    /// A message asked for it, by its head or by what a browser shows.
    Asked,
    /// A hundred messages were answered.
    Limit,
    /// A message was refused by its head.
    BadMessage,
    /// The peer closed it, inside a message.
    Truncated,
    /// The peer was idle for too long, between two messages.
    Idle,
}

/// A connection that was served.
#[derive(Clone, Copy, Debug, PartialEq, Eq)]
pub struct ServedConnection {
    /// How many messages were answered, a refused one too.
    pub answered: u32,
    /// How the connection ended.
    pub end: End,
}

/// Why serving failed. After each cause the answers of the first messages were written, and
/// perhaps a part of the next one.
#[derive(Clone, Copy, Debug, PartialEq, Eq)]
pub enum Cause {
    /// A read failed.
    Read,
    /// A write failed. The message whose answer was being written may have been handled.
    Write,
    /// There was no memory. The next message may have been handled.
    Memory,
}

/// A connection on which serving failed, after so many answers.
#[derive(Clone, Copy, Debug, PartialEq, Eq)]
pub struct ServeFault {
    /// How many messages were answered whole.
    pub answered: u32,
    /// Why serving failed.
    pub cause: Cause,
}

/// How many messages are answered on one connection.
const MOST_MESSAGES: u32 = 100;

/// Serves one connection: reads messages from the source, has each answered, and writes the answers
/// to the target.
pub fn serve_machine<By, M: Machine<By>, R: Peer, W: Target>(
    alloc: Global,
    machine: &mut M,
    source: &mut R,
    target: &mut W,
) -> Result<ServedConnection, ServeFault>
    ensures ok { IfOk result (ServesMessages (Answered M.goes machine.old machine.new)
        (R.left source.old) (R.left source.new) (R.idle source.new)
        (W.taken target.old) (W.taken target.new)) }
    ensures err { IfErr result (Breaks (Broken M.goes machine.old machine.new)
        (R.left source.old) (R.left source.new) (R.failed source.new)
        (W.taken target.old) (W.taken target.new) (W.failed target.new)) }
{
    let Ok(router) = make_router(alloc) else {
        return Err(failed(0, Cause::Memory));
    };
    let mut buf = Vec::new(alloc);
    let mut answered = 0;
    'messages: loop {
        match serve_next(alloc, &router, machine, source, target, &mut buf, answered) {
            Ok(None) => answered += 1,
            Ok(Some(served)) => return Ok(served),
            Err(fault) => return Err(fault),
        }
    }
}

/// Serves the next message of a connection, after so many others. None where the connection stays
/// open after the answer.
fn serve_next<By, M: Machine<By>, R: Peer, W: Target>(
    alloc: Global,
    router: &Router<Verb>,
    machine: &mut M,
    source: &mut R,
    target: &mut W,
    buf: &mut Vec<u8>,
    answered: u32,
) -> Result<Option<ServedConnection>, ServeFault>
    requires routes { router.now ≡ all_routes }
    requires few { answered < MOST_MESSAGES }
    ensures { Proceeds M.goes machine.old machine.new
        (R.left source.old) (R.left source.new) (R.idle source.new) (R.failed source.new)
        (W.taken target.old) (W.taken target.new) (W.failed target.new)
        buf.old.items buf.new.items answered result }
{
    let next = match next_message(source, buf) {
        Ok(next) => next,
        Err(ReadFault::Read) => return Err(failed(answered, Cause::Read)),
        Err(ReadFault::Memory) => return Err(failed(answered, Cause::Memory)),
    };
    let parts = match next {
        Next::Whole(parts) => parts,
        Next::Refused(status) => match refuse(alloc, target, status) {
            Ok(()) => return Ok(Some(ended(answered + 1, End::BadMessage))),
            Err(_) => return Err(failed(answered, Cause::Write)),
        },
        Next::Closed => return Ok(Some(ended(answered, End::Closed))),
        Next::Truncated => return Ok(Some(ended(answered, End::Truncated))),
        Next::Idle => return Ok(Some(ended(answered, End::Idle))),
    };
    let ends = match answer(alloc, router, machine, target, buf, &parts, answered) {
        Ok(ends) => ends,
        Err(cause) => return Err(failed(answered, cause)),
    };
    drop_front(buf, parts.end);
    if ends {
        return Ok(Some(ended(answered + 1, End::Asked)));
    }
    if answered == MOST_MESSAGES - 1 {
        return Ok(Some(ended(answered + 1, End::Limit)));
    }
    Ok(None)
}

/// A connection that was served.
fn ended(answered: u32, end: End) -> ServedConnection
    ensures { result ≡ record { answered = answered; end = end } }
{
    ServedConnection { answered, end }
}

/// A connection on which serving failed.
fn failed(answered: u32, cause: Cause) -> ServeFault
    ensures { result ≡ record { answered = answered; cause = cause } }
{
    ServeFault { answered, cause }
}

/// Whether a message asks for the end of its connection: its head does, or it asks for what a
/// browser shows, which would keep the connection while another client waits.
fn asks_to_end(parts: &Parts, asked: &Inquiry) -> bool
    ensures { result ≡ (parts.now.closes || is_for_browser asked.now) }
{
    parts.closes || asked.is_for_browser()
}

/// Whether the connection closes after the answer to a message that comes after so many others,
/// where it asks for the end or not.
fn closes_after(answered: u32, ends: bool) -> bool
    ensures { result ≡ (ends || (answered == MOST_MESSAGES - 1)) }
{
    ends || answered == MOST_MESSAGES - 1
}

/// Answers a message that is refused by its head.
fn refuse<W: Target>(alloc: Global, target: &mut W, status: Status) -> Result<(), WriteFault>
    ensures { Writes result (W.taken target.old) (W.taken target.new)
        (W.failed target.new) (refusal_text (Some status)) }
{
    write_response(alloc, target, &bare_response(alloc, status), true)
}

/// Answers the message at the front of the buffer, after so many others; and whether it asks for
/// the end of the connection.
fn answer<By, M: Machine<By>, W: Target>(
    alloc: Global,
    router: &Router<Verb>,
    machine: &mut M,
    target: &mut W,
    buf: &[u8],
    parts: &Parts,
    answered: u32,
) -> Result<bool, Cause>
    requires parts { ArePartsOf buf.now parts.now }
    requires routes { router.now ≡ all_routes }
    ensures ok { OnOk result ((message : Message) → IsMessageAt buf.now parts.now message
        → (text : List ℕ) × IsAnswer M.goes answered machine.old message text machine.new
        × Appends (W.taken target.old) (W.taken target.new) text) }
    ensures ends { IfOk result (λ ends. (message : Message)
        → IsMessageAt buf.now parts.now message → ends ≡ asks_to_end message) }
    ensures err { IfErr result (λ cause. (message : Message) → IsMessageAt buf.now parts.now message
        → (part : List ℕ)
        × BreaksOff M.goes answered buf.now machine.old machine.new part cause
        × Appends (W.taken target.old) (W.taken target.new) part) }
    ensures fault { IfErr result (λ cause. HasFailed cause false (W.failed target.new)) }
{
    let body = &buf[parts.body..parts.end];
    let Ok(asked) = what_is_asked(
        alloc,
        router,
        parts.method.of(buf),
        parts.target.of(buf),
        body,
    ) else {
        return Err(Cause::Memory);
    };
    let Ok(response) = machine.respond(alloc, &asked, body) else {
        return Err(Cause::Memory);
    };
    let ends = asks_to_end(parts, &asked);
    match write_response(alloc, target, &response, closes_after(answered, ends)) {
        Ok(()) => Ok(ends),
        Err(_) => Err(Cause::Write),
    }
}

/// Takes so many bytes from the front.
fn drop_front(buf: &mut Vec<u8>, count: usize)
    requires { count ≤ vec_len buf.old }
    ensures { buf.new.items ≡ drop count buf.old.items }
{
    let _ = buf.drain(..count);
}

//! The lines of a server.

ghost use Rattle.std.specs.Prelude.{◌≡◌, Some};
ghost use Rattle.std.specs.List.{flat_map};
ghost use Rattle.ftd_ports.specs.Writing.{Writes};
ghost use Rattle.ftd_connections.specs.Listening.{IsTold, IsToldMore, cause_text, failed_line};
ghost use Rattle.ftd_connections.specs.Listening.{listening_line, outcome_line, stop_line};

use crate::connection::Cause;
use crate::outcome::Outcome;
use crate::stop::Stop;
use ftd_ports::{Target, WriteFault, write_all, write_pieces};
use itoa::Buffer;

/// Tells at which port the server listens.
pub fn tell_listening<W: Target>(port: u16, out: &mut W) -> Result<(), WriteFault>
    ensures { Writes result (W.taken out.old) (W.taken out.new)
        (W.failed out.new) (listening_line port) }
{
    let mut digits = Buffer::new();
    let port = digits.format(port).as_bytes();
    write_pieces(out, &[b"listening 127.0.0.1:", port, b"\n"])
}

/// Goes on with what was told: these pieces, unless an earlier line met a fault.
fn tell_more<W: Target>(
    told: Result<(), WriteFault>,
    pieces: &[&[u8]],
    err: &mut W,
) -> Result<(), WriteFault>
    ensures { IsToldMore told result (W.taken err.old) (W.taken err.new)
        (W.failed err.old) (W.failed err.new) (flat_map (λ piece. piece.now) pieces.now) }
{
    match told {
        Ok(()) => write_pieces(err, pieces),
        Err(fault) => Err(fault),
    }
}

/// Tells of a connection that failed, and why.
fn tell_failed<W: Target>(
    told: Result<(), WriteFault>,
    number: u32,
    why: &[u8],
    err: &mut W,
) -> Result<(), WriteFault>
    ensures { IsToldMore told result (W.taken err.old) (W.taken err.new)
        (W.failed err.old) (W.failed err.new) (failed_line number why.now) }
{
    let mut digits = Buffer::new();
    let number = digits.format(number).as_bytes();
    tell_more(
        told,
        &[b"connection ", number, b" failed ", why, b"\n"],
        err,
    )
}

/// Tells of a connection where it failed, or the listener did not give it.
pub fn tell_outcome<W: Target>(
    told: Result<(), WriteFault>,
    number: u32,
    outcome: Outcome,
    err: &mut W,
) -> Result<(), WriteFault>
    ensures { IsToldMore told result (W.taken err.old) (W.taken err.new)
        (W.failed err.old) (W.failed err.new) (outcome_line number outcome) }
{
    match outcome {
        Outcome::Served => told,
        Outcome::Missed => tell_failed(told, number, b"Accept", err),
        Outcome::Failed(cause) => tell_failed(told, number, cause_text(cause), err),
    }
}

/// Tells why the server stopped.
pub fn tell_stop<W: Target>(stop: Stop, err: &mut W) -> Result<(), WriteFault>
    ensures { IsTold result (W.taken err.old) (W.taken err.new) (W.failed err.new)
        (stop_line (Some stop)) }
{
    write_all(err, stop_line(stop))
}

/// The last line of a server that stopped.
fn stop_line(stop: Stop) -> &'static [u8]
    ensures { result.now ≡ stop_line (Some stop) }
{
    match stop {
        Stop::Net => b"failed Net\n",
        Stop::Output => b"failed Output\n",
    }
}

/// Why a connection failed, in a word.
fn cause_text(cause: Cause) -> &'static [u8]
    ensures { result.now ≡ cause_text cause }
{
    match cause {
        Cause::Read => b"Read",
        Cause::Write => b"Write",
        Cause::Memory => b"Memory",
    }
}

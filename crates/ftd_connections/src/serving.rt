//! A listener's connections, served one after the other.

ghost use Rattle.std.specs.Prelude.{◌≡◌, ◌<◌, ◌≤◌, Result};
ghost use Rattle.ftd_ports.specs.declared.writing.WriteFault.{WriteFault};
ghost use Rattle.ftd_connections.specs.Listening.{HasTaken, IsTurn, outcome_of};
ghost use Rattle.ftd_connections.specs.Served.{IsServed, StillAnswers, TakesOne, is_ended_here};

use crate::limits::{Limits, seconds};
use crate::{
    Arrival, Arrivals, Connection, End, Machine, Outcome, ServeFault, ServedConnection,
    TimedStream, Timer, Turn, Waits, Wire, serve_machine, tell_outcome,
};
use ftd_ports::{Port, Target};
use std::io::{Read, Write};
use std::thread;
use std::time::{Clock, Duration};

/// What was said on a connection.
struct Conversation<S> {
    /// The connection after it.
    connection: Connection<S>,
    /// How it ended.
    end: Result<ServedConnection, ServeFault>,
}

/// Serves one connection. A peer that is silent inside a message, or takes nothing, or goes on for
/// too long ends it as a failed read or write; one that is idle between two messages ends it.
fn serve_one<By, M: Machine<By>, R: Clock + AllocGlobal, S: Read + Write + Waits>(
    rt: &R,
    connection: Connection<S>,
    limits: Limits,
    machine: &mut M,
) -> Conversation<S>
    ensures { IsServed S.remaining S.contents S.may_be_silent M.goes machine.old connection
        result.end result.connection machine.new }
{
    let Connection {
        reader,
        writer,
        peer,
    } = connection;
    let timer = Timer::new(rt, seconds(limits.duration));
    let (idle, silence) = (seconds(limits.idle), seconds(limits.silence));
    let mut source = Wire::new(&timer, reader, peer, idle, silence);
    let mut target = Port::new(TimedStream::new(&timer, writer));
    let end = serve_machine(rt.alloc(), machine, &mut source, &mut target);
    let (reader, peer) = source.into_parts();
    let writer = target.into_inner().into_stream();
    Conversation {
        connection: Connection {
            reader,
            writer,
            peer,
        },
        end,
    }
}

/// Whether the server ends a connection after an answer, and the peer may still send.
fn is_ended_here(end: &Result<ServedConnection, ServeFault>) -> bool
    ensures { result ≡ is_ended_here end.now }
{
    match end {
        Ok(served) => matches!(served.end, End::Asked | End::Limit | End::BadMessage),
        Err(_) => false,
    }
}

/// What became of a connection.
fn outcome_of(end: Result<ServedConnection, ServeFault>) -> Outcome
    ensures { result ≡ outcome_of end }
{
    match end {
        Ok(_) => Outcome::Served,
        Err(fault) => Outcome::Failed(fault.cause),
    }
}

/// Takes the connection whose turn is next, after which so many others may be taken, and serves it;
/// one on which nothing came in time is closed. After an error of the listener it waits for a tenth
/// of a second, so that one that lasts does not keep the processor busy.
#[tactic(auto, using(crate::proofs::ServedFacts::given_next))]
fn take_one<By, M: Machine<By>, R: Clock + AllocGlobal, A: Arrivals>(
    rt: &R,
    room: &mut A,
    limits: Limits,
    others: u32,
    machine: &mut M,
) -> Outcome
    ensures { TakesOne A.Stream.remaining A.Stream.contents A.Stream.may_be_silent M.goes A.Arrivals
        (room.old, machine.old) result (room.new, machine.new) }
{
    match room.next_arrival(rt, limits, others) {
        Arrival::Ready(connection) => {
            let Conversation { connection, end } = serve_one(rt, connection, limits, machine);
            room.close(rt, connection, is_ended_here(&end));
            outcome_of(end)
        }
        Arrival::Idle(connection) => {
            room.close(rt, connection, false);
            Outcome::Served
        }
        Arrival::Missed => {
            let _ = thread::sleep(rt, Duration::from_millis(100));
            Outcome::Missed
        }
    }
}

/// Takes a connection, after which so many others may be taken, serves it, and sees whether the
/// machine still answers.
fn take_turn<By, M: Machine<By>, R: Clock + AllocGlobal, A: Arrivals>(
    rt: &R,
    room: &mut A,
    limits: Limits,
    others: u32,
    machine: &mut M,
) -> Turn
    ensures { IsTurn (TakesOne A.Stream.remaining A.Stream.contents A.Stream.may_be_silent M.goes
        A.Arrivals) (StillAnswers M.stays) (room.old, machine.old) result (room.new, machine.new) }
{
    let outcome = take_one(rt, room, limits, others, machine);
    let answers = machine.still_answers(rt.alloc());
    Turn { outcome, answers }
}

/// Takes connections, one after the other, whose messages the machine answers, after so many others
/// were taken, until all are taken, or it does not answer any more. Answers how many were taken in
/// all. One that fails, or that the listener does not give, is told on `err`, and the next one is
/// taken. Where `err` fails, nothing more is told on it, and serving goes on.
///
/// Those that were accepted are waited for together, and the one on which something comes first is
/// taken next, so that a silent one holds nobody up. Where the machine does not answer any more,
/// those that wait stay in the room.
pub fn serve_on<By, M: Machine<By>, R: Clock + AllocGlobal, A: Arrivals, Err: Target>(
    rt: &R,
    room: &mut A,
    limits: Limits,
    taken: u32,
    machine: &mut M,
    err: &mut Err,
) -> u32
    requires { taken ≤ limits.connections }
    ensures takes { (told : Result (Unit {0}) WriteFault)
        × HasTaken (TakesOne A.Stream.remaining A.Stream.contents A.Stream.may_be_silent M.goes
        A.Arrivals) (StillAnswers M.stays) (room.old, machine.old) (room.new, machine.new) told
        (Err.taken err.old) (Err.taken err.new) (Err.failed err.new) taken result }
    ensures most { result ≤ limits.connections }
    ensures some { taken < limits.connections → taken < result }
{
    let mut told = Ok(());
    for number in taken..limits.connections {
        let others = limits.connections - (number + 1);
        let turn = take_turn(rt, room, limits, others, machine);
        told = tell_outcome(told, number + 1, turn.outcome, err);
        if !turn.answers {
            return number + 1;
        }
    }
    limits.connections
}

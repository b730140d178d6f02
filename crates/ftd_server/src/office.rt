//! Connections over the desk.

ghost use Rattle.std.specs.Prelude.{◌≡◌, IfOk, IfErr};
ghost use Rattle.ftd_desk.specs.Desks.{held};
ghost use Rattle.ftd_connections.specs.Serving.{ServesMessages, Breaks};
ghost use Rattle.ftd_server.specs.Tables.{AnsweredBy, BrokenBy};
ghost use Rattle.ftd_server.specs.Turns.{asks, is_lost};

use crate::respond::desk_response;
use ftd_connections::{Machine, Response, ServeFault, ServedConnection, serve_machine};
use ftd_days::Day;
use ftd_desk::Desk;
use ftd_http::{Inquiry, Peer};
use ftd_machine::{AccountName, Answer, Question, Refusal, Request};
use ftd_ports::Target;
use sqlite::Alter;
use std::alloc::{AllocError, Global};

/// The way in which a desk answers: by its tables.
pub struct ByTables;

impl<S: Alter> Machine<ByTables> for Desk<S> {
    ghost use Rattle.ftd_server.specs.Replying.{ByRequests};
    ghost use Rattle.ftd_server.specs.Tables.{handles};
    ghost use Rattle.ftd_server.specs.Turns.{asks};

    ghost goes = { ByRequests (handles S.Store) };

    ghost stays = { asks S.Store };

    fn respond(
        &mut self,
        alloc: Global,
        asked: &Inquiry,
        _body: &[u8],
    ) -> Result<Response, AllocError> {
        desk_response(alloc, self, None, asked)
    }

    fn still_answers(&mut self, alloc: Global) -> bool {
        still_answers(alloc, self)
    }
}

/// Whether the desk still answers: it is asked for the schedule of no account, and its store does
/// not fail.
pub fn still_answers<S: Alter>(alloc: Global, desk: &mut Desk<S>) -> bool
    ensures { asks S.Store desk.old result desk.new }
{
    let question = Request::Question(Question::Status {
        account: AccountName::from_string(String::new(alloc)),
        day: Day::first_of_month(0),
    });
    let answer = desk.handle(&question);
    !is_lost(&answer)
}

/// Whether the store of the desk that answered failed.
fn is_lost(answer: &Answer) -> bool
    ensures { result ≡ is_lost answer.now }
{
    matches!(answer, Err(Refusal::Store))
}

/// Serves one connection: reads messages from the source, has the desk answer each, and writes the
/// answers to the target, each in one call where the target takes it whole. A connection has at
/// most a hundred messages; what it takes in memory is one message, and one answer twice.
/// `ServeFault` where a read or a write fails, or there is no memory.
pub fn serve<S: Alter, R: Peer, W: Target>(
    alloc: Global,
    desk: &mut Desk<S>,
    source: &mut R,
    target: &mut W,
) -> Result<ServedConnection, ServeFault>
    ensures ok { IfOk result
        (ServesMessages (AnsweredBy (held S.Store desk.old) (held S.Store desk.new))
        (R.left source.old) (R.left source.new) (R.idle source.new)
        (W.taken target.old) (W.taken target.new)) }
    ensures err { IfErr result
        (Breaks (BrokenBy (held S.Store desk.old) (held S.Store desk.new))
        (R.left source.old) (R.left source.new) (R.failed source.new)
        (W.taken target.old) (W.taken target.new) (W.failed target.new)) }
{
    serve_machine(alloc, desk, source, target)
}

//! What the desk is asked after a reply, and what is said of its answer below the reply.

ghost use Rattle.std.specs.Prelude.{◌≡◌};
ghost use Rattle.ftd_program.specs.Performing.{AnswersThenNotes, Notes, NotesAfter, PutsNote};
ghost use Rattle.ftd_program.specs.Performing.{asked_then};

use crate::performing::{JobEnd, print_answer};
use ftd_desk::Desk;
use ftd_machine::{Answer, Reply, Request};
use ftd_ports::Target;
use ftd_replies::{asked_after, write_note};
use ftd_verbs::AnswerFormat;
use sqlite::Alter;

/// What the desk is asked after its answer to the request.
fn asked_then(request: Request, answer: &Answer) -> Option<Request>
    ensures { result ≡ asked_then request answer.now }
{
    match answer {
        Ok(reply) => asked_after(request, reply),
        Err(_) => None,
    }
}

/// Puts what is said of an answer, with the desk of this file.
pub fn put_note<E: Target>(db: &str, answer: &Answer, err: &mut E)
    ensures { PutsNote E.taken E.failed err.old err.new db.now answer.now }
{
    match answer {
        Ok(Reply::Told(facts)) => {
            // Where standard error fails, the status still tells.
            let _ = write_note(db, facts, err);
        }
        Ok(Reply::Done | Reply::Already | Reply::Posted(_)) | Err(_) => {}
    }
}

/// Asks the question of the desk, and puts what is said of its answer on standard error.
fn note<S: Alter, O, E: Target>(
    desk: &mut Desk<S>,
    db: &str,
    question: &Request,
    performed: JobEnd<O, E>,
) -> JobEnd<O, E>
    ensures { Notes S.Store E.taken E.failed performed result desk.old desk.new db.now
        question.now }
{
    let answer = desk.handle(question);
    let JobEnd { status, out, err } = performed;
    let mut err = err;
    put_note(db, &answer, &mut err);
    JobEnd { status, out, err }
}

/// Asks the desk what is said below what was performed, where this is a reply that was printed and
/// there is a question to ask.
fn note_if_printed<S: Alter, O, E: Target>(
    desk: &mut Desk<S>,
    db: &str,
    question: Option<Request>,
    performed: JobEnd<O, E>,
) -> JobEnd<O, E>
    ensures { NotesAfter S.Store E.taken E.failed performed result desk.old desk.new db.now
        question }
{
    match question {
        Some(question) => {
            if performed.status == 0 {
                note(desk, db, &question, performed)
            } else {
                performed
            }
        }
        None => performed,
    }
}

/// Asks the request of the desk, and prints its answer. Where the text of a reply was printed, the
/// desk is asked what is said below it.
pub(crate) fn answer_then_note<S: Alter, O: Target, E: Target>(
    desk: &mut Desk<S>,
    db: &str,
    format: AnswerFormat,
    request: Request,
    out: O,
    err: E,
) -> JobEnd<O, E>
    ensures { AnswersThenNotes S.Store O.taken O.failed E.taken E.failed out err result
        desk.old desk.new db.now format request }
{
    let answer = desk.handle(&request);
    let performed = print_answer(desk, db, format, &request, &answer, out, err);
    let question = asked_then(request, &answer);
    note_if_printed(desk, db, question, performed)
}

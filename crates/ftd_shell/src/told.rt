//! What is told of a listed line that was answered together with others.

ghost use Rattle.std.specs.Prelude.{◌≡◌, ◌++◌, All, IfOk, IfSome, List, None, is_some, option_map};
ghost use Rattle.std.specs.Prelude.{true};
ghost use Rattle.ftd_machine.specs.Checks.{Answer as Answers};
ghost use Rattle.ftd_machine.specs.Laws.{IsBounded};
ghost use Rattle.ftd_machine.specs.Questions.{question_of};
ghost use Rattle.ftd_machine.specs.declared.requests.Request.{Request as Requests};
ghost use Rattle.ftd_desk.specs.Unrefused.{IsReply};
ghost use Rattle.ftd_replies.specs.Notes.{asked_when_done};
ghost use Rattle.ftd_replies.specs.declared.hints.HintFacts.TheVariants.{Nothing};
ghost use Rattle.ftd_shell.specs.Listed.{Entered, HasItsNote, NotesGiven, PutsBelow};
ghost use Rattle.ftd_shell.specs.Listed.{TellsAnswer, answers_of, asked_of};
ghost use Rattle.ftd_program.specs.Performing.{Prints, asked_then};
ghost use Rattle.ftd_shell.specs.ListedLines.{GivesFirst, IsOf, is_done};

use ftd_machine::{Answer, Reply, Request};
use ftd_ports::Target;
use ftd_program::{JobEnd, print_refusal, print_reply, put_note};
use ftd_replies::HintFacts;
use ftd_verbs::AnswerFormat;

/// What the desk was asked for a line, what it answered, and what it answered to what it was asked
/// after that.
#[derive(Clone, Copy)]
pub(crate) struct Told<'r, 'a> {
    pub request: &'r Request,
    pub answer: &'a Answer,
    pub note: Option<&'a Answer>,
}

/// What was asked and answered for the first of some lines, and for the others.
#[derive(Clone, Copy)]
pub(crate) struct FirstTold<'r, 'a> {
    pub told: Told<'r, 'a>,
    pub requests: &'r [Request],
    pub answers: &'a [Answer],
}

/// What was asked and answered for the first line, after which something is asked, or not, and the
/// others. `None` where there is no more.
pub(crate) fn first_told<'r, 'a>(
    requests: &'r [Request],
    answers: &'a [Answer],
    has_note: bool,
) -> Option<FirstTold<'r, 'a>>
    ensures first { (entered : Entered) → (later : List Requests) → (rest : List Answers)
        → HasItsNote entered → question_of entered.asked.request ≡ None
        → has_note ≡ is_some (asked_when_done entered.asked.request)
        → requests.now ≡ asked_of entered ++ later → answers.now ≡ answers_of entered ++ rest
        → GivesFirst entered later rest result }
    ensures replies { All IsReply answers.now → IfSome result (λ given.
        IsReply given.told.answer.now × All IsReply given.answers.now) }
{
    let Some((request, requests)) = requests.split_first() else {
        return None;
    };
    let Some((answer, answers)) = answers.split_first() else {
        return None;
    };
    if !has_note {
        let told = Told {
            request,
            answer,
            note: None,
        };
        return Some(FirstTold {
            told,
            requests,
            answers,
        });
    }
    let Some((_, requests)) = requests.split_first() else {
        return None;
    };
    let Some((note, answers)) = answers.split_first() else {
        return None;
    };
    let told = Told {
        request,
        answer,
        note: Some(note),
    };
    Some(FirstTold {
        told,
        requests,
        answers,
    })
}

/// Prints the answer to a request. Of a refusal nothing is known for hints.
fn print_given<O: Target, E: Target>(
    db: &str,
    format: AnswerFormat,
    told: &Told<'_, '_>,
    out: O,
    err: E,
) -> JobEnd<O, E>
    requires bounded { IfOk told.now.answer.now IsBounded }
    ensures { Prints O.taken O.failed E.taken E.failed out err result db.now format
        told.now.request.now Nothing told.now.answer.now }
{
    match told.answer {
        Ok(reply) => print_reply(db, format, told.request, reply, out, err),
        Err(refusal) => print_refusal(db, told.request, refusal, &HintFacts::Nothing, out, err),
    }
}

/// Puts what is said of an answer below what was printed.
fn note_below<O, E: Target>(db: &str, note: &Answer, first: JobEnd<O, E>) -> JobEnd<O, E>
    ensures { PutsBelow E.taken E.failed first result db.now note.now }
{
    let JobEnd { status, out, err } = first;
    let mut err = err;
    put_note(db, note, &mut err);
    JobEnd { status, out, err }
}

/// Whether the request was done.
fn is_done(answer: &Answer) -> bool
    ensures { result ≡ is_done answer.now }
{
    matches!(answer, Ok(Reply::Done))
}

/// Puts what is said of the answer to what was asked after a request below what was printed, where
/// that is the text of the reply that the request was done.
fn note_given<O, E: Target>(db: &str, told: &Told<'_, '_>, first: JobEnd<O, E>) -> JobEnd<O, E>
    ensures { question_of told.now.request.now ≡ None
        → (is_some told.now.note ≡ true
        → is_some (asked_when_done told.now.request.now) ≡ true)
        → NotesGiven E.taken E.failed first result db.now
        (asked_then told.now.request.now told.now.answer.now)
        (option_map (λ note. note.now) told.now.note) }
{
    match told.note {
        Some(note) => {
            if first.status == 0 && is_done(told.answer) {
                note_below(db, note, first)
            } else {
                first
            }
        }
        None => first,
    }
}

/// Prints what the desk answered for a line, and below it what is said of what it answered then.
pub(crate) fn tell_answer<O: Target, E: Target>(
    db: &str,
    format: AnswerFormat,
    told: &Told<'_, '_>,
    out: O,
    err: E,
) -> JobEnd<O, E>
    requires bounded { IfOk told.now.answer.now IsBounded }
    ensures { (entered : Entered) → IsOf told.now entered → format ≡ entered.asked.format
        → TellsAnswer O.taken O.failed E.taken E.failed out err result db.now entered }
{
    let first = print_given(db, format, told, out, err);
    note_given(db, told, first)
}

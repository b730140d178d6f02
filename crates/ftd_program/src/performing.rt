//! A request is asked of the desk, and what it answers is printed.

ghost use Rattle.std.specs.Prelude.{◌≡◌, IfOk, MatchBool, codes};
ghost use Rattle.ftd_desk.specs.Desks.{held};
ghost use Rattle.ftd_program.specs.Doing.{Does};
ghost use Rattle.ftd_program.specs.Performing.{Asks, AsksDue, Performs, PerformsDue};
ghost use Rattle.ftd_program.specs.Performing.{PrintsAnswer, is_text};
ghost use Rattle.ftd_program.specs.Performing.{PerformsImport, PerformsTrial, PrintsRefusal};
ghost use Rattle.ftd_program.specs.Performing.{PrintsReply, PrintsStop, PrintsSummary, PutsHints};
ghost use Rattle.ftd_program.specs.Performing.{PutsMalformed, more_hint};
ghost use Rattle.ftd_machine.specs.Laws.{IsBounded};
ghost use Rattle.ftd_machine.specs.declared.requests.Question.TheVariants.{DueList};
ghost use Rattle.ftd_machine.specs.declared.requests.Request.TheVariants as requests;
ghost use Rattle.ftd_csv.specs.Hints.{record_hints};
ghost use Rattle.ftd_replies.specs.Below.{below_text};
ghost use Rattle.ftd_ports.specs.Writing.{Writes};
ghost use Rattle.ftd_replies.specs.Putting.{IsPut};
ghost use Rattle.ftd_replies.specs.Replies.{reply_text};
ghost use Rattle.ftd_program.specs.Summaries.{stop_status, stop_text, summary_status};

use crate::added_notes::put_added;
use crate::checking::check;
use crate::journal::journal;
use crate::mending::{known_for, or_nothing};
use crate::noting::answer_then_note;
use crate::numbering::ask_next;
use crate::open_years::open_years;
use crate::record_notes::put_refusals;
use crate::settle::settle;
use crate::summaries::{write_bad_header, write_summary};
use ftd_answers::{DueText, ListFormat, UnwrittenText};
use ftd_cli::Job;
use ftd_csv::{HintFault, Sheet, write_record_hints};
use ftd_days::{Day, Quarter};
use ftd_desk::{Desk, DueFault};
use ftd_imports::{ImportStop, Progress, StopCause, Summary, import, import_trial};
use ftd_machine::{Answer, Question, Refusal, Reply, Request};
use ftd_ports::{Target, WriteFault, write_pieces};
use ftd_replies::{HintFacts, put, status_of, write_below, write_reply, write_told};
use ftd_verbs::AnswerFormat;
use itoa::Buffer;
use sqlite::Alter;
use std::alloc::Global;

/// What was done: the exit status, and where the texts went.
#[derive(Drop)]
pub struct JobEnd<O, E> {
    /// 0 where it was answered, 1 where it was refused, 3 where memory, the store or standard
    /// output failed.
    pub status: u8,
    pub out: O,
    pub err: E,
}

/// Does the job of a task, with the desk of this file: asks its request of the desk, perhaps under
/// the next number, or opens a year of each account that has the year before open, or records what
/// is left of the deposits due on a day as paid, or checks the tables, or prints a journal, or
/// imports the entries of the input, CSV with the header of their sheet, or tells what an import
/// would say of them. What came of it goes to `out`, and the line of a refusal or of a fault to
/// `err`. What the desk took stands, also where `out` fails: the status is 3 then, and a prefix of
/// the text was written. `progress` is told how far an import is, and its end before anything is
/// printed.
pub fn perform<S: Alter, O: Target, E: Target, P: Progress>(
    alloc: Global,
    db: &str,
    job: Job,
    desk: &mut Desk<S>,
    input: &[u8],
    out: O,
    err: E,
    progress: &mut P,
) -> JobEnd<O, E>
    ensures { Does S.Store O.taken O.failed E.taken E.failed out err result desk.old desk.new
        input.now db.now job }
{
    match job {
        Job::Import {
            sheet,
            is_trial,
            ..
        } => import_or_try(alloc, desk, sheet, is_trial, input, out, err, progress),
        Job::Ask { format, request } => ask(desk, db, format, request, out, err),
        Job::AskNext { request } => ask_next(desk, db, request, out, err),
        Job::OpenYears { year } => open_years(alloc, desk, db, year, out, err),
        Job::Settle(asked) => settle(alloc, desk, db, &asked, out, err),
        Job::Check => check(desk, db, out, err),
        Job::Journal { account } => journal(desk, db, account, out, err),
    }
}

/// Asks the request of the desk. A list is printed in a format; a due list as text is printed row
/// by row, as it comes. Below a reply stands what is said of what the desk is asked after it.
fn ask<S: Alter, O: Target, E: Target>(
    desk: &mut Desk<S>,
    db: &str,
    format: AnswerFormat,
    request: Request,
    out: O,
    err: E,
) -> JobEnd<O, E>
    ensures { Asks S.Store O.taken O.failed E.taken E.failed out err result
        desk.old desk.new db.now format request }
{
    match request.question() {
        Some(
            Question::DueList {
                account,
                quarter,
                as_of,
            },
        ) => ask_due(
            desk,
            db,
            format,
            &request,
            account.as_str(),
            *quarter,
            *as_of,
            out,
            err,
        ),
        _ => answer_then_note(desk, db, format, request, out, err),
    }
}

/// Asks the due list of an account's quarter as of a day. As text it is printed row by row, as it
/// comes; in another format when it is there.
fn ask_due<S: Alter, O: Target, E: Target>(
    desk: &mut Desk<S>,
    db: &str,
    format: AnswerFormat,
    request: &Request,
    account: &str,
    quarter: Quarter,
    as_of: Day,
    out: O,
    err: E,
) -> JobEnd<O, E>
    requires asked { request.now ≡ requests.Question (DueList account.now quarter as_of) }
    ensures { AsksDue S.Store O.taken O.failed E.taken E.failed out err result
        desk.old desk.new db.now (is_text format) format request.now account.now quarter as_of }
{
    if is_text(format) {
        list_due(desk, db, request, account, quarter, as_of, out, err)
    } else {
        answer(desk, db, format, request, out, err)
    }
}

/// Whether a list is told as text in this format.
fn is_text(format: AnswerFormat) -> bool
    ensures { result ≡ is_text format }
{
    match format {
        AnswerFormat::Plain(format) => matches!(format.of_list(), ListFormat::Text),
        AnswerFormat::Page => false,
    }
}

/// Asks the request of the desk. The text of its reply goes to `out`, and what is said below it, or
/// the line of a refusal with its hints, to `err`.
pub(crate) fn answer<S: Alter, O: Target, E: Target>(
    desk: &mut Desk<S>,
    db: &str,
    format: AnswerFormat,
    request: &Request,
    out: O,
    err: E,
) -> JobEnd<O, E>
    ensures { Performs O.taken O.failed E.taken E.failed out err result
        (held S.Store desk.old) (held S.Store desk.new) db.now format request.now }
{
    let answer = desk.handle(request);
    print_answer(desk, db, format, request, &answer, out, err)
}

/// Prints what the desk answered to the request, with the hints of a refusal.
pub(crate) fn print_answer<S: Alter, O: Target, E: Target>(
    desk: &mut Desk<S>,
    db: &str,
    format: AnswerFormat,
    request: &Request,
    answer: &Answer,
    out: O,
    err: E,
) -> JobEnd<O, E>
    requires bounded { IfOk answer.now IsBounded }
    ensures { PrintsAnswer S.Store O.taken O.failed E.taken E.failed out err result
        desk.old desk.new db.now format request.now answer.now }
{
    match answer {
        Ok(reply) => print_reply(db, format, request, reply, out, err),
        Err(refusal) => {
            let known = or_nothing(known_for(desk, request, *refusal));
            print_refusal(db, request, refusal, &known, out, err)
        }
    }
}

/// Prints the due list of an account's quarter as of a day, row by row. Nothing goes to `out` where
/// the desk refuses it. Where memory or the store fails in the middle, the first lines stand there.
fn list_due<S: Alter, O: Target, E: Target>(
    desk: &mut Desk<S>,
    db: &str,
    request: &Request,
    account: &str,
    quarter: Quarter,
    as_of: Day,
    out: O,
    err: E,
) -> JobEnd<O, E>
    requires asked { request.now ≡ requests.Question (DueList account.now quarter as_of) }
    ensures { PerformsDue O.taken O.failed E.taken E.failed out err result
        (held S.Store desk.old) (held S.Store desk.new) db.now account.now quarter as_of }
{
    let mut text = DueText::begin(account, quarter, as_of, out);
    match desk.due_into(account, quarter, as_of, &mut text) {
        Ok(()) => match text.end() {
            Ok(out) => JobEnd {
                status: 0,
                out,
                err,
            },
            Err(UnwrittenText { writer }) => fail_output(writer, err),
        },
        Err(DueFault::Refused(refusal)) => {
            let out = text.into_writer();
            let known = or_nothing(known_for(desk, request, refusal));
            print_refusal(db, request, &refusal, &known, out, err)
        }
        Err(DueFault::Sink) => fail_output(text.into_writer(), err),
    }
}

/// Posts the entries of a text, or tells what an import would say of them.
fn import_or_try<S: Alter, O: Target, E: Target, P: Progress>(
    alloc: Global,
    desk: &mut Desk<S>,
    sheet: Sheet,
    is_trial: bool,
    input: &[u8],
    out: O,
    err: E,
    progress: &mut P,
) -> JobEnd<O, E>
    ensures { MatchBool is_trial
        (PerformsTrial S.Store O.taken O.failed E.taken E.failed out err result
        desk.old desk.new sheet input.now)
        (PerformsImport S.Store O.taken O.failed E.taken E.failed out err result
        desk.old desk.new sheet input.now) }
{
    if is_trial {
        try_entries(alloc, desk, sheet, input, out, err)
    } else {
        post_entries(alloc, desk, sheet, input, out, err, progress)
    }
}

/// Posts the entries of a text, CSV with the header of the sheet. The summary goes to `out`; where
/// the import stops, why goes to `err`. The status is 1 where a record was refused or malformed, or
/// where the text is too long or has another header.
fn post_entries<S: Alter, O: Target, E: Target, P: Progress>(
    alloc: Global,
    desk: &mut Desk<S>,
    sheet: Sheet,
    input: &[u8],
    out: O,
    err: E,
    progress: &mut P,
) -> JobEnd<O, E>
    ensures { PerformsImport S.Store O.taken O.failed E.taken E.failed out err result
        desk.old desk.new sheet input.now }
{
    match import(alloc, desk, sheet, input, progress) {
        Ok(summary) => print_summary(alloc, desk, sheet, input, &summary, out, err),
        Err(stopped) => print_stop(sheet, input, &stopped, out, err),
    }
}

/// Tells what an import of a text would say, as the import tells it. Nothing is posted.
fn try_entries<S: Alter, O: Target, E: Target>(
    alloc: Global,
    desk: &mut Desk<S>,
    sheet: Sheet,
    input: &[u8],
    out: O,
    err: E,
) -> JobEnd<O, E>
    ensures { PerformsTrial S.Store O.taken O.failed E.taken E.failed out err result
        desk.old desk.new sheet input.now }
{
    match import_trial(alloc, desk, sheet, input) {
        Ok(summary) => print_summary(alloc, desk, sheet, input, &summary, out, err),
        Err(stopped) => print_stop(sheet, input, &stopped, out, err),
    }
}

/// The exit status of an import that did not stop.
fn status_in(summary: &Summary) -> u8
    ensures { result ≡ summary_status summary.now }
{
    if summary.refused == 0 && summary.malformed == 0 {
        0
    } else {
        1
    }
}

/// Prints the summary of an import, a note for each account to which it added obligations, what is
/// known of its refused records, and the hints of its malformed ones.
fn print_summary<S: Alter, O: Target, E: Target>(
    alloc: Global,
    desk: &mut Desk<S>,
    sheet: Sheet,
    input: &[u8],
    summary: &Summary,
    out: O,
    err: E,
) -> JobEnd<O, E>
    ensures { PrintsSummary O.taken O.failed E.taken E.failed out err result
        (held S.Store desk.old) (held S.Store desk.new) sheet input.now summary.now }
{
    let mut out = out;
    match write_summary(summary, &mut out) {
        Ok(()) => {
            let mut err = err;
            put_added(&summary.changes, &mut err);
            put_refusals(alloc, desk, &summary.refusals, &mut err);
            put_malformed(alloc, sheet, input, summary.malformed, &mut err);
            JobEnd {
                status: status_in(summary),
                out,
                err,
            }
        }
        Err(_) => fail_output(out, err),
    }
}

/// So many malformed records have a hint each.
const MOST_HINTS: usize = 1_000;

/// Writes how many more records are malformed.
fn write_more<W: Target>(count: usize, target: &mut W) -> Result<(), WriteFault>
    ensures { Writes result (W.taken target.old) (W.taken target.new)
        (W.failed target.new) (more_hint count) }
{
    let mut digits = Buffer::new();
    let count = digits.format(count).as_bytes();
    write_pieces(
        target,
        &[b"hint: and ", count, b" more records are malformed\n"],
    )
}

/// Puts how many more records are malformed.
fn put_more<E: Target>(count: usize, err: &mut E)
    ensures { IsPut (E.taken err.old) (E.taken err.new) (E.failed err.new) (more_hint count) }
{
    // Where standard error fails, the status still tells.
    let _ = write_more(count, err);
}

/// Puts the hints of so many malformed records of a text, of the first 1,000 of them, and how many
/// more there are.
fn put_malformed<E: Target>(
    alloc: Global,
    sheet: Sheet,
    input: &[u8],
    malformed: usize,
    err: &mut E,
)
    ensures { PutsMalformed E.taken E.failed err.old err.new sheet input.now malformed }
{
    if malformed == 0 {
        return;
    }
    put_hints(alloc, sheet, input, malformed.min(MOST_HINTS), err);
    if malformed > MOST_HINTS {
        put_more(malformed - MOST_HINTS, err);
    }
}

/// What is told below hints where there is no memory for the others.
const NO_HINTS: &[u8] = b"hint: there is no memory for the other hints\n";

/// Puts the hints of the malformed records of a text, so many of them at most. Where there is no
/// memory for all of them, a line below those that were put says so.
fn put_hints<E: Target>(alloc: Global, sheet: Sheet, input: &[u8], most: usize, err: &mut E)
    ensures { PutsHints (E.taken err.old) (E.taken err.new) (E.failed err.new)
        (record_hints sheet most input.now) }
{
    match write_record_hints(alloc, sheet, input, most, err) {
        Err(HintFault::Memory) => put(NO_HINTS, err),
        // Where standard error fails, the status still tells.
        Ok(()) | Err(HintFault::Write) => {}
    }
}

/// Prints the summary of an import that stopped, and why it did.
fn print_stop<O: Target, E: Target>(
    sheet: Sheet,
    input: &[u8],
    stopped: &ImportStop,
    out: O,
    err: E,
) -> JobEnd<O, E>
    ensures { PrintsStop O.taken O.failed E.taken E.failed out err result
        sheet input.now stopped.now }
{
    let mut out = out;
    match write_summary(&stopped.done, &mut out) {
        Ok(()) => print_cause(sheet, input, stopped.cause, out, err),
        Err(_) => fail_output(out, err),
    }
}

/// Prints why an import stopped.
fn print_cause<O, E: Target>(
    sheet: Sheet,
    input: &[u8],
    cause: StopCause,
    out: O,
    err: E,
) -> JobEnd<O, E>
    ensures status { result.status ≡ stop_status cause }
    ensures out { result.out ≡ out }
    ensures line { IsPut (E.taken err) (E.taken result.err) (E.failed result.err)
        (stop_text sheet input.now cause) }
{
    match cause {
        StopCause::BadHeader => {
            let mut err = err;
            // Where standard error fails, the status still tells.
            let _ = write_bad_header(sheet, input, &mut err);
            JobEnd {
                status: 1,
                out,
                err,
            }
        }
        StopCause::TooLong => print_line(1, b"refused length\n", out, err),
        StopCause::Memory => print_line(3, b"failed 21 Memory\n", out, err),
        StopCause::Store => print_line(3, b"failed 22 Store\n", out, err),
    }
}

/// Prints a line on standard error, and answers the status.
pub fn print_line<O, E: Target>(status: u8, line: &[u8], out: O, err: E) -> JobEnd<O, E>
    ensures status { result.status ≡ status }
    ensures out { result.out ≡ out }
    ensures line { IsPut (E.taken err) (E.taken result.err) (E.failed result.err) line.now }
{
    let mut err = err;
    put(line, &mut err);
    JobEnd { status, out, err }
}

/// Puts what is said below the reply to a request of the desk of this file.
fn put_below<E: Target>(db: &str, request: &Request, reply: &Reply, err: &mut E)
    ensures { IsPut (E.taken err.old) (E.taken err.new) (E.failed err.new)
        (below_text db.now request.now reply.now) }
{
    // Where standard error fails, the status still tells.
    let _ = write_below(db, request, reply, err);
}

/// Prints the text of a reply, in a format where it is a list, and what is said below it.
pub fn print_reply<O: Target, E: Target>(
    db: &str,
    format: AnswerFormat,
    request: &Request,
    reply: &Reply,
    out: O,
    err: E,
) -> JobEnd<O, E>
    requires bounded { IsBounded reply.now }
    ensures { PrintsReply O.taken O.failed E.taken E.failed out err result
        (reply_text format reply.now) (below_text db.now request.now reply.now) }
{
    let mut out = out;
    match write_reply(format, reply, &mut out) {
        Ok(()) => {
            let mut err = err;
            put_below(db, request, reply, &mut err);
            JobEnd {
                status: 0,
                out,
                err,
            }
        }
        Err(_) => fail_output(out, err),
    }
}

/// Says that standard output failed.
pub fn fail_output<O, E: Target>(out: O, err: E) -> JobEnd<O, E>
    ensures status { result.status ≡ 3 }
    ensures out { result.out ≡ out }
    ensures line { IsPut (E.taken err) (E.taken result.err) (E.failed result.err)
        (codes "failed Output\n") }
{
    print_line(3, b"failed Output\n", out, err)
}

/// Prints the line of the refusal of a request, and its hints.
pub fn print_refusal<O: Target, E: Target>(
    db: &str,
    request: &Request,
    refusal: &Refusal,
    known: &HintFacts,
    out: O,
    err: E,
) -> JobEnd<O, E>
    ensures { PrintsRefusal O.taken O.failed E.taken E.failed out err result
        db.now request.now known.now refusal.now }
{
    let mut err = err;
    // Where standard error fails, the status still tells.
    let _ = write_told(db, request, *refusal, known, &mut err);
    JobEnd {
        status: status_of(*refusal),
        out,
        err,
    }
}

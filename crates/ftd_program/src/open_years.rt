//! A year is opened of each account that has the year before open.

ghost use Rattle.std.specs.Prelude.{◌≡◌, ◌+◌, ◌<◌, ◌≤◌, Err, IfOk};
ghost use Rattle.ftd_machine.specs.Laws.{IsBounded};
ghost use Rattle.ftd_machine.specs.Limits.{can_be_opened};
ghost use Rattle.ftd_ports.specs.Writing.{Writes};
ghost use Rattle.ftd_replies.specs.Hints.{hints_text};
ghost use Rattle.ftd_replies.specs.Putting.{IsPut};
ghost use Rattle.ftd_program.specs.OpenYears.{OpensEach, OpensYears, PrintsLine, PutsAfter};
ghost use Rattle.ftd_program.specs.OpenYears.{answer_text, counts_text, failure_in, line_text};
ghost use Rattle.ftd_program.specs.OpenYears.{none_text, one_if, status_for, tally};
ghost use Rattle.ftd_imports.specs.Outcomes.{is_already, is_posted, is_refused, most_counted};
ghost use Rattle.ftd_program.specs.Performing.{PrintsOut};

use crate::mending::{known_for, or_nothing};
use crate::open_accounts::year_requests;
use crate::performing::{JobEnd, fail_output, print_refusal};
use ftd_days::{FIRST_YEAR, LAST_OPEN_YEAR};
use ftd_desk::Desk;
use ftd_machine::{AccountName, Answer, Entry, Refusal, Reply, Request};
use ftd_ports::{Target, WriteFault, write_all, write_pieces};
use ftd_replies::{HintFacts, account_in, write_hints, write_refusal, write_reply};
use ftd_verbs::TEXT;
use itoa::Buffer;
use sqlite::Alter;
use std::alloc::Global;

// ---- the texts

/// Writes an answer, as the line that its request prints as a command of its own.
fn write_answer<W: Target>(answer: &Answer, target: &mut W) -> Result<(), WriteFault>
    requires bounded { IfOk answer.now IsBounded }
    ensures { Writes result (W.taken target.old) (W.taken target.new)
        (W.failed target.new) (answer_text answer.now) }
{
    match answer {
        Ok(reply) => write_reply(TEXT, reply, target),
        Err(refusal) => write_refusal(refusal, target),
    }
}

/// Writes the line of an account: its name, and the answer to the request that opens its year.
#[tactic(auto, using(ftd_ports::proofs::WritingFacts::written_in_parts), unfolding(crate::specs::OpenYears::line_text))]
fn write_line<W: Target>(
    request: &Request,
    answer: &Answer,
    target: &mut W,
) -> Result<(), WriteFault>
    requires bounded { IfOk answer.now IsBounded }
    ensures { Writes result (W.taken target.old) (W.taken target.new)
        (W.failed target.new) (line_text request.now answer.now) }
{
    write_all(target, account_in(request).as_bytes())?;
    write_all(target, b" ")?;
    write_answer(answer, target)
}

/// Writes how many accounts the desk answered so.
fn write_counts<W: Target>(counts: &OpenCounts, target: &mut W) -> Result<(), WriteFault>
    ensures { Writes result (W.taken target.old) (W.taken target.new) (W.failed target.new)
        (counts_text counts.now.opened counts.now.already counts.now.refused) }
{
    let mut opened_digits = Buffer::new();
    let (mut already_digits, mut refused_digits) = (Buffer::new(), Buffer::new());
    let opened = opened_digits.format(counts.opened).as_bytes();
    let already = already_digits.format(counts.already).as_bytes();
    let refused = refused_digits.format(counts.refused).as_bytes();
    let pieces: [&[u8]; 7] = [
        b"opened ",
        opened,
        b" already ",
        already,
        b" refused ",
        refused,
        b"\n",
    ];
    write_pieces(target, &pieces)
}

/// Writes that no account has the year open.
fn write_none<W: Target>(year: u32, target: &mut W) -> Result<(), WriteFault>
    ensures { Writes result (W.taken target.old) (W.taken target.new)
        (W.failed target.new) (none_text year) }
{
    let mut digits = Buffer::new();
    let year = digits.format(year).as_bytes();
    write_pieces(target, &[b"no account has ", year, b" open\n"])
}

// ---- the counts

/// How many accounts the desk answered so.
#[derive(Clone, Copy)]
struct OpenCounts {
    /// The year was opened.
    opened: usize,
    /// It was open before.
    already: usize,
    /// It was refused.
    refused: usize,
}

impl OpenCounts {
    /// Of no accounts.
    fn none() -> OpenCounts
        ensures opened { result.opened ≡ 0 }
        ensures already { result.already ≡ 0 }
        ensures refused { result.refused ≡ 0 }
    {
        OpenCounts {
            opened: 0,
            already: 0,
            refused: 0,
        }
    }

    /// Counts an answer.
    fn count(&mut self, answer: &Answer)
        requires fits { tally self.old < most_counted }
        ensures opened { self.new.opened ≡ self.old.opened + one_if (is_posted answer.now) }
        ensures already { self.new.already ≡ self.old.already + one_if (is_already answer.now) }
        ensures refused { self.new.refused ≡ self.old.refused + one_if (is_refused answer.now) }
        ensures grows { tally self.new ≤ tally self.old + 1 }
    {
        match answer {
            Ok(Reply::Done | Reply::Posted(_)) => self.opened += 1,
            Ok(Reply::Already) => self.already += 1,
            Ok(Reply::Told(_)) => {}
            Err(_) => self.refused += 1,
        }
    }
}

/// The exit status where so many accounts were refused.
fn status_for(refused: usize) -> u8
    ensures { result ≡ status_for refused }
{
    if refused == 0 { 0 } else { 1 }
}

/// Prints how many accounts the desk answered so.
fn print_counts<O: Target, E: Target>(counts: &OpenCounts, out: O, err: E) -> JobEnd<O, E>
    ensures { PrintsOut O.taken O.failed E.taken E.failed out err result
        (status_for counts.now.refused)
        (counts_text counts.now.opened counts.now.already counts.now.refused) }
{
    let mut out = out;
    match write_counts(counts, &mut out) {
        Ok(()) => JobEnd {
            status: status_for(counts.refused),
            out,
            err,
        },
        Err(_) => fail_output(out, err),
    }
}

/// Prints that no account has the year open.
fn print_none<O: Target, E: Target>(year: u32, out: O, err: E) -> JobEnd<O, E>
    ensures { PrintsOut O.taken O.failed E.taken E.failed out err result 0 (none_text year) }
{
    let mut out = out;
    match write_none(year, &mut out) {
        Ok(()) => JobEnd {
            status: 0,
            out,
            err,
        },
        Err(_) => fail_output(out, err),
    }
}

// ---- what is asked of the desk

/// The refusal of an answer, where there was no memory, or the store failed.
fn failure_in(answer: &Answer) -> Option<Refusal>
    ensures { result ≡ failure_in answer.now }
{
    match answer {
        Err(refusal) if refusal.is_failure() => Some(*refusal),
        _ => None,
    }
}

/// Puts the hints of a refusal of the request on standard error, with what is known for them.
fn put_known<E: Target>(
    db: &str,
    request: &Request,
    refusal: Refusal,
    known: &HintFacts,
    err: &mut E,
)
    ensures { IsPut (E.taken err.old) (E.taken err.new) (E.failed err.new)
        (hints_text db.now request.now refusal known.now) }
{
    // Where standard error fails, the status still tells.
    let _ = write_hints(db, request, refusal, known, err);
}

/// Puts the hints of the desk's refusal of the request on standard error.
fn put_refused<S: Alter, E: Target>(
    desk: &mut Desk<S>,
    db: &str,
    request: &Request,
    refusal: &Refusal,
    err: &mut E,
)
    ensures { PutsAfter S.Store E.taken E.failed err.old err.new desk.old desk.new db.now
        request.now (Err refusal.now) }
{
    let known = or_nothing(known_for(desk, request, *refusal));
    put_known(db, request, *refusal, &known, err);
}

/// Puts the hints of the desk's answer to the request on standard error, if it is a refusal.
fn put_hints<S: Alter, E: Target>(
    desk: &mut Desk<S>,
    db: &str,
    request: &Request,
    answer: &Answer,
    err: &mut E,
)
    ensures { PutsAfter S.Store E.taken E.failed err.old err.new desk.old desk.new db.now
        request.now answer.now }
{
    match answer {
        Ok(_) => {}
        Err(refusal) => put_refused(desk, db, request, refusal, err),
    }
}

/// Asks the request of the desk, which opens a year of an account, and prints the account's line;
/// the hints of a refusal go to standard error. Where standard output fails, nothing goes there.
fn open_account<S: Alter, O: Target, E: Target>(
    desk: &mut Desk<S>,
    db: &str,
    request: &Request,
    out: &mut O,
    err: &mut E,
) -> Result<Answer, WriteFault>
    ensures { PrintsLine S.Store O.taken O.failed E.taken E.failed out.old out.new err.old err.new
        desk.old desk.new db.now request.now result }
{
    let answer = desk.handle(request);
    write_line(request, &answer, out)?;
    put_hints(desk, db, request, &answer, err);
    Ok(answer)
}

/// Asks these requests of the desk, one after the other, each of which opens a year of an account.
/// Each account has its line, and how many were answered so is the last one. A fault ends it, and
/// is told on standard error; what was answered stands.
fn open_each<S: Alter, O: Target, E: Target>(
    desk: &mut Desk<S>,
    db: &str,
    requests: &[Request],
    out: O,
    err: E,
) -> JobEnd<O, E>
    ensures { OpensEach S.Store O.taken O.failed E.taken E.failed out err result
        desk.old desk.new db.now requests.now }
{
    let (mut out, mut err) = (out, err);
    let mut counts = OpenCounts::none();
    for request in requests {
        match open_account(desk, db, request, &mut out, &mut err) {
            Ok(answer) => match failure_in(&answer) {
                Some(refusal) => {
                    return print_refusal(db, request, &refusal, &HintFacts::Nothing, out, err);
                }
                None => counts.count(&answer),
            },
            Err(_) => return fail_output(out, err),
        }
    }
    print_counts(&counts, out, err)
}

/// Whether the year may be opened.
fn can_be_opened(year: u32) -> bool
    ensures { result ≡ can_be_opened year }
{
    FIRST_YEAR <= year && year <= LAST_OPEN_YEAR
}

/// Opens the year of each account that has the year before open, one after the other, by name. Each
/// is a request of its own, which stands whatever comes of the next one. A year that can't be
/// opened is refused, as the request refuses it.
pub(crate) fn open_years<S: Alter, O: Target, E: Target>(
    alloc: Global,
    desk: &mut Desk<S>,
    db: &str,
    year: u32,
    out: O,
    err: E,
) -> JobEnd<O, E>
    ensures { OpensYears S.Store O.taken O.failed E.taken E.failed out err result
        desk.old desk.new db.now year }
{
    let account = AccountName::from_string(String::new(alloc));
    let request = Request::Enter(Entry::Year { account, year });
    if !can_be_opened(year) {
        let refusal = Refusal::BadYear;
        return print_refusal(db, &request, &refusal, &HintFacts::Nothing, out, err);
    }
    match year_requests(alloc, desk, year) {
        Ok(requests) => {
            if requests.is_empty() {
                print_none(year - 1, out, err)
            } else {
                open_each(desk, db, &requests, out, err)
            }
        }
        Err(refusal) => print_refusal(db, &request, &refusal, &HintFacts::Nothing, out, err),
    }
}

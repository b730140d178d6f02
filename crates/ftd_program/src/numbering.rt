//! A pay run, a payment or a correction is asked of the desk under the next number.

ghost use Rattle.std.specs.Prelude.{◌≡◌, None};
ghost use Rattle.ftd_ports.specs.Writing.{Writes};
ghost use Rattle.ftd_desk.specs.Desks.{held};
ghost use Rattle.ftd_program.specs.Numbering.{FindsUnused, next_of, number_text};
ghost use Rattle.ftd_program.specs.Performing.{AsksCounted, AsksNext, AsksUnder};

use crate::noting::answer_then_note;
use crate::performing::{JobEnd, fail_output, print_answer, print_refusal};
use ftd_desk::Desk;
use ftd_machine::{Answer, MOST_NUMBER, Refusal, Request};
use ftd_ports::{Target, WriteFault, write_pieces};
use ftd_replies::HintFacts;
use ftd_verbs::TEXT;
use itoa::Buffer;
use sqlite::Alter;

/// The next number, where the answer tells how many corrections there are, and there is one more.
fn next_of(answer: &Answer) -> Option<u32>
    ensures { result ≡ next_of answer.now }
{
    let Err(Refusal::NumberSkipped(count)) = answer else {
        return None;
    };
    if *count < MOST_NUMBER {
        Some(*count + 1)
    } else {
        None
    }
}

/// Writes the line of a number.
fn write_number<W: Target>(number: u32, target: &mut W) -> Result<(), WriteFault>
    ensures { Writes result (W.taken target.old) (W.taken target.new)
        (W.failed target.new) (number_text number) }
{
    let mut digits = Buffer::new();
    let number = digits.format(number).as_bytes();
    write_pieces(target, &[b"number ", number, b"\n"])
}

/// The least number above all that the account of the request has used of what it adds, for a pay
/// run or a payment. None for any other request. `Memory` and `Store` may come in its place. The
/// tables stay as they are.
fn unused_number<S: Alter>(desk: &mut Desk<S>, request: &Request) -> Option<Result<u32, Refusal>>
    ensures finds { FindsUnused (held S.Store desk.old) (held S.Store desk.new) request.now result }
    ensures same { result ≡ None → desk.new ≡ desk.old }
{
    match request {
        Request::Post { account, .. } => Some(desk.next_run(account.as_str())),
        Request::Pay { account, .. } => Some(desk.next_payment(account.as_str())),
        _ => None,
    }
}

/// Asks a request of the desk under the next number: a pay run or a payment under the least number
/// above all that its account has used, and a correction under the number after those that there
/// are.
pub(crate) fn ask_next<S: Alter, O: Target, E: Target>(
    desk: &mut Desk<S>,
    db: &str,
    request: Request,
    out: O,
    err: E,
) -> JobEnd<O, E>
    ensures { AsksNext S.Store O.taken O.failed E.taken E.failed out err result
        desk.old desk.new db.now request }
{
    match unused_number(desk, &request) {
        Some(Ok(number)) => { ask_under(desk, db, request.with_number(number), number, out, err) },
        Some(Err(refusal)) => {
            print_refusal(db, &request, &refusal, &HintFacts::Nothing, out, err)
        }
        None => ask_counted(desk, db, request, out, err),
    }
}

/// Asks a correction of the desk under the next number. It is asked under the greatest number
/// first, to which the desk answers how many corrections there are; where it answers otherwise,
/// that is printed.
fn ask_counted<S: Alter, O: Target, E: Target>(
    desk: &mut Desk<S>,
    db: &str,
    request: Request,
    out: O,
    err: E,
) -> JobEnd<O, E>
    ensures { AsksCounted S.Store O.taken O.failed E.taken E.failed out err result
        desk.old desk.new db.now request }
{
    let first = request.with_number(MOST_NUMBER);
    let answer = desk.handle(&first);
    match next_of(&answer) {
        Some(number) => ask_under(desk, db, first.with_number(number), number, out, err),
        None => print_answer(desk, db, TEXT, &first, &answer, out, err),
    }
}

/// Prints the number, and asks the request of the desk, which is under it; what is said below its
/// answer is as of any request. Where standard output fails at the number, the request is not asked.
fn ask_under<S: Alter, O: Target, E: Target>(
    desk: &mut Desk<S>,
    db: &str,
    request: Request,
    number: u32,
    out: O,
    err: E,
) -> JobEnd<O, E>
    ensures { AsksUnder S.Store O.taken O.failed E.taken E.failed out err result
        desk.old desk.new db.now request number }
{
    let mut out = out;
    match write_number(number, &mut out) {
        Ok(()) => answer_then_note(desk, db, TEXT, request, out, err),
        Err(_) => fail_output(out, err),
    }
}

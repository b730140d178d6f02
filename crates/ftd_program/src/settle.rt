//! What is left of the deposits of an account that are due on a day is recorded as paid.

ghost use Rattle.std.specs.Prelude.{◌≡◌, Err, IfErr, IfOk, option_map};
ghost use Rattle.std.specs.List.{list_any};
ghost use Rattle.ftd_machine.specs.Runs.{IsFault};
ghost use Rattle.ftd_machine.specs.declared.requests.Request.TheVariants.{Pay};
ghost use Rattle.ftd_ports.specs.Writing.{Writes};
ghost use Rattle.ftd_replies.specs.RequestLines.{request_line};
ghost use Rattle.ftd_machine.specs.declared.replies.Reply.TheVariants.{Already};
ghost use Rattle.ftd_replies.specs.Replies.{reply_text};
ghost use Rattle.ftd_replies.specs.declared.hints.HintFacts.TheVariants.{Nothing};
ghost use Rattle.ftd_program.specs.Performing.{AsksAfter, PrintsOut, PrintsRefusal};
ghost use Rattle.ftd_program.specs.Settling.{PaysEach, PaysLeft, PaysOne, PaysRows, PrintsNothing};
ghost use Rattle.ftd_program.specs.Settling.{Settles, SettlesDue, due_question, is_own};
ghost use Rattle.ftd_program.specs.Settling.{nothing_text, payment_if};
ghost use Rattle.ftd_program.specs.Settling.{payments_left, rows_in, years_question};
ghost use Rattle.ftd_verbs.specs.Formats.{as_text};

use crate::noting::answer_then_note;
use crate::performing::{JobEnd, fail_output, print_answer, print_refusal};
use crate::record_notes::same_name;
use ftd_answers::{day_bytes, left_of};
use ftd_cli::Settlement;
use ftd_days::Day;
use ftd_desk::Desk;
use ftd_machine::{
    AccountName, AgendaRow, Answer, Facts, KeptList, Question, Refusal, Reply, Request,
};
use ftd_ports::{Target, WriteFault, write_pieces};
use ftd_replies::{HintFacts, write_reply, write_request};
use ftd_rules::Payment;
use ftd_verbs::{TEXT, last_asked};
use sqlite::Alter;
use std::alloc::{AllocError, Global};

/// What stays the same while deposits are paid.
#[derive(Clone, Copy)]
struct Paying<'a> {
    alloc: Global,
    /// The file of the desk.
    db: &'a str,
    /// What is settled.
    asked: &'a Settlement,
}

// ---- what is asked, and what is left

/// The question for the account's open years, which is refused where there is no such account.
fn years_question(account: AccountName) -> Request
    ensures { result ≡ years_question account }
{
    Request::Question(Question::Kept(KeptList::Years { account }))
}

/// The question what is due on the day, over all accounts, with each payment that was ever
/// recorded.
fn due_question(due: Day) -> Request
    ensures { result ≡ due_question due }
{
    Request::Question(Question::Agenda {
        from: due,
        to: due,
        as_of: last_asked(),
    })
}

/// The rows that an answer tells.
fn rows_in(answer: &Answer) -> Option<&[AgendaRow]>
    ensures { option_map (λ rows. rows.now) result ≡ rows_in answer.now }
{
    match answer {
        Ok(Reply::Told(Facts::Agenda(agenda))) => Some(agenda.rows.as_slice()),
        _ => None,
    }
}

/// Whether the row is one of the account.
fn is_own(account: &AccountName, row: &AgendaRow) -> bool
    ensures { result ≡ is_own account.now row.now }
{
    row.account.as_str() == account.as_str()
}

/// Whether one of the rows is of the account.
fn is_due(account: &AccountName, rows: &[AgendaRow]) -> bool
    ensures { result ≡ list_any (is_own account.now) rows.now }
{
    rows.iter().any(|row| is_own(account, row))
}

/// What is left of the row, as a payment that was made on this day, if the row is one of the
/// account, and something is left.
fn payment_if(account: &AccountName, paid: Day, row: &AgendaRow) -> Option<Payment>
    ensures { result ≡ payment_if account.now paid row.now }
{
    let left = left_of(&row.row);
    if is_own(account, row) && left.0 > 0 {
        Some(Payment {
            paid,
            for_day: row.row.obligation.first,
            cents: left,
        })
    } else {
        None
    }
}

/// What is left of each row of the account, as payments that were made on this day, in the order of
/// the rows.
fn payments_left(
    alloc: Global,
    account: &AccountName,
    paid: Day,
    rows: &[AgendaRow],
) -> Result<Vec<Payment>, AllocError>
    ensures { IfOk result
        (λ payments. payments.items ≡ payments_left account.now paid rows.now) }
{
    rows.iter()
        .filter_map(|row| payment_if(account, paid, row))
        .collect(alloc)
}

/// A payment under a number.
fn pay_request(
    alloc: Global,
    account: &AccountName,
    number: u32,
    payment: Payment,
) -> Result<Request, Refusal>
    ensures pays { IfOk result (λ request. request ≡ Pay account.now number payment) }
    ensures fault { IfErr result (λ fault. IsFault (Err fault)) }
{
    Ok(Request::Pay {
        account: same_name(alloc, account)?,
        number,
        payment,
    })
}

// ---- what is printed

/// Writes that no deposit of the account is due on the day.
#[tactic(auto, unfolding(crate::specs::Settling::nothing_text))]
fn write_nothing<W: Target>(
    account: &AccountName,
    due: Day,
    target: &mut W,
) -> Result<(), WriteFault>
    ensures { Writes result (W.taken target.old) (W.taken target.new) (W.failed target.new)
        (nothing_text account.now due) }
{
    let account = account.as_str().as_bytes();
    let due = day_bytes(due);
    write_pieces(
        target,
        &[
            b"refused NothingDue\nhint: no deposit of ",
            account,
            b" is due on ",
            &due,
            b"; ftd agenda lists what is due between two days\n",
        ],
    )
}

/// Prints that no deposit of the account is due on the day.
fn print_nothing<O: Target, E: Target>(
    account: &AccountName,
    due: Day,
    out: O,
    err: E,
) -> JobEnd<O, E>
    ensures { PrintsNothing E.taken E.failed out err result account.now due }
{
    let mut err = err;
    // Where standard error fails, the status still tells.
    let _ = write_nothing(account, due, &mut err);
    JobEnd {
        status: 1,
        out,
        err,
    }
}

/// Prints that all was paid before.
fn print_already<O: Target, E: Target>(out: O, err: E) -> JobEnd<O, E>
    ensures { PrintsOut O.taken O.failed E.taken E.failed out err result 0
        (reply_text as_text Already) }
{
    let mut out = out;
    match write_reply(TEXT, &Reply::Already, &mut out) {
        Ok(()) => JobEnd {
            status: 0,
            out,
            err,
        },
        Err(_) => fail_output(out, err),
    }
}

// ---- what is done

/// Prints the line of a request, and asks it of the desk. Where standard output fails at the line,
/// the request is not asked.
fn ask_line<S: Alter, O: Target, E: Target>(
    desk: &mut Desk<S>,
    db: &str,
    request: Request,
    out: O,
    err: E,
) -> JobEnd<O, E>
    ensures { AsksAfter S.Store O.taken O.failed E.taken E.failed out err result
        desk.old desk.new db.now request (request_line request) }
{
    let mut out = out;
    match write_request(&request, &mut out) {
        Ok(()) => answer_then_note(desk, db, TEXT, request, out, err),
        Err(_) => fail_output(out, err),
    }
}

/// Prints a fault that came before a payment was asked.
fn print_fault<O: Target, E: Target>(
    db: &str,
    due: Day,
    refusal: Refusal,
    out: O,
    err: E,
) -> JobEnd<O, E>
    ensures { PrintsRefusal O.taken O.failed E.taken E.failed out err result db.now
        (due_question due) Nothing refusal }
{
    print_refusal(
        db,
        &due_question(due),
        &refusal,
        &HintFacts::Nothing,
        out,
        err,
    )
}

/// Asks a payment of the desk under the next number, and prints its line before the answer.
fn pay_one<S: Alter, O: Target, E: Target>(
    desk: &mut Desk<S>,
    paying: Paying<'_>,
    payment: Payment,
    out: O,
    err: E,
) -> JobEnd<O, E>
    ensures { PaysOne S.Store O.taken O.failed E.taken E.failed paying.entry.db.now
        paying.entry.asked.now.account paying.entry.asked.now.due out err result desk.old desk.new payment }
{
    let Paying { alloc, db, asked } = paying;
    match desk.next_payment(asked.account.as_str()) {
        Ok(number) => match pay_request(alloc, &asked.account, number, payment) {
            Ok(request) => ask_line(desk, db, request, out, err),
            Err(refusal) => print_fault(db, asked.due, refusal, out, err),
        },
        Err(refusal) => print_fault(db, asked.due, refusal, out, err),
    }
}

/// Asks these payments of the desk, one after the other, each under the next number. The first that
/// is not recorded ends it; what was recorded stands.
fn pay_each<S: Alter, O: Target, E: Target>(
    desk: &mut Desk<S>,
    paying: Paying<'_>,
    payments: &[Payment],
    out: O,
    err: E,
) -> JobEnd<O, E>
    ensures { PaysEach S.Store O.taken O.failed E.taken E.failed paying.entry.db.now
        paying.entry.asked.now.account paying.entry.asked.now.due out err result desk.old desk.new
        payments.now }
{
    let (mut out, mut err) = (out, err);
    for payment in payments {
        let end = pay_one(desk, paying, *payment, out, err);
        if end.status != 0 {
            return end;
        }
        out = end.out;
        err = end.err;
    }
    JobEnd {
        status: 0,
        out,
        err,
    }
}

/// Asks these payments of the desk. Where there is none, that is told.
fn pay_left<S: Alter, O: Target, E: Target>(
    desk: &mut Desk<S>,
    paying: Paying<'_>,
    payments: &[Payment],
    out: O,
    err: E,
) -> JobEnd<O, E>
    ensures { PaysLeft S.Store O.taken O.failed E.taken E.failed paying.entry.db.now
        paying.entry.asked.now.account paying.entry.asked.now.due out err result desk.old desk.new
        payments.now }
{
    match payments {
        [] => print_already(out, err),
        [_, ..] => pay_each(desk, paying, payments, out, err),
    }
}

/// Pays what is left of the account's rows of these.
fn settle_rows<S: Alter, O: Target, E: Target>(
    desk: &mut Desk<S>,
    paying: Paying<'_>,
    rows: &[AgendaRow],
    out: O,
    err: E,
) -> JobEnd<O, E>
    ensures { PaysRows S.Store O.taken O.failed E.taken E.failed paying.entry.db.now
        paying.entry.asked.now.account paying.entry.asked.now.due out err result desk.old desk.new
        paying.entry.asked.now.paid rows.now }
{
    let Settlement { account, due, paid } = paying.asked;
    if !is_due(account, rows) {
        return print_nothing(account, *due, out, err);
    }
    match payments_left(paying.alloc, account, *paid, rows) {
        Ok(payments) => pay_left(desk, paying, &payments, out, err),
        Err(_) => print_fault(paying.db, *due, Refusal::Memory, out, err),
    }
}

/// Asks what is due on the day, and pays what is left of it.
fn settle_due<S: Alter, O: Target, E: Target>(
    desk: &mut Desk<S>,
    paying: Paying<'_>,
    out: O,
    err: E,
) -> JobEnd<O, E>
    ensures { SettlesDue S.Store O.taken O.failed E.taken E.failed paying.entry.db.now
        paying.entry.asked.now.account paying.entry.asked.now.due out err result desk.old desk.new
        paying.entry.asked.now.paid }
{
    let question = due_question(paying.asked.due);
    let answer = desk.handle(&question);
    match rows_in(&answer) {
        Some(rows) => settle_rows(desk, paying, rows, out, err),
        None => print_answer(desk, paying.db, TEXT, &question, &answer, out, err),
    }
}

/// Records what is left of each deposit of the account that is due on the day as paid, each under
/// the next number, and prints the line of each payment before its answer: `already` if nothing is
/// left. Status 1 if no deposit is due on the day, or if there is no such account.
pub(crate) fn settle<S: Alter, O: Target, E: Target>(
    alloc: Global,
    desk: &mut Desk<S>,
    db: &str,
    asked: &Settlement,
    out: O,
    err: E,
) -> JobEnd<O, E>
    ensures { Settles S.Store O.taken O.failed E.taken E.failed db.now asked.now.account
        asked.now.due out err result desk.old desk.new asked.now.paid }
{
    let Ok(name) = same_name(alloc, &asked.account) else {
        return print_fault(db, asked.due, Refusal::Memory, out, err);
    };
    let years = years_question(name);
    let known = desk.handle(&years);
    match &known {
        Ok(_) => settle_due(desk, Paying { alloc, db, asked }, out, err),
        Err(_) => print_answer(desk, db, TEXT, &years, &known, out, err),
    }
}

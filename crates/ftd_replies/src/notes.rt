//! What the desk is asked after a reply, and what is said of its answer below the reply: a line
//! that begins with `note: ` or `hint: `.

ghost use Rattle.std.specs.Prelude.{◌≡◌};
ghost use Rattle.ftd_machine.specs.Questions.{question_of};
ghost use Rattle.ftd_ports.specs.Writing.{Writes};
ghost use Rattle.ftd_replies.specs.Notes.{amount_so, asked_after, asked_when_done};
ghost use Rattle.ftd_replies.specs.Notes.{asked_when_told};
ghost use Rattle.ftd_replies.specs.Notes.{counts_text, kept_cents, note_text, payment_note};
ghost use Rattle.ftd_replies.specs.Notes.{rest_text, unapplied_hint};

use crate::hints::file_bytes;
use ftd_answers::{RowAmount, amount_text, day_bytes, total};
use ftd_days::Cents;
use ftd_machine::{Explanation, Facts, KeptPayment, Question, Reply, Request, UnappliedRow};
use ftd_ports::{Target, WriteFault, write_all, write_pieces};
use ftd_verbs::last_asked;
use itoa::Buffer;

// ---- what is asked

/// What is asked after a request that was done.
fn asked_when_done(request: Request) -> Option<Request>
    ensures { result ≡ asked_when_done request }
{
    if let Request::Pay {
        account,
        payment,
        ..
    } = request
    {
        let day = payment.for_day;
        Some(Request::Question(Question::Explain { account, day }))
    } else {
        None
    }
}

/// What is asked after a question.
fn asked_when_told(request: &Request) -> Option<Request>
    ensures { result ≡ asked_when_told (question_of request.now) }
{
    if let Some(Question::Owed { .. }) = request.question() {
        Some(Request::Question(Question::Unapplied {
            until: last_asked(),
        }))
    } else {
        None
    }
}

/// What the desk is asked after a reply: after a payment was recorded, what explains the obligation
/// of the day that it is for; after what is due and not paid, which money counts for nothing.
pub fn asked_after(request: Request, reply: &Reply) -> Option<Request>
    ensures { result ≡ asked_after request reply.now }
{
    match reply {
        Reply::Done => asked_when_done(request),
        Reply::Already | Reply::Posted(_) => None,
        Reply::Told(_) => asked_when_told(&request),
    }
}

// ---- what is said

/// The amount of a payment.
#[derive(Drop)]
struct Paid;

impl RowAmount<KeptPayment> for Paid {
    ghost counted = { λ counts row. kept_cents row };

    fn cents(&self, row: &KeptPayment) -> Cents {
        row.payment.cents
    }
}

/// Writes an amount, and what is so of it.
pub(crate) fn write_amount_so<W: Target>(
    amount: u128,
    behind: &[u8],
    target: &mut W,
) -> Result<(), WriteFault>
    ensures { Writes result (W.taken target.old) (W.taken target.new)
        (W.failed target.new) (amount_so amount behind.now) }
{
    let mut dollars = Buffer::new();
    let amount = amount_text(amount, &mut dollars);
    write_pieces(target, &[b", ", amount.dollars, &amount.cents, behind])
}

/// Writes what is left to pay of an amount, or what was paid beyond it.
fn write_rest<W: Target>(cents: Cents, paid: u128, target: &mut W) -> Result<(), WriteFault>
    ensures { Writes result (W.taken target.old) (W.taken target.new)
        (W.failed target.new) (rest_text cents.0 paid) }
{
    let amount = u128::from(cents.0);
    if paid < amount {
        write_amount_so(amount - paid, b" left to pay\n", target)
    } else if amount < paid {
        write_amount_so(paid - amount, b" more than its amount\n", target)
    } else {
        write_all(target, b", paid in full\n")
    }
}

/// Writes for which obligation a payment counts.
fn write_counts<W: Target>(explanation: &Explanation, target: &mut W) -> Result<(), WriteFault>
    ensures { Writes result (W.taken target.old) (W.taken target.new)
        (W.failed target.new) (counts_text explanation.now) }
{
    let first = day_bytes(explanation.obligation.first);
    let last = day_bytes(explanation.obligation.last);
    write_pieces(target, &[b"note: counts for ", &first, b" to ", &last])
}

/// Writes for what a payment counts, by what explains the obligation of the day that it is for.
#[tactic(auto, using(ftd_ports::proofs::WritingFacts::written_in_parts), unfolding(crate::specs::Notes::payment_note))]
fn write_payment_note<W: Target>(
    explained: &Option<Explanation>,
    target: &mut W,
) -> Result<(), WriteFault>
    ensures { Writes result (W.taken target.old) (W.taken target.new)
        (W.failed target.new) (payment_note explained.now) }
{
    match explained {
        None => write_all(target, b"note: counts for no obligation\n"),
        Some(explanation) => {
            write_counts(explanation, target)?;
            let paid = total(&Paid, explanation.payments.as_slice());
            write_rest(explanation.obligation.cents, paid, target)
        }
    }
}

/// Writes how many rows of money count for nothing, if there are any.
fn write_unapplied_hint<W: Target>(
    db: &str,
    rows: &[UnappliedRow],
    target: &mut W,
) -> Result<(), WriteFault>
    ensures { Writes result (W.taken target.old) (W.taken target.new)
        (W.failed target.new) (unapplied_hint db.now rows.now) }
{
    match rows {
        [] => write_all(target, b""),
        [_, ..] => {
            let mut digits = Buffer::new();
            let count = digits.format(rows.len()).as_bytes();
            let before = b"hint: money that counts for nothing, listed by ftd unapplied --db ";
            write_pieces(target, &[before, file_bytes(db), b": ", count, b"\n"])
        }
    }
}

/// Writes what is said of what the desk was told after a reply, for the desk of this file.
pub fn write_note<W: Target>(db: &str, facts: &Facts, target: &mut W) -> Result<(), WriteFault>
    ensures { Writes result (W.taken target.old) (W.taken target.new)
        (W.failed target.new) (note_text db.now facts.now) }
{
    match facts {
        Facts::Explained(explained) => write_payment_note(&explained.found, target),
        Facts::Unapplied(unapplied) => write_unapplied_hint(db, unapplied.rows.as_slice(), target),
        _ => write_all(target, b""),
    }
}

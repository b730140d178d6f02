//! The deposit schedule of a day, and why an obligation is so, told in lines.

ghost use Rattle.std.specs.Prelude.{◌≡◌};
ghost use Rattle.ftd_ports.specs.Writing.{Writes};
ghost use Rattle.ftd_answers.specs.ExplanationForms.{explanation_as};
ghost use Rattle.ftd_answers.specs.Explanations.{counted_line, day_kind_name};
ghost use Rattle.ftd_answers.specs.Explanations.{explained_text, explanation_head};
ghost use Rattle.ftd_answers.specs.Explanations.{explanation_text, explanation_told};
ghost use Rattle.ftd_answers.specs.Explanations.{obligation_line, payday_line};
ghost use Rattle.ftd_answers.specs.Explanations.{reached_end, reason_name, reason_text};
ghost use Rattle.ftd_answers.specs.Explanations.{return_line, status_text, turn_of};

use crate::explanation_objects::write_explanation_json;
use crate::lines::{Columns, kind_bytes};
use crate::rows::write_table;
use crate::values::{amount_column, rule_column};
use crate::{Format, ListFormat, RowFormat, day_bytes};
use ftd_days::Day;
use ftd_machine::{CountedDay, DayKind, ExplainedDay, Explanation, Reason, RunningSum};
use ftd_ports::{Target, WriteFault, write_all, write_pieces};
use ftd_rules::{Kind, Obligation};
use itoa::Buffer;

/// Why an account has a deposit schedule.
pub fn reason_name(reason: &Reason) -> &'static str
    ensures { result.now ≡ reason_name reason.now }
{
    match reason {
        Reason::Lookback => "lookback",
        Reason::Turned(_) => "turned",
        Reason::Carried => "carried",
    }
}

/// Why an account has a deposit schedule, as it stands in a line.
fn reason_bytes(reason: &Reason) -> &'static [u8]
    ensures { result.now ≡ reason_name reason.now }
{
    reason_name(reason).as_bytes()
}

/// The day on which 100,000.00 was reached, where an account has its deposit schedule since then.
pub fn turn_of(reason: &Reason) -> Option<Day>
    ensures { result ≡ turn_of reason.now }
{
    match reason {
        Reason::Turned(turn) => Some(*turn),
        Reason::Lookback | Reason::Carried => None,
    }
}

/// Writes the deposit schedule of a day and why an account has it, up to the end of the line.
fn write_reason<W: Target>(
    day: Day,
    kind: Kind,
    reason: &Reason,
    target: &mut W,
) -> Result<(), WriteFault>
    ensures { Writes result (W.taken target.old) (W.taken target.new)
        (W.failed target.new) (reason_text day kind reason.now) }
{
    let pieces: [&[u8]; 5] = [
        &day_bytes(day),
        b" ",
        kind_bytes(kind),
        b" ",
        reason_bytes(reason),
    ];
    write_pieces(target, &pieces)
}

/// Writes the day on which 100,000.00 was reached, if it was, and the end of the line.
fn write_reached<W: Target>(turn: Option<Day>, target: &mut W) -> Result<(), WriteFault>
    ensures { Writes result (W.taken target.old) (W.taken target.new)
        (W.failed target.new) (reached_end turn) }
{
    match turn {
        None => write_all(target, b"\n"),
        Some(turn) => {
            let turn = day_bytes(turn);
            write_pieces(target, &[b" ", &turn, b"\n"])
        }
    }
}

/// Writes the deposit schedule of a day. Where the target fails, a prefix of the line was written,
/// and it fails nowhere else.
#[tactic(auto, using(ftd_ports::proofs::WritingFacts::written_in_parts), unfolding(crate::specs::Explanations::status_text))]
pub fn write_schedule<W: Target>(
    day: Day,
    kind: Kind,
    reason: Reason,
    target: &mut W,
) -> Result<(), WriteFault>
    ensures { Writes result (W.taken target.old) (W.taken target.new)
        (W.failed target.new) (status_text day kind reason) }
{
    write_reason(day, kind, &reason, target)?;
    write_reached(turn_of(&reason), target)
}

/// Writes the line of an obligation.
fn write_obligation<W: Target>(o: &Obligation, target: &mut W) -> Result<(), WriteFault>
    ensures { Writes result (W.taken target.old) (W.taken target.new)
        (W.failed target.new) (obligation_line o.now) }
{
    let mut dollars = Buffer::new();
    let amount = amount_column(o.cents, &mut dollars);
    let pieces: [&[u8]; 12] = [
        &day_bytes(o.first),
        b" ",
        &day_bytes(o.last),
        b" ",
        rule_column(o.rule),
        b" ",
        amount.spaces,
        amount.dollars,
        &amount.cents,
        b" ",
        &day_bytes(o.due),
        b"\n",
    ];
    write_pieces(target, &pieces)
}

// Payday, liability, and that of the days up to it.
impl RowFormat<RunningSum> for Columns {
    ghost row_text = { λ columns row. payday_line row };

    fn write_row<W: Target>(&self, row: &RunningSum, target: &mut W) -> Result<(), WriteFault> {
        let (mut dollars, mut total_dollars) = (Buffer::new(), Buffer::new());
        let amount = amount_column(row.cents, &mut dollars);
        let total = amount_column(row.total, &mut total_dollars);
        let pieces: [&[u8]; 10] = [
            &day_bytes(row.day),
            b" ",
            amount.spaces,
            amount.dollars,
            &amount.cents,
            b" ",
            total.spaces,
            total.dollars,
            &total.cents,
            b"\n",
        ];
        write_pieces(target, &pieces)
    }
}

/// What a day is.
pub fn day_kind_name(kind: &DayKind) -> &str
    ensures { result.now ≡ day_kind_name kind.now }
{
    match kind {
        DayKind::Business => "business",
        DayKind::Saturday => "Saturday",
        DayKind::Sunday => "Sunday",
        DayKind::Holiday => "holiday",
    }
}

/// What a day is, as it stands in a line.
fn day_kind_bytes(kind: &DayKind) -> &[u8]
    ensures { result.now ≡ day_kind_name kind.now }
{
    day_kind_name(kind).as_bytes()
}

// Day, and what it is.
impl RowFormat<CountedDay> for Columns {
    ghost row_text = { λ columns row. counted_line row };

    fn write_row<W: Target>(&self, row: &CountedDay, target: &mut W) -> Result<(), WriteFault> {
        let day = day_bytes(row.day);
        write_pieces(target, &[&day, b" ", day_kind_bytes(&row.kind), b"\n"])
    }
}

/// Writes when the return is due.
fn write_return<W: Target>(day: Day, target: &mut W) -> Result<(), WriteFault>
    ensures { Writes result (W.taken target.old) (W.taken target.new)
        (W.failed target.new) (return_line day) }
{
    let day = day_bytes(day);
    write_pieces(target, &[b"RETURN ", &day, b"\n"])
}

/// Writes what explains an obligation: it, and the deposit schedule of its first day; its paydays,
/// and the days that are counted; when the return is due, and the payments.
#[tactic(auto, using(ftd_ports::proofs::WritingFacts::written_in_parts), unfolding(crate::specs::Explanations::explanation_text))]
fn write_explained<W: Target>(e: &Explanation, target: &mut W) -> Result<(), WriteFault>
    ensures { Writes result (W.taken target.old) (W.taken target.new)
        (W.failed target.new) (explanation_text e.now) }
{
    write_obligation(&e.obligation, target)?;
    write_schedule(e.obligation.first, e.kind, e.reason, target)?;
    write_table(b"PAYDAYS\n", &Columns, e.paydays.as_slice(), target)?;
    write_table(b"DAYS\n", &Columns, e.days.as_slice(), target)?;
    write_return(e.return_due, target)?;
    write_table(b"PAYMENTS\n", &Columns, e.payments.as_slice(), target)
}

/// Writes the first line.
fn write_head<W: Target>(account: &str, day: Day, target: &mut W) -> Result<(), WriteFault>
    ensures { Writes result (W.taken target.old) (W.taken target.new)
        (W.failed target.new) (explanation_head account.now day) }
{
    let day = day_bytes(day);
    write_pieces(
        target,
        &[b"OBLIGATION ", account.as_bytes(), b" ", &day, b"\n"],
    )
}

/// Writes what explains the obligation, if there is one.
fn write_found<W: Target>(found: &Option<Explanation>, target: &mut W) -> Result<(), WriteFault>
    ensures { Writes result (W.taken target.old) (W.taken target.new)
        (W.failed target.new) (explained_text found.now) }
{
    match found {
        Some(e) => write_explained(e, target),
        None => write_all(target, b"none\n"),
    }
}

/// Writes why the obligation of an account is so whose deposit period holds a day: a first line
/// that says what was asked for; the obligation; the deposit schedule of its first day; its
/// paydays, each with the liability of the obligation's days up to it; the days that are counted to
/// its due date; when the return is due; and its payments. Where no obligation's deposit period
/// holds the day, the second line is `none`. It takes no memory but what the target takes. Where
/// the target fails, a prefix of the text was written, and it fails nowhere else.
#[tactic(auto, using(ftd_ports::proofs::WritingFacts::written_in_parts), unfolding(crate::specs::Explanations::explanation_told))]
pub fn write_explanation<W: Target>(
    account: &str,
    day: Day,
    found: &Option<Explanation>,
    target: &mut W,
) -> Result<(), WriteFault>
    ensures { Writes result (W.taken target.old) (W.taken target.new)
        (W.failed target.new) (explanation_told account.now day found.now) }
{
    write_head(account, day, target)?;
    write_found(found, target)
}

/// Writes why the obligation of an account is so whose deposit period holds a day, in a format: as
/// text or as JSON. It has no other: in each of them nothing is written. It takes no memory but
/// what the target takes. Where the target fails, a prefix of the text was written, and it fails
/// nowhere else.
pub fn write_explanation_as<W: Target>(
    format: Format,
    explained: &ExplainedDay,
    target: &mut W,
) -> Result<(), WriteFault>
    ensures { Writes result (W.taken target.old) (W.taken target.new)
        (W.failed target.new) (explanation_as format explained.now) }
{
    let account = explained.account.as_str();
    let day = explained.day;
    match format {
        Format::List(ListFormat::Text) => {
            write_explanation(account, day, &explained.found, target)
        }
        Format::List(ListFormat::Json) => {
            write_explanation_json(account, day, &explained.found, target)
        }
        Format::List(ListFormat::Csv) | Format::Calendar => write_all(target, b""),
    }
}

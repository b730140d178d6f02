//! The fields of a row, as CSV and as JSON.

ghost use Rattle.std.specs.Prelude.{◌≡◌, true, map};
ghost use Rattle.ftd_ports.specs.Writing.{Writes};
ghost use Rattle.std.specs.Fmt.{decimal};
ghost use Rattle.ftd_days.specs.Text.{cents_text, day_text};
ghost use Rattle.ftd_answers.specs.Fields.{array_of, member, member_of, object_of, quoted};
ghost use Rattle.ftd_answers.specs.Fields.{record_of, shown_as, true_false, yes_no};

use crate::lines::kind_bytes;
use crate::rows::{RowFormat, write_enclosed, write_joined};
use crate::values::verdict_name;
use crate::{amount_text, day_bytes, form_bytes, quarter_bytes, rule_name};
use ftd_days::{Cents, Day, Quarter};
use ftd_ports::{Target, WriteFault, write_all, write_pieces};
use ftd_rules::{Form, Kind, Rule, Verdict};
use itoa::Buffer;

/// The value of a field.
#[derive(Clone, Copy, Debug)]
pub enum Value<'a> {
    /// A text of which no byte is to be escaped, such as the name of an account.
    Text(&'a str),
    /// A whole number.
    Number(u32),
    /// A whole number, or none.
    NumberOrNone(Option<u32>),
    /// How many there are.
    Count(usize),
    /// An amount in cents.
    Amount(Cents),
    /// A sum of amounts in cents.
    Sum(u128),
    /// A day.
    Day(Day),
    /// A day, or none.
    DayOrNone(Option<Day>),
    /// A quarter.
    Quarter(Quarter),
    /// The form that an account files.
    Form(Form),
    /// A deposit schedule.
    Kind(Kind),
    /// The rule of an obligation.
    Rule(Rule),
    /// How an obligation stands.
    Verdict(Verdict),
    /// Yes or no.
    Flag(bool),
}

/// The cells of a line of CSV.
#[derive(Drop)]
pub struct Cells;

/// The members of an object of JSON.
#[derive(Drop)]
pub struct Members;

/// Yes or no.
fn yes_no(flag: bool) -> &'static [u8]
    ensures { result.now ≡ yes_no flag }
{
    if flag { b"yes" } else { b"no" }
}

/// True or false.
fn true_false(flag: bool) -> &'static [u8]
    ensures { result.now ≡ true_false flag }
{
    if flag { b"true" } else { b"false" }
}

/// Writes an amount in cents.
fn write_amount<W: Target>(cents: u128, target: &mut W) -> Result<(), WriteFault>
    ensures { Writes result (W.taken target.old) (W.taken target.new)
        (W.failed target.new) (cents_text cents) }
{
    let mut dollars = Buffer::new();
    let amount = amount_text(cents, &mut dollars);
    write_pieces(target, &[amount.dollars, &amount.cents])
}

/// Writes a whole number.
fn write_number<W: Target>(number: u32, target: &mut W) -> Result<(), WriteFault>
    ensures { Writes result (W.taken target.old) (W.taken target.new)
        (W.failed target.new) (decimal number) }
{
    let mut digits = Buffer::new();
    write_all(target, digits.format(number).as_bytes())
}

/// Writes how many there are.
fn write_count<W: Target>(count: usize, target: &mut W) -> Result<(), WriteFault>
    ensures { Writes result (W.taken target.old) (W.taken target.new)
        (W.failed target.new) (decimal count) }
{
    let mut digits = Buffer::new();
    write_all(target, digits.format(count).as_bytes())
}

/// Writes a value as it stands in a record of CSV.
pub fn write_plain<W: Target>(value: &Value<'_>, target: &mut W) -> Result<(), WriteFault>
    ensures { Writes result (W.taken target.old) (W.taken target.new)
        (W.failed target.new) (shown_as value.now).plain }
{
    match value {
        Value::Text(text) => write_all(target, text.as_bytes()),
        Value::Number(number) | Value::NumberOrNone(Some(number)) => write_number(*number, target),
        Value::Count(count) => write_count(*count, target),
        Value::Amount(cents) => write_amount(u128::from(cents.0), target),
        Value::Sum(total) => write_amount(*total, target),
        Value::Day(day) => write_all(target, &day_bytes(*day)),
        Value::DayOrNone(Some(day)) => write_all(target, &day_bytes(*day)),
        Value::Quarter(quarter) => write_all(target, &quarter_bytes(*quarter)),
        Value::Form(form) => write_all(target, &form_bytes(*form)),
        Value::Kind(kind) => write_all(target, kind_bytes(*kind)),
        Value::Rule(rule) => write_all(target, rule_name(*rule)),
        Value::Verdict(verdict) => write_all(target, verdict_name(*verdict)),
        Value::Flag(flag) => write_all(target, yes_no(*flag)),
        Value::NumberOrNone(None) | Value::DayOrNone(None) => Ok(()),
    }
}

/// Writes a value as a text of JSON.
#[tactic(auto, using(ftd_ports::proofs::WritingFacts::written_in_parts))]
fn write_quoted<W: Target>(value: &Value<'_>, target: &mut W) -> Result<(), WriteFault>
    ensures { Writes result (W.taken target.old) (W.taken target.new)
        (W.failed target.new) (quoted (shown_as value.now).plain) }
{
    write_all(target, b"\"")?;
    write_plain(value, target)?;
    write_all(target, b"\"")
}

/// Writes a value as JSON.
fn write_json<W: Target>(value: &Value<'_>, target: &mut W) -> Result<(), WriteFault>
    ensures { Writes result (W.taken target.old) (W.taken target.new)
        (W.failed target.new) (shown_as value.now).json }
{
    match value {
        Value::Number(number) | Value::NumberOrNone(Some(number)) => write_number(*number, target),
        Value::Count(count) => write_count(*count, target),
        Value::Flag(flag) => write_all(target, true_false(*flag)),
        Value::NumberOrNone(None) | Value::DayOrNone(None) => write_all(target, b"null"),
        Value::Text(_)
        | Value::Amount(_)
        | Value::Sum(_)
        | Value::Day(_)
        | Value::DayOrNone(Some(_))
        | Value::Quarter(_)
        | Value::Form(_)
        | Value::Kind(_)
        | Value::Rule(_)
        | Value::Verdict(_) => write_quoted(value, target),
    }
}

/// Writes a member of an object: its name, and its value.
pub fn write_member<W: Target>(
    name: &str,
    value: &Value<'_>,
    target: &mut W,
) -> Result<(), WriteFault>
    ensures { Writes result (W.taken target.old) (W.taken target.new)
        (W.failed target.new) (member name.now (shown_as value.now).json) }
{
    write_pieces(target, &[b"\"", name.as_bytes(), b"\":"])?;
    write_json(value, target)
}

impl<'a, 'b> RowFormat<(&'a str, Value<'b>)> for Members {
    ghost row_text = { λ members field. member_of field };

    fn write_row<W: Target>(
        &self,
        row: &(&'a str, Value<'b>),
        target: &mut W,
    ) -> Result<(), WriteFault> {
        let (name, value) = row;
        write_member(name, value, target)
    }
}

/// Writes a line of CSV: the texts of its cells with one comma between, and the end of the line.
/// Where the target fails, a prefix of that was written, and it fails nowhere else.
#[tactic(auto, using(ftd_ports::proofs::WritingFacts::written_in_parts))]
pub fn write_line<T, F: RowFormat<T>, W: Target>(
    format: &F,
    cells: &[T],
    target: &mut W,
) -> Result<(), WriteFault>
    ensures { Writes result (W.taken target.old) (W.taken target.new)
        (W.failed target.new) (record_of (map (F.row_text format.now) cells.now)) }
{
    write_joined(format, cells, target)?;
    write_all(target, b"\n")
}

/// Writes the fields of a row as an object of JSON. Where the target fails, a prefix of it was
/// written, and it fails nowhere else.
pub fn write_object<W: Target>(
    fields: &[(&str, Value<'_>)],
    target: &mut W,
) -> Result<(), WriteFault>
    ensures { Writes result (W.taken target.old) (W.taken target.new)
        (W.failed target.new) (object_of (map member_of fields.now)) }
{
    write_enclosed(b"{", &Members, fields, b"}", target)
}

/// Writes rows as an array of JSON. Where the target fails, a prefix of it was written, and it
/// fails nowhere else.
pub fn write_array<T, F: RowFormat<T>, W: Target>(
    format: &F,
    rows: &[T],
    target: &mut W,
) -> Result<(), WriteFault>
    ensures { Writes result (W.taken target.old) (W.taken target.new)
        (W.failed target.new) (array_of (map (F.row_text format.now) rows.now)) }
{
    write_enclosed(b"[", format, rows, b"]", target)
}

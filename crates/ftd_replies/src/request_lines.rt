//! The line of a request: the command that asks it, as a shell takes it.

ghost use Rattle.std.specs.Prelude.{◌∷◌, ◌++◌, [], codes, flat_map};
ghost use Rattle.std.specs.Fmt.{decimal};
ghost use Rattle.ftd_days.specs.Text.{day_text};
ghost use Rattle.ftd_ports.specs.Writing.{Writes};
ghost use Rattle.ftd_answers.specs.Fields.{shown_as};
ghost use Rattle.ftd_cli.specs.Table.{field_text};
ghost use Rattle.ftd_verbs.specs.Rows.{row_of};
ghost use Rattle.ftd_replies.specs.Private.LineWords.{word_of};
ghost use Rattle.ftd_replies.specs.RequestLines.{account_correction_line, calendar_line};
ghost use Rattle.ftd_replies.specs.RequestLines.{correction_line, day_correction_line, enrol_line};
ghost use Rattle.ftd_replies.specs.RequestLines.{entry_line, line_of, lines_of, named, pay_line};
ghost use Rattle.ftd_replies.specs.RequestLines.{post_line, request_line, total_correction_line};
ghost use Rattle.ftd_replies.specs.RequestLines.{total_line, word};

use LineWord::{Mark, Named, Place};
use ftd_answers::{RowFormat, Value, write_plain, write_rows};
use ftd_cli::Word;
use ftd_days::{Cents, Day};
use ftd_machine::{Account, AccountName, Beginning, Correction, Entry, Request, ReturnPeriod};
use ftd_ports::{Target, WriteFault, write_all};
use ftd_rules::{PayRun, Payment};
use ftd_verbs::{Field, Verb};

/// A word of a line.
#[derive(Clone, Copy)]
enum LineWord<'a> {
    /// A value at its place.
    Place(Value<'a>),
    /// A value behind the name of the field's option.
    Named(Field, Value<'a>),
    /// The field's mark, if it is there.
    Mark(Field, bool),
}

/// Words and days as they are written in a line, with a blank before each.
struct InLine;

/// Writes two hyphens and the name of a field, with a blank before them.
#[tactic(auto, using(ftd_ports::proofs::WritingFacts::written_in_parts))]
fn write_option<W: Target>(field: Field, target: &mut W) -> Result<(), WriteFault>
    ensures { Writes result (W.taken target.old) (W.taken target.new) (W.failed target.new)
        (codes " --" ++ field_text field) }
{
    write_all(target, b" --")?;
    write_all(target, Word::Field(field).text().as_bytes())
}

/// Writes a value, with a blank before it.
#[tactic(auto, using(ftd_ports::proofs::WritingFacts::written_in_parts))]
fn write_place<W: Target>(value: &Value<'_>, target: &mut W) -> Result<(), WriteFault>
    ensures { Writes result (W.taken target.old) (W.taken target.new) (W.failed target.new)
        (word (shown_as value.now).plain) }
{
    write_all(target, b" ")?;
    write_plain(value, target)
}

/// Writes a value behind the name of its option.
#[tactic(auto, using(ftd_ports::proofs::WritingFacts::written_in_parts))]
fn write_named<W: Target>(field: Field, value: &Value<'_>, target: &mut W) -> Result<(), WriteFault>
    ensures { Writes result (W.taken target.old) (W.taken target.new) (W.failed target.new)
        (named field (shown_as value.now).plain) }
{
    write_option(field, target)?;
    write_place(value, target)
}

impl<'a> RowFormat<LineWord<'a>> for InLine {
    ghost row_text = { λ format row. word_of row };

    fn write_row<W: Target>(&self, row: &LineWord<'a>, target: &mut W) -> Result<(), WriteFault> {
        match row {
            LineWord::Place(value) => write_place(value, target),
            LineWord::Named(field, value) => write_named(*field, value, target),
            LineWord::Mark(field, true) => write_option(*field, target),
            LineWord::Mark(_, false) => Ok(()),
        }
    }
}

impl RowFormat<Day> for InLine {
    ghost row_text = { λ format day. word (day_text day) };

    fn write_row<W: Target>(&self, row: &Day, target: &mut W) -> Result<(), WriteFault> {
        write_place(&Value::Day(*row), target)
    }
}

/// Writes the line of a verb with these words.
#[tactic(auto, using(ftd_ports::proofs::WritingFacts::written_in_parts))]
fn write_line<W: Target>(
    verb: Verb,
    words: &[LineWord<'_>],
    target: &mut W,
) -> Result<(), WriteFault>
    ensures { Writes result (W.taken target.old) (W.taken target.new) (W.failed target.new)
        ((row_of verb).command ++ (flat_map word_of words.now ++ codes "\n")) }
{
    write_all(target, verb.row().command.as_bytes())?;
    write_rows(&InLine, words, target)?;
    write_all(target, b"\n")
}

// ---- what is entered

/// Writes the line by which the calendar of a year is given.
#[tactic(auto, using(ftd_ports::proofs::WritingFacts::written_in_parts), unfolding(crate::specs::RequestLines::calendar_line))]
fn write_calendar<W: Target>(year: u32, days: &[Day], target: &mut W) -> Result<(), WriteFault>
    ensures { Writes result (W.taken target.old) (W.taken target.new) (W.failed target.new)
        (calendar_line year days.now) }
{
    write_all(target, Verb::Calendar.row().command.as_bytes())?;
    write_place(&Value::Number(year), target)?;
    write_rows(&InLine, days, target)?;
    write_all(target, b"\n")
}

/// Writes the line by which an account is enrolled.
#[tactic(auto, unfolding(crate::specs::RequestLines::enrol_line))]
fn write_enrol<W: Target>(
    name: &AccountName,
    account: &Account,
    target: &mut W,
) -> Result<(), WriteFault>
    ensures { Writes result (W.taken target.old) (W.taken target.new) (W.failed target.new)
        (enrol_line name.now account.now) }
{
    let words = [
        Place(Value::Text(name.as_str())),
        Place(Value::Day(account.start)),
        Mark(Field::Carried, account.carried),
        Named(Field::Form, Value::Form(account.form)),
    ];
    write_line(Verb::Enrol, &words, target)
}

/// Writes the line by which a total is reported.
#[tactic(auto, unfolding(crate::specs::RequestLines::total_line))]
fn write_total<W: Target>(
    account: &AccountName,
    period: &ReturnPeriod,
    cents: Cents,
    target: &mut W,
) -> Result<(), WriteFault>
    ensures { Writes result (W.taken target.old) (W.taken target.new) (W.failed target.new)
        (total_line account.now period.now cents) }
{
    let name = Place(Value::Text(account.as_str()));
    let amount = Place(Value::Amount(cents));
    match period {
        ReturnPeriod::Quarter(quarter) => {
            let quarter = Place(Value::Quarter(*quarter));
            write_line(Verb::Report, &[name, quarter, amount], target)
        }
        ReturnPeriod::Year(year) => {
            let year = Place(Value::Number(*year));
            write_line(Verb::ReportYear, &[name, year, amount], target)
        }
    }
}

/// Writes the line of an account and a number.
fn write_numbered<W: Target>(
    verb: Verb,
    account: &AccountName,
    number: u32,
    target: &mut W,
) -> Result<(), WriteFault>
    ensures { Writes result (W.taken target.old) (W.taken target.new) (W.failed target.new)
        (line_of verb (word account.now ∷ word (decimal number) ∷ [])) }
{
    let words = [
        Place(Value::Text(account.as_str())),
        Place(Value::Number(number)),
    ];
    write_line(verb, &words, target)
}

/// Writes the line by which this is entered.
#[tactic(auto, unfolding(crate::specs::RequestLines::entry_line))]
fn write_entry<W: Target>(entry: &Entry, target: &mut W) -> Result<(), WriteFault>
    ensures { Writes result (W.taken target.old) (W.taken target.new) (W.failed target.new)
        (entry_line entry.now) }
{
    match entry {
        Entry::Account { name, account } => write_enrol(name, account, target),
        Entry::Calendar { year, days } => write_calendar(*year, days.as_slice(), target),
        Entry::Holiday { day } => {
            write_line(Verb::AddHoliday, &[Place(Value::Day(*day))], target)
        }
        Entry::Total {
            account,
            period,
            cents,
        } => write_total(account, period, *cents, target),
        Entry::Year { account, year } => write_numbered(Verb::OpenYear, account, *year, target),
    }
}

// ---- pay runs and payments

/// Writes the line by which a run is posted.
#[tactic(auto, unfolding(crate::specs::RequestLines::post_line))]
fn write_post<W: Target>(
    account: &AccountName,
    number: u32,
    run: &PayRun,
    target: &mut W,
) -> Result<(), WriteFault>
    ensures { Writes result (W.taken target.old) (W.taken target.new) (W.failed target.new)
        (post_line account.now number run.now) }
{
    let words = [
        Place(Value::Text(account.as_str())),
        Place(Value::Number(number)),
        Place(Value::Day(run.payday)),
        Place(Value::Amount(run.fit)),
        Place(Value::Amount(run.ss)),
        Place(Value::Amount(run.medicare)),
    ];
    write_line(Verb::Post, &words, target)
}

/// Writes the line by which a payment is recorded.
#[tactic(auto, unfolding(crate::specs::RequestLines::pay_line))]
fn write_pay<W: Target>(
    account: &AccountName,
    number: u32,
    payment: &Payment,
    target: &mut W,
) -> Result<(), WriteFault>
    ensures { Writes result (W.taken target.old) (W.taken target.new) (W.failed target.new)
        (pay_line account.now number payment.now) }
{
    let words = [
        Place(Value::Text(account.as_str())),
        Place(Value::Number(number)),
        Place(Value::Day(payment.paid)),
        Place(Value::Day(payment.for_day)),
        Place(Value::Amount(payment.cents)),
    ];
    write_line(Verb::Pay, &words, target)
}

// ---- corrections

/// Writes the line by which a total is put right, under its number.
#[tactic(auto, unfolding(crate::specs::RequestLines::total_correction_line))]
fn write_total_correction<W: Target>(
    number: u32,
    account: &AccountName,
    period: &ReturnPeriod,
    cents: Cents,
    target: &mut W,
) -> Result<(), WriteFault>
    ensures { Writes result (W.taken target.old) (W.taken target.new) (W.failed target.new)
        (total_correction_line number account.now period.now cents) }
{
    let name = Place(Value::Text(account.as_str()));
    let number = Named(Field::Number, Value::Number(number));
    let amount = Place(Value::Amount(cents));
    match period {
        ReturnPeriod::Quarter(quarter) => {
            let quarter = Place(Value::Quarter(*quarter));
            write_line(
                Verb::CorrectReport,
                &[name, quarter, number, amount],
                target,
            )
        }
        ReturnPeriod::Year(year) => {
            let year = Place(Value::Number(*year));
            write_line(
                Verb::CorrectReportYear,
                &[name, year, number, amount],
                target,
            )
        }
    }
}

/// Writes the line by which a day is taken back as a holiday, or made one again.
#[tactic(auto, unfolding(crate::specs::RequestLines::day_correction_line))]
fn write_day_correction<W: Target>(
    number: u32,
    day: Day,
    is_holiday: bool,
    target: &mut W,
) -> Result<(), WriteFault>
    ensures { Writes result (W.taken target.old) (W.taken target.new) (W.failed target.new)
        (day_correction_line number day is_holiday) }
{
    let words = [
        Place(Value::Day(day)),
        Named(Field::Number, Value::Number(number)),
        Place(Value::Flag(is_holiday)),
    ];
    write_line(Verb::ChangeHoliday, &words, target)
}

/// Writes the line by which an account is put right.
#[tactic(auto, unfolding(crate::specs::RequestLines::account_correction_line))]
fn write_account_correction<W: Target>(
    number: u32,
    account: &AccountName,
    beginning: &Beginning,
    target: &mut W,
) -> Result<(), WriteFault>
    ensures { Writes result (W.taken target.old) (W.taken target.new) (W.failed target.new)
        (account_correction_line number account.now beginning.now) }
{
    let words = [
        Place(Value::Text(account.as_str())),
        Named(Field::Number, Value::Number(number)),
        Place(Value::Day(beginning.start)),
        Mark(Field::Carried, beginning.carried),
    ];
    write_line(Verb::CorrectAccount, &words, target)
}

/// Writes the line of a correction, under its number.
#[tactic(auto, unfolding(crate::specs::RequestLines::correction_line))]
fn write_correction<W: Target>(
    number: u32,
    correction: &Correction,
    target: &mut W,
) -> Result<(), WriteFault>
    ensures { Writes result (W.taken target.old) (W.taken target.new) (W.failed target.new)
        (correction_line number correction.now) }
{
    match correction {
        Correction::Total {
            account,
            period,
            cents,
        } => write_total_correction(number, account, period, *cents, target),
        Correction::Holiday { day, is_holiday } => {
            write_day_correction(number, *day, *is_holiday, target)
        }
        Correction::Account { account, beginning } => {
            write_account_correction(number, account, beginning, target)
        }
    }
}

// ---- requests

/// The lines of requests.
struct Lines;

impl RowFormat<Request> for Lines {
    ghost row_text = { λ format request. request_line request };

    #[tactic(auto, unfolding(crate::specs::RequestLines::request_line))]
    fn write_row<W: Target>(&self, row: &Request, target: &mut W) -> Result<(), WriteFault> {
        match row {
            Request::Enter(entry) => write_entry(entry, target),
            Request::Post {
                account,
                number,
                run,
            } => write_post(account, *number, run, target),
            Request::Void { account, number } => {
                write_numbered(Verb::Void, account, *number, target)
            }
            Request::Pay {
                account,
                number,
                payment,
            } => write_pay(account, *number, payment, target),
            Request::VoidPay { account, number } => {
                write_numbered(Verb::VoidPay, account, *number, target)
            }
            Request::Correct { number, correction } => {
                write_correction(*number, correction, target)
            }
            Request::Question(_) => Ok(()),
        }
    }
}

/// Writes the line of a request: the command that asks it, with its fields in the order of its verb's
/// row. A question, by which nothing is entered, has none. Where the target fails, a prefix of it was
/// written, and it fails nowhere else.
pub fn write_request<W: Target>(request: &Request, target: &mut W) -> Result<(), WriteFault>
    ensures { Writes result (W.taken target.old) (W.taken target.new) (W.failed target.new)
        (request_line request.now) }
{
    Lines.write_row(request, target)
}

/// Writes the lines of requests, one after the other: of each the command that asks it, with its
/// fields in the order of its verb's row. A question, by which nothing is entered, has none. Where
/// the target fails, a prefix of them was written, and it fails nowhere else.
pub fn write_requests<W: Target>(requests: &[Request], target: &mut W) -> Result<(), WriteFault>
    ensures { Writes result (W.taken target.old) (W.taken target.new) (W.failed target.new)
        (lines_of requests.now) }
{
    write_rows(&Lines, requests, target)
}

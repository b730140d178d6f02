//! What is kept, told in a line each.

ghost use Rattle.std.specs.Prelude.{◌≡◌};
ghost use Rattle.ftd_ports.specs.Writing.{Writes};
ghost use Rattle.ftd_answers.specs.Columns.{amount_in};
ghost use Rattle.ftd_answers.specs.Listings.{name_text, enrolled_text, account_line, carried_end};
ghost use Rattle.ftd_answers.specs.Listings.{carried_text, kind_name};
ghost use Rattle.ftd_answers.specs.Listings.{year_text, turn_text, first_end, year_line};
ghost use Rattle.ftd_answers.specs.Listings.{total_text, total_line, added_text, holiday_end};
ghost use Rattle.ftd_answers.specs.Listings.{holiday_line, void_end, run_line, held_text};
ghost use Rattle.ftd_answers.specs.Listings.{payment_line};

use crate::agendas::spaces_after;
use crate::values::amount_column;
use crate::{RowFormat, amount_text, day_bytes, form_bytes, quarter_bytes};
use ftd_days::{Cents, Day};
use ftd_machine::{
    Account, KeptAccount, KeptHoliday, KeptPayment, KeptRun, KeptTotal, KeptYear, ReturnPeriod,
};
use ftd_ports::{Target, WriteFault, write_all, write_pieces};
use ftd_rules::{Kind, YearLine};
use itoa::Buffer;

/// What is kept, in lines of columns.
#[derive(Drop)]
pub struct Columns;

/// The end of the line of an account.
fn carried_end(carried: bool) -> &'static [u8]
    ensures { result.now ≡ carried_end carried }
{
    if carried { b" carried\n" } else { b"\n" }
}

/// The end of the line of a run or a payment.
fn void_end(voided: bool) -> &'static [u8]
    ensures { result.now ≡ void_end voided }
{
    if voided { b" void\n" } else { b"\n" }
}

/// Whether a holiday was added to its year.
fn added_text(added: bool) -> &'static [u8]
    ensures { result.now ≡ added_text added }
{
    if added { b" added" } else { b"" }
}

/// The end of the line of a day that was given or added as a holiday.
fn holiday_end(is_holiday: bool) -> &'static [u8]
    ensures { result.now ≡ holiday_end is_holiday }
{
    if is_holiday { b"\n" } else { b" taken-back\n" }
}

/// Whether an account is carried into a year.
fn carried_text(carried: bool) -> &'static [u8]
    ensures { result.now ≡ carried_text carried }
{
    if carried { b" carried" } else { b"" }
}

/// A deposit schedule.
pub fn kind_bytes(kind: Kind) -> &'static [u8]
    ensures { result.now ≡ kind_name kind }
{
    match kind {
        Kind::Monthly => b"monthly",
        Kind::Semiweekly => b"semiweekly",
    }
}

/// The obligation that a payment counts for.
fn held_text(obligation: Option<Day>) -> [u8; 10]
    ensures { result ≡ held_text obligation }
{
    match obligation {
        Some(first) => day_bytes(first),
        None => *b"none      ",
    }
}

/// Writes the name of an account in its column.
pub(crate) fn write_name<W: Target>(name: &str, target: &mut W) -> Result<(), WriteFault>
    ensures { Writes result (W.taken target.old) (W.taken target.new)
        (W.failed target.new) (name_text name.now) }
{
    let spaces = spaces_after(name);
    write_pieces(target, &[name.as_bytes(), spaces, b" "])
}

/// Writes what an account was enrolled with, to the end of the line.
fn write_enrolled<W: Target>(account: &Account, target: &mut W) -> Result<(), WriteFault>
    ensures { Writes result (W.taken target.old) (W.taken target.new)
        (W.failed target.new) (enrolled_text account.now) }
{
    let form = form_bytes(account.form);
    let start = day_bytes(account.start);
    write_pieces(target, &[&form, b" ", &start, carried_end(account.carried)])
}

// Name, form and first day.
impl RowFormat<KeptAccount> for Columns {
    ghost row_text = { λ columns row. account_line row };

    #[tactic(auto, using(ftd_ports::proofs::WritingFacts::written_in_parts), unfolding(crate::specs::Listings::account_line))]
    fn write_row<W: Target>(&self, row: &KeptAccount, target: &mut W) -> Result<(), WriteFault> {
        write_name(row.name.as_str(), target)?;
        write_enrolled(&row.account, target)
    }
}

/// Writes a year, its lookback total, the schedule that it opens with, and whether the account is
/// carried into it.
fn write_year<W: Target>(line: &YearLine, target: &mut W) -> Result<(), WriteFault>
    ensures { Writes result (W.taken target.old) (W.taken target.new)
        (W.failed target.new) (year_text line.now) }
{
    let (mut digits, mut dollars) = (Buffer::new(), Buffer::new());
    let year = digits.format(line.year).as_bytes();
    let total = amount_column(line.lookback, &mut dollars);
    let pieces: [&[u8]; 8] = [
        year,
        b" ",
        total.spaces,
        total.dollars,
        &total.cents,
        b" ",
        kind_bytes(line.opening),
        carried_text(line.carried),
    ];
    write_pieces(target, &pieces)
}

/// Writes the day on which an account turned, if it did.
fn write_turn<W: Target>(turn: Option<Day>, target: &mut W) -> Result<(), WriteFault>
    ensures { Writes result (W.taken target.old) (W.taken target.new)
        (W.failed target.new) (turn_text turn) }
{
    match turn {
        None => Ok(()),
        Some(turn) => {
            let turn = day_bytes(turn);
            write_pieces(target, &[b" turned ", &turn])
        }
    }
}

/// Writes the amount that was first reported, if it is another than the one in force, and the end
/// of the line.
fn write_first<W: Target>(cents: Cents, first: Cents, target: &mut W) -> Result<(), WriteFault>
    ensures { Writes result (W.taken target.old) (W.taken target.new)
        (W.failed target.new) (first_end cents.0 first.0) }
{
    if cents.0 == first.0 {
        return write_all(target, b"\n");
    }
    let mut dollars = Buffer::new();
    let amount = amount_text(u128::from(first.0), &mut dollars);
    write_pieces(target, &[b" first ", amount.dollars, &amount.cents, b"\n"])
}

// Year, lookback total, opening, whether the account is carried, turn, and first lookback total.
impl RowFormat<KeptYear> for Columns {
    ghost row_text = { λ columns row. year_line row };

    #[tactic(auto, using(ftd_ports::proofs::WritingFacts::written_in_parts), unfolding(crate::specs::Listings::year_line))]
    fn write_row<W: Target>(&self, row: &KeptYear, target: &mut W) -> Result<(), WriteFault> {
        write_year(&row.line, target)?;
        write_turn(row.line.turn, target)?;
        write_first(row.line.lookback, row.first_lookback, target)
    }
}

/// Writes an amount in its column.
fn write_amount<W: Target>(cents: Cents, target: &mut W) -> Result<(), WriteFault>
    ensures { Writes result (W.taken target.old) (W.taken target.new)
        (W.failed target.new) (amount_in cents.0) }
{
    let mut dollars = Buffer::new();
    let amount = amount_column(cents, &mut dollars);
    write_pieces(target, &[amount.spaces, amount.dollars, &amount.cents])
}

/// Writes the line of a total of a quarter or a year.
fn write_total<W: Target>(
    period: &[u8],
    cents: Cents,
    first: Cents,
    target: &mut W,
) -> Result<(), WriteFault>
    ensures { Writes result (W.taken target.old) (W.taken target.new)
        (W.failed target.new) (total_text period.now cents.0 first.0) }
{
    write_pieces(target, &[period, b" "])?;
    write_amount(cents, target)?;
    write_first(cents, first, target)
}

// Quarter or year, amount, and first amount.
impl RowFormat<KeptTotal> for Columns {
    ghost row_text = { λ columns row. total_line row };

    fn write_row<W: Target>(&self, row: &KeptTotal, target: &mut W) -> Result<(), WriteFault> {
        match row.period {
            ReturnPeriod::Quarter(quarter) => {
                write_total(&quarter_bytes(quarter), row.cents, row.first, target)
            }
            ReturnPeriod::Year(year) => {
                let mut digits = Buffer::new();
                write_total(digits.format(year).as_bytes(), row.cents, row.first, target)
            }
        }
    }
}

// Payday, the three amounts, and number.
impl RowFormat<KeptRun> for Columns {
    ghost row_text = { λ columns row. run_line row };

    fn write_row<W: Target>(&self, row: &KeptRun, target: &mut W) -> Result<(), WriteFault> {
        let (mut fit_dollars, mut ss_dollars) = (Buffer::new(), Buffer::new());
        let (mut medicare_dollars, mut digits) = (Buffer::new(), Buffer::new());
        let fit = amount_column(row.run.fit, &mut fit_dollars);
        let ss = amount_column(row.run.ss, &mut ss_dollars);
        let medicare = amount_column(row.run.medicare, &mut medicare_dollars);
        let number = digits.format(row.number).as_bytes();
        let pieces: [&[u8]; 16] = [
            &day_bytes(row.run.payday),
            b" ",
            fit.spaces,
            fit.dollars,
            &fit.cents,
            b" ",
            ss.spaces,
            ss.dollars,
            &ss.cents,
            b" ",
            medicare.spaces,
            medicare.dollars,
            &medicare.cents,
            b" ",
            number,
            void_end(row.voided),
        ];
        write_pieces(target, &pieces)
    }
}

// The day that it is for, amount, the day on which it was paid, obligation, and number.
impl RowFormat<KeptPayment> for Columns {
    ghost row_text = { λ columns row. payment_line row };

    fn write_row<W: Target>(&self, row: &KeptPayment, target: &mut W) -> Result<(), WriteFault> {
        let (mut dollars, mut digits) = (Buffer::new(), Buffer::new());
        let amount = amount_column(row.payment.cents, &mut dollars);
        let number = digits.format(row.number).as_bytes();
        let pieces: [&[u8]; 12] = [
            &day_bytes(row.payment.for_day),
            b" ",
            amount.spaces,
            amount.dollars,
            &amount.cents,
            b" ",
            &day_bytes(row.payment.paid),
            b" ",
            &held_text(row.obligation),
            b" ",
            number,
            void_end(row.voided),
        ];
        write_pieces(target, &pieces)
    }
}

// The day, whether it was added, and whether it was taken back.
impl RowFormat<KeptHoliday> for Columns {
    ghost row_text = { λ columns row. holiday_line row };

    fn write_row<W: Target>(&self, row: &KeptHoliday, target: &mut W) -> Result<(), WriteFault> {
        let day = day_bytes(row.day);
        let pieces: [&[u8]; 3] = [&day, added_text(row.added), holiday_end(row.is_holiday)];
        write_pieces(target, &pieces)
    }
}

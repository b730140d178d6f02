//! The text of Schedule B.

ghost use Rattle.std.specs.Prelude.{◌≡◌, ◌<◌, ◌≤◌, length};
ghost use Rattle.std.specs.List.{sum_by};
ghost use Rattle.ftd_ports.specs.Writing.{Writes};
ghost use Rattle.ftd_rules.specs.Liability.{cents_of};
ghost use Rattle.ftd_answers.specs.SchedulesB.{b_head, b_line, b_text, day_line, month_lines};

use crate::values::{amount_column, day_bytes, label_column, month_bytes, quarter_bytes};
use ftd_days::{Cents, MONTHS, Quarter};
use ftd_ports::{Target, WriteFault, write_pieces};
use ftd_rules::{AMOUNTS_END, DaySum};
use itoa::Buffer;

/// Writes Schedule B of an account's quarter: for each month of the quarter a line for each of its
/// days that has a sum, and a line for the month, also where it is zero; last a line for the
/// quarter. The sums have rising days of the quarter; they are together below 6,000,000,000,000,000
/// cents. It takes no memory but what the target takes. Where the target fails, a prefix of the
/// text was written, and it fails nowhere else.
#[tactic(auto, using(ftd_ports::proofs::WritingFacts::written_in_parts), unfolding(crate::specs::SchedulesB::b_text))]
pub fn schedule_b<W: Target>(
    account: &str,
    quarter: Quarter,
    sums: &[DaySum],
    target: &mut W,
) -> Result<(), WriteFault>
    requires amounts { sum_by cents_of sums.now < AMOUNTS_END }
    ensures { Writes result (W.taken target.old) (W.taken target.new)
        (W.failed target.new) (b_text account.now quarter sums.now) }
{
    write_head(account, quarter, target)?;
    let first = 3 * quarter.quarters();
    write_month(first, sums, target)?;
    write_month(first + 1, sums, target)?;
    write_month(first + 2, sums, target)?;
    write_line(&quarter_bytes(quarter), total_of(sums), target)
}

/// The amounts of the sums together.
fn total_of(sums: &[DaySum]) -> Cents
    requires { sum_by cents_of sums.now < AMOUNTS_END }
    ensures { result.0 ≡ sum_by cents_of sums.now }
{
    Cents(sums.iter().map(|sum| sum.cents.0).sum())
}

/// Writes the first line.
fn write_head<W: Target>(account: &str, quarter: Quarter, target: &mut W) -> Result<(), WriteFault>
    ensures { Writes result (W.taken target.old) (W.taken target.new)
        (W.failed target.new) (b_head account.now quarter) }
{
    let quarter = quarter_bytes(quarter);
    write_pieces(
        target,
        &[b"SCHEDULE B ", account.as_bytes(), b" ", &quarter, b"\n"],
    )
}

/// Writes the lines of a month, which goes by its number of months after January 1900.
fn write_month<W: Target>(month: u32, sums: &[DaySum], target: &mut W) -> Result<(), WriteFault>
    requires month { month < MONTHS }
    requires amounts { sum_by cents_of sums.now < AMOUNTS_END }
    ensures { Writes result (W.taken target.old) (W.taken target.new)
        (W.failed target.new) (month_lines sums.now month) }
{
    let mut total = 0;
    for sum in sums {
        if sum.day.month_number() == month {
            write_day(sum, target)?;
            total += sum.cents.0;
        }
    }
    write_line(&month_bytes(month), Cents(total), target)
}

/// Writes the line of a day.
#[tactic(auto, unfolding(crate::specs::SchedulesB::day_line))]
fn write_day<W: Target>(sum: &DaySum, target: &mut W) -> Result<(), WriteFault>
    ensures { Writes result (W.taken target.old) (W.taken target.new)
        (W.failed target.new) (day_line sum.now) }
{
    write_line(&day_bytes(sum.day), sum.cents, target)
}

/// Writes a label and an amount.
#[tactic(auto, unfolding(crate::specs::SchedulesB::b_line))]
fn write_line<W: Target>(label: &[u8], amount: Cents, target: &mut W) -> Result<(), WriteFault>
    requires short { length label.now ≤ 12 }
    ensures { Writes result (W.taken target.old) (W.taken target.new)
        (W.failed target.new) (b_line label.now amount.0) }
{
    let mut dollars = Buffer::new();
    let amount = amount_column(amount, &mut dollars);
    write_pieces(
        target,
        &[
            &label_column(label),
            amount.spaces,
            amount.dollars,
            &amount.cents,
            b"\n",
        ],
    )
}

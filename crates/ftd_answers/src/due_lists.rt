//! The text of a due list.

ghost use Rattle.std.specs.Prelude.{◌<◌};
ghost use Rattle.std.specs.List.{sum_by};
ghost use Rattle.ftd_ports.specs.Writing.{Writes};
ghost use Rattle.ftd_rules.specs.Verdicts.{amount_of};
ghost use Rattle.ftd_answers.specs.DueLists.{due_head, due_line, total_line, due_text};

use crate::values::{amount_column, day_bytes, quarter_bytes, rule_column, verdict_name};
use ftd_days::{Cents, Day, Quarter};
use ftd_ports::{Target, WriteFault, write_pieces};
use ftd_rules::{AMOUNTS_END, DueRow, Obligation};
use itoa::Buffer;

/// Writes the due list of an account's quarter as of a day: a first line, a line for each row, and
/// a last line with the total of the amounts. The amounts are together below 6,000,000,000,000,000
/// cents. It takes no memory but what the target takes. Where the target fails, a prefix of the
/// text was written, and it fails nowhere else.
pub fn due_list<W: Target>(
    account: &str,
    quarter: Quarter,
    as_of: Day,
    rows: &[DueRow],
    target: &mut W,
) -> Result<(), WriteFault>
    requires amounts { sum_by amount_of rows.now < AMOUNTS_END }
    ensures { Writes result (W.taken target.old) (W.taken target.new)
        (W.failed target.new) (due_text account.now quarter as_of rows.now) }
{
    write_head(account, quarter, as_of, target)?;
    let mut total = 0;
    for row in rows {
        write_row(row, target)?;
        total += row.obligation.cents.0;
    }
    write_total(Cents(total), target)
}

/// Writes the first line.
pub fn write_head<W: Target>(
    account: &str,
    quarter: Quarter,
    as_of: Day,
    target: &mut W,
) -> Result<(), WriteFault>
    ensures { Writes result (W.taken target.old) (W.taken target.new)
        (W.failed target.new) (due_head account.now quarter as_of) }
{
    let quarter = quarter_bytes(quarter);
    let as_of = day_bytes(as_of);
    write_pieces(
        target,
        &[
            b"DUE LIST ",
            account.as_bytes(),
            b" ",
            &quarter,
            b" AS OF ",
            &as_of,
            b"\n",
        ],
    )
}

/// Writes the line of a row.
pub fn write_row<W: Target>(row: &DueRow, target: &mut W) -> Result<(), WriteFault>
    ensures { Writes result (W.taken target.old) (W.taken target.new)
        (W.failed target.new) (due_line row.now) }
{
    let Obligation {
        first,
        last,
        rule,
        cents,
        due,
    } = row.obligation;
    let (mut dollars, mut paid_dollars) = (Buffer::new(), Buffer::new());
    let amount = amount_column(cents, &mut dollars);
    let paid = amount_column(row.paid, &mut paid_dollars);
    let pieces: [&[u8]; 20] = [
        &day_bytes(first),
        b" ",
        &day_bytes(last),
        b" ",
        rule_column(rule),
        b" ",
        amount.spaces,
        amount.dollars,
        &amount.cents,
        b" ",
        &day_bytes(due),
        b" ",
        &day_bytes(row.makeup),
        b" ",
        paid.spaces,
        paid.dollars,
        &paid.cents,
        b" ",
        verdict_name(row.verdict),
        b"\n",
    ];
    write_pieces(target, &pieces)
}

/// Writes the last line.
pub fn write_total<W: Target>(total: Cents, target: &mut W) -> Result<(), WriteFault>
    ensures { Writes result (W.taken target.old) (W.taken target.new)
        (W.failed target.new) (total_line total.0) }
{
    let mut dollars = Buffer::new();
    let amount = amount_column(total, &mut dollars);
    let label = b"TOTAL                            ";
    write_pieces(
        target,
        &[label, amount.spaces, amount.dollars, &amount.cents, b"\n"],
    )
}

//! The text of what is due over all accounts.

ghost use Rattle.std.specs.Prelude.{◌≡◌, ◌++◌};
ghost use Rattle.ftd_ports.specs.Writing.{Writes};
ghost use Rattle.ftd_answers.specs.Columns.{left_in};
ghost use Rattle.ftd_answers.specs.Agendas.{agenda_head, owed_head, form_number, agenda_line};
ghost use Rattle.ftd_answers.specs.Agendas.{owner_text, deposit_text, left_line};
ghost use Rattle.ftd_answers.specs.Agendas.{lines_text};
ghost use Rattle.ftd_answers.specs.Agendas.{agenda_text, owed_text};

use crate::totals::{AmountLeft, left_of, total};
use crate::values::{amount_column, day_bytes, rule_column, total_column, verdict_name};
use ftd_days::{Cents, Day};
use ftd_machine::AgendaRow;
use ftd_ports::{Target, WriteFault, write_pieces};
use ftd_rules::{DueRow, Form};
use itoa::Buffer;

/// Spaces: some of them follow an account in its column, and twice as many stand before the total.
const SPACES: &[u8; 50] = b"                                                  ";

/// Writes what is due between two days over all accounts, as of a day: a first line, a line for
/// each row, and a last line with the sum of what is left to pay of each. It takes no memory but
/// what the target takes. Where the target fails, a prefix of the text was written, and it fails
/// nowhere else.
#[tactic(auto, using(ftd_ports::proofs::WritingFacts::written_in_parts), unfolding(crate::specs::Agendas::agenda_text))]
pub fn write_agenda<W: Target>(
    from: Day,
    to: Day,
    as_of: Day,
    rows: &[AgendaRow],
    target: &mut W,
) -> Result<(), WriteFault>
    ensures { Writes result (W.taken target.old) (W.taken target.new)
        (W.failed target.new) (agenda_text from to as_of rows.now) }
{
    write_agenda_head(from, to, as_of, target)?;
    write_lines(rows, target)
}

/// Writes what is due until a day over all accounts and not paid as of a day, as `write_agenda`
/// does.
#[tactic(auto, using(ftd_ports::proofs::WritingFacts::written_in_parts), unfolding(crate::specs::Agendas::owed_text))]
pub fn write_owed<W: Target>(
    until: Day,
    as_of: Day,
    rows: &[AgendaRow],
    target: &mut W,
) -> Result<(), WriteFault>
    ensures { Writes result (W.taken target.old) (W.taken target.new)
        (W.failed target.new) (owed_text until as_of rows.now) }
{
    write_owed_head(until, as_of, target)?;
    write_lines(rows, target)
}

/// Writes the first line of what is due between two days.
fn write_agenda_head<W: Target>(
    from: Day,
    to: Day,
    as_of: Day,
    target: &mut W,
) -> Result<(), WriteFault>
    ensures { Writes result (W.taken target.old) (W.taken target.new)
        (W.failed target.new) (agenda_head from to as_of) }
{
    let from = day_bytes(from);
    let to = day_bytes(to);
    let as_of = day_bytes(as_of);
    write_pieces(
        target,
        &[b"AGENDA ", &from, b" ", &to, b" AS OF ", &as_of, b"\n"],
    )
}

/// Writes the first line of what is due until a day and not paid.
fn write_owed_head<W: Target>(until: Day, as_of: Day, target: &mut W) -> Result<(), WriteFault>
    ensures { Writes result (W.taken target.old) (W.taken target.new)
        (W.failed target.new) (owed_head until as_of) }
{
    let until = day_bytes(until);
    let as_of = day_bytes(as_of);
    write_pieces(target, &[b"OWED UNTIL ", &until, b" AS OF ", &as_of, b"\n"])
}

/// Writes the lines of the rows, and the last line.
fn write_lines<W: Target>(rows: &[AgendaRow], target: &mut W) -> Result<(), WriteFault>
    ensures { Writes result (W.taken target.old) (W.taken target.new)
        (W.failed target.new) (lines_text rows.now) }
{
    for row in rows {
        write_row(row, target)?;
    }
    write_total(total(&AmountLeft, rows), target)
}

/// The spaces that follow an account in its column.
pub fn spaces_after(account: &str) -> &[u8]
    ensures { account.now ++ result.now ≡ left_in 20 account.now }
{
    &SPACES[..20usize.saturating_sub(account.len())]
}

/// The number of a form.
pub fn form_bytes(form: Form) -> [u8; 3]
    ensures { result ≡ form_number form }
{
    match form {
        Form::F941 => *b"941",
        Form::F943 => *b"943",
    }
}

/// Writes the line of a row.
#[tactic(auto, using(ftd_ports::proofs::WritingFacts::written_in_parts), unfolding(crate::specs::Agendas::agenda_line))]
fn write_row<W: Target>(row: &AgendaRow, target: &mut W) -> Result<(), WriteFault>
    ensures { Writes result (W.taken target.old) (W.taken target.new)
        (W.failed target.new) (agenda_line row.now) }
{
    write_owner(row, target)?;
    write_deposit(row, target)
}

/// Writes the columns that say when it is due and who owes it, with a space behind.
fn write_owner<W: Target>(row: &AgendaRow, target: &mut W) -> Result<(), WriteFault>
    ensures { Writes result (W.taken target.old) (W.taken target.new)
        (W.failed target.new) (owner_text row.now) }
{
    let due = day_bytes(row.row.obligation.due);
    let account = row.account.as_str();
    let spaces = spaces_after(account);
    let form = form_bytes(row.form);
    write_pieces(
        target,
        &[&due, b" ", account.as_bytes(), spaces, b" ", &form, b" "],
    )
}

/// Writes the columns that say what is to be deposited and how it stands, to the end of the line.
fn write_deposit<W: Target>(row: &AgendaRow, target: &mut W) -> Result<(), WriteFault>
    ensures { Writes result (W.taken target.old) (W.taken target.new)
        (W.failed target.new) (deposit_text row.now) }
{
    let obligation = row.row.obligation;
    let (mut dollars, mut paid_dollars) = (Buffer::new(), Buffer::new());
    let mut left_dollars = Buffer::new();
    let amount = amount_column(obligation.cents, &mut dollars);
    let paid = amount_column(row.row.paid, &mut paid_dollars);
    let left = amount_column(left_of(&row.row), &mut left_dollars);
    let pieces: [&[u8]; 22] = [
        &day_bytes(obligation.first),
        b" ",
        &day_bytes(obligation.last),
        b" ",
        rule_column(obligation.rule),
        b" ",
        amount.spaces,
        amount.dollars,
        &amount.cents,
        b" ",
        paid.spaces,
        paid.dollars,
        &paid.cents,
        b" ",
        left.spaces,
        left.dollars,
        &left.cents,
        b" ",
        &day_bytes(row.pay_by),
        b" ",
        verdict_name(row.row.verdict),
        b"\n",
    ];
    write_pieces(target, &pieces)
}

/// Writes the last line, of a sum in cents.
fn write_total<W: Target>(total: u128, target: &mut W) -> Result<(), WriteFault>
    ensures { Writes result (W.taken target.old) (W.taken target.new)
        (W.failed target.new) (left_line total) }
{
    let mut dollars = Buffer::new();
    let total = total_column(total, &mut dollars);
    write_pieces(
        target,
        &[
            b"TOTAL",
            SPACES,
            SPACES,
            total.spaces,
            total.dollars,
            &total.cents,
            b"\n",
        ],
    )
}

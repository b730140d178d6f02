//! Money that counts for nothing, in lines of columns, as CSV and as JSON.

ghost use Rattle.std.specs.Prelude.{◌≡◌};
ghost use Rattle.ftd_ports.specs.Writing.{Writes};
ghost use Rattle.ftd_answers.specs.Unapplied.{money_text, over_of, unapplied_as, unapplied_fields};
ghost use Rattle.ftd_answers.specs.Unapplied.{unapplied_head, unapplied_line, unapplied_text};
ghost use Rattle.ftd_answers.specs.Unapplied.{which_text};

use crate::forms::FieldName::Both;
use crate::forms::{FieldName, Row, RowForm, write_csv, write_fields, write_json};
use crate::lines::write_name;
use crate::values::amount_column;
use crate::{ListFormat, RowFormat, Value, day_bytes, write_rows};
use ftd_days::{Cents, Day};
use ftd_machine::{UnappliedList, UnappliedRow};
use ftd_ports::{Target, WriteFault, write_all, write_pieces};
use itoa::Buffer;

/// The rows in lines of columns.
#[derive(Drop)]
struct Lines;

/// What counts for nothing of a row: the payment, or what is paid beyond the amount of the
/// obligation.
fn over_of(row: &UnappliedRow) -> Cents
    ensures { result.0 ≡ over_of row.now }
{
    Cents(row.paid.0.saturating_sub(row.amount.0))
}

/// Writes the days and the amounts of a row, with a space behind.
fn write_money<W: Target>(row: &UnappliedRow, target: &mut W) -> Result<(), WriteFault>
    ensures { Writes result (W.taken target.old) (W.taken target.new)
        (W.failed target.new) (money_text row.now) }
{
    let (mut amount_dollars, mut paid_dollars) = (Buffer::new(), Buffer::new());
    let mut over_dollars = Buffer::new();
    let amount = amount_column(row.amount, &mut amount_dollars);
    let paid = amount_column(row.paid, &mut paid_dollars);
    let over = amount_column(over_of(row), &mut over_dollars);
    let pieces: [&[u8]; 16] = [
        &day_bytes(row.first),
        b" ",
        &day_bytes(row.last),
        b" ",
        amount.spaces,
        amount.dollars,
        &amount.cents,
        b" ",
        paid.spaces,
        paid.dollars,
        &paid.cents,
        b" ",
        over.spaces,
        over.dollars,
        &over.cents,
        b" ",
    ];
    write_pieces(target, &pieces)
}

/// Writes whether a row is an obligation or a payment, and which, to the end of the line.
fn write_which<W: Target>(payment: Option<u32>, target: &mut W) -> Result<(), WriteFault>
    ensures { Writes result (W.taken target.old) (W.taken target.new)
        (W.failed target.new) (which_text payment) }
{
    match payment {
        None => write_all(target, b"obligation\n"),
        Some(number) => {
            let mut digits = Buffer::new();
            let number = digits.format(number).as_bytes();
            write_pieces(target, &[b"payment ", number, b"\n"])
        }
    }
}

impl RowFormat<UnappliedRow> for Lines {
    ghost row_text = { λ lines row. unapplied_line row };

    #[tactic(auto, using(ftd_ports::proofs::WritingFacts::written_in_parts), unfolding(crate::specs::Unapplied::unapplied_line))]
    fn write_row<W: Target>(&self, row: &UnappliedRow, target: &mut W) -> Result<(), WriteFault> {
        write_name(row.account.as_str(), target)?;
        write_money(row, target)?;
        write_which(row.payment, target)
    }
}

static UNAPPLIED: [FieldName; 7] = [
    Both("account"),
    Both("payment"),
    Both("first"),
    Both("last"),
    Both("amount"),
    Both("paid"),
    Both("over"),
];

impl Row for UnappliedRow {
    ghost fields = { λ account. unapplied_fields };

    fn names() -> &'static [FieldName] {
        &UNAPPLIED
    }

    fn write<W: Target>(
        &self,
        account: &str,
        form: RowForm,
        target: &mut W,
    ) -> Result<(), WriteFault> {
        let fields = [
            (UNAPPLIED[0], Value::Text(self.account.as_str())),
            (UNAPPLIED[1], Value::NumberOrNone(self.payment)),
            (UNAPPLIED[2], Value::Day(self.first)),
            (UNAPPLIED[3], Value::Day(self.last)),
            (UNAPPLIED[4], Value::Amount(self.amount)),
            (UNAPPLIED[5], Value::Amount(self.paid)),
            (UNAPPLIED[6], Value::Amount(over_of(self))),
        ];
        write_fields(form, false, &fields, target)
    }
}

/// Writes the first line.
fn write_head<W: Target>(until: Day, target: &mut W) -> Result<(), WriteFault>
    ensures { Writes result (W.taken target.old) (W.taken target.new)
        (W.failed target.new) (unapplied_head until) }
{
    let until = day_bytes(until);
    write_pieces(target, &[b"UNAPPLIED UNTIL ", &until, b"\n"])
}

/// Writes the first line, and a line for each row.
#[tactic(auto, using(ftd_ports::proofs::WritingFacts::written_in_parts), unfolding(crate::specs::Unapplied::unapplied_text))]
fn write_text<W: Target>(
    until: Day,
    rows: &[UnappliedRow],
    target: &mut W,
) -> Result<(), WriteFault>
    ensures { Writes result (W.taken target.old) (W.taken target.new)
        (W.failed target.new) (unapplied_text until rows.now) }
{
    write_head(until, target)?;
    write_rows(&Lines, rows, target)
}

/// Writes money that counts for nothing, of the days up to one, in a format. It takes no memory but
/// what the target takes. Where the target fails, a prefix of the text was written, and it fails
/// nowhere else.
#[tactic(auto, unfolding(crate::specs::Unapplied::unapplied_csv, crate::specs::Unapplied::unapplied_json))]
pub fn write_unapplied_as<W: Target>(
    format: ListFormat,
    unapplied: &UnappliedList,
    target: &mut W,
) -> Result<(), WriteFault>
    ensures { Writes result (W.taken target.old) (W.taken target.new)
        (W.failed target.new) (unapplied_as format unapplied.now) }
{
    let rows = unapplied.rows.as_slice();
    match format {
        ListFormat::Text => write_text(unapplied.until, rows, target),
        ListFormat::Csv => write_csv("", rows, target),
        ListFormat::Json => write_json("", rows, &[], target),
    }
}

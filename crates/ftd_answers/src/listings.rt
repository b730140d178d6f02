//! Lists of what is kept.

ghost use Rattle.ftd_ports.specs.Writing.{Writes};
ghost use Rattle.ftd_answers.specs.KeptForms.{kept_as};
ghost use Rattle.ftd_answers.specs.Listings.{head_text, kept_text, of_account, of_quarter};
ghost use Rattle.ftd_answers.specs.Listings.{rows_text};

use crate::kept_rows::{write_kept_csv, write_kept_json};
use crate::lines::Columns;
use crate::{ListFormat, quarter_bytes, write_rows};
use ftd_days::Quarter;
use ftd_machine::KeptRows;
use ftd_ports::{Target, WriteFault, write_all, write_pieces};
use itoa::Buffer;

/// Writes what is kept, in a format: as CSV without what was voided, so that another desk takes it
/// over. It takes no memory but what the target takes. Where the target fails, a prefix of the text
/// was written, and it fails nowhere else.
pub fn write_kept_as<W: Target>(
    format: ListFormat,
    rows: &KeptRows,
    target: &mut W,
) -> Result<(), WriteFault>
    ensures { Writes result (W.taken target.old) (W.taken target.new)
        (W.failed target.new) (kept_as format rows.now) }
{
    match format {
        ListFormat::Text => write_kept(rows, target),
        ListFormat::Csv => write_kept_csv(rows, target),
        ListFormat::Json => write_kept_json(rows, target),
    }
}

/// Writes what is kept as text: a first line that says what it is, and a line for each row.
#[tactic(auto, using(ftd_ports::proofs::WritingFacts::written_in_parts), unfolding(crate::specs::Listings::kept_text))]
fn write_kept<W: Target>(rows: &KeptRows, target: &mut W) -> Result<(), WriteFault>
    ensures { Writes result (W.taken target.old) (W.taken target.new)
        (W.failed target.new) (kept_text rows.now) }
{
    write_head(rows, target)?;
    write_lines(rows, target)
}

/// Writes the first line.
fn write_head<W: Target>(rows: &KeptRows, target: &mut W) -> Result<(), WriteFault>
    ensures { Writes result (W.taken target.old) (W.taken target.new)
        (W.failed target.new) (head_text rows.now) }
{
    match rows {
        KeptRows::Accounts { .. } => write_all(target, b"ACCOUNTS\n"),
        KeptRows::Years { account, .. } => write_of_account(b"YEARS ", account.as_str(), target),
        KeptRows::Reported { account, .. } => {
            write_of_account(b"REPORTED ", account.as_str(), target)
        }
        KeptRows::Holidays { year, .. } => {
            let mut digits = Buffer::new();
            let year = digits.format(*year).as_bytes();
            write_pieces(target, &[b"HOLIDAYS ", year, b"\n"])
        }
        KeptRows::Runs {
            account,
            quarter,
            ..
        } => write_of_quarter(b"RUNS ", account.as_str(), *quarter, target),
        KeptRows::Payments {
            account,
            quarter,
            ..
        } => write_of_quarter(b"PAYMENTS ", account.as_str(), *quarter, target),
    }
}

/// Writes what is listed of an account.
fn write_of_account<W: Target>(what: &[u8], account: &str, target: &mut W) -> Result<(), WriteFault>
    ensures { Writes result (W.taken target.old) (W.taken target.new)
        (W.failed target.new) (of_account what.now account.now) }
{
    let pieces: [&[u8]; 3] = [what, account.as_bytes(), b"\n"];
    write_pieces(target, &pieces)
}

/// Writes what is listed of an account's quarter.
fn write_of_quarter<W: Target>(
    what: &[u8],
    account: &str,
    quarter: Quarter,
    target: &mut W,
) -> Result<(), WriteFault>
    ensures { Writes result (W.taken target.old) (W.taken target.new)
        (W.failed target.new) (of_quarter what.now account.now quarter) }
{
    let quarter = quarter_bytes(quarter);
    write_pieces(target, &[what, account.as_bytes(), b" ", &quarter, b"\n"])
}

/// Writes the lines of the rows.
#[tactic(auto, unfolding(crate::specs::Listings::rows_text))]
fn write_lines<W: Target>(rows: &KeptRows, target: &mut W) -> Result<(), WriteFault>
    ensures { Writes result (W.taken target.old) (W.taken target.new)
        (W.failed target.new) (rows_text rows.now) }
{
    match rows {
        KeptRows::Accounts { rows, .. } => write_rows(&Columns, rows.as_slice(), target),
        KeptRows::Years { rows, .. } => write_rows(&Columns, rows.as_slice(), target),
        KeptRows::Reported { rows, .. } => write_rows(&Columns, rows.as_slice(), target),
        KeptRows::Holidays { rows, .. } => write_rows(&Columns, rows.as_slice(), target),
        KeptRows::Runs { rows, .. } => write_rows(&Columns, rows.as_slice(), target),
        KeptRows::Payments { rows, .. } => write_rows(&Columns, rows.as_slice(), target),
    }
}

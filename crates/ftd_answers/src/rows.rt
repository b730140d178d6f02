//! Rows written one after the other.

ghost use Rattle.std.specs.Prelude.{◌∷◌, ◌++◌, ℕ, List, map};
ghost use Rattle.std.specs.List.{flat_map, join_with_byte};
ghost use Rattle.ftd_ports.specs.Writing.{Writes};
ghost use Rattle.ftd_answers.specs.Fields.{comma};

use ftd_ports::{Target, WriteFault, write_all};

/// A way to tell a row.
pub trait RowFormat<T> {
    /// The text of a row.
    ghost row_text: { Self → T → List ℕ };

    /// Writes the text of a row. Where the target fails, a prefix of it was written, and it fails
    /// nowhere else.
    fn write_row<W: Target>(&self, row: &T, target: &mut W) -> Result<(), WriteFault>
        ensures { Writes result (W.taken target.old) (W.taken target.new)
            (W.failed target.new) (row_text self.now row.now) };
}

/// Writes the texts of the rows, one after the other. Where the target fails, a prefix of them was
/// written, and it fails nowhere else.
pub fn write_rows<T, F: RowFormat<T>, W: Target>(
    format: &F,
    rows: &[T],
    target: &mut W,
) -> Result<(), WriteFault>
    ensures { Writes result (W.taken target.old) (W.taken target.new)
        (W.failed target.new) (flat_map (F.row_text format.now) rows.now) }
{
    for row in rows {
        format.write_row(row, target)?;
    }
    Ok(())
}

/// Writes a table: a first line, and the texts of the rows. Where the target fails, a prefix of it
/// was written, and it fails nowhere else.
#[tactic(auto, using(ftd_ports::proofs::WritingFacts::written_in_parts))]
pub fn write_table<T, F: RowFormat<T>, W: Target>(
    head: &[u8],
    format: &F,
    rows: &[T],
    target: &mut W,
) -> Result<(), WriteFault>
    ensures { Writes result (W.taken target.old) (W.taken target.new)
        (W.failed target.new) (head.now ++ flat_map (F.row_text format.now) rows.now) }
{
    write_all(target, head)?;
    write_rows(format, rows, target)
}

/// Writes the texts of the rows with one comma between. Where the target fails, a prefix of that
/// was written, and it fails nowhere else.
pub fn write_joined<T, F: RowFormat<T>, W: Target>(
    format: &F,
    rows: &[T],
    target: &mut W,
) -> Result<(), WriteFault>
    ensures { Writes result (W.taken target.old) (W.taken target.new)
        (W.failed target.new) (join_with_byte comma (map (F.row_text format.now) rows.now)) }
{
    let Some((first, others)) = rows.split_first() else {
        return Ok(());
    };
    format.write_row(first, target)?;
    write_others(format, others, target)
}

/// Writes the texts of the rows with one comma between, and these bytes before and behind them.
/// Where the target fails, a prefix of that was written, and it fails nowhere else.
#[tactic(auto, using(ftd_ports::proofs::WritingFacts::written_in_parts))]
pub fn write_enclosed<T, F: RowFormat<T>, W: Target>(
    before: &[u8],
    format: &F,
    rows: &[T],
    behind: &[u8],
    target: &mut W,
) -> Result<(), WriteFault>
    ensures { Writes result (W.taken target.old) (W.taken target.new) (W.failed target.new)
        (before.now ++ (join_with_byte comma (map (F.row_text format.now) rows.now)
        ++ behind.now)) }
{
    write_all(target, before)?;
    write_joined(format, rows, target)?;
    write_all(target, behind)
}

/// Writes the texts of the rows with a comma before each. Where the target fails, a prefix of that
/// was written, and it fails nowhere else.
pub fn write_others<T, F: RowFormat<T>, W: Target>(
    format: &F,
    rows: &[T],
    target: &mut W,
) -> Result<(), WriteFault>
    ensures { Writes result (W.taken target.old) (W.taken target.new)
        (W.failed target.new) (flat_map (λ row. comma ∷ F.row_text format.now row) rows.now) }
{
    for row in rows {
        write_next(format, row, target)?;
    }
    Ok(())
}

/// Writes a comma and the text of a row.
#[tactic(auto, using(ftd_ports::proofs::WritingFacts::written_in_parts))]
fn write_next<T, F: RowFormat<T>, W: Target>(
    format: &F,
    row: &T,
    target: &mut W,
) -> Result<(), WriteFault>
    ensures { Writes result (W.taken target.old) (W.taken target.new)
        (W.failed target.new) (comma ∷ F.row_text format.now row.now) }
{
    write_all(target, b",")?;
    format.write_row(row, target)
}

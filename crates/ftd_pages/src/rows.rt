//! The rows of a list, each of which says its columns once, for the header and for its cells.

ghost use Rattle.std.specs.Prelude.{ℕ, List};
ghost use Rattle.std.specs.List.{flat_map};
ghost use Rattle.ftd_ports.specs.Writing.{Writes};
ghost use Rattle.ftd_answers.specs.Fields.{shown_as};
ghost use Rattle.ftd_pages.specs.Links.{address_of};
ghost use Rattle.ftd_pages.specs.Private.Cells.{cell_in, cell_of, head_of};
ghost use Rattle.ftd_pages.specs.Private.Cells.{heading_of, linked_cell_of, linked_heading_of};
ghost use Rattle.ftd_pages.specs.Rows.{Shape, body_for, body_row, cell_start, header_row};
ghost use Rattle.ftd_pages.specs.Rows.{part_text, row_as, row_start};
ghost use Rattle.ftd_pages.specs.declared.rows.Class.TheVariants.{Stands};

use crate::columns::Column;
use crate::frames::Ways;
use crate::links::{Way, write_linked};
use ftd_answers::{RowFormat, Value, write_plain, write_rows};
use ftd_ports::{Target, WriteFault, write_all, write_pieces};
use ftd_rules::Verdict;

/// Which part of a table a row is written as.
#[derive(Clone, Copy, Debug)]
pub enum Part {
    /// The header, with the heads of the row's columns.
    Header,
    /// A row of the body of a page that has these ways, with the row's cells.
    Body(Ways),
}

/// The class of a row of the body, by which the style tells it from others.
#[derive(Clone, Copy, Debug)]
pub enum Class {
    /// It has none.
    Plain,
    /// That of a verdict: how the row's obligation stands.
    Stands(Verdict),
    /// That of what was voided.
    Void,
}

/// A row of a list of an account, or of all accounts.
pub trait PageRow {
    /// What a page shows of the rows of the account.
    ghost shape: { List ℕ → Shape Self };

    /// Writes a row of the account as a part of a table. Where the target fails, a prefix of its
    /// text was written, and it fails nowhere else.
    fn write_part<W: Target>(
        &self,
        account: &str,
        part: Part,
        target: &mut W,
    ) -> Result<(), WriteFault>
        ensures { Writes result (W.taken target.old) (W.taken target.new) (W.failed target.new)
            (row_as part (shape account.now) self.now) };
}

/// The heads of columns.
#[derive(Drop)]
struct Heads;

/// The cells of a row.
#[derive(Drop)]
struct Cells;

/// The cells of a row that lead to other pages, on a page that has ways.
#[derive(Drop)]
struct LinkedCells {
    /// The ways of the page.
    ways: Ways,
}

/// The rows of an account, as rows of the body.
#[derive(Drop)]
pub struct BodyRows<'a> {
    /// The account; empty for rows of all accounts.
    pub account: &'a str,
    /// The ways of the page.
    pub ways: Ways,
}

impl<'b> RowFormat<(Column, Value<'b>)> for Heads {
    ghost row_text = { λ heads field. heading_of field };

    fn write_row<W: Target>(
        &self,
        row: &(Column, Value<'b>),
        target: &mut W,
    ) -> Result<(), WriteFault> {
        let (column, _) = row;
        write_heading(column, target)
    }
}

impl<'a, 'b> RowFormat<(Column, Value<'b>, Way<'a>)> for Heads {
    ghost row_text = { λ heads field. linked_heading_of field };

    fn write_row<W: Target>(
        &self,
        row: &(Column, Value<'b>, Way<'a>),
        target: &mut W,
    ) -> Result<(), WriteFault> {
        let (column, _, _) = row;
        write_heading(column, target)
    }
}

impl<'b> RowFormat<(Column, Value<'b>)> for Cells {
    ghost row_text = { λ cells field. cell_of field };

    fn write_row<W: Target>(
        &self,
        row: &(Column, Value<'b>),
        target: &mut W,
    ) -> Result<(), WriteFault> {
        let (column, value) = row;
        write_cell(column, value, &Way::Nowhere, target)
    }
}

impl<'a, 'b> RowFormat<(Column, Value<'b>, Way<'a>)> for LinkedCells {
    ghost row_text = { λ cells field. linked_cell_of cells.ways field };

    fn write_row<W: Target>(
        &self,
        row: &(Column, Value<'b>, Way<'a>),
        target: &mut W,
    ) -> Result<(), WriteFault> {
        let (column, value, way) = row;
        match self.ways {
            Ways::Nowhere => write_cell(column, value, &Way::Nowhere, target),
            Ways::From { .. } => write_cell(column, value, way, target),
        }
    }
}

impl<'a, T: PageRow> RowFormat<T> for BodyRows<'a> {
    ghost row_text = { λ told row. body_for told.ways (T.shape told.account.now) row };

    fn write_row<W: Target>(&self, row: &T, target: &mut W) -> Result<(), WriteFault> {
        row.write_part(self.account, Part::Body(self.ways), target)
    }
}

/// Writes the head of a column.
#[tactic(auto, unfolding(crate::specs::Rows::heading))]
fn write_heading<W: Target>(column: &Column, target: &mut W) -> Result<(), WriteFault>
    ensures { Writes result (W.taken target.old) (W.taken target.new)
        (W.failed target.new) (head_of column.now) }
{
    let (name, word) = (column.name.as_bytes(), column.word.as_bytes());
    write_pieces(
        target,
        &[b"<th scope=\"col\" class=\"", name, b"\">", word, b"</th>"],
    )
}

/// Writes a cell up to its value.
#[tactic(auto, unfolding(crate::specs::Rows::cell_start))]
fn write_cell_start<W: Target>(name: &str, target: &mut W) -> Result<(), WriteFault>
    ensures { Writes result (W.taken target.old) (W.taken target.new)
        (W.failed target.new) (cell_start name.now) }
{
    write_pieces(target, &[b"<td class=\"", name.as_bytes(), b"\">"])
}

/// Writes the cell of a column, with a value that may lead to an address.
pub fn write_cell<W: Target>(
    column: &Column,
    value: &Value<'_>,
    way: &Way<'_>,
    target: &mut W,
) -> Result<(), WriteFault>
    ensures { Writes result (W.taken target.old) (W.taken target.new)
        (W.failed target.new) (cell_in column.now (address_of way.now) value.now) }
{
    write_cell_start(column.name, target)?;
    write_linked(way, value, target)?;
    write_all(target, b"</td>")
}

/// Writes the header, with the heads of the columns of these fields.
#[tactic(auto, using(ftd_ports::proofs::WritingFacts::written_in_parts))]
fn write_header<T, H: RowFormat<T>, W: Target>(
    heads: &H,
    fields: &[T],
    target: &mut W,
) -> Result<(), WriteFault>
    ensures { Writes result (W.taken target.old) (W.taken target.new)
        (W.failed target.new) (header_row (flat_map (H.row_text heads.now) fields.now)) }
{
    write_all(target, b"<thead>\n<tr>")?;
    write_rows(heads, fields, target)?;
    write_all(target, b"</tr>\n</thead>\n")
}

/// Writes the start of a row whose class is a verdict.
fn write_verdict_start<W: Target>(verdict: Verdict, target: &mut W) -> Result<(), WriteFault>
    ensures { Writes result (W.taken target.old) (W.taken target.new)
        (W.failed target.new) (row_start (Stands verdict)) }
{
    write_all(target, b"<tr class=\"")?;
    write_plain(&Value::Verdict(verdict), target)?;
    write_all(target, b"\">")
}

/// Writes the start of a row.
fn write_row_start<W: Target>(class: Class, target: &mut W) -> Result<(), WriteFault>
    ensures { Writes result (W.taken target.old) (W.taken target.new)
        (W.failed target.new) (row_start class) }
{
    match class {
        Class::Plain => write_all(target, b"<tr>"),
        Class::Stands(verdict) => write_verdict_start(verdict, target),
        Class::Void => write_all(target, b"<tr class=\"void\">"),
    }
}

/// Writes a row of the body, with the cells of these fields.
#[tactic(auto, using(ftd_ports::proofs::WritingFacts::written_in_parts))]
fn write_body_row<T, C: RowFormat<T>, W: Target>(
    class: Class,
    cells: &C,
    fields: &[T],
    target: &mut W,
) -> Result<(), WriteFault>
    ensures { Writes result (W.taken target.old) (W.taken target.new) (W.failed target.new)
        (body_row class (flat_map (C.row_text cells.now) fields.now)) }
{
    write_row_start(class, target)?;
    write_rows(cells, fields, target)?;
    write_all(target, b"</tr>\n")
}

/// Writes a row that has these fields and this class as a part of a table. Its cells lead nowhere.
/// Where the target fails, a prefix of its text was written, and it fails nowhere else.
pub fn write_fields<W: Target>(
    part: Part,
    class: Class,
    fields: &[(Column, Value<'_>)],
    target: &mut W,
) -> Result<(), WriteFault>
    ensures { Writes result (W.taken target.old) (W.taken target.new) (W.failed target.new)
        (part_text part (flat_map heading_of fields.now) class
        (λ ways. flat_map cell_of fields.now)) }
{
    match part {
        Part::Header => write_header(&Heads, fields, target),
        Part::Body(_) => write_body_row(class, &Cells, fields, target),
    }
}

/// Writes a row that has these fields and this class as a part of a table. On a page that has ways,
/// its cells lead where its fields say. Where the target fails, a prefix of its text was written,
/// and it fails nowhere else.
pub fn write_linked_fields<W: Target>(
    part: Part,
    class: Class,
    fields: &[(Column, Value<'_>, Way<'_>)],
    target: &mut W,
) -> Result<(), WriteFault>
    ensures { Writes result (W.taken target.old) (W.taken target.new) (W.failed target.new)
        (part_text part (flat_map linked_heading_of fields.now) class
        (λ ways. flat_map (linked_cell_of ways) fields.now)) }
{
    match part {
        Part::Header => write_header(&Heads, fields, target),
        Part::Body(ways) => write_body_row(class, &LinkedCells { ways }, fields, target),
    }
}

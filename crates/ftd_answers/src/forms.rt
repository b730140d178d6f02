//! The rows of a list, each of which says its fields once, as CSV and as JSON.

ghost use Rattle.std.specs.Prelude.{◌≡◌, ℕ, Bool, false, List, map};
ghost use Rattle.ftd_ports.specs.Writing.{Writes};
ghost use Rattle.ftd_answers.specs.Fields.{Field, cells, columns, csv_of, json_of, member_of};
ghost use Rattle.ftd_answers.specs.Fields.{members_of, record_of, told_by};
ghost use Rattle.ftd_answers.specs.Private.Forms.{cell_count, cell_of, cells_of, column_count};
ghost use Rattle.ftd_answers.specs.Private.Forms.{column_name, column_names, is_column};
ghost use Rattle.ftd_answers.specs.Private.Forms.{member_name, named_member, row_as};

use crate::fields::{Cells, Members, write_array, write_line, write_member, write_plain};
use crate::rows::{write_enclosed, write_others};
use crate::{RowFormat, Value, write_rows};
use ftd_ports::{Target, WriteFault, write_all};

/// How a field of a row is named.
#[derive(Clone, Copy, Debug)]
pub enum FieldName {
    /// With one name in CSV and JSON.
    Both(&'static str),
    /// With one name in CSV, and with another in JSON.
    Each(&'static str, &'static str),
    /// In JSON; CSV has no such column.
    Json(&'static str),
}

impl FieldName {
    /// Whether CSV has such a column.
    fn is_column(&self) -> bool
        ensures { result ≡ is_column self.now }
    {
        match self {
            FieldName::Both(_) | FieldName::Each(..) => true,
            FieldName::Json(_) => false,
        }
    }

    /// The name of the column; empty where CSV has none.
    fn column(&self) -> &'static str
        ensures { result.now ≡ column_name self.now }
    {
        match self {
            FieldName::Both(column) | FieldName::Each(column, _) => column,
            FieldName::Json(_) => "",
        }
    }

    /// The name of the member.
    fn member(&self) -> &'static str
        ensures { result.now ≡ member_name self.now }
    {
        match self {
            FieldName::Both(member) | FieldName::Each(_, member) | FieldName::Json(member) =>
                member,
        }
    }
}

/// What a row is written as.
#[derive(Clone, Copy, Debug)]
pub enum RowForm {
    /// A record of CSV.
    Record,
    /// An object of JSON.
    Object,
}

/// A row of a list of an account, or of all accounts.
pub trait Row {
    /// The fields of the rows of the account.
    ghost fields: { List ℕ → List (Field Self) };

    /// Whether a row is void, and has no record in CSV.
    ghost is_void: { Self → Bool } = { λ row. false };

    /// The names of the fields. Those of which CSV has a column stand before the others.
    fn names() -> &'static [FieldName]
        ensures { (account : List ℕ) → column_names result.now ≡ columns (fields account) };

    /// Writes a row of the account. Where the target fails, a prefix of its text was written, and
    /// it fails nowhere else.
    fn write<W: Target>(
        &self,
        account: &str,
        form: RowForm,
        target: &mut W,
    ) -> Result<(), WriteFault>
        ensures { Writes result (W.taken target.old) (W.taken target.new) (W.failed target.new)
            (row_as form (is_void self.now) (cells (fields account.now) self.now)
            (members_of (told_by (fields account.now) self.now))) };
}

/// How the rows of an account are written.
#[derive(Drop)]
pub struct AccountRows<'a> {
    pub account: &'a str,
    pub form: RowForm,
}

impl<'a, T: Row> RowFormat<T> for AccountRows<'a> {
    ghost row_text = { λ told row. row_as told.form (T.is_void row)
        (cells (T.fields told.account.now) row)
        (members_of (told_by (T.fields told.account.now) row)) };

    fn write_row<W: Target>(&self, row: &T, target: &mut W) -> Result<(), WriteFault> {
        row.write(self.account, self.form, target)
    }
}

impl RowFormat<FieldName> for Cells {
    ghost row_text = { λ cells name. column_name name };

    fn write_row<W: Target>(&self, row: &FieldName, target: &mut W) -> Result<(), WriteFault> {
        write_all(target, row.column().as_bytes())
    }
}

impl<'b> RowFormat<(FieldName, Value<'b>)> for Cells {
    ghost row_text = { λ cells field. cell_of field };

    fn write_row<W: Target>(
        &self,
        row: &(FieldName, Value<'b>),
        target: &mut W,
    ) -> Result<(), WriteFault> {
        let (_, value) = row;
        write_plain(value, target)
    }
}

impl<'b> RowFormat<(FieldName, Value<'b>)> for Members {
    ghost row_text = { λ members field. named_member field };

    fn write_row<W: Target>(
        &self,
        row: &(FieldName, Value<'b>),
        target: &mut W,
    ) -> Result<(), WriteFault> {
        let (name, value) = row;
        write_member(name.member(), value, target)
    }
}

/// How many of the names are those of columns.
fn column_count(names: &[FieldName]) -> usize
    ensures { result ≡ column_count names.now }
{
    names.iter().filter(|name| name.is_column()).count()
}

/// How many of the fields have a column.
fn cell_count(fields: &[(FieldName, Value<'_>)]) -> usize
    ensures { result ≡ cell_count fields.now }
{
    fields.iter().filter(|field| field.0.is_column()).count()
}

/// Writes a row that has these fields: nothing where it is void and would be a record. Where the
/// target fails, a prefix of its text was written, and it fails nowhere else.
pub fn write_fields<W: Target>(
    form: RowForm,
    is_void: bool,
    fields: &[(FieldName, Value<'_>)],
    target: &mut W,
) -> Result<(), WriteFault>
    ensures { Writes result (W.taken target.old) (W.taken target.new) (W.failed target.new)
        (row_as form is_void (cells_of fields.now) (map named_member fields.now)) }
{
    match form {
        RowForm::Record if is_void => Ok(()),
        RowForm::Record => write_line(&Cells, &fields[..cell_count(fields)], target),
        RowForm::Object => write_enclosed(b"{", &Members, fields, b"}", target),
    }
}

/// Writes the header of CSV: the names of the columns.
fn write_header<W: Target>(names: &[FieldName], target: &mut W) -> Result<(), WriteFault>
    ensures { Writes result (W.taken target.old) (W.taken target.new)
        (W.failed target.new) (record_of (column_names names.now)) }
{
    write_line(&Cells, &names[..column_count(names)], target)
}

/// Writes the rows of an account as CSV: a header, and a record for each row that is not void. It
/// takes no memory but what the target takes. Where the target fails, a prefix of the text was
/// written, and it fails nowhere else.
pub fn write_csv<T: Row, W: Target>(
    account: &str,
    rows: &[T],
    target: &mut W,
) -> Result<(), WriteFault>
    ensures { Writes result (W.taken target.old) (W.taken target.new)
        (W.failed target.new) (csv_of T.is_void (T.fields account.now) rows.now) }
{
    let records = AccountRows {
        account,
        form: RowForm::Record,
    };
    write_header(T::names(), target)?;
    write_rows(&records, rows, target)
}

/// Writes the rows of an account as JSON: a list with an object for each row, and with these sums
/// behind. It takes no memory but what the target takes. Where the target fails, a prefix of the
/// text was written, and it fails nowhere else.
pub fn write_json<T: Row, W: Target>(
    account: &str,
    rows: &[T],
    sums: &[(&str, Value<'_>)],
    target: &mut W,
) -> Result<(), WriteFault>
    ensures { Writes result (W.taken target.old) (W.taken target.new)
        (W.failed target.new) (json_of (T.fields account.now) (map member_of sums.now) rows.now) }
{
    let objects = AccountRows {
        account,
        form: RowForm::Object,
    };
    write_all(target, b"{\"rows\":")?;
    write_array(&objects, rows, target)?;
    write_others(&Members, sums, target)?;
    write_all(target, b"}\n")
}

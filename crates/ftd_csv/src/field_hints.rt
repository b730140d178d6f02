//! The fields of a record: their names, and what is asked for in each.

ghost use Rattle.std.specs.Prelude.{◌≡◌};
ghost use Rattle.ftd_csv.specs.FieldHints.{amount_asked, asked_by, asked_in, day_asked, field_name};
ghost use Rattle.ftd_csv.specs.FieldHints.{name_asked, number_asked};

use crate::Sheet;

/// What is asked for in the field of an account name, of a number, of a day and of an amount.
fn name_asked() -> &'static [u8]
    ensures { result.now ≡ name_asked }
{
    b"an account name: 1 to 20 bytes, a lower-case letter, \
      then lower-case letters, digits or hyphens"
}

fn number_asked() -> &'static [u8]
    ensures { result.now ≡ number_asked }
{
    b"a number from 1 to 999999999"
}

fn day_asked() -> &'static [u8]
    ensures { result.now ≡ day_asked }
{
    b"a date from 1900 to 2199; write it like 2024-05-27"
}

fn amount_asked() -> &'static [u8]
    ensures { result.now ≡ amount_asked }
{
    b"an amount up to 999999999.99; write it like 1234.56"
}

/// The name of a field of a sheet by its number, which counts from 1. Nothing where its records
/// have no such field.
pub fn field_name(sheet: Sheet, field: u8) -> &'static [u8]
    ensures { result.now ≡ field_name sheet field }
{
    match sheet.column(field) {
        Some(name) => name,
        None => b"",
    }
}

/// What is asked for in a field behind the first.
fn asked_by(sheet: Sheet, field: u8) -> &'static [u8]
    ensures { result.now ≡ asked_by sheet field }
{
    match sheet {
        Sheet::Runs => match field {
            2 => number_asked(),
            3 => day_asked(),
            _ => amount_asked(),
        },
        Sheet::Accounts => match field {
            2 => day_asked(),
            3 => b"yes or no",
            _ => b"941 or 943",
        },
        Sheet::Totals => match field {
            2 => b"a quarter like 2024Q2, or a year like 2024",
            _ => amount_asked(),
        },
        Sheet::Payments => match field {
            2 => number_asked(),
            3 | 4 => day_asked(),
            _ => amount_asked(),
        },
    }
}

/// What is asked for in a field of a sheet by its number, which counts from 1.
pub fn asked_in(sheet: Sheet, field: u8) -> &'static [u8]
    ensures { result.now ≡ asked_in sheet field }
{
    if field == 1 {
        return name_asked();
    }
    asked_by(sheet, field)
}

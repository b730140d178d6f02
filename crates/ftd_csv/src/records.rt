//! The hints of malformed records.

ghost use Rattle.std.specs.Prelude.{◌≡◌, true, Err, OnOk, OnErr};
ghost use Rattle.std.specs.Io.KnownBytes.{Appends};
ghost use Rattle.ftd_csv.specs.Fields.{numbered_field};
ghost use Rattle.ftd_csv.specs.Places.{CanAdvance, fields_at, number_of, sheet_of};
ghost use Rattle.ftd_ports.specs.Writing.{Writes, WritesPrefix};
ghost use Rattle.ftd_csv.specs.Hints.{field_hint, field_text, fields_text, record_hints};
ghost use Rattle.ftd_csv.specs.Hints.{text_hint, width_hint};
ghost use Rattle.ftd_csv.specs.HintPlaces.{hints_left};

use crate::field_hints::{asked_in, field_name};
use crate::shown::{MOST_SHOWN, show};
use crate::{Content, RecordFault, Records, Sheet};
use ftd_ports::{Target, WriteFault, write_pieces};
use itoa::Buffer;
use std::alloc::{AllocError, Global};
use thiserror::Error;

/// Why hints were not all written.
#[derive(Clone, Copy, Debug, PartialEq, Eq, Error)]
pub enum HintFault {
    /// Out of memory.
    #[error("out of memory")]
    Memory,
    /// The target failed.
    #[error("the hints could not be written")]
    Write,
}

impl From<AllocError> for HintFault {
    ghost use Rattle.std.specs.Prelude.{◌≡◌};
    ghost use Rattle.ftd_csv.specs.declared.records.HintFault.TheVariants.{Memory};

    ghost from_gives = { λ _ e. e ≡ Memory };

    fn from(_: AllocError) -> HintFault {
        HintFault::Memory
    }
}

impl From<WriteFault> for HintFault {
    ghost use Rattle.std.specs.Prelude.{◌≡◌};
    ghost use Rattle.ftd_csv.specs.declared.records.HintFault.TheVariants.{Write};

    ghost from_gives = { λ _ e. e ≡ Write };

    fn from(_: WriteFault) -> HintFault {
        HintFault::Write
    }
}

/// Writes the hints of the first malformed records of a text of the sheet, of as many at most as
/// `most` says: for each a line with what its least bad field says and what is asked for there, or
/// with how many fields it has, where the header has more or fewer. Nothing is written where the
/// text has more than 16 MiB or no header. It reads the records again, and beside the text it holds
/// one of them. Where there is no memory, or the target fails, a prefix of the hints was written.
pub fn write_record_hints<W: Target>(
    alloc: Global,
    sheet: Sheet,
    text: &[u8],
    most: usize,
    target: &mut W,
) -> Result<(), HintFault>
    ensures ok { OnOk result
        (Appends (W.taken target.old) (W.taken target.new) (record_hints sheet most text.now)) }
    ensures err { OnErr result
        (WritesPrefix (W.taken target.old) (W.taken target.new)
        (record_hints sheet most text.now)) }
    ensures fault { result ≡ Err HintFault.Write → W.failed target.new ≡ true }
{
    match Records::open(alloc, sheet, text) {
        Ok(records) => write_hints_of(alloc, records, most, target),
        Err(RecordFault::BadHeader) => Ok(()),
        Err(RecordFault::TooLong) => Ok(()),
        Err(RecordFault::Memory) => Err(HintFault::Memory),
    }
}

/// Writes the hints of the first malformed records after the one at which it stands.
fn write_hints_of<W: Target>(
    alloc: Global,
    mut records: Records<'_>,
    most: usize,
    target: &mut W,
) -> Result<(), HintFault>
    requires { CanAdvance records }
    ensures ok { OnOk result
        (Appends (W.taken target.old) (W.taken target.new) (hints_left most records.entry)) }
    ensures err { OnErr result
        (WritesPrefix (W.taken target.old) (W.taken target.new) (hints_left most records.entry)) }
    ensures fault { result ≡ Err HintFault.Write → W.failed target.new ≡ true }
{
    let mut left = most;
    while left > 0 && records.advance()? {
        if let Content::Malformed(field) = records.entry(alloc)? {
            write_hint(&records, field, target)?;
            left -= 1;
        }
    }
    Ok(())
}

/// Writes the hint of the record at which it stands, by the number of its bad field.
fn write_hint<W: Target>(records: &Records<'_>, field: u8, target: &mut W) -> Result<(), WriteFault>
    ensures { Writes result (W.taken target.old) (W.taken target.new) (W.failed target.new)
        (text_hint (sheet_of records.now) (number_of records.now) (fields_at records.now) field
        (numbered_field (fields_at records.now) field)) }
{
    let (sheet, number) = (records.sheet(), records.number());
    match records.field(field) {
        None => write_width_hint(sheet, number, records.width(), target),
        Some(text) => write_field_hint(sheet, number, field, text, target),
    }
}

/// What follows the number of fields that a record has.
fn fields_text(width: usize) -> &'static [u8]
    ensures { result.now ≡ fields_text width }
{
    if width == 1 {
        b" field, and not "
    } else {
        b" fields, and not "
    }
}

/// Writes the hint of a record that has more fields than the header, or fewer.
fn write_width_hint<W: Target>(
    sheet: Sheet,
    number: u32,
    width: usize,
    target: &mut W,
) -> Result<(), WriteFault>
    ensures { Writes result (W.taken target.old) (W.taken target.new)
        (W.failed target.new) (width_hint sheet number width) }
{
    let (mut number_digits, mut width_digits) = (Buffer::new(), Buffer::new());
    let mut asked_digits = Buffer::new();
    let number = number_digits.format(number).as_bytes();
    let digits = width_digits.format(width).as_bytes();
    let asked = asked_digits.format(sheet.width()).as_bytes();
    write_pieces(
        target,
        &[
            b"hint: record ",
            number,
            b" has ",
            digits,
            fields_text(width),
            asked,
            b"\n",
        ],
    )
}

/// What is told of a field: its text, or that there is none.
fn field_text<'a>(text: &[u8], buffer: &'a mut [u8; MOST_SHOWN]) -> &'a [u8]
    ensures { result.now ≡ field_text text.now }
{
    if text.is_empty() {
        b"empty"
    } else {
        show(text, buffer)
    }
}

/// Writes the hint of a record with a bad field.
fn write_field_hint<W: Target>(
    sheet: Sheet,
    number: u32,
    field: u8,
    text: &[u8],
    target: &mut W,
) -> Result<(), WriteFault>
    ensures { Writes result (W.taken target.old) (W.taken target.new)
        (W.failed target.new) (field_hint sheet number field text.now) }
{
    let mut digits = Buffer::new();
    let mut buffer = [0; MOST_SHOWN];
    let number = digits.format(number).as_bytes();
    let told = field_text(text, &mut buffer);
    write_pieces(
        target,
        &[
            b"hint: record ",
            number,
            b": ",
            field_name(sheet, field),
            b" is ",
            told,
            b", and not ",
            asked_in(sheet, field),
            b"\n",
        ],
    )
}

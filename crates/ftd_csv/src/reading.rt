//! The records of a text, one at a time.

ghost use Rattle.std.specs.Prelude.{◌≡◌, [], IfOk, MatchBool, MatchResult, length, option_map};
ghost use Rattle.ftd_csv.specs.Answers.{RecordsFail};
ghost use Rattle.ftd_csv.specs.Fields.{numbered_field};
ghost use Rattle.ftd_csv.specs.Places.{CanAdvance, Advances, Opens, fields_at, number_of};
ghost use Rattle.ftd_csv.specs.Places.{rows_after, said_at, sheet_of};

use crate::entries::{Content, read_entry};
use crate::fields::numbered_field;
use crate::rows::{next_row, open_rows};
use crate::sheets::{Sheet, is_header};
use csv::{ByteRecord, Reader};
use std::alloc::{AllocError, AllocFailed, Global};
use thiserror::Error;

/// The most bytes of a text, 16 MiB.
pub const MOST_BYTES: usize = 16_777_216;

/// Why a text has no records of a sheet.
#[derive(Clone, Copy, Debug, PartialEq, Eq, Error)]
pub enum RecordFault {
    /// The first record is not the header of the sheet, or there is none.
    #[error("the first record is not the header")]
    BadHeader,
    /// The text has more than 16 MiB.
    #[error("the text has more than 16 MiB")]
    TooLong,
    /// Out of memory.
    #[error("out of memory")]
    Memory,
}

impl From<AllocError> for RecordFault {
    ghost use Rattle.std.specs.Prelude.{◌≡◌};
    ghost use Rattle.ftd_csv.specs.declared.reading.RecordFault.TheVariants.{Memory};

    ghost from_gives = { λ _ e. e ≡ Memory };

    fn from(_: AllocError) -> RecordFault {
        RecordFault::Memory
    }
}

impl<T: Drop> From<AllocFailed<T>> for RecordFault {
    ghost use Rattle.std.specs.Prelude.{◌≡◌};
    ghost use Rattle.ftd_csv.specs.declared.reading.RecordFault.TheVariants.{Memory};

    ghost from_gives = { λ _ e. e ≡ Memory };

    fn from(_: AllocFailed<T>) -> RecordFault {
        RecordFault::Memory
    }
}

/// The records of a text, those under its header, one at a time: the one at which it stands, which
/// is the header at first, and those after it. Beside the text it holds one record.
#[derive(Drop)]
pub struct Records<'a> {
    sheet: Sheet,
    reader: Reader<&'a [u8]>,
    row: ByteRecord,
    number: u32,
}

impl<'a> Records<'a> {
    /// The records of the text, before the first of them. Each has its number, which counts from 1
    /// for the header on. The text is CSV as `csv` reads it by default, with any number of fields
    /// in a record; a byte order mark at its start is taken away. `TooLong` where it has more than
    /// 16 MiB; else `BadHeader` where its first record is not the header of the sheet.
    pub fn open(alloc: Global, sheet: Sheet, text: &'a [u8]) -> Result<Records<'a>, RecordFault>
        ensures { MatchResult result
            (λ records. Opens sheet text.now records)
            (λ fault. RecordsFail sheet text.now fault) }
    {
        if text.len() > MOST_BYTES {
            return Err(RecordFault::TooLong);
        }
        let mut reader = open_rows(alloc, text)?;
        let mut row = ByteRecord::new(alloc);
        if !next_row(&mut reader, &mut row)? || !is_header(sheet, &row) {
            return Err(RecordFault::BadHeader);
        }
        let number = 1;
        Ok(Records {
            sheet,
            reader,
            row,
            number,
        })
    }

    /// Goes on to the next record, and says whether there was one. Once there was none, or no
    /// memory, it can't go on.
    pub fn advance(&mut self) -> Result<bool, AllocError>
        requires { CanAdvance self.old }
        ensures { IfOk result (λ found. MatchBool found
            (Advances self.old self.new) (rows_after self.old ≡ [])) }
    {
        let found = next_row(&mut self.reader, &mut self.row)?;
        if found {
            self.number += 1;
        }
        Ok(found)
    }

    /// What the records are.
    pub fn sheet(&self) -> Sheet
        ensures { result ≡ sheet_of self.now }
    {
        self.sheet
    }

    /// The number of the record at which it stands.
    pub fn number(&self) -> u32
        ensures { result ≡ number_of self.now }
    {
        self.number
    }

    /// What the record at which it stands says. An error if there is no memory.
    pub fn entry(&self, alloc: Global) -> Result<Content, AllocError>
        ensures { IfOk result (λ content. content ≡ said_at self.now) }
    {
        read_entry(alloc, self.sheet, &self.row)
    }

    /// How many fields the record at which it stands has.
    pub fn width(&self) -> usize
        ensures { result ≡ length (fields_at self.now) }
    {
        self.row.len()
    }

    /// The text of a field of the record at which it stands, by the field's number, which counts
    /// from 1. None where the record has no such field.
    pub fn field(&self, number: u8) -> Option<&[u8]>
        ensures { option_map (λ text. text.now) result
            ≡ numbered_field (fields_at self.now) number }
    {
        numbered_field(&self.row, number)
    }

    /// How many records come after the one at which it stands.
    pub fn count(mut self) -> Result<usize, AllocError>
        requires { CanAdvance self }
        ensures { IfOk result (λ count. count ≡ length (rows_after self.entry)) }
    {
        let mut count = 0;
        while self.advance()? {
            count += 1;
        }
        Ok(count)
    }
}

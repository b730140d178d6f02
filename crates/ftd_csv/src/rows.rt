//! The rows of a CSV text, one at a time.

ghost use Rattle.std.specs.Prelude.{◌≡◌, ◌∷◌, [], IfOk, MatchBool};
ghost use Rattle.csv.specs.Records.{fields_of};
ghost use Rattle.ftd_csv.specs.Records.{rows_of};
ghost use Rattle.ftd_csv.specs.Rows.{IsReading, rows_left};

use csv::{ByteRecord, Reader, ReaderBuilder};
use std::alloc::{AllocError, Global};

/// A reader of the rows of a text. A byte order mark at its start is taken away.
pub fn open_rows(alloc: Global, text: &[u8]) -> Result<Reader<&[u8]>, AllocError>
    ensures { IfOk result (λ reader. IsReading reader × (rows_left reader ≡ rows_of text.now)) }
{
    let mut reader = ReaderBuilder::new().flexible(true).from_reader(alloc, text);
    // With a header row given, the reader keeps no copies of the first row, which may be a long
    // one.
    let Ok(()) = reader.set_byte_headers(ByteRecord::new(alloc)) else {
        return Err(AllocError);
    };
    Ok(reader)
}

/// Reads the next row, and says whether there was one.
pub fn next_row(reader: &mut Reader<&[u8]>, row: &mut ByteRecord) -> Result<bool, AllocError>
    requires { IsReading reader.old }
    ensures { IfOk result (λ found. MatchBool found
        (IsReading reader.new × (rows_left reader.old ≡ fields_of row.new ∷ rows_left reader.new))
        (rows_left reader.old ≡ [])) }
{
    // A slice gives no fault of its own, and a flexible reader takes rows of any length.
    let Ok(found) = reader.read_byte_record(row) else {
        return Err(AllocError);
    };
    Ok(found)
}

//! What the records of a text enter.

ghost use Rattle.std.specs.Prelude.{◌≡◌, IfOk};
ghost use Rattle.csv.specs.Records.{fields_of};
ghost use Rattle.ftd_csv.specs.Records.{entry_in};

use crate::fields::RecordFields;
use crate::sheets::Sheet;
use csv::ByteRecord;
use ftd_machine::Request;
use ftd_verbs::{FieldFault, read_request};
use std::alloc::{AllocError, Global};

/// What a record says: the request by which it is entered, or its least field that is bad, counted
/// from 1 (0 where it has more fields than the header, or fewer).
#[derive(Drop)]
pub enum Content {
    Entry(Request),
    Malformed(u8),
}

/// What the row says as a record of the sheet. An error if there is no memory.
#[tactic(auto, unfolding(crate::specs::Records::entry_in))]
pub fn read_entry(alloc: Global, sheet: Sheet, row: &ByteRecord) -> Result<Content, AllocError>
    ensures { IfOk result (λ content. content ≡ entry_in sheet (fields_of row.now)) }
{
    if row.len() != sheet.width() {
        return Ok(Content::Malformed(0));
    }
    let fields = RecordFields { sheet, row };
    match read_request(alloc, fields.verb(), &fields) {
        Ok(request) => Ok(Content::Entry(request)),
        Err(FieldFault::Bad(field)) => Ok(Content::Malformed(sheet.column_of(field))),
        Err(FieldFault::Memory) => Err(AllocError),
    }
}

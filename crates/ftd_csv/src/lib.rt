//! What an office enters as CSV: pay runs, accounts, reported totals and payments.
//! Hints: lines that say what is wrong with a text of CSV, and what is asked for.
#![tactic(auto)]

mod entries;
mod field_hints;
mod fields;
mod headers;
mod lists;
mod reading;
mod records;
mod rows;
mod sheets;
mod shown;

pub use crate::entries::Content;
pub use crate::headers::write_header_hint;
pub use crate::lists::{Place, RecordList, count_records, read_list};
pub use crate::reading::{MOST_BYTES, RecordFault, Records};
pub use crate::records::{HintFault, write_record_hints};
pub use crate::sheets::Sheet;

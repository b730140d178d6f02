//! The forms in which lists are printed, read back: what a reader of iCalendar takes from a
//! calendar, what `csv` takes from a table, and what `serde_json` takes from an object.
#![tactic(auto)]

pub mod laws;

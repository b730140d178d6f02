//! What is told of a question, as text, as CSV, as JSON and as iCalendar: due lists, agendas,
//! Schedule B, what is kept, the deposit schedule of a day, why an obligation is so, and money that
//! counts for nothing.
#![tactic(auto)]

mod agendas;
mod calendars;
mod due_lists;
mod due_rows;
mod due_texts;
mod explanation_objects;
mod explanations;
mod facts;
mod fields;
mod formats;
mod forms;
mod kept_rows;
mod liability_by_day;
mod lines;
mod listings;
mod rows;
mod schedules;
mod totals;
mod unapplied;
mod values;

pub use crate::agendas::form_bytes;
pub use crate::due_lists::due_list;
pub use crate::due_texts::{DueText, UnwrittenText};
pub use crate::explanations::{day_kind_name, reason_name, turn_of};
pub use crate::facts::write_facts;
pub use crate::fields::{Value, write_object, write_plain};
pub use crate::formats::{Format, ListFormat};
pub use crate::liability_by_day::schedule_b;
pub use crate::rows::{RowFormat, write_rows};
pub use crate::totals::{RowAmount, left_of, total};
pub use crate::values::{AmountText, amount_text, day_bytes, quarter_bytes, rule_name};

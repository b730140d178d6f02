//! What may be asked of the desk, verb by verb; and what a verb asks by its fields, whatever source
//! they come from.
#![tactic(auto)]

mod field;
mod fields;
mod formats;
mod rows;
mod verbs;

pub use crate::field::{Field, FieldFault, Kind};
pub use crate::fields::Fields;
pub use crate::formats::{AnswerFormat, Formats, JSON, TEXT};
pub use crate::rows::{Method, Part, Row, VERBS, Verb};
pub use crate::verbs::{last_asked, read_request};

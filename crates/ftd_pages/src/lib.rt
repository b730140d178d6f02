//! What is told as pages of HTML. A page shows the rows of a list with the fields that CSV and JSON
//! have, and a rule in words where it explains.
#![tactic(auto)]

pub mod columns;
mod days;
mod dues;
mod escapes;
mod explanations;
mod facts;
mod feet;
mod formats;
mod frames;
mod kept;
mod kept_rows;
mod links;
mod pages;
mod rows;
mod schedules;
mod sections;
mod statements;
mod style;
mod unapplied;

pub use crate::escapes::{write_escaped, write_escaped_bytes};
pub use crate::facts::{write_facts_at, write_facts_page};
pub use crate::formats::write_facts_as;
pub use crate::frames::{Frame, Place, Style, Ways};
pub use crate::links::{Way, to_account, write_link, write_linked};
pub use crate::pages::{write_end, write_start};
pub use crate::sections::write_page_heading;
pub use crate::style::STYLE;

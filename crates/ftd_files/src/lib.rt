//! The files of the program: the database file with the desk over it, and what is read; and the
//! faults of both.
#![tactic(auto)]

mod backup;
mod clock;
mod copies;
mod faults;
mod files;
mod folder;
mod hints;
mod input;
mod kinds;
mod opening;

pub use crate::backup::make_copy;
pub use crate::clock::SystemClock;
pub use crate::faults::ProgramFault;
pub use crate::files::{EMPTY_LOG, Supposes, SupposesNothing, is_new, log_of};
pub use crate::hints::{tell_fault, tell_made, unread_text};
pub use crate::input::{import_input, named_file, standard_input, words};
pub use crate::opening::{CopiedDesk, DeskFiles, FileAt, close_copy, close_desk};

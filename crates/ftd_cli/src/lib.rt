//! The commands of the program and their words, as a table.
//! What the words of the command line ask.
#![tactic(auto)]

mod asking;
mod clock;
mod command;
mod deciding;
mod escape;
mod fault;
mod file;
mod help;
mod lines;
mod parse;
mod reading;
mod table;
mod tasks;
mod words;

pub use crate::clock::{DayClock, decide_today};
pub use crate::deciding::decide;
pub use crate::escape::{escape_text, escape_word};
pub use crate::file::with_file;
pub use crate::lines::{Line, MOST_LINE, Piece, command_words, next_piece, read_line, shown_words};
pub use crate::table::{NAMES, Name, Takes, Word};
pub use crate::tasks::{
    BackupTask, CliFault, Job, LocalTask, PlainTask, ServeTask, Settlement, ShellTask, Task,
};

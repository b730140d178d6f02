//! The lines of a script, each answered as its command is: some of them together, where that is
//! the same.
#![tactic(auto)]

mod listed;
mod shell;
mod told;
mod turns;
mod understood;

pub use crate::shell::{Inputs, Script, Shell, Unread};
pub use ftd_script::Shows;

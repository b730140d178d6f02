//! Whether a database is the desk's, and making it so: the sixteen tables of version 3 in a new
//! database, or those that came later beside the nine of version 1 or the twelve of version 2.
#![tactic(auto)]

mod making;
mod migrating;
mod opening;
mod steps;
mod versions;

pub use crate::opening::{OpenFault, UnopenedDatabase, open};

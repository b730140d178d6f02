//! Where bytes come from and go to: sources, targets, ports made of readers and writers, and texts
//! written whole to a target.
#![tactic(auto)]

mod port;
mod writing;

pub use crate::port::{Port, PortFault, Source, Target};
pub use crate::writing::{WriteFault, write_all, write_pieces};

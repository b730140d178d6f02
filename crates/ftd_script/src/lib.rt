//! The lines of a script, whatever answers them: which jobs they may ask, what is shown of them,
//! and how their exit statuses add up.
#![tactic(auto)]

mod jobs;
mod shown;
mod statuses;

pub use crate::jobs::{is_for_shell, job_asked, job_if, job_of, reads_file};
pub use crate::shown::{Shows, put_named, write_command};
pub use crate::statuses::{greater, is_last};

//! A job, or a script, over the desk of a file: the file is opened, what is asked is done, and the
//! file is closed.
#![tactic(auto)]

mod beginning;
mod checking;
mod copies;
mod jobs;
mod scripts;

pub use crate::beginning::{Beginning, beginning_of};
pub use crate::checking::{Checked, checked};
pub use crate::copies::{Backup, CopyEnd, back_up, do_in_copy};
pub use crate::jobs::{FileJob, FilesEnd, Streams, do_in_files};
pub use crate::scripts::{FileScript, answer_in_files};

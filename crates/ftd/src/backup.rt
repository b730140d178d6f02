//! A copy of a desk's file.

use crate::checking::tell_checked;
use crate::jobs::file_at;
use ftd_cli::BackupTask;
use ftd_files::{ProgramFault, is_new, make_copy};
use ftd_local::back_up;

/// Makes the copy of the task: what the file and its log have, in one file that is new. A copy is
/// made only if its tables are as requests made them; what a check of it prints is printed in
/// either case, and its exit status is given. `Missing` if the file is not there; `Copy` says why
/// the copy can't be made.
pub(crate) fn backup(rt: &HostRuntime, task: &BackupTask) -> Result<u8, ProgramFault> {
    if is_new(rt, &task.db)? {
        return Err(ProgramFault::Missing);
    }
    let made = back_up(rt.alloc(), &file_at(rt, &task.db, task.wait), &task.db)?;
    if let Some(copy) = &made.copy {
        make_copy(rt, &task.copy, copy)?;
    }
    Ok(tell_checked(rt, made.found))
}

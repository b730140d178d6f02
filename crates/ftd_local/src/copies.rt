//! A job, and a backup, with a desk over a copy in memory of files, which keep their bytes.

ghost use Rattle.std.specs.Prelude.{◌≡◌, IfOk, IfSome, IsSome};
ghost use Rattle.sqlite.specs.Files.{over_files};
ghost use Rattle.ftd_desk.specs.Desks.{held};
ghost use Rattle.ftd_files.specs.Resting.{KeepsAlone};
ghost use Rattle.ftd_local.specs.Copies.{BacksUp, DoesInCopy};

use crate::checking::{Checked, checked};
use crate::jobs::{FileJob, Streams, do_with};
use ftd_desk::Desk;
use ftd_files::{CopiedDesk, DeskFiles, ProgramFault, close_copy};
use ftd_imports::Progress;
use ftd_ports::Target;
use ftd_program::JobEnd;
use sqlite::{FileStore, Files};
use sqlite_disk::{Disk, Memory};
use std::alloc::Global;

/// What came of a job with a desk over a copy of files.
#[derive(Drop)]
pub struct CopyEnd<D: Disk, O, E> {
    /// The exit status, and where the texts went.
    pub end: JobEnd<O, E>,
    /// The files, which no other program opens until they are let go.
    pub files: Files<D>,
}

/// Does a job with a desk over a copy in memory of files, which keep their bytes. The desk stands
/// for each state for which the files stand, if the disk told the truth as they were read, and the
/// job is done as by that desk, with what it prints and its exit status. An error says why the files
/// can't be opened; nothing was done then.
pub fn do_in_copy<D, F, O, E, P>(
    alloc: Global,
    files: &F,
    asked: FileJob<'_>,
    streams: Streams<O, E>,
    progress: &mut P,
) -> Result<CopyEnd<D, O, E>, ProgramFault>
where
    D: Disk + Drop,
    F: DeskFiles<D>,
    O: Target + Drop,
    E: Target + Drop,
    P: Progress,
    ensures { IfOk result (λ done. DoesInCopy O.taken O.failed E.taken E.failed streams asked.entry
        D.Disk ⟦<Memory as Disk>⟧ done F.DeskFiles.image) }
{
    let CopiedDesk { desk, files } = files.open_copy()?;
    let mut desk = desk;
    let end = do_with(alloc, &mut desk, asked, streams, progress);
    Ok(CopyEnd { end, files })
}

/// What came of a backup.
#[derive(Drop)]
pub struct Backup<D: Disk> {
    /// What a check of the copy printed, and its exit status.
    pub found: Checked,
    /// The copy: what the file and its log have, in one file. `None` if the check found that the
    /// tables are not as requests made them.
    pub copy: Option<Memory>,
    /// The files, which no other program opens until they are let go.
    pub files: Files<D>,
}

/// The file in memory into which a desk over a copy is closed, if a check of it ended with this
/// status, 0. The faults are those of `close_copy`.
fn kept_copy(status: u8, desk: Desk<FileStore<Memory>>) -> Result<Option<Memory>, ProgramFault>
    ensures made { IfOk result (λ copy. status ≡ 0 → IsSome copy) }
    ensures keeps { IfOk result (λ copy. IfSome copy
        (λ it. (status ≡ 0) × KeepsAlone (held over_files desk) it)) }
{
    if status != 0 {
        return Ok(None);
    }
    Ok(Some(close_copy(desk)?))
}

/// Copies files, which keep their bytes, into one in memory, if a check of the copy finds that its
/// tables are as requests made them. The copy holds each state for which the files stand, with no
/// log beside it, if the disk told the truth as they were read. An error says why the files can't be
/// opened, or that there is no memory.
pub fn back_up<D, F>(alloc: Global, files: &F, db: &str) -> Result<Backup<D>, ProgramFault>
where
    D: Disk + Drop,
    F: DeskFiles<D>,
    ensures { IfOk result
        (λ made. BacksUp D.Disk ⟦<Memory as Disk>⟧ made db.now F.DeskFiles.image) }
{
    let CopiedDesk { desk, files } = files.open_copy()?;
    let mut desk = desk;
    let found = checked(alloc, db, &mut desk);
    let copy = kept_copy(found.status, desk)?;
    Ok(Backup { found, copy, files })
}

//! A job over the desk of files, which are opened and closed.

ghost use Rattle.std.specs.Prelude.{IfOk};
ghost use Rattle.ftd_program.specs.Doing.{Does};
ghost use Rattle.ftd_local.specs.Jobs.{DoesFrom, DoesInFiles};

use ftd_cli::Job;
use ftd_desk::Desk;
use ftd_files::{DeskFiles, ProgramFault, close_desk};
use ftd_imports::Progress;
use ftd_ports::Target;
use ftd_program::{JobEnd, perform};
use sqlite::{Alter, FileStore, Files};
use sqlite_disk::Disk;
use std::alloc::Global;

/// A job on the desk of a file.
#[derive(Drop)]
pub struct FileJob<'a> {
    /// The name of the file, as hints have it.
    pub db: &'a str,
    /// What is to be done.
    pub job: Job,
    /// The bytes that the job reads. Empty if it reads none.
    pub input: &'a [u8],
}

/// Where a job prints.
#[derive(Drop)]
pub struct Streams<O, E> {
    /// What is answered.
    pub out: O,
    /// What is said of refusals and faults, and hints.
    pub err: E,
}

/// What came of a job on the desk of files.
#[derive(Drop)]
pub struct FilesEnd<D: Disk, O, E> {
    /// The exit status, and where the texts went.
    pub end: JobEnd<O, E>,
    /// The files, which are closed. `NotClosed` if the log can't be copied into the file: what was
    /// committed is in the log then.
    pub files: Result<Files<D>, ProgramFault>,
}

/// Does a job with a desk.
pub(crate) fn do_with<S: Alter, O: Target, E: Target, P: Progress>(
    alloc: Global,
    desk: &mut Desk<S>,
    asked: FileJob<'_>,
    streams: Streams<O, E>,
    progress: &mut P,
) -> JobEnd<O, E>
    ensures { Does S.Store O.taken O.failed E.taken E.failed streams.out streams.err result desk.old
        desk.new asked.entry.input.now asked.entry.db.now asked.entry.job }
{
    let Streams { out, err } = streams;
    let FileJob { db, job, input } = asked;
    perform(alloc, db, job, desk, input, out, err, progress)
}

/// Does a job with the desk of files, which are closed.
fn over_desk<D: Disk + Drop, O: Target, E: Target, P: Progress>(
    alloc: Global,
    desk: Desk<FileStore<D>>,
    asked: FileJob<'_>,
    streams: Streams<O, E>,
    progress: &mut P,
) -> FilesEnd<D, O, E>
    ensures { DoesInFiles O.taken O.failed E.taken E.failed streams asked.entry
        D.Disk result desk }
{
    let mut desk = desk;
    let end = do_with(alloc, &mut desk, asked, streams, progress);
    FilesEnd {
        end,
        files: close_desk(desk),
    }
}

/// A command from its words to its file: opens a desk over files, does the job with it, and closes
/// the files. The desk stands for each state for which the files stood, nothing entered where they
/// held no database, the job is done as by that desk, with what it prints and its exit status, and
/// each state for which the desk stands after it rests in the files, so that the next command finds
/// it, also after a crash. An error says why the files can't be opened; nothing was done then.
pub fn do_in_files<D, F, O, E, P>(
    alloc: Global,
    files: &F,
    asked: FileJob<'_>,
    streams: Streams<O, E>,
    progress: &mut P,
) -> Result<FilesEnd<D, O, E>, ProgramFault>
where
    D: Disk + Drop,
    F: DeskFiles<D>,
    O: Target + Drop,
    E: Target + Drop,
    P: Progress,
    ensures { IfOk result (λ done. DoesFrom O.taken O.failed E.taken E.failed streams asked.entry
        D.Disk done F.DeskFiles.image) }
{
    let desk = files.open_desk()?;
    Ok(over_desk(alloc, desk, asked, streams, progress))
}

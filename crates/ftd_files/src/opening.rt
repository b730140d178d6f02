//! The desk over a database file and its log.

ghost use Rattle.std.specs.Prelude.{IfOk};
ghost use Rattle.sqlite.specs.Files.{file_state, image_of, over_files, Finds, IsOpened};
ghost use Rattle.sqlite.specs.State.{HasCleanDisk};
ghost use Rattle.sqlite_wal.specs.Files.{image_at};
ghost use Rattle.sqlite_wal.specs.Recovery.{Image};
ghost use Rattle.ftd_desk.specs.Desks.{IsStopped, held};
ghost use Rattle.ftd_files.specs.Resting.{ClosesHonest, IsCopied, KeepsAlone, KeepsInFiles};
ghost use Rattle.ftd_files.specs.Resting.{StandsOver};

use crate::copies::copies_of;
use crate::faults::ProgramFault;
use crate::files::{Supposes, forget_log, locked, log_of};
use ftd_desk::Desk;
use sqlite::{Connection, FileStore, Files, Options, Start};
use sqlite_disk::{Disk, Memory};
use sqlite_std_file::FileFrom;
use std::alloc::Global;
use std::fs;
use std::hash::{BuildHasher, RandomState};

/// After how many frames, of 4,120 bytes each, the log of a server is copied into its file.
const LOG_FRAMES: usize = 254;

/// The options of a desk's database, with a random number for its log.
fn usual_options(rt: &HostRuntime) -> Result<Options, ProgramFault> {
    match RandomState::new(rt) {
        Ok(random) => Ok(Options::new(random.hash_one(&0u8))),
        Err(_) => Err(ProgramFault::File),
    }
}

/// The same, and if the log is to be short, it is copied into the file when it passes one megabyte.
fn options_for(rt: &HostRuntime, has_short_log: bool) -> Result<Options, ProgramFault> {
    let usual = usual_options(rt)?;
    if has_short_log {
        Ok(Options {
            checkpoint_frames: LOG_FRAMES,
            ..usual
        })
    } else {
        Ok(usual)
    }
}

/// The database of these files. Each page of a file that is new carries a sum, so that a byte that
/// changes on the disk is noticed.
fn connected<D: Disk + Drop>(
    alloc: Global,
    files: Files<D>,
    options: Options,
) -> Result<Connection<FileStore<D>>, ProgramFault>
    ensures opened { IfOk result (λ conn. HasCleanDisk (file_state conn) → IsOpened conn) }
    ensures found { IfOk result (λ conn. HasCleanDisk (file_state conn) → Finds files conn) }
{
    if !files.may_be_used() {
        return Err(ProgramFault::File);
    }
    match Connection::open_files_with(alloc, files, options, true) {
        Ok(conn) => Ok(conn),
        Err((error, _)) => Err(error.into()),
    }
}

/// The desk over the database of these files, whose tables are made if they are not there. It
/// stands for each state for which the files stand. If they can't be used, they are closed.
fn open_over<D: Disk + Drop>(
    alloc: Global,
    files: Files<D>,
    options: Options,
) -> Result<Desk<FileStore<D>>, ProgramFault>
    ensures stands { IfOk result
        (λ desk. StandsOver (image_of D.Disk files) (held over_files desk)) }
    ensures goes { IfOk result (λ desk. ¬ IsStopped desk) }
{
    let conn = connected(alloc, files, options)?;
    match Desk::open(alloc, conn) {
        Ok(desk) => Ok(desk),
        Err(refused) => {
            let _ = refused.connection.close();
            Err(refused.fault.into())
        }
    }
}

/// The files of a desk: a database file and its log.
pub trait DeskFiles<D: Disk + Drop> {
    /// The bytes that the two hold as they are opened.
    ghost image: { Image };

    /// Opens a desk over them. It stands for each state for which their bytes stand: one that they
    /// hold, or, where they hold no database yet, the one in which nothing was entered. It answers.
    /// An error says why they can't be used; they are closed then.
    fn open_desk(&self) -> Result<Desk<FileStore<D>>, ProgramFault>
        ensures stands { IfOk result (λ desk. StandsOver image (held over_files desk)) }
        ensures goes { IfOk result (λ desk. ¬ IsStopped desk) };

    /// Opens a desk over a copy of them in memory. Whatever is done with it, they keep their bytes.
    /// It stands for each state for which these stand, if the disk told the truth as they were
    /// read. It answers. An error says why they can't be used; they are closed then.
    fn open_copy(&self) -> Result<CopiedDesk<D>, ProgramFault>
        ensures copied { IfOk result
            (λ it. IsCopied D.Disk image (held over_files it.desk) it.files) }
        ensures goes { IfOk result (λ it. ¬ IsStopped it.desk) };
}

/// A desk over a copy in memory of files.
#[derive(Drop)]
pub struct CopiedDesk<D: Disk> {
    /// The desk over the copy.
    pub desk: Desk<FileStore<Memory>>,
    /// The files. No other program opens them until they are let go.
    pub files: Files<D>,
}

/// A desk over a copy in memory of these files.
fn copy_over<D: Disk + Drop>(
    alloc: Global,
    files: Files<D>,
    options: Options,
) -> Result<CopiedDesk<D>, ProgramFault>
    ensures copied { IfOk result
        (λ it. IsCopied D.Disk (image_of D.Disk files) (held over_files it.desk) it.files) }
    ensures goes { IfOk result (λ it. ¬ IsStopped it.desk) }
{
    let mut files = files;
    let copies = copies_of(alloc, &mut files)?;
    Ok(CopiedDesk {
        desk: open_over(alloc, copies, options)?,
        files,
    })
}

/// The file of a name and its log, which are made if they are not there. No other program opens
/// them until they are let go.
#[derive(Clone, Copy)]
pub struct FileAt<'a, B> {
    /// What opens files.
    pub rt: &'a HostRuntime,
    /// The name of the file.
    pub db: &'a str,
    /// For how many seconds it is tried again, if another program has it open.
    pub wait: u32,
    /// The log is copied into the file when it passes one megabyte.
    pub has_short_log: bool,
    /// What is supposed of the two as they are opened.
    pub start: B,
}

/// The desk over the file of a name and its log, with a log that is to be short or may be long. An
/// empty log that was made beside a file which can't be used is taken away again.
fn open_at<S: Start, B: Supposes<S>>(
    at: &FileAt<'_, B>,
    has_short_log: bool,
) -> Result<Desk<FileStore<FileFrom<S>>>, ProgramFault>
    ensures stands { IfOk result
        (λ desk. StandsOver (image_at S.Start) (held over_files desk)) }
    ensures goes { IfOk result (λ desk. ¬ IsStopped desk) }
{
    let options = options_for(at.rt, has_short_log)?;
    let log = log_of(at.rt, at.db)?;
    let had_log = fs::exists(at.rt, log.as_str()).unwrap_or(true);
    let files = locked(at.rt, at.db, at.wait, &at.start)?;
    match open_over(at.rt.alloc(), files, options) {
        Ok(desk) => Ok(desk),
        Err(fault) => {
            if matches!(fault, ProgramFault::NotOurs | ProgramFault::Corrupt) && !had_log {
                forget_log(at.rt, log.as_str());
            }
            Err(fault)
        }
    }
}

impl<'a, S: Start, B: Supposes<S>> DeskFiles<FileFrom<S>> for FileAt<'a, B> {
    ghost image = { image_at S.Start };

    // A log that can't be copied into the file, since the disk is full, stays as long as it is.
    fn open_desk(&self) -> Result<Desk<FileStore<FileFrom<S>>>, ProgramFault> {
        match open_at(self, self.has_short_log) {
            Err(ProgramFault::Full) if self.has_short_log => open_at(self, false),
            opened => opened,
        }
    }

    // An empty log that was made for the copy is taken away again.
    fn open_copy(&self) -> Result<CopiedDesk<FileFrom<S>>, ProgramFault> {
        let options = usual_options(self.rt)?;
        let log = log_of(self.rt, self.db)?;
        let had_log = fs::exists(self.rt, log.as_str()).unwrap_or(true);
        let files = locked(self.rt, self.db, self.wait, &self.start)?;
        let opened = copy_over(self.rt.alloc(), files, options);
        if !had_log {
            forget_log(self.rt, log.as_str());
        }
        opened
    }
}

/// Closes the files of a desk, and gives them back: each state for which it stood rests in them.
/// `NotClosed` if the log can't be copied into the file: what was committed is in the log then.
pub fn close_desk<D: Disk + Drop>(desk: Desk<FileStore<D>>) -> Result<Files<D>, ProgramFault>
    ensures keeps { IfOk result (λ files. KeepsInFiles D.Disk (held over_files desk) files) }
    ensures honest { IfOk result (λ files. ClosesHonest D.Disk (held over_files desk) files) }
{
    let conn = desk.close();
    // Of any connection the engine says here that its trees list its schema.
    let _schema = conn.schema();
    match conn.close_files() {
        Ok(files) => Ok(files),
        Err((_, store)) => {
            drop(store.close());
            Err(ProgramFault::NotClosed)
        }
    }
}

/// Closes the desk over a copy, and gives back its file in memory, which holds each state for which
/// the desk stood, with no log beside it. The faults are those of `close_desk`.
pub fn close_copy(desk: Desk<FileStore<Memory>>) -> Result<Memory, ProgramFault>
    ensures { IfOk result (KeepsAlone (held over_files desk)) }
{
    Ok(close_desk(desk)?.db)
}

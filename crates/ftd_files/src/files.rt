//! The database file and its log.

ghost use Rattle.std.specs.Prelude.{IfOk, false, true};
ghost use Rattle.sqlite_std_file.specs.File.{IsFresh};

use crate::faults::ProgramFault;
use crate::kinds::is_lone_byte;
use sqlite::{Files, Start, Unknown};
use sqlite_std_file::FileFrom;
use std::alloc::AllocError;
use std::fs::{self, OpenOptions};
use std::io::ErrorKind;
use std::os::unix::fs::OpenOptionsExt;
use std::thread;
use std::time::Duration;

/// How often in a second a file is tried that another program has open.
const TRIES: u64 = 20;

/// The length of a log without frames, in bytes. A log has them only once its file is made.
pub const EMPTY_LOG: u64 = 41;

/// Whether the file is not there, and will be made. `Corrupt` if it holds nothing and is beside a
/// log with frames: it was cut short, and is not a new one. `NotOurs` if it is one byte long, but for
/// the 0 by which the engine begins a file, and which stays where that fails.
pub fn is_new(rt: &HostRuntime, db: &str) -> Result<bool, ProgramFault> {
    let log = log_of(rt, db)?;
    let is_empty = fs::metadata(rt, db).is_ok_and(|it| it.len() < 2);
    if is_empty && fs::metadata(rt, log.as_str()).is_ok_and(|it| it.len() > EMPTY_LOG) {
        return Err(ProgramFault::Corrupt);
    }
    if is_lone_byte(rt, db) {
        return Err(ProgramFault::NotOurs);
    }
    Ok(fs::exists(rt, db).is_ok_and(|is_there| !is_there))
}

/// Whether a name has a log that is empty.
fn is_empty_log(rt: &HostRuntime, log: &str) -> bool {
    fs::metadata(rt, log).is_ok_and(|it| it.is_file() && it.len() <= EMPTY_LOG)
}

/// Takes away the log that was made beside a file which can't be used, if it is empty.
pub(crate) fn forget_log(rt: &HostRuntime, log: &str) {
    if is_empty_log(rt, log) {
        let _ = fs::remove_file(rt, log);
    }
}

/// The name of the file's log, which is beside the file that a link leads to.
pub fn log_of(rt: &HostRuntime, db: &str) -> Result<String, AllocError> {
    match fs::canonicalize(rt, db) {
        Ok(path) => format!(in rt.alloc(); "{}-wal", path.as_str()),
        Err(_) => format!(in rt.alloc(); "{db}-wal"),
    }
}

/// Whether the system takes the name of the file's log.
pub(crate) fn has_log_name(rt: &HostRuntime, db: &str) -> bool {
    match log_of(rt, db) {
        Ok(log) => !fs::symlink_metadata(rt, log.as_str()).is_err_and(|error| error.kind()
            == ErrorKind::InvalidFilename),
        Err(_) => true,
    }
}

/// What is supposed of a file and its log as they are opened. What is proved over any `S` holds
/// whatever they hold, which no code can read.
pub trait Supposes<S: Start> {
    /// It is supposed once more, as for another try.
    fn suppose(&self) -> S;
}

/// The program supposes nothing of its files.
#[derive(Clone, Copy, Debug)]
pub struct SupposesNothing;

impl Supposes<Unknown> for SupposesNothing {
    fn suppose(&self) -> Unknown {
        Unknown
    }
}

/// The file and its log, which are made if they are not there, and which no other program opens
/// until they are let go. If another program has them open, they are tried again for that many
/// seconds.
pub(crate) fn locked<S: Start, B: Supposes<S>>(
    rt: &HostRuntime,
    db: &str,
    wait: u32,
    start: &B,
) -> Result<Files<FileFrom<S>>, ProgramFault>
    ensures { IfOk result (λ files. IsFresh true files.log × IsFresh false files.db) }
{
    for _ in 0..u64::from(wait) * TRIES {
        match files_of(rt, db, start.suppose()) {
            Err(ProgramFault::Busy) => {}
            other => return other,
        }
        // If the system can't wait, the file is tried again at once.
        let _ = thread::sleep(rt, Duration::from_millis(1000 / TRIES));
    }
    files_of(rt, db, start.suppose())
}

/// Makes the file, if it is not there: this user alone may read and write it. Why it can't be made
/// is told as it is opened.
fn make_private(rt: &HostRuntime, db: &str) {
    let _ = OpenOptions::new()
        .write(true)
        .create_new(true)
        .mode(0o600)
        .open(rt, db);
}

/// The file and its log. `File` for the names that sqlite keeps for databases of other kinds, and
/// for one that is too long for its log to have a name: no file is made then.
fn files_of<S: Start>(
    rt: &HostRuntime,
    db: &str,
    start: S,
) -> Result<Files<FileFrom<S>>, ProgramFault>
    ensures { IfOk result (λ files. IsFresh true files.log × IsFresh false files.db) }
{
    if db == ":memory:" || db.starts_with("file:") || !has_log_name(rt, db) {
        return Err(ProgramFault::File);
    }
    make_private(rt, db);
    match sqlite_std_file::open(rt, db, start) {
        Ok(files) => Ok(files),
        Err(fault) => Err(fault.into()),
    }
}

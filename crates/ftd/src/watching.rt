//! What looks after the files of a server's desk.

use ftd_connections::Watch;
use ftd_files::{EMPTY_LOG, log_of};
use std::alloc::AllocError;
use std::fs;
use std::os::unix::fs::MetadataExt;

/// Which file of which disk a name has, and how many bytes it has.
#[derive(Clone, Copy)]
struct Mark {
    disk: u64,
    file: u64,
    length: u64,
}

/// The mark of the file of a name. None if it has none, or can't be looked at.
fn mark_of(rt: &HostRuntime, name: &str) -> Option<Mark> {
    let data = fs::metadata(rt, name).ok()?;
    Some(Mark {
        disk: data.dev(),
        file: data.ino(),
        length: data.len(),
    })
}

/// Whether a name still has the file that it had, with so many bytes at least. One that had none is
/// not looked after.
fn is_still(now: Option<Mark>, then: Option<Mark>, length: u64) -> bool {
    match (now, then) {
        (_, None) => true,
        (None, Some(_)) => false,
        (Some(now), Some(then)) => {
            now.disk == then.disk && now.file == then.file && now.length >= length
        }
    }
}

/// The file of a desk and its log, as the desk opened them. Its file gets no shorter, and its log
/// keeps its head.
#[derive(Drop)]
pub(crate) struct FileWatch<'a> {
    rt: &'a HostRuntime,
    db: &'a str,
    log: String,
    db_then: Option<Mark>,
    log_then: Option<Mark>,
}

impl<'a> FileWatch<'a> {
    /// Looks after the file of this name and its log from now on.
    pub(crate) fn new(rt: &'a HostRuntime, db: &'a str) -> Result<FileWatch<'a>, AllocError> {
        let log = log_of(rt, db)?;
        let db_then = mark_of(rt, db);
        let log_then = mark_of(rt, log.as_str());
        Ok(FileWatch {
            rt,
            db,
            log,
            db_then,
            log_then,
        })
    }
}

/// So many bytes as a marked file had, but no more than these.
fn length_of(mark: Option<Mark>, most: u64) -> u64 {
    match mark {
        Some(mark) => mark.length.min(most),
        None => 0,
    }
}

impl Watch for FileWatch<'_> {
    ghost use Rattle.std.specs.Prelude.{⊤};

    // What a disk tells of names no contract says.
    ghost tells = { λ _ _. ⊤ };

    fn are_same(&self) -> bool {
        let db_length = length_of(self.db_then, u64::MAX);
        let log_length = length_of(self.log_then, EMPTY_LOG);
        is_still(mark_of(self.rt, self.db), self.db_then, db_length)
            && is_still(
                mark_of(self.rt, self.log.as_str()),
                self.log_then,
                log_length,
            )
    }
}

//! What can be done about a fault of the program: a line that begins with `hint: `.

use crate::faults::ProgramFault;
use crate::files::has_log_name;
use crate::folder::{has_folder, meant};
use crate::kinds::is_of_other_kind;
use ftd_cli::escape_word;
use std::alloc::{AllocError, Global};
use std::fs::{self, File};
use std::io::ErrorKind;
use std::os::unix::fs::MetadataExt;

/// Why a file can't be made.
const NO_FOLDER: &str = "its folder is not there";

/// Why a file can't be written.
const FULL: &str = "the disk is full";

/// Tells a fault, and below it what can be done about it: which of the files it is, and why. The
/// hint is left out where there is no memory for it.
pub fn tell_fault(rt: &HostRuntime, fault: ProgramFault, db: &str, input: &str) {
    let fault = fault_in(rt, fault, db);
    // Where standard error fails as well, the status still tells.
    let _ = eprint!(rt; "{fault}\n");
    match fault {
        ProgramFault::Input(kind) => tell_file(rt, input, reason(kind)),
        ProgramFault::Copy(kind) => tell_file(rt, input, copy_reason(kind)),
        ProgramFault::Full => tell_file(rt, db, FULL),
        ProgramFault::Moved => tell_file(
            rt,
            db,
            "it or its -wal was moved, replaced or cut short while it was served",
        ),
        ProgramFault::File => tell_file(rt, db, file_reason(rt, db)),
        ProgramFault::Missing => tell_missing(rt, db),
        ProgramFault::NotClosed => tell_log(rt, db),
        ProgramFault::Journal => tell_journal(rt, db),
        ProgramFault::Busy => tell_file(rt, db, "--wait SECONDS waits until it is closed"),
        ProgramFault::Corrupt => tell_file(
            rt,
            db,
            "move it and its -wal aside, then put a copy back",
        ),
        ProgramFault::NotOurs => tell_file(rt, db, "ftd did not make this file"),
        ProgramFault::Newer(_) => tell_file(rt, db, "a later version of ftd made it"),
        ProgramFault::Net => {
            let _ = eprint!(rt;
                "hint: another program may have the port; --port 0 takes a free one\n"
            );
        }
        ProgramFault::NotText
        | ProgramFault::BadName
        | ProgramFault::Memory
        | ProgramFault::Store => {}
    }
}

/// The fault of a file: one that can't be read as a desk's, since it is a database of another kind,
/// is none of the desk's, and not damaged.
fn fault_in(rt: &HostRuntime, fault: ProgramFault, db: &str) -> ProgramFault {
    match fault {
        ProgramFault::Corrupt if is_of_other_kind(rt, db) => ProgramFault::NotOurs,
        fault => fault,
    }
}

/// Tells that the file was made, and which one may be meant, unless there is no memory for that.
pub fn tell_made(rt: &HostRuntime, db: &str) {
    tell_other(rt, db, "it was not there, so ftd made it");
}

/// Tells that the file, or its folder, is not there.
fn tell_missing(rt: &HostRuntime, db: &str) {
    if is_link(rt, db) {
        tell_file(rt, db, "it is a link to a file that is not there");
    } else if has_folder(rt, db) {
        tell_other(rt, db, reason(ErrorKind::NotFound));
    } else {
        tell_file(rt, db, NO_FOLDER);
    }
}

/// Whether the name is one of a link, wherever that leads.
fn is_link(rt: &HostRuntime, name: &str) -> bool {
    fs::symlink_metadata(rt, name).is_ok_and(|it| it.is_symlink())
}

/// Tells of a file that was not there, and which one of its folder may be meant.
fn tell_other(rt: &HostRuntime, db: &str, why: &str) {
    let Some(other) = meant(rt, db) else {
        return tell_file(rt, db, why);
    };
    if let (Ok(name), Ok(other)) = (escape_word(rt.alloc(), db), escape_word(rt.alloc(), &other)) {
        let _ = eprint!(rt; "hint: {name}: {why}; is {other} meant?\n");
    }
}

/// Tells where the last commands on a file are that could not be closed.
fn tell_log(rt: &HostRuntime, db: &str) {
    if let Ok(name) = escape_word(rt.alloc(), db) {
        let _ = eprint!(rt;
            "hint: {name}: the last commands are in {name}-wal: keep both files, and run a command when the disk has room\n"
        );
    }
}

/// Tells of the journal that another program left.
fn tell_journal(rt: &HostRuntime, db: &str) {
    if let Ok(name) = escape_word(rt.alloc(), db) {
        let _ = eprint!(rt;
            "hint: {name}: another program left {name}-journal: open the file with sqlite3, then try again\n"
        );
    }
}

/// The hint that says of a file why it can't be used. An empty name is the name of no file, and is
/// reason enough.
fn file_hint(alloc: Global, name: &str, why: &str) -> Result<String, AllocError> {
    if name.is_empty() {
        return String::from_str(alloc, "hint: the name of the file is empty\n");
    }
    let name = escape_word(alloc, name)?;
    format!(in alloc; "hint: {name}: {why}\n")
}

/// Tells of a file why it can't be used.
fn tell_file(rt: &HostRuntime, name: &str, why: &str) {
    if let Ok(hint) = file_hint(rt.alloc(), name, why) {
        let _ = eprint!(rt; "{hint}");
    }
}

/// What is told of a fault of what is read, with its hint.
pub fn unread_text(alloc: Global, fault: ProgramFault, input: &str) -> Result<Vec<u8>, AllocError> {
    let hint = match fault {
        ProgramFault::Input(kind) => file_hint(alloc, input, reason(kind))?,
        _ => String::new(alloc),
    };
    Ok(format!(in alloc; "{fault}\n{hint}")?.into_bytes())
}

/// Why a file that was to be read can't be.
fn reason(kind: ErrorKind) -> &'static str {
    match kind {
        ErrorKind::NotFound => "it is not there",
        ErrorKind::PermissionDenied => "this user may not use it",
        ErrorKind::IsADirectory => "it is a folder",
        ErrorKind::InvalidFilename => "its name is too long",
        _ => "it can't be read",
    }
}

/// Why a copy can't be made.
fn copy_reason(kind: ErrorKind) -> &'static str {
    match kind {
        ErrorKind::AlreadyExists => "it is there already; a copy is made under a new name",
        ErrorKind::NotFound => NO_FOLDER,
        ErrorKind::StorageFull => FULL,
        ErrorKind::PermissionDenied => "its folder can't be written",
        ErrorKind::InvalidFilename => "its name is too long",
        _ => "it can't be written",
    }
}

/// Why a database file, which is made if it does not exist, can't be opened. Only a file is opened
/// to see why: a pipe could wait.
fn file_reason(rt: &HostRuntime, db: &str) -> &'static str {
    match fs::metadata(rt, db) {
        Ok(data) if data.is_dir() => "it is a folder",
        Ok(data) if !data.is_file() => "it is no file",
        Ok(data) if data.nlink() > 1 => "it has a second name (a hard link): use a copy",
        Ok(_) => match File::open(rt, db) {
            Ok(_) => "it, its -wal or its folder can't be written",
            Err(error) => reason(error.kind()),
        },
        Err(error) if error.kind() == ErrorKind::NotFound => unmade_reason(rt, db),
        Err(error) => reason(error.kind()),
    }
}

/// Why a database file that does not exist can't be made.
fn unmade_reason(rt: &HostRuntime, db: &str) -> &'static str {
    if is_link(rt, db) {
        "it is a link to a file that can't be made"
    } else if !has_folder(rt, db) {
        NO_FOLDER
    } else if has_log_name(rt, db) {
        "its folder can't be written"
    } else {
        "its name is too long"
    }
}

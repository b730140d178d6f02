//! The other files of a file's folder.

use ftd_questions::nearest;
use std::fs::{self, DirEntry};
use std::io;

/// The folder of a file as it was typed, with the slash at its end, and the file's name in it.
fn parts(db: &str) -> (&str, &str) {
    match db.rfind('/') {
        Some(at) => db.split_at(at + 1),
        None => ("", db),
    }
}

/// What the system calls that folder.
fn path_of(folder: &str) -> &str {
    if folder.is_empty() { "." } else { folder }
}

/// Whether the folder of the file is there.
pub(crate) fn has_folder(rt: &HostRuntime, db: &str) -> bool {
    let (folder, _) = parts(db);
    fs::metadata(rt, path_of(folder)).is_ok_and(|it| it.is_dir())
}

/// The file of the same folder that may be meant by this name, as it would be typed. None if there
/// is none, the folder can't be read, or there is no memory.
pub(crate) fn meant(rt: &HostRuntime, db: &str) -> Option<String> {
    let (folder, typed) = parts(db);
    let files = other_files(rt, path_of(folder), typed).ok()?;
    let mut names = Vec::new(rt.alloc());
    for name in &files {
        names.push(name.as_str()).ok()?;
    }
    let place = nearest(rt.alloc(), typed, names.as_slice()).ok()??;
    let name = files.get(place)?;
    format!(in rt.alloc(); "{folder}{name}").ok()
}

/// The names of the folder's files but this one and logs, in their order.
fn other_files(rt: &HostRuntime, folder: &str, typed: &str) -> io::Result<Vec<String>> {
    let mut names = Vec::new(rt.alloc());
    for entry in fs::read_dir(rt, folder)? {
        // One whose name is not UTF-8 could not be typed.
        let Ok(entry) = entry else {
            continue;
        };
        if may_be_meant(&entry, typed) {
            names.push(String::from_str(rt.alloc(), entry.file_name())?)?;
        }
    }
    names.sort()?;
    Ok(names)
}

/// Whether an entry of a folder is a file that may be meant by a name: another one, and no log.
fn may_be_meant(entry: &DirEntry, typed: &str) -> bool {
    let name = entry.file_name();
    name != typed && !name.ends_with("-wal") && entry.metadata().is_ok_and(|it| it.is_file())
}

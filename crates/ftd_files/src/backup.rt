//! A copy of a database file.

use crate::faults::ProgramFault;
use sqlite_disk::Memory;
use std::fs::{self, File, OpenOptions};
use std::io::{self, Write};
use std::os::unix::fs::OpenOptionsExt;

/// Writes the bytes to a file, and waits until the disk has them.
fn write_whole(file: File, bytes: &[u8]) -> io::Result<()> {
    let mut file = file;
    file.write_all(bytes)?;
    file.sync_all()
}

/// Makes a file of this name with these bytes, which this user alone may read and write. A file
/// that is there stays as it is; what can't be written whole is removed.
fn make_file(rt: &HostRuntime, name: &str, bytes: &[u8]) -> io::Result<()> {
    let file = OpenOptions::new()
        .write(true)
        .create_new(true)
        .mode(0o600)
        .open(rt, name)?;
    let written = write_whole(file, bytes);
    if written.is_err() {
        let _ = fs::remove_file(rt, name);
    }
    written
}

/// Makes a file of this name with the bytes of a file in memory. `Copy` says why it can't be made.
pub fn make_copy(rt: &HostRuntime, name: &str, copy: &Memory) -> Result<(), ProgramFault> {
    match make_file(rt, name, copy.bytes()) {
        Ok(()) => Ok(()),
        Err(error) => Err(ProgramFault::Copy(error.kind())),
    }
}

//! Copies in memory of a database file and its log.

ghost use Rattle.std.specs.Prelude.{◌≡◌, IfOk};
ghost use Rattle.sqlite.specs.Files.{image_of};
ghost use Rattle.sqlite_disk.specs.Memory.{memory_bytes};
ghost use Rattle.sqlite_wal.specs.Reads.{AreClean, IsClean, OnlyReads, OnlyReadsBoth};
ghost use Rattle.ftd_files.specs.Resting.{image_in};

use crate::faults::ProgramFault;
use sqlite::Files;
use sqlite_disk::{Disk, Memory};
use std::alloc::Global;

/// Copies in memory of both files, which are only read: they have the same bytes, if the disk told
/// the truth.
pub(crate) fn copies_of<D: Disk>(
    alloc: Global,
    files: &mut Files<D>,
) -> Result<Files<Memory>, ProgramFault>
    ensures same { IfOk result (λ copies. AreClean D.Disk files.new.log files.new.db
        → image_in copies ≡ image_of D.Disk files.old) }
    ensures kept { IfOk result (λ copies. OnlyReadsBoth D.Disk (files.old.log, files.old.db)
        (files.new.log, files.new.db)) }
{
    Ok(Files {
        log: copy_of(alloc, &mut files.log)?,
        db: copy_of(alloc, &mut files.db)?,
    })
}

/// A file in memory with the bytes of a file, which is only read.
fn copy_of<D: Disk>(alloc: Global, file: &mut D) -> Result<Memory, ProgramFault>
    ensures same { IfOk result (λ copy. IsClean D.Disk file.new
        → memory_bytes copy ≡ D.Disk.seen file.old) }
    ensures kept { IfOk result (λ copy. OnlyReads D.Disk file.old file.new) }
{
    let bytes = bytes_of(alloc, file)?;
    in_memory(alloc, &bytes)
}

/// A file in memory with these bytes.
fn in_memory(alloc: Global, bytes: &[u8]) -> Result<Memory, ProgramFault>
    ensures { IfOk result (λ file. memory_bytes file ≡ bytes.now) }
{
    let mut file = Memory::new(alloc);
    match file.write_at(0, bytes) {
        Ok(()) => Ok(file),
        Err(_) => Err(ProgramFault::Memory),
    }
}

/// The bytes of a file, which is only read. `File` if it can't be read.
fn bytes_of<D: Disk>(alloc: Global, file: &mut D) -> Result<Vec<u8>, ProgramFault>
    ensures same { IfOk result (λ bytes. IsClean D.Disk file.new
        → bytes.items ≡ D.Disk.seen file.old) }
    ensures kept { IfOk result (λ bytes. OnlyReads D.Disk file.old file.new) }
{
    if !file.may_be_used() {
        return Err(ProgramFault::File);
    }
    let Ok(length) = file.len() else {
        return Err(ProgramFault::File);
    };
    let mut bytes = vec![in alloc; 0u8; length]?;
    match file.read_at(0, bytes.as_mut_slice()) {
        Ok(()) => Ok(bytes),
        Err(_) => Err(ProgramFault::File),
    }
}

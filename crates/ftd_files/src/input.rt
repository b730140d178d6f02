//! What the program reads.

use crate::faults::ProgramFault;
use ftd_csv::MOST_BYTES;
use std::env::{self, VarError};
use std::fs::File;
use std::io::{ErrorKind, Read};

/// The words of the command line, the program's name first. `NotText` where one is no UTF-8.
pub fn words(rt: &HostRuntime) -> Result<Vec<String>, ProgramFault> {
    match env::args(rt) {
        Ok(words) => Ok(words.collect(rt.alloc())?),
        Err(error) if error.kind() == ErrorKind::InvalidData => Err(ProgramFault::NotText),
        Err(error) => Err(error.into()),
    }
}

/// The name by which the environment names the file of a desk.
const FILE: &str = "FTD_DB";

/// The file that the environment names, where it names one. `BadName` where that is no UTF-8.
pub fn named_file(rt: &HostRuntime) -> Result<Option<String>, ProgramFault> {
    match env::var(rt, FILE) {
        Ok(file) if file.is_empty() => Ok(None),
        Ok(file) => Ok(Some(file)),
        Err(VarError::NotPresent) => Ok(None),
        Err(VarError::OutOfMemory) => Err(ProgramFault::Memory),
        Err(_) => Err(ProgramFault::BadName),
    }
}

/// As many bytes as are looked at: one more than a text of CSV may have, by which a longer one
/// is known.
fn most_input() -> u64 {
    u64::try_from(MOST_BYTES)
        .unwrap_or(u64::MAX)
        .saturating_add(1)
}

/// The bytes of standard input.
pub fn standard_input(rt: &HostRuntime) -> Result<Vec<u8>, ProgramFault> {
    let mut input = Vec::new(rt.alloc());
    rt.reader().take(most_input()).read_to_end(&mut input)?;
    Ok(input)
}

/// The bytes of the file, or of standard input where it is named `-`.
pub fn import_input(rt: &HostRuntime, file: &str) -> Result<Vec<u8>, ProgramFault> {
    if file == "-" {
        return standard_input(rt);
    }
    let mut input = Vec::new(rt.alloc());
    File::open(rt, file)?
        .take(most_input())
        .read_to_end(&mut input)?;
    Ok(input)
}

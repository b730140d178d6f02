//! Files of kinds that a desk's file is not.

use std::fs::{self, File};
use std::io::{self, Read};

/// How a database of SQLite begins.
const NAME: &[u8] = b"SQLite format 3\0";

/// The number that a database has where its texts are UTF-8.
const UTF_8: u8 = 1;

/// The head of a file: its first 100 bytes.
fn head_of(rt: &HostRuntime, name: &str) -> io::Result<[u8; 100]> {
    let mut head = [0; 100];
    File::open(rt, name)?.read_exact(&mut head)?;
    Ok(head)
}

/// The first byte of a file.
fn first_byte(rt: &HostRuntime, name: &str) -> io::Result<u8> {
    let mut head = [0; 1];
    File::open(rt, name)?.read_exact(&mut head)?;
    Ok(head[0])
}

/// Whether the file of this name is one byte long, which no database is. No if that is a 0, by
/// which the engine begins a file, or if it can't be read.
pub(crate) fn is_lone_byte(rt: &HostRuntime, name: &str) -> bool {
    fs::metadata(rt, name).is_ok_and(|it| it.is_file() && it.len() == 1)
        && first_byte(rt, name).is_ok_and(|byte| byte != 0)
}

/// Whether the head is one of a database whose texts are UTF-16, or that gives pages back to the
/// system by itself (`auto_vacuum`): the bytes at 56 to 59, and at 52 to 55.
fn is_head_of_other_kind(head: &[u8; 100]) -> bool {
    head.starts_with(NAME) && (head[59] > UTF_8 || head[52..56].iter().any(|byte| *byte != 0))
}

/// Whether the file of this name is a database of such a kind. No if it can't be read.
pub(crate) fn is_of_other_kind(rt: &HostRuntime, name: &str) -> bool {
    head_of(rt, name).is_ok_and(|head| is_head_of_other_kind(&head))
}

//! The words of a command that is asked of a server.

use ftd_cli::{NAMES, Name};
use ftd_files::ProgramFault;

/// The words of a command line that names a port, of which the first is the program's name.
#[derive(Clone, Copy)]
pub(crate) struct Remote<'a> {
    /// What is given as the port; empty where nothing is.
    pub(crate) port: &'a str,
    /// The words before it, and behind it.
    before: &'a [String],
    behind: &'a [String],
}

/// Whether the word names a port, or says that the next one does.
fn is_at(word: &str) -> bool {
    word == "--at" || word.starts_with("--at=")
}

/// Whether a server answers the command: it reads no files, and has no desk but its own.
fn is_served(name: Name) -> bool {
    match name {
        Name::Verb(_) | Name::OpenYears | Name::Settle | Name::Journal | Name::Check => true,
        Name::Plain | Name::Serve | Name::Shell | Name::Backup | Name::Import(_) => false,
    }
}

/// Whether the words before a port and behind it name a command that a server answers.
fn is_asked(before: &[String], behind: &[String]) -> bool {
    let Some(given) = before.get(1).or(behind.first()) else {
        return false;
    };
    NAMES
        .iter()
        .any(|name| is_served(*name) && name.text() == given.as_str())
}

/// The words, if they name a port for a command that a server answers.
pub(crate) fn remote_of(words: &[String]) -> Option<Remote<'_>> {
    let place = words.iter().position(|word| is_at(word))?;
    let (before, from) = words.split_at(place);
    let (port, behind) = match from {
        [word, port, behind @ ..] if word.as_str() == "--at" => (port.as_str(), behind),
        [word, behind @ ..] => (word.strip_prefix("--at=").unwrap_or(""), behind),
        [] => return None,
    };
    if !is_asked(before, behind) {
        return None;
    }
    Some(Remote {
        port,
        before,
        behind,
    })
}

/// Whether the word can stand in a line of a shell.
fn is_in_line(word: &str) -> bool {
    !word.is_empty()
        && !word
            .bytes()
            .any(|byte| matches!(byte, b' ' | b'\t' | b'\r' | b'\n'))
}

/// Adds the words to the line, a blank before each but the first. False where one of them can't
/// stand in a line.
fn push_words(line: &mut String, words: &[String]) -> Result<bool, ProgramFault> {
    for word in words {
        if !is_in_line(word) {
            return Ok(false);
        }
        if !line.is_empty() {
            line.push_str(" ")?;
        }
        line.push_str(word)?;
    }
    Ok(true)
}

/// The line of the words without the program's name and the port. None where one of them can't
/// stand in a line.
pub(crate) fn line_of(
    rt: &HostRuntime,
    remote: &Remote<'_>,
) -> Result<Option<String>, ProgramFault> {
    let mut line = String::new(rt.alloc());
    let before = match remote.before {
        [_, rest @ ..] => rest,
        [] => &[],
    };
    if push_words(&mut line, before)? && push_words(&mut line, remote.behind)? {
        Ok(Some(line))
    } else {
        Ok(None)
    }
}

//! The file that the environment names, where a command line names none.

ghost use Rattle.std.specs.Prelude.{◌≡◌, IfOk, map};
ghost use Rattle.std.specs.String.{string_bytes};
ghost use Rattle.ftd_cli.specs.Files.{names_file, wants_file, with_file};

use crate::lines::{is_with_file, push_copies};
use std::alloc::{AllocError, Global};

/// Whether a word names the file of a desk.
fn names_file(word: &str) -> bool
    ensures { result ≡ names_file word.now }
{
    word == "--db" || word.starts_with("--db=")
}

/// Whether the command takes the file of a desk, and none of its words names one.
fn wants_file(name: &str, rest: &[String]) -> bool
    ensures { result ≡ wants_file name.now (map string_bytes rest.now) }
{
    is_with_file(name) && !rest.iter().any(|word| names_file(word))
}

/// The words of a command line, of which the first is the program's name. If its command takes the
/// file of a desk, and its words name none, it is given this one.
pub fn with_file(alloc: Global, file: &str, words: &[String]) -> Result<Vec<String>, AllocError>
    ensures { IfOk result (λ all. map string_bytes all.items
        ≡ with_file file.now (map string_bytes words.now)) }
{
    let mut all = Vec::new(alloc);
    match words {
        [program, name, rest @ ..] if wants_file(name, rest) => {
            all.push(String::from_str(alloc, program)?)?;
            all.push(String::from_str(alloc, name)?)?;
            all.push(format!(in alloc; "--db={file}")?)?;
            push_copies(alloc, rest, &mut all)?;
        }
        _ => push_copies(alloc, words, &mut all)?,
    }
    Ok(all)
}

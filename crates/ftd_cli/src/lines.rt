//! The lines of a shell, and the words of the commands that they stand for.

ghost use Rattle.std.specs.Prelude.{◌≡◌, ◌++◌, IfOk, false, map, option_map};
ghost use Rattle.std.specs.String.{string_bytes};
ghost use Rattle.ftd_cli.specs.Lines.{IsLine, TakesTexts, asks_nothing, command_words, is_blank};
ghost use Rattle.ftd_cli.specs.Lines.{is_with_file};
ghost use Rattle.ftd_cli.specs.Lines.{line_of, parts_of, shown_words, text_in, without_program};
ghost use Rattle.ftd_cli.specs.Lines.{NextOf, without_file};

use crate::deciding::command_named;
use crate::escape::escape_word;
use std::alloc::{AllocError, Global};
use std::io::{BufRead, Error};
use std::str;

/// The most bytes that a line of a shell may have, without its end.
pub const MOST_LINE: usize = 65_536;

/// What comes next in a script.
#[derive(Drop)]
pub enum Piece {
    /// Nothing: this is its end.
    End,
    /// A line, without its end.
    Line(Vec<u8>),
    /// A line of more than 65,536 bytes, which was skipped.
    TooLong,
}

/// Reads what comes next in a script. A fault is that of the reader, or want of memory; what was
/// read of a line is lost then.
pub fn next_piece<R: BufRead>(alloc: Global, script: &mut R) -> Result<Piece, Error>
    ensures { IfOk result (NextOf (R.remaining script.old) (R.remaining script.new)) }
{
    let mut line = Vec::new(alloc);
    if script.read_until(b'\n', &mut line)? == 0 {
        return Ok(Piece::End);
    }
    if line.last() == Some(&b'\n') {
        line.pop();
    }
    if line.len() > MOST_LINE {
        return Ok(Piece::TooLong);
    }
    Ok(Piece::Line(line))
}

/// What a line of a shell is.
#[derive(Drop)]
pub enum Line {
    /// It asks nothing: it has no word, or its first word begins with `#`.
    Nothing,
    /// The words of a command, without the program's name.
    Command(Vec<String>),
    /// It has a word that is no text.
    NoText,
}

/// Whether the byte stands between words: a blank, a tab, or the carriage return of a line's end.
fn is_blank(byte: u8) -> bool
    ensures { result ≡ is_blank byte }
{
    matches!(byte, b' ' | b'\t' | b'\r')
}

/// The words of a line.
fn parts<'a>(alloc: Global, line: &'a [u8]) -> Result<Vec<&'a [u8]>, AllocError>
    ensures { IfOk result (λ parts. map (λ part. part.now) parts.items ≡ parts_of line.now) }
{
    line.split(|byte| is_blank(*byte))
        .filter(|part| !part.is_empty())
        .collect(alloc)
}

/// The words without the program's name, if that is the first.
fn without_program<'m, 'a>(parts: &'m [&'a [u8]]) -> &'m [&'a [u8]]
    ensures { map (λ part. part.now) result.now
        ≡ without_program (map (λ part. part.now) parts.now) }
{
    match parts {
        [first, rest @ ..] if *first == b"ftd".as_slice() => rest,
        _ => parts,
    }
}

/// The word as a text, if it is one.
fn text_in(part: &[u8]) -> Option<&str>
    ensures { option_map (λ text. text.now) result ≡ text_in part.now }
{
    str::from_utf8(part).ok()
}

/// Adds the words as texts, and answers whether each is one. Where one is not, those before it were
/// added.
fn push_texts(alloc: Global, parts: &[&[u8]], words: &mut Vec<String>) -> Result<bool, AllocError>
    ensures { IfOk result (TakesTexts (map (λ part. part.now) parts.now)
        (map string_bytes words.old.items) (map string_bytes words.new.items)) }
{
    for part in parts {
        let Some(text) = text_in(part) else {
            return Ok(false);
        };
        words.push(String::from_str(alloc, text)?)?;
    }
    Ok(true)
}

/// The words as those of a command, if each is a text.
fn command(alloc: Global, parts: &[&[u8]]) -> Result<Line, AllocError>
    requires { asks_nothing (map (λ part. part.now) parts.now) ≡ false }
    ensures { IfOk result (IsLine (map (λ part. part.now) parts.now)) }
{
    let mut words = Vec::new(alloc);
    if push_texts(alloc, parts, &mut words)? {
        Ok(Line::Command(words))
    } else {
        Ok(Line::NoText)
    }
}

/// What the line is.
pub fn read_line(alloc: Global, line: &[u8]) -> Result<Line, AllocError>
    ensures { IfOk result (IsLine (line_of line.now)) }
{
    let parts = parts(alloc, line)?;
    match without_program(&parts) {
        [name, ..] if name.first() == Some(&b'#') => Ok(Line::Nothing),
        [] => Ok(Line::Nothing),
        said => command(alloc, said),
    }
}

/// Adds copies of the words.
pub(crate) fn push_copies(
    alloc: Global,
    words: &[String],
    all: &mut Vec<String>,
) -> Result<(), AllocError>
    ensures { IfOk result (λ _. map string_bytes all.new.items
        ≡ map string_bytes all.old.items ++ map string_bytes words.now) }
{
    for word in words {
        all.push(String::from_str(alloc, word)?)?;
    }
    Ok(())
}

/// Whether the command that is named so takes the file of a desk.
pub(crate) fn is_with_file(name: &str) -> bool
    ensures { result ≡ is_with_file name.now }
{
    match command_named(name) {
        Some(name) => name.takes_file(),
        None => false,
    }
}

/// The words behind a command without the file, where they name this one first, as a hint does.
fn without_file<'w>(db: &str, words: &'w [String]) -> &'w [String]
    ensures { map string_bytes result.now ≡ without_file db.now (map string_bytes words.now) }
{
    match words {
        [option, file, rest @ ..] if option.as_str() == "--db" && file.as_str() == db => rest,
        _ => words,
    }
}

/// The words of the command line that these stand for. A command that takes the file of a desk is
/// given this one, which may stand behind it already, as in a hint.
pub fn command_words(alloc: Global, db: &str, words: &[String]) -> Result<Vec<String>, AllocError>
    ensures { IfOk result (λ all. map string_bytes all.items
        ≡ command_words db.now (map string_bytes words.now)) }
{
    let mut all = Vec::new(alloc);
    all.push(String::from_str(alloc, "ftd")?)?;
    if let Some((name, rest)) = words.split_first() {
        all.push(String::from_str(alloc, name)?)?;
        if is_with_file(name) {
            all.push(format!(in alloc; "--db={db}")?)?;
            all.push(String::from_str(alloc, "--wait=0")?)?;
            push_copies(alloc, without_file(db, rest), &mut all)?;
        } else {
            push_copies(alloc, rest, &mut all)?;
        }
    }
    Ok(all)
}

/// The words as they are shown: a blank between two of them, and each control byte as `\x1b`.
#[tactic(auto, using(crate::proofs::Joined::joined_bytes))]
pub fn shown_words(alloc: Global, words: &[String]) -> Result<String, AllocError>
    ensures { IfOk result (λ shown. string_bytes shown
        ≡ shown_words (map string_bytes words.now)) }
{
    escape_word(alloc, &words.join(alloc, " ")?)
}

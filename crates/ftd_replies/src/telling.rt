//! Why the words of a command line ask nothing.

ghost use Rattle.std.specs.Prelude.{◌≡◌};
ghost use Rattle.ftd_replies.specs.Putting.{IsPut};
ghost use Rattle.ftd_replies.specs.Telling.{Tells, TellsHelp, asked_text, bad_text, bad_word};
ghost use Rattle.ftd_replies.specs.Telling.{formats_text, given_text, kind_text, no_today};

use ftd_cli::{CliFault, Word};
use ftd_ports::{Target, write_all, write_pieces};
use ftd_verbs::{Formats, Kind};

/// Prints why the words of a command line ask nothing, or the help that they ask for, and answers
/// the exit status: 0 for help, 2 for a bad command line, 3 where there was no memory, where a word
/// is left out that is today, which is not known, or where standard output failed under the help.
pub fn tell<O: Target, E: Target>(fault: &CliFault, out: &mut O, err: &mut E) -> u8
    ensures { Tells O.taken O.failed E.taken E.failed out.old out.new err.old err.new
        fault.now result }
{
    match fault {
        CliFault::BadArgument { word, value } => {
            tell_word(*word, value.as_str(), err);
            2
        }
        CliFault::NoToday(word) => {
            tell_no_today(word.text().as_bytes(), err);
            3
        }
        CliFault::Usage(text) => {
            put(text.as_bytes(), err);
            2
        }
        CliFault::Help(text) => tell_help(text.as_bytes(), out, err),
        CliFault::Memory => {
            put(b"failed 21 Memory\n", err);
            3
        }
    }
}

/// Prints the text. Where standard error fails as well, the status still tells.
pub fn put<E: Target>(text: &[u8], err: &mut E)
    ensures { IsPut (E.taken err.old) (E.taken err.new) (E.failed err.new) text.now }
{
    let _ = write_all(err, text);
}

/// What is asked for as a day.
const DAY_FORM: &[u8] = b"a date from 1900 to 2199; write it like 2024-05-27";

/// What is asked for where no other words are.
const ALLOWED: &[u8] = b"a value that is allowed here";

/// What is asked for as a value of a kind.
fn kind_bytes(kind: Kind) -> &'static [u8]
    ensures { result.now ≡ kind_text kind }
{
    match kind {
        Kind::Day | Kind::DayOrOther | Kind::DayOrToday | Kind::Days => DAY_FORM,
        Kind::Quarter => b"a quarter from 1900Q1 to 2199Q4; write it like 2024Q2",
        Kind::Amount => b"an amount up to 999999999.99; write it like 1234.56",
        Kind::Account => {
            b"an account name: 1 to 20 bytes, a lower-case letter, \
              then lower-case letters, digits or hyphens"
        }
        Kind::Year => b"a year from 2001 to 2098",
        Kind::Number | Kind::NumberOrNext => b"a number from 1 to 999999999",
        Kind::NewNumber => b"a number from 1 to 999999999, or next",
        Kind::Answer => b"yes or no",
        Kind::Mark | Kind::Form => ALLOWED,
    }
}

/// What is asked for as a format of an answer.
fn formats_bytes(formats: Formats) -> &'static [u8]
    ensures { result.now ≡ formats_text formats }
{
    match formats {
        Formats::Fixed => ALLOWED,
        Formats::Explanation => b"a format: text, json or html",
        Formats::List => b"a format: text, csv, json or html",
        Formats::Calendar => b"a format: text, csv, json, html or ics",
    }
}

/// What is asked for as the value of a word.
fn asked_bytes(word: Word) -> &'static [u8]
    ensures { result.now ≡ asked_text word }
{
    match word {
        Word::Field(field) => kind_bytes(field.kind()),
        Word::Format(formats) => formats_bytes(formats),
        Word::Holidays | Word::DueDay | Word::PaidDay => DAY_FORM,
        Word::Port => b"a port from 0 to 65535",
        Word::Wait => b"a number of seconds from 0 to 3600",
        _ => ALLOWED,
    }
}

/// The value of a word; it is told in words where it is empty.
fn given_bytes(value: &str) -> &[u8]
    ensures { result.now ≡ given_text value.now }
{
    match value {
        "" => b"an empty word",
        text => text.as_bytes(),
    }
}

/// Prints the name of a word whose value is none of its kind, and what is asked for in its place.
fn tell_word<E: Target>(word: Word, value: &str, err: &mut E)
    ensures { IsPut (E.taken err.old) (E.taken err.new) (E.failed err.new)
        (bad_word word value.now) }
{
    let given = given_bytes(value);
    tell_bad(word.text().as_bytes(), given, asked_bytes(word), err);
}

/// Prints the name of a word, the value that was given and what is asked for.
fn tell_bad<E: Target>(name: &[u8], given: &[u8], asked: &[u8], err: &mut E)
    ensures { IsPut (E.taken err.old) (E.taken err.new) (E.failed err.new)
        (bad_text name.now given.now asked.now) }
{
    let _ = write_pieces(
        err,
        &[
            b"bad argument ",
            name,
            b"\nhint: ",
            given,
            b" is not ",
            asked,
            b"\n",
        ],
    );
}

/// Prints that today is not known, and the word that is to be given.
fn tell_no_today<E: Target>(name: &[u8], err: &mut E)
    ensures { IsPut (E.taken err.old) (E.taken err.new) (E.failed err.new) (no_today name.now) }
{
    let _ = write_pieces(
        err,
        &[
            b"failed Clock\nhint: today's date can't be read; give ",
            name,
            b"\n",
        ],
    );
}

/// Prints the help.
fn tell_help<O: Target, E: Target>(text: &[u8], out: &mut O, err: &mut E) -> u8
    ensures { TellsHelp O.taken O.failed E.taken E.failed out.old out.new err.old err.new
        text.now result }
{
    match write_all(out, text) {
        Ok(()) => 0,
        Err(_) => {
            put(b"failed Output\n", err);
            3
        }
    }
}

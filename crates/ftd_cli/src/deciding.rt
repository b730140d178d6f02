//! What the words of a command line ask.

ghost use Rattle.std.specs.Prelude.{◌≡◌, Err, IfErr, Result, map};
ghost use Rattle.std.specs.String.{string_bytes};
ghost use Rattle.clap.specs.Words.{IsAmong, Kinds, kind_of, subcommand_of, subcommand_rows_of};
ghost use Rattle.ftd_cli.specs.declared.fault.WordFault.TheVariants.{BadWord};
ghost use Rattle.ftd_cli.specs.Apps.{ftd_app};
ghost use Rattle.ftd_cli.specs.Values.{bad_value};
ghost use Rattle.ftd_cli.specs.Asking.{TellsAs, Wanted};
ghost use Rattle.ftd_cli.specs.Tasks.{Fails, Gives, IsUsage, Refused, ShowsValue, command_named};
ghost use Rattle.ftd_cli.specs.Tasks.{named_command};
ghost use Rattle.ftd_cli.specs.Tasks.{lacks_today, rows_in, task_of, task_view, value, wanted_in};
ghost use Rattle.ftd_cli.specs.Tasks.{words};

use crate::asking::task_for;
use crate::escape::{escape_text, escape_word};
use crate::fault::WordFault;
use crate::parse::{ParseFault, parse};
use crate::reading::{bad_value, text_at};
use crate::tasks::{CliFault, Task};
use crate::{NAMES, Name, Word};
use clap::error::ErrorKind;
use clap::{ArgMatches, Error};
use ftd_days::Day;
use ftd_verbs::Field;
use std::alloc::{AllocError, Global};

/// What is told of words that name no subcommand.
const NO_COMMAND: &str = "\
error: no command is named

For more information, try '--help'.
";

/// What is said where a word has a hyphen before a digit: `clap` takes it for an option.
const NO_SIGNS: &str = "hint: amounts and numbers have no sign\n";

/// What is told of a form that there is none of.
const NO_FORM: &str = "\
error: invalid value for '--form <FORM>'
  [possible values: 941, 943]

For more information, try '--help'.
";

/// The subcommand that is written so.
#[tactic(auto, unfolding(crate::specs::Tasks::command_named))]
pub(crate) fn command_named(text: &str) -> Option<Name>
    ensures { result ≡ command_named text.now }
{
    NAMES.iter().copied().find(|name| name.text() == text)
}

/// The subcommand that words name, of which the first is the program's name.
pub(crate) fn named_command(words: &[String]) -> Option<Name>
    ensures { result ≡ named_command (map string_bytes words.now) }
{
    match words {
        [_, text, ..] => command_named(text),
        _ => None,
    }
}

/// What the subcommand of the words asks on this day.
fn task_in(alloc: Global, today: Option<Day>, matches: &ArgMatches<'_>) -> Result<Task, WordFault>
    ensures { TellsAs task_view result (wanted_in today (subcommand_rows_of matches.now)) }
{
    let Some((text, inner)) = matches.subcommand() else {
        return Err(WordFault::NoCommand);
    };
    let Some(name) = command_named(text) else {
        return Err(WordFault::NoCommand);
    };
    task_for(alloc, today, name, inner)
}

/// Whether a word has a hyphen before a digit, as a negative amount has.
fn is_signed(word: &str) -> bool {
    match word.as_bytes() {
        [mark, digit, ..] => *mark == b'-' && digit.is_ascii_digit(),
        _ => false,
    }
}

/// What is said of signs below the usage that words of a command line get.
fn signs_said(given: &[String]) -> &'static str {
    if given.iter().any(|word| is_signed(word)) {
        NO_SIGNS
    } else {
        ""
    }
}

/// How the subcommand that the words name is used. The empty text where they name none.
fn example_for(given: &[String]) -> &'static str {
    match named_command(given) {
        Some(name) => name.example(),
        None => "",
    }
}

/// The text, in which each of the words that has a line end stands in one line.
fn in_lines(alloc: Global, text: String, given: &[String]) -> Result<String, AllocError> {
    let mut text = text;
    for word in given {
        if word.contains('\n') {
            let shown = escape_word(alloc, word)?;
            text = text.replace(alloc, word.as_str(), &shown)?;
        }
    }
    Ok(text)
}

/// What words get that are no command line: the text of `clap`, and below it how the subcommand is
/// used.
fn usage_for(alloc: Global, text: &str, given: &[String]) -> CliFault
    ensures { (said : Result Wanted Refused) → IsUsage said → Fails result said }
{
    let (signs, example) = (signs_said(given), example_for(given));
    let end = if example.is_empty() { "" } else { "\n" };
    match format!(in alloc; "{text}{signs}{example}{end}") {
        Ok(whole) => usage(alloc, &whole),
        Err(_) => CliFault::Memory,
    }
}

/// What an error of `clap` tells of these words.
fn told_error(alloc: Global, error: &Error, given: &[String]) -> CliFault
    ensures { (kinds : Kinds) → IsAmong (kind_of error.now) kinds
        → Fails result (Err (words kinds)) }
{
    let Ok(text) = error.to_string(alloc) else {
        return CliFault::Memory;
    };
    match error.kind() {
        ErrorKind::DisplayHelp | ErrorKind::DisplayVersion => CliFault::Help(text),
        _ => match in_lines(alloc, text, given) {
            Ok(text) => usage_for(alloc, &text, given),
            Err(_) => CliFault::Memory,
        },
    }
}

/// What a fault of the values tells.
fn told_fault(alloc: Global, matches: &ArgMatches<'_>, fault: WordFault) -> CliFault
    ensures told { Fails result (Err (value fault)) }
    ensures value { ShowsValue (rows_in (subcommand_rows_of matches.now)) result }
{
    match fault {
        WordFault::BadWord(Word::Field(Field::Form)) => usage(alloc, NO_FORM),
        WordFault::BadWord(word) if lacks_today(matches, word) => CliFault::NoToday(word),
        WordFault::BadWord(word) => bad_argument(alloc, matches, word),
        WordFault::Memory => CliFault::Memory,
        WordFault::NoCommand => usage(alloc, NO_COMMAND),
    }
}

/// The first value of the word that is none of its kind.
fn value_in<'a>(matches: &ArgMatches<'a>, word: Word) -> &'a str
    ensures { result.now ≡ bad_value word (rows_in (subcommand_rows_of matches.now)) }
{
    match matches.subcommand() {
        Some((_, inner)) => bad_value(inner, word),
        None => "",
    }
}

/// Whether the word is left out, and is today then.
fn lacks_today(matches: &ArgMatches<'_>, word: Word) -> bool
    ensures { result ≡ lacks_today word (rows_in (subcommand_rows_of matches.now)) }
{
    if !word.may_be_today() {
        return false;
    }
    match matches.subcommand() {
        Some((_, inner)) => text_at(inner, word).is_none(),
        None => true,
    }
}

/// The word, and its first value that is none of its kind, if there is memory for it.
fn bad_argument(alloc: Global, matches: &ArgMatches<'_>, word: Word) -> CliFault
    ensures told { Fails result (Err (value (BadWord word))) }
    ensures value { ShowsValue (rows_in (subcommand_rows_of matches.now)) result }
{
    match escape_word(alloc, value_in(matches, word)) {
        Ok(value) => CliFault::BadArgument { word, value },
        Err(_) => CliFault::Memory,
    }
}

/// The text, as what is told of words that are no command line. A word may stand in it.
fn usage(alloc: Global, text: &str) -> CliFault
    ensures { (said : Result Wanted Refused) → IsUsage said → Fails result said }
{
    match escape_text(alloc, text) {
        Ok(text) => CliFault::Usage(text),
        Err(_) => CliFault::Memory,
    }
}

/// What the words ask on this day, of which the first is the program's name. `BadArgument` names
/// the first word whose value is none of its kind, and has that value; `NoToday` names the first
/// that is left out and today, where the day is not known; `Usage` and `Help` have the text that is
/// printed.
pub fn decide(alloc: Global, today: Option<Day>, words: &[String]) -> Result<Task, CliFault>
    ensures asked { Gives result (task_of today (map string_bytes words.now)) }
    ensures value { IfErr result
        (ShowsValue (rows_in (subcommand_of ftd_app (map string_bytes words.now)))) }
{
    match parse(alloc, words) {
        Ok(matches) => match task_in(alloc, today, &matches) {
            Ok(task) => Ok(task),
            Err(fault) => Err(told_fault(alloc, &matches, fault)),
        },
        Err(ParseFault::Memory) => Err(CliFault::Memory),
        Err(ParseFault::Refused(error)) => Err(told_error(alloc, &error, words)),
    }
}

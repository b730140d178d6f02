//! The values that a subcommand's words were given.

ghost use Rattle.std.specs.Prelude.{◌≡◌, IfOk, map, option_map};
ghost use Rattle.std.specs.String.{string_bytes};
ghost use Rattle.clap.specs.Words.{all_of, first_of, found_of, rows_of};
ghost use Rattle.ftd_days.specs.Spelling.{days_of};
ghost use Rattle.ftd_cli.specs.Table.{word_text};
ghost use Rattle.ftd_cli.specs.Values.{bad_value, chosen_format, first_no_day, format_in};
ghost use Rattle.ftd_cli.specs.Values.{is_given, port_in, text_in, texts_in, whole_in};
ghost use Rattle.ftd_cli.specs.Asking.{TellsAs};

use crate::Word;
use crate::fault::WordFault;
use clap::ArgMatches;
use ftd_days::Day;
use ftd_days::digits::whole_number;
use ftd_machine::Days;
use ftd_verbs::{AnswerFormat, Formats, TEXT};
use std::alloc::{AllocError, Global};

/// The value of a word.
pub fn text_at<'a>(inner: &ArgMatches<'a>, word: Word) -> Option<&'a str>
    ensures { option_map (λ s. s.now) result
        ≡ first_of (word_text word) (rows_of (found_of inner.now)) }
{
    inner.get_str(word.text())
}

/// The values of a word that takes any number of them.
pub fn texts_at<'m, 'a>(inner: &'m ArgMatches<'a>, word: Word) -> Option<&'m [&'a str]>
    ensures { option_map (λ s. map (λ v. v.now) s.now) result
        ≡ all_of (word_text word) (rows_of (found_of inner.now)) }
{
    inner.get_strs(word.text())
}

/// Whether a word that takes nothing is there.
pub fn is_given(inner: &ArgMatches<'_>, word: Word) -> bool
    ensures { result ≡ is_given word (rows_of (found_of inner.now)) }
{
    match text_at(inner, word) {
        Some(text) => text == "true",
        None => false,
    }
}

/// The whole number that the value of a word spells.
pub fn whole_at(inner: &ArgMatches<'_>, word: Word) -> Result<u32, WordFault>
    ensures { result ≡ whole_in word (rows_of (found_of inner.now)) }
{
    let Some(text) = text_at(inner, word) else {
        return Err(WordFault::BadWord(word));
    };
    whole_number(text).ok_or(WordFault::BadWord(word))
}

/// The port that the value of a word spells.
pub fn port_at(inner: &ArgMatches<'_>, word: Word) -> Result<u16, WordFault>
    ensures { result ≡ port_in word (rows_of (found_of inner.now)) }
{
    let Some(text) = text_at(inner, word) else {
        return Err(WordFault::BadWord(word));
    };
    let Some(number) = whole_number(text) else {
        return Err(WordFault::BadWord(word));
    };
    u16::try_from(number).or(Err(WordFault::BadWord(word)))
}

/// The value of a word as a text of its own.
pub fn owned_text(alloc: Global, inner: &ArgMatches<'_>, word: Word) -> Result<String, WordFault>
    ensures { TellsAs string_bytes result (text_in word (rows_of (found_of inner.now))) }
{
    let Some(text) = text_at(inner, word) else {
        return Err(WordFault::BadWord(word));
    };
    Ok(String::from_str(alloc, text)?)
}

/// The one of these formats that is asked for.
fn chosen_format(inner: &ArgMatches<'_>, formats: Formats) -> Result<AnswerFormat, WordFault>
    ensures { result ≡ chosen_format formats (rows_of (found_of inner.now)) }
{
    let word = Word::Format(formats);
    let Some(text) = text_at(inner, word) else {
        return Err(WordFault::BadWord(word));
    };
    formats.by_name(text).ok_or(WordFault::BadWord(word))
}

/// The format of an answer that is asked for: text, where it is told in one way.
pub fn format_at(inner: &ArgMatches<'_>, formats: Formats) -> Result<AnswerFormat, WordFault>
    ensures { result ≡ format_in formats (rows_of (found_of inner.now)) }
{
    match formats {
        Formats::Fixed => Ok(TEXT),
        Formats::Explanation | Formats::List | Formats::Calendar => chosen_format(inner, formats),
    }
}

/// The days that the values of a word spell, if each spells one.
pub fn days_at(
    alloc: Global,
    inner: &ArgMatches<'_>,
    word: Word,
) -> Result<Option<Days>, AllocError>
    ensures { IfOk result (λ days. days ≡ days_of (texts_in word (rows_of (found_of inner.now)))) }
{
    let texts = texts_at(inner, word).unwrap_or(&[]);
    match read_days(alloc, texts)? {
        Some(days) => Ok(Some(Days::from_vec(days))),
        None => Ok(None),
    }
}

/// The days that the texts spell, if each spells one.
fn read_days(alloc: Global, texts: &[&str]) -> Result<Option<Vec<Day>>, AllocError>
    ensures { IfOk result (λ days. option_map (λ d. d.items) days
        ≡ days_of (map (λ text. text.now) texts.now)) }
{
    let mut days = Vec::new(alloc);
    for text in texts {
        let Some(day) = Day::read(text.as_bytes()) else {
            return Ok(None);
        };
        days.push(day)?;
    }
    Ok(Some(days))
}

/// The first value that is none of its kind, of a word of which one is. Empty where the word has no
/// such value.
pub fn bad_value<'a>(inner: &ArgMatches<'a>, word: Word) -> &'a str
    ensures { result.now ≡ bad_value word (rows_of (found_of inner.now)) }
{
    let bad = if word.takes_many() {
        first_no_day(texts_at(inner, word).unwrap_or(&[]))
    } else {
        text_at(inner, word)
    };
    bad.unwrap_or("")
}

/// The first of the texts that spells no day.
fn first_no_day<'a>(texts: &[&'a str]) -> Option<&'a str>
    ensures { option_map (λ text. text.now) result
        ≡ first_no_day (map (λ text. text.now) texts.now) }
{
    texts
        .iter()
        .copied()
        .find(|text| Day::read(text.as_bytes()).is_none())
}

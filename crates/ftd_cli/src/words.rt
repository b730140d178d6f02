//! The words of a subcommand as a source of the fields of its verb.

ghost use Rattle.std.specs.Prelude.{◌≡◌};
ghost use Rattle.clap.specs.Words.{first_of, found_of, rows_of};
ghost use Rattle.ftd_verbs.specs.FieldRows.{kind_of};
ghost use Rattle.ftd_cli.specs.Table.{may_be_today, word_text};
ghost use Rattle.ftd_cli.specs.Words.{answer_of, day_said, form_of, is_next, number_said};
ghost use Rattle.ftd_cli.specs.Words.{words_said};

use crate::Word;
use crate::reading::{days_at, is_given, text_at};
use clap::ArgMatches;
use ftd_days::digits::whole_number;
use ftd_days::{Cents, Day, Quarter};
use ftd_machine::{AccountName, Days, MOST_NUMBER};
use ftd_rules::Form;
use ftd_verbs::{Field, Fields, Kind};
use std::alloc::{AllocError, Global};

/// The words of a subcommand, as `clap` gives them to the arguments.
#[derive(Clone, Copy)]
pub struct Words<'m, 'a> {
    /// The arguments with their values.
    pub matches: &'m ArgMatches<'a>,
    /// The day of today, where it is known.
    pub today: Option<Day>,
}

/// What stands in the place of the number of a new pay run or payment that takes the next one.
const NEXT: &str = "next";

/// Whether the text stands in the place of the next number.
pub fn is_next(text: &str) -> bool
    ensures { result ≡ is_next text.now }
{
    text == NEXT
}

/// The number that the text says as a value of this kind: the greatest one where a new pay run or
/// payment takes the next number.
fn number_said(kind: Kind, text: &str) -> Option<u32>
    ensures { result ≡ number_said kind text.now }
{
    match kind {
        Kind::NewNumber if is_next(text) => Some(MOST_NUMBER),
        _ => whole_number(text),
    }
}

/// The day that a word says, or today, where the word is left out and may be today.
pub fn day_said(today: Option<Day>, inner: &ArgMatches<'_>, word: Word) -> Option<Day>
    ensures { result ≡ day_said today (may_be_today word)
        (first_of (word_text word) (rows_of (found_of inner.now))) }
{
    match text_at(inner, word) {
        Some(text) => Day::read(text.as_bytes()),
        None if word.may_be_today() => today,
        None => None,
    }
}

/// Yes or no.
fn answer_named(text: &str) -> Option<bool>
    ensures { result ≡ answer_of text.now }
{
    match text {
        "yes" => Some(true),
        "no" => Some(false),
        _ => None,
    }
}

/// The form that is named so.
fn form_named(text: &str) -> Option<Form>
    ensures { result ≡ form_of text.now }
{
    match text {
        "941" => Some(Form::F941),
        "943" => Some(Form::F943),
        _ => None,
    }
}

impl Fields for Words<'_, '_> {
    ghost said = { λ words. words_said words.today (rows_of (found_of words.matches.now)) };

    fn is_left_out(&self, field: Field) -> bool {
        text_at(self.matches, Word::Field(field)).is_none()
    }

    fn account(&self, alloc: Global, field: Field) -> Result<Option<AccountName>, AllocError> {
        match text_at(self.matches, Word::Field(field)) {
            Some(text) => Ok(Some(AccountName::from_string(String::from_str(alloc, text)?))),
            None => Ok(None),
        }
    }

    fn whole(&self, field: Field) -> Option<u32> {
        number_said(field.kind(), text_at(self.matches, Word::Field(field))?)
    }

    fn day(&self, field: Field) -> Option<Day> {
        day_said(self.today, self.matches, Word::Field(field))
    }

    fn quarter(&self, field: Field) -> Option<Quarter> {
        Quarter::read(text_at(self.matches, Word::Field(field))?.as_bytes())
    }

    fn amount(&self, field: Field) -> Option<Cents> {
        Cents::read(text_at(self.matches, Word::Field(field))?.as_bytes())
    }

    fn mark(&self, field: Field) -> Option<bool> {
        Some(is_given(self.matches, Word::Field(field)))
    }

    fn answer(&self, field: Field) -> Option<bool> {
        answer_named(text_at(self.matches, Word::Field(field))?)
    }

    fn form(&self, field: Field) -> Option<Form> {
        form_named(text_at(self.matches, Word::Field(field))?)
    }

    fn days(&self, alloc: Global, field: Field) -> Result<Option<Days>, AllocError> {
        days_at(alloc, self.matches, Word::Field(field))
    }
}

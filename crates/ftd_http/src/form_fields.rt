//! The controls of a form as a source of the fields of its verb.

ghost use Rattle.std.specs.Prelude.{◌≡◌, IfOk, map, option_map};
ghost use Rattle.ftd_days.specs.Spelling.{days_of};
ghost use Rattle.ftd_http.specs.Controls.{seen, text_at};
ghost use Rattle.ftd_http.specs.FormFields.{answer_of, checked, days_in, form_said, is_between};
ghost use Rattle.ftd_http.specs.FormFields.{request_of_form, words_of};
ghost use Rattle.ftd_verbs.specs.Fields.{Tells};

use crate::body::form_in;
use crate::controls::{Control, text_at};
use ftd_days::digits::whole_number;
use ftd_days::{Cents, Day, Quarter};
use ftd_machine::{AccountName, Days, Request};
use ftd_rules::Form;
use ftd_verbs::{Field, FieldFault, Fields, Verb, read_request};
use std::alloc::{AllocError, Global};

/// The controls of a form.
#[derive(Clone, Copy)]
struct FormFields<'c> {
    controls: &'c [Control],
}

impl<'c> FormFields<'c> {
    /// What was filled in for a field, if something was.
    fn text(&self, field: Field) -> Option<&'c str>
        ensures { option_map (λ text. text.now) result
            ≡ text_at (map seen self.now.controls.now) field }
    {
        text_at(self.controls, field)
    }
}

/// Yes or no.
fn answer_named(text: &str) -> Option<bool>
    ensures { result ≡ answer_of text.now }
{
    match text {
        "yes" => Some(true),
        "no" => Some(false),
        _ => None,
    }
}

/// That a box is checked, which is sent as `yes`.
fn checked(text: &str) -> Option<bool>
    ensures { result ≡ checked text.now }
{
    if text == "yes" { Some(true) } else { None }
}

/// Whether the byte is between days: a blank, a tab, or of the end of a line.
fn is_between(byte: u8) -> bool
    ensures { result ≡ is_between byte }
{
    matches!(byte, b' ' | b'\t' | b'\r' | b'\n')
}

/// The words of a text.
fn words<'a>(alloc: Global, text: &'a [u8]) -> Result<Vec<&'a [u8]>, AllocError>
    ensures { IfOk result (λ words. map (λ word. word.now) words.items ≡ words_of text.now) }
{
    text.split(|byte| is_between(*byte))
        .filter(|word| !word.is_empty())
        .collect(alloc)
}

/// The days that the words spell, if each spells one.
fn read_days(alloc: Global, words: &[&[u8]]) -> Result<Option<Vec<Day>>, AllocError>
    ensures { IfOk result (λ days. option_map (λ d. d.items) days
        ≡ days_of (map (λ word. word.now) words.now)) }
{
    let mut days = Vec::new(alloc);
    for word in words {
        let Some(day) = Day::read(word) else {
            return Ok(None);
        };
        days.push(day)?;
    }
    Ok(Some(days))
}

/// The days that a text spells, if each of its words spells one.
fn days_in(alloc: Global, text: &str) -> Result<Option<Days>, AllocError>
    ensures { IfOk result (λ days. days ≡ days_in text.now) }
{
    let words = words(alloc, text.as_bytes())?;
    match read_days(alloc, &words)? {
        Some(days) => Ok(Some(Days::from_vec(days))),
        None => Ok(None),
    }
}

impl Fields for FormFields<'_> {
    ghost said = { λ it. form_said (map seen it.controls.now) };

    fn is_left_out(&self, field: Field) -> bool {
        self.text(field).is_none()
    }

    fn account(&self, alloc: Global, field: Field) -> Result<Option<AccountName>, AllocError> {
        match self.text(field) {
            Some(text) => Ok(Some(AccountName::copy_of(alloc, text)?)),
            None => Ok(None),
        }
    }

    fn whole(&self, field: Field) -> Option<u32> {
        whole_number(self.text(field)?)
    }

    fn day(&self, field: Field) -> Option<Day> {
        Day::read(self.text(field)?.as_bytes())
    }

    fn quarter(&self, field: Field) -> Option<Quarter> {
        Quarter::read(self.text(field)?.as_bytes())
    }

    fn amount(&self, field: Field) -> Option<Cents> {
        Cents::read(self.text(field)?.as_bytes())
    }

    fn mark(&self, field: Field) -> Option<bool> {
        match self.text(field) {
            None => Some(false),
            Some(text) => checked(text),
        }
    }

    fn answer(&self, field: Field) -> Option<bool> {
        answer_named(self.text(field)?)
    }

    fn form(&self, field: Field) -> Option<Form> {
        match self.text(field) {
            None => Some(Form::F941),
            Some(text) => form_in(text),
        }
    }

    fn days(&self, alloc: Global, field: Field) -> Result<Option<Days>, AllocError> {
        days_in(alloc, self.text(field).unwrap_or(""))
    }
}

/// What a verb asks by the controls of its form, or the first field that has no value of its kind.
pub fn read_form(alloc: Global, verb: Verb, controls: &[Control]) -> Result<Request, FieldFault>
    ensures { Tells result (request_of_form verb (map seen controls.now)) }
{
    read_request(alloc, verb, &FormFields { controls })
}

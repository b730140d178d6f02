//! The fields of a record as a source of the fields of its verb.

ghost use Rattle.std.specs.Prelude.{◌≡◌, option_map};
ghost use Rattle.csv.specs.Records.{fields_of};
ghost use Rattle.ftd_csv.specs.Fields.{flag_of, form_of, name_of, numbered_field, run_number_of};
ghost use Rattle.ftd_csv.specs.Fields.{said_in, spelled, text_in, verb_of, whole_of, year_of};

use crate::Sheet;
use csv::ByteRecord;
use ftd_days::digits::number;
use ftd_days::{Cents, Day, Quarter};
use ftd_machine::{AccountName, Days};
use ftd_rules::{Form, is_account_name};
use ftd_verbs::{Field, Fields, Verb};
use std::alloc::{AllocError, Global};

/// The text as the name of an account, if it is one.
#[tactic(auto, using(crate::proofs::Names::name_is_text), unfolding(crate::specs::Fields::name_of))]
fn account_name(text: &[u8]) -> Option<&str>
    ensures { option_map (λ name. name.now) result ≡ name_of text.now }
{
    if !is_account_name(text) {
        return None;
    }
    std::str::from_utf8(text).ok()
}

/// The number of a pay run or of a payment: 1 to 9 digits of a value of at least 1.
#[tactic(auto, unfolding(crate::specs::Fields::run_number_of))]
fn run_number(text: &[u8]) -> Option<u32>
    ensures { result ≡ run_number_of text.now }
{
    if text.is_empty() || text.len() > 9 {
        return None;
    }
    let number = number(text)?;
    if number == 0 {
        return None;
    }
    Some(number)
}

/// What `yes` and `no` say.
#[tactic(auto, unfolding(crate::specs::Fields::flag_of))]
fn flag(text: &[u8]) -> Option<bool>
    ensures { result ≡ flag_of text.now }
{
    if text == b"yes".as_slice() {
        return Some(true);
    }
    if text == b"no".as_slice() {
        return Some(false);
    }
    None
}

/// The form that is named so.
#[tactic(auto, unfolding(crate::specs::Fields::form_of))]
fn form(text: &[u8]) -> Option<Form>
    ensures { result ≡ form_of text.now }
{
    if text == b"941".as_slice() {
        return Some(Form::F941);
    }
    if text == b"943".as_slice() {
        return Some(Form::F943);
    }
    None
}

/// The year that four digits spell.
#[tactic(auto, unfolding(crate::specs::Fields::year_of))]
fn year(text: &[u8]) -> Option<u32>
    ensures { result ≡ year_of text.now }
{
    if text.len() != 4 {
        return None;
    }
    number(text)
}

/// The year, or the number of a pay run or of a payment, that the text spells.
fn whole_number(field: Field, text: &[u8]) -> Option<u32>
    ensures { result ≡ whole_of field text.now }
{
    match field {
        Field::Year => year(text),
        _ => run_number(text),
    }
}

/// The field of a row by its number, which counts from 1. None where the row has no such field.
pub fn numbered_field(row: &ByteRecord, number: u8) -> Option<&[u8]>
    ensures { option_map (λ text. text.now) result ≡ numbered_field (fields_of row.now) number }
{
    let place = number.checked_sub(1)?;
    row.get(usize::from(place))
}

/// The fields of a record as a source of those of its verb.
#[derive(Clone, Copy)]
pub struct RecordFields<'r> {
    /// What the record is one of.
    pub sheet: Sheet,
    /// Its fields, as many as the header has.
    pub row: &'r ByteRecord,
}

impl<'r> RecordFields<'r> {
    /// The text of the column that gives the field, if one does.
    fn text(&self, field: Field) -> Option<&'r [u8]>
        ensures { option_map (λ text. text.now) result
            ≡ text_in self.now.sheet (fields_of self.now.row.now) field }
    {
        numbered_field(self.row, self.sheet.column_of(field))
    }

    /// The name of an account that the column spells.
    fn name(&self, field: Field) -> Option<&'r str>
        ensures { option_map (λ name. name.now) result
            ≡ spelled name_of self.now.sheet (fields_of self.now.row.now) field }
    {
        account_name(self.text(field)?)
    }

    /// What the record asks for. A total is one of a quarter, or of a year where its period spells
    /// no quarter.
    pub fn verb(&self) -> Verb
        ensures { result
            ≡ verb_of self.now.sheet (said_in self.now.sheet (fields_of self.now.row.now)) }
    {
        match self.sheet {
            Sheet::Runs => Verb::Post,
            Sheet::Accounts => Verb::Enrol,
            Sheet::Totals if self.quarter(Field::Quarter).is_some() => Verb::Report,
            Sheet::Totals => Verb::ReportYear,
            Sheet::Payments => Verb::Pay,
        }
    }
}

impl Fields for RecordFields<'_> {
    ghost said = { λ it. said_in it.sheet (fields_of it.row.now) };

    fn is_left_out(&self, field: Field) -> bool {
        self.text(field).is_none()
    }

    fn account(&self, alloc: Global, field: Field) -> Result<Option<AccountName>, AllocError> {
        match self.name(field) {
            Some(name) => Ok(Some(AccountName::copy_of(alloc, name)?)),
            None => Ok(None),
        }
    }

    fn whole(&self, field: Field) -> Option<u32> {
        whole_number(field, self.text(field)?)
    }

    fn day(&self, field: Field) -> Option<Day> {
        Day::read(self.text(field)?)
    }

    fn quarter(&self, field: Field) -> Option<Quarter> {
        Quarter::read(self.text(field)?)
    }

    fn amount(&self, field: Field) -> Option<Cents> {
        Cents::read(self.text(field)?)
    }

    fn mark(&self, field: Field) -> Option<bool> {
        flag(self.text(field)?)
    }

    fn answer(&self, field: Field) -> Option<bool> {
        flag(self.text(field)?)
    }

    fn form(&self, field: Field) -> Option<Form> {
        form(self.text(field)?)
    }

    fn days(&self, _: Global, _: Field) -> Result<Option<Days>, AllocError> {
        Ok(None)
    }
}

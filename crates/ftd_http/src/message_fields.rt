//! The path and the body of a message as a source of the fields of its verb.

ghost use Rattle.std.specs.Prelude.{◌≡◌, IfOk, option_map};
ghost use Rattle.std.specs.List.{position};
ghost use Rattle.serde_json.specs.View.{view};
ghost use Rattle.ftd_verbs.specs.Rows.{part_seen};
ghost use Rattle.ftd_http.specs.Requests.{gives, message_said, part_of, request_of, text_said};

use crate::body::{days_at, flag_at, form_at, given_flag_at, json, text_at, whole_at};
use crate::path::part;
use crate::values::{name, path_number};
use ftd_days::{Cents, Day, Quarter};
use ftd_machine::{AccountName, Days, Request};
use ftd_rules::Form;
use ftd_verbs::{Field, FieldFault, Fields, Part, Verb, read_request};
use serde_json::Value;
use std::alloc::{AllocError, Global};

/// The path and the body of a message.
#[derive(Clone, Copy)]
struct MessageFields<'t, 'b> {
    /// The verb of the path.
    verb: Verb,
    /// The target, which begins with the path.
    target: &'t str,
    /// The body, if it is JSON.
    body: Option<&'b Value>,
}

/// Whether a part of a path gives the field: it has the field's name.
fn gives(field: Field, part: Part) -> bool
    ensures { result ≡ gives field (part_seen part) }
{
    match part {
        Part::Text(_) => false,
        Part::Of(given) => given.key() == field.key(),
    }
}

/// At which place of a path the field is given, if it is.
fn place_in(path: &[Part], field: Field) -> Option<usize>
    ensures { result ≡ position (λ part. gives field (part_seen part)) path.now }
{
    path.iter().position(|part| gives(field, *part))
}

/// The number of the part of a verb's path that gives the field, if one does. The part before the
/// first slash has the number 0.
fn part_of(verb: Verb, field: Field) -> Option<usize>
    ensures { result ≡ part_of verb field }
{
    match place_in(verb.row().path, field) {
        Some(place) => Some(place + 1),
        None => None,
    }
}

/// The text of a field: a part of the path, or a member of the body.
fn text_of<'a>(message: &MessageFields<'a, 'a>, field: Field) -> Option<&'a str>
    ensures { option_map (λ s. s.now) result ≡ text_said message.now.verb message.now.target.now
        (option_map (λ v. view v.now) message.now.body) field }
{
    match part_of(message.verb, field) {
        Some(number) => Some(part(message.target, number)),
        None => match message.body {
            Some(value) => text_at(value, field.key()),
            None => None,
        },
    }
}

impl Fields for MessageFields<'_, '_> {
    ghost said = { λ message. message_said message.verb message.target.now
        (option_map (λ v. view v.now) message.body) };

    fn is_left_out(&self, field: Field) -> bool {
        match (part_of(self.verb, field), self.body) {
            (Some(_), _) => false,
            (None, Some(value)) => value.get(field.key()).is_none(),
            (None, None) => true,
        }
    }

    fn account(&self, alloc: Global, field: Field) -> Result<Option<AccountName>, AllocError> {
        match text_of(self, field) {
            Some(text) => Ok(Some(name(alloc, text)?)),
            None => Ok(None),
        }
    }

    fn whole(&self, field: Field) -> Option<u32> {
        match part_of(self.verb, field) {
            Some(number) => path_number(part(self.target, number)),
            None => whole_at(self.body?, field.key()),
        }
    }

    fn day(&self, field: Field) -> Option<Day> {
        Day::read(text_of(self, field)?.as_bytes())
    }

    fn quarter(&self, field: Field) -> Option<Quarter> {
        Quarter::read(text_of(self, field)?.as_bytes())
    }

    fn amount(&self, field: Field) -> Option<Cents> {
        Cents::read(text_of(self, field)?.as_bytes())
    }

    fn mark(&self, field: Field) -> Option<bool> {
        flag_at(self.body?, field.key())
    }

    fn answer(&self, field: Field) -> Option<bool> {
        given_flag_at(self.body?, field.key())
    }

    fn form(&self, field: Field) -> Option<Form> {
        form_at(self.body?, field.key())
    }

    fn days(&self, alloc: Global, field: Field) -> Result<Option<Days>, AllocError> {
        let Some(value) = self.body else {
            return Ok(None);
        };
        match days_at(alloc, value, field.key())? {
            Some(days) => Ok(Some(Days::from_vec(days))),
            None => Ok(None),
        }
    }
}

/// What a verb asks by the target and the body of a message. None where a field has no value of its
/// kind. An error says that there was no memory.
pub fn make_request(
    alloc: Global,
    verb: Verb,
    target: &str,
    body: &[u8],
) -> Result<Option<Request>, AllocError>
    ensures { IfOk result (λ request. request ≡ request_of verb target.now body.now) }
{
    let value = json(alloc, body)?;
    let body = value.as_ref();
    let message = MessageFields { verb, target, body };
    match read_request(alloc, verb, &message) {
        Ok(request) => Ok(Some(request)),
        Err(FieldFault::Bad(_)) => Ok(None),
        Err(FieldFault::Memory) => Err(AllocError),
    }
}

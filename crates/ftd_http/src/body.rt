//! The members of a body.

ghost use Rattle.std.specs.Prelude.{◌≡◌, IfOk, option_map};
ghost use Rattle.serde_json.specs.Find.{get};
ghost use Rattle.serde_json.specs.View.{view, items_view};
ghost use Rattle.ftd_http.specs.Bodies.{json_of, text_at, whole_at, flag_or_false, form_or_941};
ghost use Rattle.ftd_http.specs.Bodies.{days_at, days_in, flag_at};
ghost use Rattle.ftd_http.specs.Values.{form_of};

use ftd_days::Day;
use ftd_rules::Form;
use serde_json::{Category, Value};
use std::alloc::{AllocError, Global};

/// The body as JSON, if it is that.
pub fn json(alloc: Global, body: &[u8]) -> Result<Option<Value>, AllocError>
    ensures { IfOk result (λ value. option_map view value ≡ json_of body.now) }
{
    match Value::from_slice(alloc, body) {
        Ok(value) => Ok(Some(value)),
        Err(e) => match e.classify() {
            Category::Memory => Err(AllocError),
            _ => Ok(None),
        },
    }
}

/// The whole number below 2 ^ 32 at a member.
pub fn whole_at(value: &Value, key: &str) -> Option<u32>
    ensures { result ≡ whole_at key.now (view value.now) }
{
    let n = value.get(key).and_then(Value::as_u64)?;
    u32::try_from(n).ok()
}

/// The text at a member.
pub fn text_at<'a>(value: &'a Value, key: &str) -> Option<&'a str>
    ensures { option_map (λ s. s.now) result ≡ text_at key.now (view value.now) }
{
    value.get(key).and_then(Value::as_str)
}

/// The truth value at a member, false where the member is missing.
pub fn flag_at(value: &Value, key: &str) -> Option<bool>
    ensures { result ≡ flag_or_false (get key.now (view value.now)) }
{
    match value.get(key) {
        None => Some(false),
        Some(member) => member.as_bool(),
    }
}

/// The truth value at a member, which has to be there.
pub fn given_flag_at(value: &Value, key: &str) -> Option<bool>
    ensures { result ≡ flag_at key.now (view value.now) }
{
    value.get(key).and_then(Value::as_bool)
}

/// The form that a member names, Form 941 where the member is missing.
pub fn form_at(value: &Value, key: &str) -> Option<Form>
    ensures { result ≡ form_or_941 (get key.now (view value.now)) }
{
    match value.get(key) {
        None => Some(Form::F941),
        Some(member) => form_in(member.as_str()?),
    }
}

/// The form that a text names.
pub(crate) fn form_in(text: &str) -> Option<Form>
    ensures { result ≡ form_of text.now }
{
    match text {
        "941" => Some(Form::F941),
        "943" => Some(Form::F943),
        _ => None,
    }
}

/// The days of the array at a member.
pub fn days_at(alloc: Global, value: &Value, key: &str) -> Result<Option<Vec<Day>>, AllocError>
    ensures { IfOk result
        (λ days. option_map (λ d. d.items) days ≡ days_at key.now (view value.now)) }
{
    match value.get(key).and_then(Value::as_array) {
        None => Ok(None),
        Some(items) => read_days(alloc, items),
    }
}

/// The days that the items of an array spell.
fn read_days(alloc: Global, items: &[Value]) -> Result<Option<Vec<Day>>, AllocError>
    ensures { IfOk result
        (λ days. option_map (λ d. d.items) days ≡ days_in (items_view items.now)) }
{
    let mut days = Vec::new(alloc);
    for item in items {
        let Some(text) = item.as_str() else {
            return Ok(None);
        };
        let Some(day) = Day::read(text.as_bytes()) else {
            return Ok(None);
        };
        days.push(day)?;
    }
    Ok(Some(days))
}

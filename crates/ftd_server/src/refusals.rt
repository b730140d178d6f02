//! The response to a refusal.

ghost use Rattle.std.specs.Prelude.{◌≡◌, ◌∷◌, IfOk, codes};
ghost use Rattle.ftd_answers.specs.Fields.{members_of, number_field, object_of, text_field};
ghost use Rattle.ftd_days.specs.Text.{quarter_text};
ghost use Rattle.ftd_connections.specs.Responses.{said_of};
ghost use Rattle.ftd_server.specs.Refusals.{name_fields, refused, refusal_fields, refusal_status};

use ftd_answers::Value;
use ftd_connections::{Response, json_response, object_text};
use ftd_days::Quarter;
use ftd_http::Status;
use ftd_machine::{Refusal, Subject};
use itoa::Buffer;
use std::alloc::{AllocError, Global};

/// The response to a refusal.
pub fn refusal_response(alloc: Global, refusal: &Refusal) -> Result<Response, AllocError>
    ensures { IfOk result (λ response. said_of response ≡ refused refusal.now) }
{
    let text = refusal_text(alloc, refusal)?;
    Ok(json_response(refusal_status(refusal), text))
}

/// A refusal as JSON: the year, the quarter or the number that it names, if it names one, its name
/// and its number.
fn refusal_text(alloc: Global, refusal: &Refusal) -> Result<Vec<u8>, AllocError>
    ensures { IfOk result (λ text. text.items
        ≡ object_of (members_of (refusal_fields refusal.now))) }
{
    let name = refusal.name();
    let number = u32::from(refusal.number());
    match refusal.subject() {
        Subject::Nothing => name_text(alloc, name, number),
        Subject::Year(year) => {
            let mut digits = Buffer::new();
            year_text(alloc, digits.format(year), name, number)
        }
        Subject::Quarter(quarter) => quarter_text(alloc, quarter, name, number),
        Subject::Number(count) => count_text(alloc, count, name, number),
    }
}

/// The name and the number of a refusal as JSON.
fn name_text(alloc: Global, name: &str, number: u32) -> Result<Vec<u8>, AllocError>
    ensures { IfOk result (λ text. text.items
        ≡ object_of (members_of (name_fields name.now number))) }
{
    object_text(
        alloc,
        &[
            ("name", Value::Text(name)),
            ("refused", Value::Number(number)),
        ],
    )
}

/// The same, with the year that the refusal names before them.
fn year_text<'a>(
    alloc: Global,
    year: &'a str,
    name: &'a str,
    number: u32,
) -> Result<Vec<u8>, AllocError>
    ensures { IfOk result (λ text. text.items ≡ object_of (members_of
        (text_field (codes "detail") year.now ∷ name_fields name.now number))) }
{
    object_text(
        alloc,
        &[
            ("detail", Value::Text(year)),
            ("name", Value::Text(name)),
            ("refused", Value::Number(number)),
        ],
    )
}

/// The same, with the quarter that it names.
fn quarter_text(
    alloc: Global,
    quarter: Quarter,
    name: &str,
    number: u32,
) -> Result<Vec<u8>, AllocError>
    ensures { IfOk result (λ text. text.items ≡ object_of (members_of
        (text_field (codes "detail") (quarter_text quarter) ∷ name_fields name.now number))) }
{
    object_text(
        alloc,
        &[
            ("detail", Value::Quarter(quarter)),
            ("name", Value::Text(name)),
            ("refused", Value::Number(number)),
        ],
    )
}

/// The same, with how many corrections there are.
fn count_text(alloc: Global, count: u32, name: &str, number: u32) -> Result<Vec<u8>, AllocError>
    ensures { IfOk result (λ text. text.items ≡ object_of (members_of
        (number_field (codes "count") count ∷ name_fields name.now number))) }
{
    object_text(
        alloc,
        &[
            ("count", Value::Number(count)),
            ("name", Value::Text(name)),
            ("refused", Value::Number(number)),
        ],
    )
}

/// The status of a refusal.
pub fn refusal_status(refusal: &Refusal) -> Status
    ensures { result ≡ refusal_status refusal.now }
{
    if refusal.is_failure() {
        Status::InternalServerError
    } else {
        Status::Conflict
    }
}

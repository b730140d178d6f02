//! What a server answers to commands.

ghost use Rattle.std.specs.Prelude.{◌≡◌, Some, IfSome, List, ℕ, option_and_then};
ghost use Rattle.std.specs.String.{string_bytes};
ghost use Rattle.serde_json.specs.View.{view};
ghost use Rattle.ftd.specs.Answered.{IsAnswered, IsBodyOf, Says, status_at, text_at};

use httparse::Status as Parsed;
use httparse::spans::{EMPTY_HEADER_SPAN, parse_response};
use serde_json::Value;
use std::alloc::Global;

/// How many fields the head of a response may have.
const MOST_FIELDS: usize = 16;

/// What a server answers to commands.
#[derive(Drop)]
pub(crate) struct Answer {
    /// What they print on standard output.
    pub(crate) out: String,
    /// What they print on standard error.
    pub(crate) err: String,
    /// The exit status.
    pub(crate) status: u8,
}

/// The body of a response of status 200.
fn body_of(response: &[u8]) -> Option<&[u8]>
    ensures { IfSome result (λ body. IsBodyOf response.now body.now) }
{
    let mut fields = [EMPTY_HEADER_SPAN; MOST_FIELDS];
    match parse_response(response, &mut fields) {
        Ok(Parsed::Complete(head)) if head.code == 200 => Some(&response[head.len..]),
        _ => None,
    }
}

/// The text at a member. None also where there is no memory for it.
fn text_at(alloc: Global, value: &Value, name: &str) -> Option<String>
    ensures { IfSome result
        (λ text. text_at name.now (view value.now) ≡ Some (string_bytes text)) }
{
    let text = value.get(name)?.as_str()?;
    String::from_str(alloc, text).ok()
}

/// The exit status at its member.
fn status_at(value: &Value) -> Option<u8>
    ensures { IfSome result (λ status. status_at (view value.now) ≡ Some status) }
{
    let status = value.get("status")?.as_u64()?;
    u8::try_from(status).ok()
}

/// What the body of a response answers. None if it does not, or if there is no memory.
fn answer_of(alloc: Global, body: &str) -> Option<Answer>
    ensures { IfSome result (λ answer. Says body.now answer) }
{
    let value = Value::from_str(alloc, body).ok()?;
    Some(Answer {
        out: text_at(alloc, &value, "out")?,
        err: text_at(alloc, &value, "err")?,
        status: status_at(&value)?,
    })
}

/// What a response answers. None if it is none of `ftd serve`, or if there is no memory.
pub(crate) fn answer_in(alloc: Global, response: &[u8]) -> Option<Answer>
    ensures { IfSome result (λ answer. IsAnswered response.now answer) }
{
    let body = body_of(response)?;
    answer_of(alloc, str::from_utf8(body).ok()?)
}

//! What a shell wrote, as a response.

ghost use Rattle.std.specs.Prelude.{◌≡◌, IfOk};
ghost use Rattle.std.specs.String.{string_bytes};
ghost use Rattle.serde_json.specs.View.{view};
ghost use Rattle.ftd.specs.Written.{written_data, written_response, written_text};
ghost use Rattle.ftd_connections.specs.Responses.{said_of};

use ftd_connections::{Response, bare_response, json_response};
use ftd_http::Status;
use serde_json::{Value, json};
use std::alloc::{AllocError, Global};

/// What a shell wrote on standard output and standard error, and its exit status, as JSON.
fn written_data(alloc: Global, out: &str, err: &str, status: u8) -> Result<Value, AllocError>
    ensures { IfOk result (λ value. view value ≡ written_data out.now err.now status) }
{
    json!(in alloc; {"err": err, "out": out, "status": status})
}

/// The text of that.
fn written_text(alloc: Global, out: &str, err: &str, status: u8) -> Result<String, AllocError>
    ensures { IfOk result (λ text. string_bytes text ≡ written_text out.now err.now status) }
{
    let value = written_data(alloc, out, err, status)?;
    value.to_string(alloc)
}

/// The response with what a shell wrote and its exit status. JSON holds texts alone: of bytes that
/// are none there is a response without a body.
pub(crate) fn written_response(
    alloc: Global,
    out: &[u8],
    err: &[u8],
    status: u8,
) -> Result<Response, AllocError>
    ensures { IfOk result
        (λ response. said_of response ≡ written_response out.now err.now status) }
{
    let Ok(out) = str::from_utf8(out) else {
        return Ok(bare_response(alloc, Status::InternalServerError));
    };
    let Ok(err) = str::from_utf8(err) else {
        return Ok(bare_response(alloc, Status::InternalServerError));
    };
    let text = written_text(alloc, out, err, status)?;
    Ok(json_response(Status::Okay, text.into_bytes()))
}

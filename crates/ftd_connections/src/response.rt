//! Responses.

ghost use Rattle.std.specs.Prelude.{◌≡◌, Some, IfOk, map};
ghost use Rattle.ftd_answers.specs.Fields.{member_of, object_of};
ghost use Rattle.ftd_ports.specs.Writing.{Writes};
ghost use Rattle.ftd_connections.specs.Responses.{said_of, bare, json, formatted, list_content};
ghost use Rattle.ftd_connections.specs.Responses.{content_of, other_method, page, plain_content};
ghost use Rattle.ftd_connections.specs.Responses.{style_sheet};
ghost use Rattle.ftd_connections.specs.Responses.{status_text, allow_line, content_line};
ghost use Rattle.ftd_connections.specs.Responses.{connection_line, fields_text, head_text};
ghost use Rattle.ftd_connections.specs.Responses.{location_line, owed_line, response_text};
ghost use Rattle.ftd_connections.specs.Responses.{security_lines, see_owed, start_text};
ghost use Rattle.ftd_connections.specs.Responses.{text};

use ftd_answers::{Format, ListFormat, Value, day_bytes, write_object};
use ftd_days::Day;
use ftd_http::{Methods, Status};
use ftd_pages::STYLE;
use ftd_ports::{Port, Target, WriteFault, write_all, write_pieces};
use ftd_verbs::{AnswerFormat, Method};
use itoa::Buffer;
use std::alloc::{AllocError, Global};

/// What a body is.
#[derive(Clone, Copy, Debug, PartialEq, Eq)]
pub enum Content {
    /// There is no body.
    Nothing,
    /// A JSON object.
    Json,
    /// The text of a report.
    Text,
    /// A list as CSV.
    Csv,
    /// A calendar.
    Calendar,
    /// A page of HTML.
    Page,
    /// The style sheet of the pages.
    StyleSheet,
}

/// The page of what is owed.
#[derive(Clone, Copy, Debug, PartialEq, Eq)]
pub struct OwedPage {
    /// The day as of which it is owed.
    pub as_of: Day,
    /// The last day on which it is due.
    pub until: Day,
}

/// A response.
#[derive(Drop)]
pub struct Response {
    /// Its status.
    pub status: Status,
    /// The method that the route has, where the message has another.
    pub allow: Option<Methods>,
    /// The page to which it leads, where it leads to one.
    pub location: Option<OwedPage>,
    /// What the body is.
    pub content: Content,
    /// The bytes of the body.
    pub body: Vec<u8>,
}

/// A response without a body.
pub fn bare_response(alloc: Global, status: Status) -> Response
    ensures { said_of result ≡ bare status }
{
    Response {
        status,
        allow: None,
        location: None,
        content: Content::Nothing,
        body: Vec::new(alloc),
    }
}

/// The response where the route has another method.
pub fn other_method(alloc: Global, allow: Methods) -> Response
    ensures { said_of result ≡ other_method allow }
{
    Response {
        status: Status::MethodNotAllowed,
        allow: Some(allow),
        location: None,
        content: Content::Nothing,
        body: Vec::new(alloc),
    }
}

/// The response that leads to the page of what is owed.
pub fn see_owed(alloc: Global, page: OwedPage) -> Response
    ensures { said_of result ≡ see_owed page }
{
    Response {
        status: Status::SeeOther,
        allow: None,
        location: Some(page),
        content: Content::Nothing,
        body: Vec::new(alloc),
    }
}

/// A response with a body of plain text.
pub fn text_response(alloc: Global, status: Status, body: &str) -> Result<Response, AllocError>
    ensures { IfOk result (λ response. said_of response ≡ text status body.now) }
{
    Ok(Response {
        status,
        allow: None,
        location: None,
        content: Content::Text,
        body: Vec::from_slice(alloc, body.as_bytes())?,
    })
}

/// A response with a JSON body.
pub fn json_response(status: Status, body: Vec<u8>) -> Response
    ensures { said_of result ≡ json status body.items }
{
    Response {
        status,
        allow: None,
        location: None,
        content: Content::Json,
        body,
    }
}

/// What the body of a list in a format is.
fn list_content(format: ListFormat) -> Content
    ensures { result ≡ list_content format }
{
    match format {
        ListFormat::Text => Content::Text,
        ListFormat::Csv => Content::Csv,
        ListFormat::Json => Content::Json,
    }
}

/// What a body with no page around it is.
fn plain_content(format: Format) -> Content
    ensures { result ≡ plain_content format }
{
    match format {
        Format::List(format) => list_content(format),
        Format::Calendar => Content::Calendar,
    }
}

/// What a body in a format is.
fn content_of(format: AnswerFormat) -> Content
    ensures { result ≡ content_of format }
{
    match format {
        AnswerFormat::Plain(format) => plain_content(format),
        AnswerFormat::Page => Content::Page,
    }
}

/// A response with the text of a report in a format.
pub fn report_response(format: AnswerFormat, body: Vec<u8>) -> Response
    ensures { said_of result ≡ formatted format body.items }
{
    Response {
        status: Status::Okay,
        allow: None,
        location: None,
        content: content_of(format),
        body,
    }
}

/// A response with a page.
pub fn page_response(status: Status, body: Vec<u8>) -> Response
    ensures { said_of result ≡ page status body.items }
{
    Response {
        status,
        allow: None,
        location: None,
        content: Content::Page,
        body,
    }
}

/// The response with the style sheet of the pages.
pub fn style_response(alloc: Global) -> Result<Response, AllocError>
    ensures { IfOk result (λ response. said_of response ≡ style_sheet) }
{
    Ok(Response {
        status: Status::Okay,
        allow: None,
        location: None,
        content: Content::StyleSheet,
        body: Vec::from_slice(alloc, STYLE.as_bytes())?,
    })
}

/// The text of an object of JSON with these fields.
pub fn object_text(alloc: Global, fields: &[(&str, Value<'_>)]) -> Result<Vec<u8>, AllocError>
    ensures { IfOk result (λ text. text.items ≡ object_of (map member_of fields.now)) }
{
    let mut port = Port::new(Vec::new(alloc));
    match write_object(fields, &mut port) {
        Ok(()) => Ok(port.into_inner()),
        Err(_) => Err(AllocError),
    }
}

/// Writes a response: with one call of the target, where there is memory for its bytes in a row and
/// the target takes them all. Where the target fails, a prefix of it was written.
pub fn write_response<W: Target>(
    alloc: Global,
    target: &mut W,
    response: &Response,
    closes: bool,
) -> Result<(), WriteFault>
    ensures { Writes result (W.taken target.old) (W.taken target.new)
        (W.failed target.new) (response_text (said_of response.now) closes) }
{
    match response_text(alloc, response, closes) {
        Ok(text) => write_all(target, text.as_slice()),
        Err(_) => write_parts(target, response, closes),
    }
}

/// The bytes of a response in a row.
fn response_text(alloc: Global, response: &Response, closes: bool) -> Result<Vec<u8>, AllocError>
    ensures { IfOk result (λ text. text.items ≡ response_text (said_of response.now) closes) }
{
    let mut port = Port::new(Vec::new(alloc));
    match write_parts(&mut port, response, closes) {
        Ok(()) => Ok(port.into_inner()),
        Err(_) => Err(AllocError),
    }
}

/// Writes a response in its parts.
#[tactic(auto, unfolding(crate::specs::Responses::response_text))]
fn write_parts<W: Target>(
    target: &mut W,
    response: &Response,
    closes: bool,
) -> Result<(), WriteFault>
    ensures { Writes result (W.taken target.old) (W.taken target.new)
        (W.failed target.new) (response_text (said_of response.now) closes) }
{
    write_head(target, response, closes)?;
    write_all(target, response.body.as_slice())
}

/// Writes all of a response but its body.
#[tactic(auto, using(ftd_ports::proofs::WritingFacts::written_in_parts), unfolding(crate::specs::Responses::head_text))]
fn write_head<W: Target>(
    target: &mut W,
    response: &Response,
    closes: bool,
) -> Result<(), WriteFault>
    ensures { Writes result (W.taken target.old) (W.taken target.new)
        (W.failed target.new) (head_text (said_of response.now) closes) }
{
    write_start(target, response)?;
    write_location(target, response.location)?;
    write_fields(target, response, closes)
}

/// Writes the status of a response, and the method of the route, if it names that.
#[tactic(auto, unfolding(crate::specs::Responses::start_text))]
fn write_start<W: Target>(target: &mut W, response: &Response) -> Result<(), WriteFault>
    ensures { Writes result (W.taken target.old) (W.taken target.new)
        (W.failed target.new) (start_text (said_of response.now)) }
{
    write_pieces(
        target,
        &[
            b"HTTP/1.1 ",
            status_text(response.status),
            b"\r\n",
            allow_line(response.allow),
        ],
    )
}

/// Writes the line with the page to which a response leads, if it leads to one.
fn write_location<W: Target>(target: &mut W, location: Option<OwedPage>) -> Result<(), WriteFault>
    ensures { Writes result (W.taken target.old) (W.taken target.new)
        (W.failed target.new) (location_line location) }
{
    match location {
        None => Ok(()),
        Some(page) => write_owed(target, page),
    }
}

/// Writes the line with the page of what is owed.
fn write_owed<W: Target>(target: &mut W, page: OwedPage) -> Result<(), WriteFault>
    ensures { Writes result (W.taken target.old) (W.taken target.new)
        (W.failed target.new) (owed_line page) }
{
    let (as_of, until) = (day_bytes(page.as_of), day_bytes(page.until));
    let pieces: [&[u8]; 5] = [b"Location: /owed/", &as_of, b"/", &until, b"/html\r\n"];
    write_pieces(target, &pieces)
}

/// Writes the lines of the body, that of a connection that closes, and the empty line.
#[tactic(auto, unfolding(crate::specs::Responses::fields_text))]
fn write_fields<W: Target>(
    target: &mut W,
    response: &Response,
    closes: bool,
) -> Result<(), WriteFault>
    ensures { Writes result (W.taken target.old) (W.taken target.new)
        (W.failed target.new) (fields_text (said_of response.now) closes) }
{
    let mut length = Buffer::new();
    write_pieces(
        target,
        &[
            content_line(response.content),
            security_lines(response.content),
            b"Content-Length: ",
            length.format(response.body.len() as u64).as_bytes(),
            b"\r\n",
            connection_line(closes),
            b"\r\n",
        ],
    )
}

/// A status and its reason.
fn status_text(status: Status) -> &'static [u8]
    ensures { result.now ≡ status_text status }
{
    match status {
        Status::Okay => b"200 OK",
        Status::SeeOther => b"303 See Other",
        Status::BadRequest => b"400 Bad Request",
        Status::Forbidden => b"403 Forbidden",
        Status::NotFound => b"404 Not Found",
        Status::MethodNotAllowed => b"405 Method Not Allowed",
        Status::Conflict => b"409 Conflict",
        Status::LengthRequired => b"411 Length Required",
        Status::ContentTooLarge => b"413 Content Too Large",
        Status::InternalServerError => b"500 Internal Server Error",
        Status::NotImplemented => b"501 Not Implemented",
    }
}

/// The line with the methods of the target.
fn allow_line(allow: Option<Methods>) -> &'static [u8]
    ensures { result.now ≡ allow_line allow }
{
    match allow {
        None => b"",
        Some(Methods::Only(Method::Get)) => b"Allow: GET\r\n",
        Some(Methods::Only(Method::Post)) => b"Allow: POST\r\n",
        Some(Methods::Only(Method::Put)) => b"Allow: PUT\r\n",
        Some(Methods::Only(Method::Delete)) => b"Allow: DELETE\r\n",
        Some(Methods::GetAndPost) => b"Allow: GET, POST\r\n",
    }
}

/// The line with the type of the body.
fn content_line(content: Content) -> &'static [u8]
    ensures { result.now ≡ content_line content }
{
    match content {
        Content::Nothing => b"",
        Content::Json => b"Content-Type: application/json\r\n",
        Content::Text => b"Content-Type: text/plain\r\n",
        Content::Csv => b"Content-Type: text/csv\r\n",
        Content::Calendar => b"Content-Type: text/calendar\r\n",
        Content::Page => b"Content-Type: text/html; charset=utf-8\r\n",
        Content::StyleSheet => b"Content-Type: text/css; charset=utf-8\r\n",
    }
}

/// The security headers of a page. It loads the server's style sheet and nothing else; its forms
/// are sent to this server alone; no other page shows it in a frame; its links have no other base.
/// Its type is not guessed, its address is not sent to other sites, and no copy of it is kept.
const SECURITY_LINES: &[u8] = b"\
    Content-Security-Policy: default-src 'none'; style-src 'self'; form-action 'self'; \
    frame-ancestors 'none'; base-uri 'none'\r\n\
    X-Content-Type-Options: nosniff\r\n\
    Referrer-Policy: same-origin\r\n\
    Cache-Control: no-store\r\n";

/// The lines with the security headers of a page.
#[tactic(auto, unfolding(crate::specs::Responses::page_security))]
fn security_lines(content: Content) -> &'static [u8]
    ensures { result.now ≡ security_lines content }
{
    match content {
        Content::Page => SECURITY_LINES,
        Content::Nothing
        | Content::Json
        | Content::Text
        | Content::Csv
        | Content::Calendar
        | Content::StyleSheet => b"",
    }
}

/// The line of a connection that closes.
fn connection_line(closes: bool) -> &'static [u8]
    ensures { result.now ≡ connection_line closes }
{
    if closes {
        b"Connection: close\r\n"
    } else {
        b""
    }
}

//! The response to what is asked.

ghost use Rattle.std.specs.Prelude.{◌≡◌, IfOk, OnErr};
ghost use Rattle.ftd_server.specs.Replying.{Responds, account_in, answered, named, posted};
ghost use Rattle.ftd_server.specs.Replying.{replied};
ghost use Rattle.ftd_connections.specs.Responses.{Said, said_of};
ghost use Rattle.ftd_server.specs.Tables.{handles};

use crate::facts::facts_said;
use crate::refused::refused_as;
use ftd_answers::Value;
use ftd_connections::{
    Response, bare_response, json_response, object_text, other_method, style_response,
};
use ftd_days::Day;
use ftd_desk::Desk;
use ftd_http::{Inquiry, Status};
use ftd_machine::{Answer, Difference, Reply, Request, is_bounded};
use ftd_verbs::AnswerFormat;
use sqlite::Alter;
use std::alloc::{AllocError, Global};

/// The response of a desk to what is asked, on the day of today, if it is known. A desk alone
/// answers requests, and no commands; it tells no journals, and has no first page, none of an
/// account, and no forms. Where there is no memory for the response, the desk has answered all the
/// same.
pub fn desk_response<S: Alter>(
    alloc: Global,
    desk: &mut Desk<S>,
    today: Option<Day>,
    asked: &Inquiry,
) -> Result<Response, AllocError>
    ensures ok { IfOk result (λ response.
        Responds (handles S.Store) today desk.old asked.now (said_of response) desk.new) }
    ensures err { OnErr result
        ((said : Said) × Responds (handles S.Store) today desk.old asked.now said desk.new) }
{
    match asked {
        Inquiry::NoRoute => Ok(bare_response(alloc, Status::NotFound)),
        Inquiry::OtherMethod(allow) => Ok(other_method(alloc, *allow)),
        Inquiry::BadForm => Ok(bare_response(alloc, Status::BadRequest)),
        Inquiry::Home
        | Inquiry::Commands
        | Inquiry::Journal(_)
        | Inquiry::Account(_)
        | Inquiry::Forms
        | Inquiry::Form { .. }
        | Inquiry::Sent(_) => Ok(bare_response(alloc, Status::NotFound)),
        Inquiry::StyleSheet => style_response(alloc),
        Inquiry::Asks { format, request } => {
            let answer = desk.handle(request);
            answered(alloc, today, *format, account_in(request), &answer)
        }
    }
}

/// The account that a question names. Empty where it names none.
fn account_in(request: &Request) -> &str
    ensures { result.now ≡ account_in request.now }
{
    match request {
        Request::Question(question) => match question.account() {
            Some(account) => account.as_str(),
            None => "",
        },
        _ => "",
    }
}

/// The response to an answer to what names this account, or none.
fn answered(
    alloc: Global,
    today: Option<Day>,
    format: AnswerFormat,
    account: &str,
    answer: &Answer,
) -> Result<Response, AllocError>
    ensures { IfOk result (λ response. said_of response
        ≡ answered today format account.now answer.now) }
{
    match answer {
        Ok(reply) => replied(alloc, today, format, reply),
        Err(refusal) => refused_as(alloc, today, format, account, refusal),
    }
}

/// The response to a reply. The amounts of one account that a desk answers come to less than
/// 6,000,000,000,000,000 cents; a list of others has no text.
fn replied(
    alloc: Global,
    today: Option<Day>,
    format: AnswerFormat,
    reply: &Reply,
) -> Result<Response, AllocError>
    ensures { IfOk result (λ response. said_of response ≡ replied today format reply.now) }
{
    if !is_bounded(reply) {
        return Err(AllocError);
    }
    match reply {
        Reply::Done => named(alloc, "done"),
        Reply::Already => named(alloc, "already"),
        Reply::Posted(difference) => posted(alloc, difference),
        Reply::Told(facts) => facts_said(alloc, today, format, facts),
    }
}

/// A response with the name of a reply alone.
fn named(alloc: Global, reply: &str) -> Result<Response, AllocError>
    ensures { IfOk result (λ response. said_of response ≡ named reply.now) }
{
    let text = object_text(alloc, &[("reply", Value::Text(reply))])?;
    Ok(json_response(Status::Okay, text))
}

/// The response with how many obligations were removed and added, and their days.
fn posted(alloc: Global, difference: &Difference) -> Result<Response, AllocError>
    ensures { IfOk result (λ response. said_of response ≡ posted difference.now) }
{
    let fields = [
        ("added", Value::Count(difference.added.as_slice().len())),
        ("from", Value::Day(difference.from)),
        ("removed", Value::Count(difference.removed.as_slice().len())),
        ("reply", Value::Text("posted")),
        ("to", Value::Day(difference.to)),
    ];
    Ok(json_response(Status::Okay, object_text(alloc, &fields)?))
}

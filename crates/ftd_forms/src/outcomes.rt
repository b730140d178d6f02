//! What came of a form that was sent, and the page that tells it.

ghost use Rattle.std.specs.Prelude.{◌≡◌, ◌==◌, IfOk, map};
ghost use Rattle.ftd_http.specs.Controls.{seen};
ghost use Rattle.ftd_site.specs.Controls.{pair_of};
ghost use Rattle.ftd_connections.specs.Responses.{said_of};
ghost use Rattle.ftd_forms.specs.Sent.{HasCome, IsSentPage, status_for, texts_of};

use crate::asking::SentForm;
use ftd_connections::{Response, page_response};
use ftd_days::Day;
use ftd_http::{Control, Status};
use ftd_ports::Port;
use ftd_server::server_frame;
use ftd_site::{Filled, Outcome, write_sent_form};
use std::alloc::{AllocError, Global};

/// The status of the response to what ended with this exit status.
pub(crate) fn status_for(exit: u8) -> Status
    ensures { result ≡ status_for exit }
{
    match exit {
        0 => Status::Okay,
        1 => Status::Conflict,
        _ => Status::InternalServerError,
    }
}

/// What came of what ended with this exit status, and wrote this.
pub(crate) fn outcome_of<'a>(exit: u8, out: &'a [u8], err: &'a [u8]) -> Outcome<'a>
    ensures { HasCome (exit == 0) out.now err.now result }
{
    if exit == 0 {
        Outcome::Done {
            answer: out,
            below: err,
        }
    } else {
        Outcome::Refused(err)
    }
}

/// What was filled in.
fn filled_with<'c>(alloc: Global, controls: &'c [Control]) -> Result<Vec<Filled<'c>>, AllocError>
    ensures { IfOk result
        (λ filled. map pair_of filled.items ≡ texts_of (map seen controls.now)) }
{
    let mut filled = Vec::new(alloc);
    for control in controls {
        filled.push(Filled {
            name: &control.name,
            text: &control.text,
        })?;
    }
    Ok(filled)
}

/// The response with the page of what came of a form.
pub(crate) fn sent_page(
    alloc: Global,
    today: &Option<Day>,
    form: &SentForm<'_>,
    status: Status,
    outcome: &Outcome<'_>,
) -> Result<Response, AllocError>
    ensures { IfOk result (λ response. IsSentPage today.now form.now.verb
        (map seen form.now.controls.now) status outcome.now (said_of response)) }
{
    let filled = filled_with(alloc, form.controls)?;
    let frame = server_frame(*today);
    let mut port = Port::new(Vec::new(alloc));
    match write_sent_form(&frame, form.verb, &filled, outcome, &mut port) {
        Ok(()) => Ok(page_response(status, port.into_inner())),
        Err(_) => Err(AllocError),
    }
}

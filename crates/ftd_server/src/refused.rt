//! The response to a refusal, in the format of what was asked.

ghost use Rattle.std.specs.Prelude.{◌≡◌, IfOk};
ghost use Rattle.ftd_site.specs.Refusals.{refused_page};
ghost use Rattle.ftd_server.specs.Refusals.{refusal_status};
ghost use Rattle.ftd_server.specs.Replying.{refused_as, server_frame};
ghost use Rattle.ftd_connections.specs.Responses.{page, said_of};

use crate::facts::server_frame;
use crate::refusals::{refusal_response, refusal_status};
use ftd_connections::{Response, page_response};
use ftd_days::Day;
use ftd_machine::Refusal;
use ftd_ports::Port;
use ftd_site::write_refused_page;
use ftd_verbs::AnswerFormat;
use std::alloc::{AllocError, Global};

/// The response with the page of a refusal.
fn refused_page(
    alloc: Global,
    today: Option<Day>,
    account: &str,
    refusal: &Refusal,
) -> Result<Response, AllocError>
    ensures { IfOk result (λ response. said_of response ≡ page (refusal_status refusal.now)
        (refused_page (server_frame today) account.now refusal.now)) }
{
    let frame = server_frame(today);
    let mut port = Port::new(Vec::new(alloc));
    match write_refused_page(&frame, account, refusal, &mut port) {
        Ok(()) => Ok(page_response(refusal_status(refusal), port.into_inner())),
        Err(_) => Err(AllocError),
    }
}

/// The response to the refusal of what names this account, or none, in the format of what was
/// asked; a page is that of the day of today, if it is known.
pub fn refused_as(
    alloc: Global,
    today: Option<Day>,
    format: AnswerFormat,
    account: &str,
    refusal: &Refusal,
) -> Result<Response, AllocError>
    ensures { IfOk result (λ response. said_of response
        ≡ refused_as today format account.now refusal.now) }
{
    match format {
        AnswerFormat::Plain(_) => refusal_response(alloc, refusal),
        AnswerFormat::Page => refused_page(alloc, today, account, refusal),
    }
}

//! The response to who asks for the page that lists forms.

ghost use Rattle.std.specs.Prelude.{◌≡◌, IfOk};
ghost use Rattle.ftd_forms.specs.Shown.{forms_said};
ghost use Rattle.ftd_connections.specs.Responses.{said_of};

use ftd_connections::{Response, page_response};
use ftd_days::Day;
use ftd_http::Status;
use ftd_ports::Port;
use ftd_server::server_frame;
use ftd_site::write_form_list;
use std::alloc::{AllocError, Global};

/// The response with the page that lists forms, on the day of today, if it is known. An error says
/// that there was no memory.
pub fn form_list_response(alloc: Global, today: Option<Day>) -> Result<Response, AllocError>
    ensures { IfOk result (λ response. said_of response ≡ forms_said today) }
{
    let frame = server_frame(today);
    let mut port = Port::new(Vec::new(alloc));
    match write_form_list(&frame, &mut port) {
        Ok(()) => Ok(page_response(Status::Okay, port.into_inner())),
        Err(_) => Err(AllocError),
    }
}

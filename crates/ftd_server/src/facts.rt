//! The response to what is told.

ghost use Rattle.std.specs.Prelude.{◌≡◌, IfOk};
ghost use Rattle.ftd_machine.specs.Questions.{AreBounded};
ghost use Rattle.ftd_pages.specs.Formats.{facts_as};
ghost use Rattle.ftd_server.specs.Replying.{server_frame, ways_on};
ghost use Rattle.ftd_connections.specs.Responses.{formatted, said_of};

use ftd_connections::{Response, report_response, shown_until};
use ftd_days::Day;
use ftd_machine::Facts;
use ftd_pages::{Frame, Style, Ways, write_facts_as};
use ftd_ports::Port;
use ftd_verbs::AnswerFormat;
use std::alloc::{AllocError, Global};

/// The ways of the server's pages on the day of today. Where the day is not known, there are none.
fn ways_on(today: Option<Day>) -> Ways
    ensures { result ≡ ways_on today }
{
    match today {
        None => Ways::Nowhere,
        Some(today) => Ways::From {
            today,
            until: shown_until(today),
        },
    }
}

/// The frame of the server's pages on the day of today: their style sheet is a route.
pub fn server_frame(today: Option<Day>) -> Frame
    ensures { result ≡ server_frame today }
{
    Frame {
        style: Style::Linked,
        ways: ways_on(today),
    }
}

/// The response to what is told, in a format where it has several; on the day of today, if it is
/// known.
pub fn facts_said(
    alloc: Global,
    today: Option<Day>,
    format: AnswerFormat,
    facts: &Facts,
) -> Result<Response, AllocError>
    requires bounded { AreBounded facts.now }
    ensures { IfOk result (λ response. said_of response
        ≡ formatted format (facts_as (server_frame today) format facts.now)) }
{
    let frame = server_frame(today);
    let mut port = Port::new(Vec::new(alloc));
    match write_facts_as(&frame, format, facts, &mut port) {
        Ok(()) => Ok(report_response(format, port.into_inner())),
        Err(_) => Err(AllocError),
    }
}

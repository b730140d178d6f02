//! The response to who asks for the first page.

ghost use Rattle.std.specs.Prelude.{◌≡◌, IfOk};
ghost use Rattle.ftd_connections.specs.Home.{home};
ghost use Rattle.ftd_connections.specs.Responses.{said_of};

use crate::ahead::shown_until;
use crate::response::{OwedPage, Response, see_owed, text_response};
use ftd_days::Day;
use ftd_http::Status;
use std::alloc::{AllocError, Global};

/// What is told where the day of today is not known, as a command tells it.
const NO_CLOCK: &str = "failed Clock\nhint: today's date can't be read; \
    open /owed/ASOF/UNTIL/html with days of your own\n";

/// The response to who asks for the first page on the day of today: it leads to the page of what is
/// owed. Where the day is not known, it says so.
pub fn home_response(alloc: Global, today: Option<Day>) -> Result<Response, AllocError>
    ensures { IfOk result (λ response. said_of response ≡ home today) }
{
    match today {
        Some(as_of) => {
            let until = shown_until(as_of);
            Ok(see_owed(alloc, OwedPage { as_of, until }))
        }
        None => text_response(alloc, Status::InternalServerError, NO_CLOCK),
    }
}

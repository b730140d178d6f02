//! Connections over anything that answers messages: messages of HTTP and their answers, streams
//! with limits of time, and those of a listener, taken one after the other.
#![tactic(auto)]

mod ahead;
mod announcing;
mod arrivals;
mod closing;
mod connection;
mod home;
pub mod laws;
mod limits;
mod lines;
mod machine;
mod outcome;
mod response;
mod serving;
mod socket;
mod stop;
mod timed;
mod watched;
mod wire;

pub use crate::ahead::shown_until;
pub use crate::announcing::announce;
pub use crate::arrivals::{Arrival, Arrivals, Connection};
pub use crate::closing::end;
pub use crate::connection::{Cause, End, ServeFault, ServedConnection, serve_machine};
pub use crate::home::home_response;
pub use crate::limits::Limits;
pub use crate::lines::tell_outcome;
pub use crate::machine::Machine;
pub use crate::outcome::{Outcome, Turn};
pub use crate::response::{
    Content, OwedPage, Response, bare_response, json_response, object_text, other_method,
    page_response, report_response, style_response,
};
pub use crate::serving::serve_on;
pub use crate::socket::Socket;
pub use crate::stop::Stop;
pub use crate::timed::{TimedStream, Timer};
pub use crate::watched::{Watch, Watched};
pub use crate::wire::{Waits, Wire};

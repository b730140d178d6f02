//! Messages of HTTP, read from a source.
//! What messages ask: routes, parts of paths, and bodies.
#![tactic(auto)]

mod ask;
mod body;
mod controls;
mod fields;
mod form_fields;
mod forms;
pub mod laws;
mod lengths;
mod look;
mod message_fields;
mod origins;
mod path;
mod peer;
mod read;
mod route;
mod status;
mod values;

pub use crate::ask::{Inquiry, Methods, Payable, method_bytes, what_is_asked};
pub use crate::controls::{Control, are_of_form, read_controls, text_at};
pub use crate::form_fields::read_form;
pub use crate::lengths::{BODY_LIMIT, number_in};
pub use crate::look::{HEAD_LIMIT, Parts};
pub use crate::peer::Peer;
pub use crate::read::{Next, ReadFault, next_message};
pub use crate::route::{Route, make_router};
pub use crate::status::Status;

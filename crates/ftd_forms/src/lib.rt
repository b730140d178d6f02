//! Forms over a desk: what a server answers to who asks for one, and to who sends one.
#![tactic(auto)]

mod asking;
mod given;
mod lists;
mod outcomes;
mod sent;
mod shown;

pub use crate::lists::form_list_response;
pub use crate::sent::{Setting, sent_response};
pub use crate::shown::{Named, form_response};

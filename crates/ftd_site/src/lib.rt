//! The pages that a server alone has: of an account, of forms, of what came of a form, and of why a
//! question is not answered.
#![tactic(auto)]

mod account_pages;
mod accounts;
mod controls;
mod form_lists;
mod form_words;
mod forms;
mod refusals;
mod sent_forms;
mod year_ways;

pub use crate::account_pages::write_account_page;
pub use crate::controls::Filled;
pub use crate::form_lists::write_form_list;
pub use crate::forms::{has_form, write_form};
pub use crate::refusals::write_refused_page;
pub use crate::sent_forms::{Outcome, write_sent_form};

//! What must be deposited: for a quarter, and over all accounts. Each question is one function on a
//! transaction, whose contract is the machine's step. A due list is also told row by row, on the
//! store, and what a refusal can be mended by is read there.
#![tactic(auto)]

mod agenda_rows;
mod agendas;
mod asking;
mod due;
mod due_rows;
mod faults;
mod listing;
mod meant;
mod missing;
mod names;
mod telling;
mod walking;

pub use crate::agendas::{agenda, owed_list};
pub use crate::due::due_list;
pub use crate::faults::{DueFault, refusal_of};
pub use crate::meant::meant_account;
pub use crate::missing::{
    enrolled_account, first_year, given_days, is_unused, kept_payment, kept_run, missing_quarters,
};
pub use crate::names::nearest;
pub use crate::telling::due_into;

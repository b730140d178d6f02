//! Requests that enter something into the desk's tables: accounts, calendars, reported totals, open
//! years, payments. Each is one function on a transaction, whose contract is the machine's step.
//! `laws` says what new and migrated tables stand for.
//! What several questions ask of the tables: all accounts, by name, and of one account what its
//! return period has, its liability and its payments.
#![tactic(auto)]

mod account_list;
mod accounts;
mod beginnings;
mod calendars;
mod in_force;
pub mod laws;
mod lookbacks;
mod open_years;
mod payments;
mod reported;
mod return_periods;
mod years;

pub use crate::account_list::all_accounts;
pub use crate::accounts::{enrol, enrolment, known_account};
pub use crate::beginnings::{correct_account, is_unused};
pub use crate::calendars::take_calendar;
pub use crate::in_force::figure;
pub use crate::lookbacks::lookback_total;
pub use crate::open_years::open_year;
pub use crate::payments::{pay, void_payment};
pub use crate::reported::{first_reported, report};
pub use crate::return_periods::{ReturnFacts, payments_of, return_period};
pub use crate::years::{has_year, is_open};

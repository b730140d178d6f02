//! Whether what is kept is what requests may have entered, decided without a store: the days, and
//! account by account.
#![tactic(auto)]

mod days;
mod figures;
pub mod laws;
mod limits;
mod lines;
mod once;
mod own;
mod payments;
mod runs;
mod starts;
mod totals;
mod years;

pub use crate::days::{Calendar, DayChange, days_are_sound};
pub use crate::own::{Own, assess_own};

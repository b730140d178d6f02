//! Requests that post a pay run or void one, and those that correct a total. Each is one function
//! on a transaction, whose contract is the machine's step.
//! A holiday is added to a year whose calendar was given, or a day of it is taken back as one or
//! made one again. Of the other rows only due dates change, of whatever accounts, and of these only
//! those that count the day.
#![tactic(auto)]

mod adding;
mod books;
mod changing;
mod correcting;
mod known_runs;
mod moving;
mod posting;
mod reading;
mod totals;

pub use crate::adding::add_holiday;
pub use crate::books::Book;
pub use crate::changing::change_holiday;
pub use crate::correcting::correct_total;
pub use crate::posting::{post, void};

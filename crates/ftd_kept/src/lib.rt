//! What is kept: accounts, open years, reported totals, holidays and pay runs. Each is one function
//! on a transaction, whose contract is the machine's step.
//! What the tables tell of one account's days: the deposit schedule of a day and why, the liability
//! of a quarter by day, why an obligation is so, and the payments, with the obligation that each
//! counts for; and over all accounts, which money counts for nothing. Each question is one function
//! on a transaction, whose contract is the machine's step.
#![tactic(auto)]

mod explaining;
mod holiday_rows;
mod liable;
mod lists;
mod paid;
mod payment_rows;
mod rows;
mod schedules;
mod unapplied_rows;
mod year_rows;

pub use crate::explaining::explain;
pub use crate::liable::schedule_b;
pub use crate::lists::{accounts, holidays, reported_totals, runs, years};
pub use crate::paid::payments;
pub use crate::schedules::status;
pub use crate::unapplied_rows::unapplied_money;

//! Repair of an account's rows after its runs of one day have changed, or the lookback total of one
//! of its years, whatever the tables hold.
//!
//! Of the account's obligations those are read and replaced that the change reaches, and of its
//! open years those whose opening or turn differs. No other row is touched.
#![tactic(auto)]

mod comparing;
mod ledgers;
mod patching;
mod placing;
mod posting;
mod reading;
mod reopening;
mod repairing;
mod retotaling;
mod summing;
mod windows;

pub use crate::ledgers::Ledger;
pub use crate::posting::{add_repaired, void_repaired};
pub use crate::reading::KnownYears;
pub use crate::retotaling::correct_lookback;

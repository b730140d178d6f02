//! The desk's values as rows of the database, and back.
//!
//! Contracts say exactly which cells stand for the value that is read. A row that is no value of
//! its type is answered as `StoreFault::Failed`.
//! The store of the desk: typed rows in the sixteen tables of a database.
//!
//! Contracts see a store as what its connection shows, and that as a list of typed rows for each
//! table. They say what is so where the disk below told no lie.
#![tactic(auto)]

mod account_cells;
mod accounts;
mod added;
mod added_cells;
mod calendar_cells;
mod calendars;
mod cells;
mod correction_cells;
mod corrections;
mod counts;
mod day_sum_cells;
mod faults;
mod holidays;
mod kept;
mod kept_cells;
mod obligation_cells;
mod obligation_rows;
mod obligations;
mod opening;
mod payment_cells;
mod payments;
mod reader;
mod readings;
mod reported;
mod run_cells;
mod runs;
mod store;
mod tx;
mod year_cells;
mod years;

pub use crate::account_cells::Account;
pub use crate::added_cells::{QuarterCorrection, YearCorrection, YearHoliday, YearHolidayChange};
pub use crate::cells::{
    StoredCents, StoredDay, StoredFlag, StoredForm, StoredRule, StoredSchedule,
};
pub use crate::correction_cells::{AccountCorrection, Correction, HolidayChange, as_corrected};
pub use crate::day_sum_cells::{add_cents, sum_of, sums_of};
pub use crate::faults::StoreFault;
pub use crate::holidays::is_kept;
pub use crate::kept_cells::{
    NamedAccount, NamedForm, NumberedPayment, NumberedRun, QuarterTotal, YearTotal,
};
pub use crate::obligation_cells::AccountObligation;
pub use crate::obligation_rows::{next_obligation, rows_of};
pub use crate::reader::{FromRow, all, only};
pub use crate::store::Store;
pub use crate::tx::Tx;
pub use crate::year_cells::{StoredYear, open_years, stored_turn};

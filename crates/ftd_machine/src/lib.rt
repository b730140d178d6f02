//! The deposit desk as a machine: what may be asked of it, what it answers, and what it keeps.
//!
//! The definitions stand in `specs/`: `State` is what is kept, `Requests` has the checks of each
//! request in their order, and `Step` says what a request is answered and what is kept then. The
//! functions here are the checks, decided without a store; contracts see a request as its values.
#![tactic(auto)]

mod checks;
mod corrections;
mod entries;
mod explained;
mod facts;
mod kept;
pub mod laws;
mod limits;
mod lists;
mod replies;
mod requests;

pub use crate::checks::{
    Answer, add_holiday_check, agenda_check, calendar_check, due_list_check, enrol_check,
    holidays_check, kept_in_quarter_check, kept_of_check, open_year_check, owed_check, pay_check,
    post_check, report_check, schedule_b_check, status_check, unapplied_check, void_check,
    void_payment_check,
};
pub use crate::corrections::{change_holiday_check, correct_account_check, correct_total_check};
pub use crate::entries::{Account, Beginning, ReturnPeriod};
pub use crate::explained::{
    CountedDay, CountedDays, DayKind, Explanation, RunningSum, RunningSums,
};
pub use crate::facts::{
    Agenda, DaySchedule, DueList, ExplainedDay, Facts, LiabilityByDay, OwedList, UnappliedList,
};
pub use crate::kept::{
    KeptAccount, KeptAccounts, KeptHoliday, KeptHolidays, KeptPayment, KeptPayments, KeptRows,
    KeptRun, KeptRuns, KeptTotal, KeptTotals, KeptYear, KeptYears,
};
pub use crate::limits::{
    FIRST_REPORTED_YEAR, MOST_ENTRIES, MOST_NUMBER, are_rising, are_sums_bounded,
};
pub use crate::lists::{
    AccountName, AgendaRow, AgendaRows, DaySums, Days, DueRows, UnappliedRow, UnappliedRows,
};
pub use crate::replies::{Difference, Reason, Refusal, Reply, Subject, is_bounded};
pub use crate::requests::{Correction, Entry, KeptList, Question, Request};

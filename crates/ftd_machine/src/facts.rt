//! What the desk tells where it is asked.

ghost use Rattle.std.specs.Prelude.{◌↔◌, IsTrue};
ghost use Rattle.ftd_machine.specs.Questions.{AreBounded};

use crate::explained::Explanation;
use crate::kept::KeptRows;
use crate::limits::{are_rows_bounded, are_sums_bounded};
use crate::lists::{AccountName, AgendaRows, DaySums, DueRows, UnappliedRows};
use crate::replies::Reason;
use ftd_days::{Day, Quarter};
use ftd_rules::Kind;

/// The deposit schedule of a day.
#[derive(Clone, Copy, Debug, PartialEq, Eq)]
pub struct DaySchedule {
    /// The day.
    pub day: Day,
    /// The schedule.
    pub kind: Kind,
    /// Why the account has it.
    pub reason: Reason,
}

/// Why the obligation of an account is so whose deposit period holds a day.
#[derive(Drop)]
pub struct ExplainedDay {
    /// The account.
    pub account: AccountName,
    /// The day.
    pub day: Day,
    /// Why it is so. None where no obligation's deposit period holds the day.
    pub found: Option<Explanation>,
}

/// The due list of an account's quarter as of a day.
#[derive(Drop)]
pub struct DueList {
    /// The account.
    pub account: AccountName,
    /// The quarter.
    pub quarter: Quarter,
    /// The day as of which it is told.
    pub as_of: Day,
    /// Its rows, by first day.
    pub rows: DueRows,
}

/// The liability of an account's quarter by day, as Schedule B of Form 941 shows it.
#[derive(Drop)]
pub struct LiabilityByDay {
    /// The account.
    pub account: AccountName,
    /// The quarter.
    pub quarter: Quarter,
    /// The days that have liability, by day.
    pub sums: DaySums,
}

/// What is due between two days, both included, over all accounts, as of a day.
#[derive(Drop)]
pub struct Agenda {
    /// The first of the days.
    pub from: Day,
    /// The last of the days.
    pub to: Day,
    /// The day as of which it is told.
    pub as_of: Day,
    /// Its rows, by due date, then by account, then by first day.
    pub rows: AgendaRows,
}

/// What is due until a day over all accounts, and not paid as of a day.
#[derive(Drop)]
pub struct OwedList {
    /// The day until which it is due.
    pub until: Day,
    /// The day as of which it is told.
    pub as_of: Day,
    /// Its rows, in the order of those of an agenda.
    pub rows: AgendaRows,
}

/// Money that counts for nothing, over all accounts, of the days up to one.
#[derive(Drop)]
pub struct UnappliedList {
    /// The last of the days.
    pub until: Day,
    /// Its rows, by account, first day and number.
    pub rows: UnappliedRows,
}

/// What the desk tells, with what it was asked for.
#[derive(Drop)]
pub enum Facts {
    /// The deposit schedule of a day.
    Status(DaySchedule),
    /// Why an obligation is so.
    Explained(ExplainedDay),
    /// A due list.
    Due(DueList),
    /// The liability of a quarter by day.
    Days(LiabilityByDay),
    /// What is due between two days over all accounts.
    Agenda(Agenda),
    /// What is due until a day over all accounts, and not paid.
    Owed(OwedList),
    /// Money that counts for nothing, over all accounts.
    Unapplied(UnappliedList),
    /// What is kept.
    Kept(KeptRows),
}

/// Whether the amounts of a list of one account that is told are together below
/// 6,000,000,000,000,000 cents, as those of an account are. What is due over all accounts has no
/// such limit: each of its amounts is below it.
pub(crate) fn are_bounded(facts: &Facts) -> bool
    ensures { IsTrue result ↔ AreBounded facts.now }
{
    match facts {
        Facts::Due(list) => are_rows_bounded(list.rows.as_slice()),
        Facts::Days(list) => are_sums_bounded(list.sums.as_slice()),
        _ => true,
    }
}

//! Why an obligation is so, as it is told.

use crate::kept::KeptPayments;
use crate::replies::Reason;
use ftd_days::{Cents, Day};
use ftd_rules::{Kind, ListOf, Obligation};

/// A payday of an obligation. Amounts are in cents.
#[derive(Clone, Copy, Debug, PartialEq, Eq)]
pub struct RunningSum {
    /// The payday.
    pub day: Day,
    /// The liability of the day.
    pub cents: Cents,
    /// The liability of the obligation's days up to this one. Where it is 100,000.00 or more, the
    /// deposit is due on the next business day.
    pub total: Cents,
}

/// What a day is to the counting of business days.
#[derive(Clone, Copy, Debug, PartialEq, Eq)]
pub enum DayKind {
    /// A business day.
    Business,
    /// A Saturday.
    Saturday,
    /// A Sunday.
    Sunday,
    /// A legal holiday that is no Saturday and no Sunday.
    Holiday,
}

/// A day on the way to a due date.
#[derive(Clone, Copy, Debug, PartialEq, Eq)]
pub struct CountedDay {
    /// The day.
    pub day: Day,
    /// What it is.
    pub kind: DayKind,
}

/// Paydays of an obligation.
pub type RunningSums = ListOf<RunningSum>;

/// Days on the way to a due date.
pub type CountedDays = ListOf<CountedDay>;

/// Why an obligation is so.
#[derive(Drop)]
pub struct Explanation {
    /// The obligation.
    pub obligation: Obligation,
    /// The deposit schedule on its first day.
    pub kind: Kind,
    /// Why the account has that schedule.
    pub reason: Reason,
    /// Its paydays, rising.
    pub paydays: RunningSums,
    /// The days that are counted to its due date, rising, up to the due date itself.
    pub days: CountedDays,
    /// When the return is due on which its liability is reported.
    pub return_due: Day,
    /// The payments that count for it, by the day that they are for and number. None is void.
    pub payments: KeptPayments,
}

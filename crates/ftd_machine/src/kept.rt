//! What is kept, as it is told.

use crate::entries::{Account, ReturnPeriod};
use crate::lists::AccountName;
use ftd_days::{Cents, Day, Quarter};
use ftd_rules::{ListOf, PayRun, Payment, YearLine};

/// An account that is enrolled.
#[derive(Drop)]
pub struct KeptAccount {
    /// Its name.
    pub name: AccountName,
    /// What it was enrolled with.
    pub account: Account,
}

/// A year that is open.
#[derive(Clone, Copy, Debug, PartialEq, Eq)]
pub struct KeptYear {
    /// Its line, by the totals that are in force.
    pub line: YearLine,
    /// Its lookback total by the totals as they were first reported, in cents.
    pub first_lookback: Cents,
}

/// A total that was reported, for a quarter on Form 941 or for a year on Form 943. Amounts are in
/// cents.
#[derive(Clone, Copy, Debug, PartialEq, Eq)]
pub struct KeptTotal {
    /// The quarter or the year.
    pub period: ReturnPeriod,
    /// As it is in force.
    pub cents: Cents,
    /// As it was first reported.
    pub first: Cents,
}

/// A day that was given or added as a holiday.
#[derive(Clone, Copy, Debug, PartialEq, Eq)]
pub struct KeptHoliday {
    /// The day.
    pub day: Day,
    /// Whether it was added after the calendar of its year had been given.
    pub added: bool,
    /// Whether it is a holiday. Where it is none, it was taken back.
    pub is_holiday: bool,
}

/// A pay run, void or not.
#[derive(Clone, Copy, Debug, PartialEq, Eq)]
pub struct KeptRun {
    /// Its number.
    pub number: u32,
    /// The run.
    pub run: PayRun,
    /// Whether it was voided.
    pub voided: bool,
}

/// A payment, void or not.
#[derive(Clone, Copy, Debug, PartialEq, Eq)]
pub struct KeptPayment {
    /// Its number.
    pub number: u32,
    /// The payment.
    pub payment: Payment,
    /// Whether it was voided. Then it counts for nothing.
    pub voided: bool,
    /// The first day of the obligation whose deposit period holds the day that the payment is for,
    /// if there is one. Where there is none, the payment counts for no obligation.
    pub obligation: Option<Day>,
}

/// Accounts.
pub type KeptAccounts = ListOf<KeptAccount>;

/// Open years.
pub type KeptYears = ListOf<KeptYear>;

/// Reported totals.
pub type KeptTotals = ListOf<KeptTotal>;

/// Days that were given or added as holidays.
pub type KeptHolidays = ListOf<KeptHoliday>;

/// Pay runs.
pub type KeptRuns = ListOf<KeptRun>;

/// Payments.
pub type KeptPayments = ListOf<KeptPayment>;

/// What is kept, with what it was asked for.
#[derive(Drop)]
pub enum KeptRows {
    /// The accounts, by name.
    Accounts {
        rows: KeptAccounts,
    },
    /// The open years of an account, by year.
    Years {
        account: AccountName,
        rows: KeptYears,
    },
    /// The totals that an account reported, by quarter or year.
    Reported {
        account: AccountName,
        rows: KeptTotals,
    },
    /// The days of a year that were given as holidays, rising, then those that were added, rising.
    Holidays {
        year: u32,
        rows: KeptHolidays,
    },
    /// The runs of an account with a payday in the quarter, by payday and number.
    Runs {
        account: AccountName,
        quarter: Quarter,
        rows: KeptRuns,
    },
    /// The payments of an account for a day of the quarter, by that day and number.
    Payments {
        account: AccountName,
        quarter: Quarter,
        rows: KeptPayments,
    },
}

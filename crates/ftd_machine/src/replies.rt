//! What the desk answers.

ghost use Rattle.std.specs.Prelude.{◌≡◌, ◌↔◌, IsTrue};
ghost use Rattle.ftd_machine.specs.Laws.{IsBounded};

use crate::facts::{Facts, are_bounded};
use ftd_days::{Day, Quarter};
use ftd_rules::{Obligations, YearLines};
use thiserror::Error;

/// Why an account has its deposit schedule on a day.
#[derive(Clone, Copy, Debug, PartialEq, Eq)]
pub enum Reason {
    /// By the year's lookback total.
    Lookback,
    /// The account reached 100,000.00 within a month on this day, in this year or the year before.
    Turned(Day),
    /// The account came in as semiweekly.
    Carried,
}

/// How an account's obligations and its open years differ before and after a change.
#[derive(Drop)]
pub struct Difference {
    /// The least first day of the obligations that were removed or added. If there are none, the
    /// payday, or the first day of the quarter or the year whose total was corrected.
    pub from: Day,
    /// The greatest last day of these. If there are none, the same day.
    pub to: Day,
    /// The obligations that were removed, by first day.
    pub removed: Obligations,
    /// The obligations that were added, by first day.
    pub added: Obligations,
    /// The open years that open on another schedule than before, that turn on another day, or that
    /// turn no more, by year, each as it is now.
    pub years: YearLines,
}

/// What the desk answers where it does not refuse.
#[derive(Drop)]
pub enum Reply {
    /// What was asked for is done.
    Done,
    /// What was asked for was done before.
    Already,
    /// How the account differs before and after a pay run that was posted or voided, or a total
    /// that was corrected.
    Posted(Difference),
    /// What was asked for.
    Told(Facts),
}

/// Whether the amounts of a list of one account that is answered are together below
/// 6,000,000,000,000,000 cents, as those of an account are.
pub fn is_bounded(reply: &Reply) -> bool
    ensures { IsTrue result ↔ IsBounded reply.now }
{
    match reply {
        Reply::Told(facts) => are_bounded(facts),
        Reply::Done | Reply::Already | Reply::Posted(_) => true,
    }
}

/// Why the desk refuses a request. It prints with its number, and 16, 17, 18, 25 and 27 with what
/// they name: `refused 17 QuarterMissing 2024Q2`.
#[derive(Clone, Copy, Debug, PartialEq, Eq, Error)]
pub enum Refusal {
    /// The text is no account name: 1 to 20 bytes, a lower-case letter, then lower-case letters,
    /// digits and hyphens.
    #[error("refused 1 BadName")]
    BadName,
    /// The year, or that of the quarter, is out of the request's range.
    #[error("refused 2 BadYear")]
    BadYear,
    /// The day's year is out of the request's range.
    #[error("refused 3 BadDay")]
    BadDay,
    /// An amount is above 999,999,999.99, or a payment is of nothing.
    #[error("refused 4 BadCents")]
    BadCents,
    /// The days don't rise, lie outside the year or are more than 60.
    #[error("refused 5 BadCalendar")]
    BadCalendar,
    /// The number of a run or payment is not 1 to 999,999,999.
    #[error("refused 6 BadNumber")]
    BadNumber,
    /// The account is not enrolled.
    #[error("refused 7 UnknownAccount")]
    UnknownAccount,
    /// The account is enrolled with other content.
    #[error("refused 8 AccountDiffers")]
    AccountDiffers,
    /// The year's calendar was given with other days.
    #[error("refused 9 CalendarDiffers")]
    CalendarDiffers,
    /// The quarter is reported with another amount.
    #[error("refused 10 QuarterDiffers")]
    QuarterDiffers,
    /// The run's number is taken by another run.
    #[error("refused 11 RunDiffers")]
    RunDiffers,
    /// The payment's number is taken by another payment.
    #[error("refused 12 PaymentDiffers")]
    PaymentDiffers,
    /// There is no run of that number.
    #[error("refused 13 UnknownRun")]
    UnknownRun,
    /// There is no payment of that number.
    #[error("refused 14 UnknownPayment")]
    UnknownPayment,
    /// What the request is for lies before the employer's first day.
    #[error("refused 15 BeforeStart")]
    BeforeStart,
    /// The calendar of this year is not given.
    #[error("refused 16 CalendarMissing {0}")]
    CalendarMissing(u32),
    /// This quarter of the lookback period is not reported.
    #[error("refused 17 QuarterMissing {0}")]
    QuarterMissing(Quarter),
    /// This year of the account is not open.
    #[error("refused 18 YearNotOpen {0}")]
    YearNotOpen(u32),
    /// The account has 20,000 runs, voided ones too.
    #[error("refused 19 TooManyRuns")]
    TooManyRuns,
    /// The account has 20,000 payments, voided ones too.
    #[error("refused 20 TooManyPayments")]
    TooManyPayments,
    /// There was no memory. Nothing has changed.
    #[error("failed 21 Memory")]
    Memory,
    /// The store failed, or the desk is stopped. Nothing has changed, unless the store is a file
    /// and its commit failed.
    #[error("failed 22 Store")]
    Store,
    /// The request is not one for the account's form.
    #[error("refused 23 WrongForm")]
    WrongForm,
    /// The year is reported with another amount.
    #[error("refused 24 YearDiffers")]
    YearDiffers,
    /// This year, the lookback period of a Form 943 account, is not reported.
    #[error("refused 25 YearMissing {0}")]
    YearMissing(u32),
    /// The number is that of another correction.
    #[error("refused 26 CorrectionDiffers")]
    CorrectionDiffers,
    /// The number is not the next one. It names how many corrections there are.
    #[error("refused 27 NumberSkipped {0}")]
    NumberSkipped(u32),
    /// The day was neither given nor added as a holiday.
    #[error("refused 28 NoHoliday")]
    NoHoliday,
    /// A figure of the account is reported, or a year of it is open.
    #[error("refused 29 AccountInUse")]
    AccountInUse,
}

/// What a refusal names.
#[derive(Clone, Copy, Debug, PartialEq, Eq)]
pub enum Subject {
    /// Nothing.
    Nothing,
    /// A year whose calendar is not given, or that is not open or not reported.
    Year(u32),
    /// A quarter that is not reported.
    Quarter(Quarter),
    /// How many corrections there are, of which the number of the next one is one more.
    Number(u32),
}

impl Refusal {
    ghost use Rattle.ftd_machine.specs.Refusals.{is_failure, name_text, subject_of, number_of};

    /// The refusal's number, 1 to 29.
    pub fn number(self) -> u8
        ensures { result ≡ number_of self }
    {
        match self {
            Refusal::BadName => 1,
            Refusal::BadYear => 2,
            Refusal::BadDay => 3,
            Refusal::BadCents => 4,
            Refusal::BadCalendar => 5,
            Refusal::BadNumber => 6,
            Refusal::UnknownAccount => 7,
            Refusal::AccountDiffers => 8,
            Refusal::CalendarDiffers => 9,
            Refusal::QuarterDiffers => 10,
            Refusal::RunDiffers => 11,
            Refusal::PaymentDiffers => 12,
            Refusal::UnknownRun => 13,
            Refusal::UnknownPayment => 14,
            Refusal::BeforeStart => 15,
            Refusal::CalendarMissing(_) => 16,
            Refusal::QuarterMissing(_) => 17,
            Refusal::YearNotOpen(_) => 18,
            Refusal::TooManyRuns => 19,
            Refusal::TooManyPayments => 20,
            Refusal::Memory => 21,
            Refusal::Store => 22,
            Refusal::WrongForm => 23,
            Refusal::YearDiffers => 24,
            Refusal::YearMissing(_) => 25,
            Refusal::CorrectionDiffers => 26,
            Refusal::NumberSkipped(_) => 27,
            Refusal::NoHoliday => 28,
            Refusal::AccountInUse => 29,
        }
    }

    /// The refusal's name: that of its variant.
    pub fn name(self) -> &'static str
        ensures { result.now ≡ name_text self }
    {
        match self {
            Refusal::BadName => "BadName",
            Refusal::BadYear => "BadYear",
            Refusal::BadDay => "BadDay",
            Refusal::BadCents => "BadCents",
            Refusal::BadCalendar => "BadCalendar",
            Refusal::BadNumber => "BadNumber",
            Refusal::UnknownAccount => "UnknownAccount",
            Refusal::AccountDiffers => "AccountDiffers",
            Refusal::CalendarDiffers => "CalendarDiffers",
            Refusal::QuarterDiffers => "QuarterDiffers",
            Refusal::RunDiffers => "RunDiffers",
            Refusal::PaymentDiffers => "PaymentDiffers",
            Refusal::UnknownRun => "UnknownRun",
            Refusal::UnknownPayment => "UnknownPayment",
            Refusal::BeforeStart => "BeforeStart",
            Refusal::CalendarMissing(_) => "CalendarMissing",
            Refusal::QuarterMissing(_) => "QuarterMissing",
            Refusal::YearNotOpen(_) => "YearNotOpen",
            Refusal::TooManyRuns => "TooManyRuns",
            Refusal::TooManyPayments => "TooManyPayments",
            Refusal::Memory => "Memory",
            Refusal::Store => "Store",
            Refusal::WrongForm => "WrongForm",
            Refusal::YearDiffers => "YearDiffers",
            Refusal::YearMissing(_) => "YearMissing",
            Refusal::CorrectionDiffers => "CorrectionDiffers",
            Refusal::NumberSkipped(_) => "NumberSkipped",
            Refusal::NoHoliday => "NoHoliday",
            Refusal::AccountInUse => "AccountInUse",
        }
    }

    /// Whether it is a failure, and no refusal: there was no memory, or the store failed.
    pub fn is_failure(self) -> bool
        ensures { result ≡ is_failure self }
    {
        matches!(self, Refusal::Memory | Refusal::Store)
    }

    /// The year, the quarter or the number that it names, if it names one.
    pub fn subject(self) -> Subject
        ensures { result ≡ subject_of self }
    {
        match self {
            Refusal::CalendarMissing(year) => Subject::Year(year),
            Refusal::YearNotOpen(year) => Subject::Year(year),
            Refusal::YearMissing(year) => Subject::Year(year),
            Refusal::QuarterMissing(quarter) => Subject::Quarter(quarter),
            Refusal::NumberSkipped(count) => Subject::Number(count),
            _ => Subject::Nothing,
        }
    }
}

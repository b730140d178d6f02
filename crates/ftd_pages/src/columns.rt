//! The columns of the lists: which field each has, and the word at its head.

/// A column of a list.
#[derive(Clone, Copy, Debug)]
pub struct Column {
    /// The name of its field, which is the class of its cells.
    pub name: &'static str,
    /// The word at its head.
    pub word: &'static str,
}

/// The day on which an obligation is due.
pub const DUE: Column = Column {
    name: "due",
    word: "Due",
};

/// The account.
pub const ACCOUNT: Column = Column {
    name: "account",
    word: "Account",
};

/// The form that an account files.
pub const FORM: Column = Column {
    name: "form",
    word: "Form",
};

/// The first day of an obligation's deposit period.
pub const FIRST: Column = Column {
    name: "first",
    word: "Deposit period from",
};

/// The last day of an obligation's deposit period.
pub const LAST: Column = Column {
    name: "last",
    word: "Deposit period to",
};

/// The rule of an obligation.
pub const RULE: Column = Column {
    name: "rule",
    word: "Rule",
};

/// An amount.
pub const AMOUNT: Column = Column {
    name: "amount",
    word: "Amount",
};

/// What was paid for an obligation.
pub const PAID: Column = Column {
    name: "paid",
    word: "Paid",
};

/// What is left to pay of an obligation.
pub const LEFT: Column = Column {
    name: "left",
    word: "Left",
};

/// The day by which to pay what is left.
pub const PAY_BY: Column = Column {
    name: "pay_by",
    word: "Pay by",
};

/// The day by which a shortfall may be made up.
pub const MAKEUP: Column = Column {
    name: "makeup",
    word: "Make up by",
};

/// How an obligation stands.
pub const VERDICT: Column = Column {
    name: "verdict",
    word: "Verdict",
};

/// A day.
pub const DAY: Column = Column {
    name: "day",
    word: "Day",
};

/// A deposit schedule.
pub const KIND: Column = Column {
    name: "kind",
    word: "Schedule",
};

/// Why an account has its deposit schedule.
pub const REASON: Column = Column {
    name: "reason",
    word: "Reason",
};

/// The day on which an account turned to its deposit schedule.
pub const TURN: Column = Column {
    name: "turn",
    word: "Turned on",
};

/// A payday of an obligation.
pub const OF_PAYDAY: Column = Column {
    name: "day",
    word: "Payday",
};

/// The liability of a payday.
pub const LIABILITY: Column = Column {
    name: "amount",
    word: "Liability",
};

/// The liability of an obligation's days up to one.
pub const TOTAL: Column = Column {
    name: "total",
    word: "Total so far",
};

/// What a day is to the counting of business days.
pub const KIND_OF_DAY: Column = Column {
    name: "is",
    word: "Kind of day",
};

/// The day from which an account is kept.
pub const START: Column = Column {
    name: "start",
    word: "First day",
};

/// Whether an account was carried: semiweekly since the year before had a turn, before the desk
/// kept it.
pub const CARRIED: Column = Column {
    name: "carried",
    word: "Carried",
};

/// An open year.
pub const YEAR: Column = Column {
    name: "year",
    word: "Year",
};

/// The lookback total of a year.
pub const LOOKBACK: Column = Column {
    name: "lookback",
    word: "Lookback total",
};

/// The deposit schedule that a year opens with.
pub const OPENING: Column = Column {
    name: "opening",
    word: "Opens as",
};

/// The day on which an account turned to the semiweekly schedule.
pub const TURNED: Column = Column {
    name: "turned",
    word: "Turned on",
};

/// The lookback total of a year by what was first reported.
pub const FIRST_LOOKBACK: Column = Column {
    name: "first_lookback",
    word: "Lookback total first reported",
};

/// The quarter of a reported total.
pub const OF_QUARTER: Column = Column {
    name: "quarter",
    word: "Period",
};

/// The year of a reported total.
pub const OF_YEAR: Column = Column {
    name: "year",
    word: "Period",
};

/// An amount as it was first reported.
pub const FIRST_REPORTED: Column = Column {
    name: "first",
    word: "First reported",
};

/// Whether a holiday was added to its year.
pub const ADDED: Column = Column {
    name: "added",
    word: "Added",
};

/// Whether a day is a holiday.
pub const HOLIDAY: Column = Column {
    name: "holiday",
    word: "Holiday",
};

/// The number of a pay run.
pub const RUN: Column = Column {
    name: "run",
    word: "Run",
};

/// The payday of a pay run.
pub const PAYDAY: Column = Column {
    name: "payday",
    word: "Payday",
};

/// The federal income tax withheld.
pub const FIT: Column = Column {
    name: "fit",
    word: "Income tax",
};

/// Both shares of social security tax.
pub const SS: Column = Column {
    name: "ss",
    word: "Social security",
};

/// Both shares of Medicare tax.
pub const MEDICARE: Column = Column {
    name: "medicare",
    word: "Medicare",
};

/// The number of a payment.
pub const PAYMENT: Column = Column {
    name: "payment",
    word: "Payment",
};

/// The day on which a payment was made.
pub const PAID_ON: Column = Column {
    name: "paid",
    word: "Paid on",
};

/// The day that a payment is for.
pub const FOR_DAY: Column = Column {
    name: "for",
    word: "For",
};

/// The first day of the obligation that a payment counts for.
pub const OBLIGATION: Column = Column {
    name: "obligation",
    word: "Counts for",
};

/// Whether it was voided.
pub const VOID: Column = Column {
    name: "void",
    word: "Void",
};

/// What counts for nothing.
pub const OVER: Column = Column {
    name: "over",
    word: "Over",
};

//! Pay runs, and what can be voided.

use ftd_days::{Cents, Day};

/// A pay run: what is withheld and owed on the wages of a payday. Its liability is the sum of the
/// three amounts and arises on the payday (Pub. 15 section 11, "When To Deposit").
#[derive(Clone, Copy, Debug, PartialEq, Eq)]
pub struct PayRun {
    /// The day on which the wages are paid.
    pub payday: Day,
    /// The federal income tax withheld.
    pub fit: Cents,
    /// Both shares of social security tax.
    pub ss: Cents,
    /// Both shares of Medicare tax.
    pub medicare: Cents,
}

/// A pay run or a payment as it is kept: it is live until it is voided, and keeps its number then.
#[derive(Clone, Copy, Debug, PartialEq, Eq)]
pub struct Voidable<T> {
    pub value: T,
    /// Whether it was voided.
    pub voided: bool,
}

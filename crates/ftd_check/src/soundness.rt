//! What a check of the tables finds.

use crate::sizes::Sizes;
use ftd_machine::AccountName;

/// A part of the tables that no sound state has.
#[derive(Drop)]
pub enum Part {
    /// The calendars, the added holidays and the changes of days.
    Holidays,
    /// The list of accounts: one has no name of an account, two have the same, or one begins too
    /// late.
    Accounts,
    /// What is kept of the account of this name, which is in the list.
    Account(AccountName),
    /// Rows of no account in the list.
    Rows,
}

/// What a check of the tables finds.
#[derive(Drop)]
pub enum Soundness {
    /// They are those of a sound state, and have so many rows.
    Sound(Sizes),
    /// They are those of none, as this part shows.
    Unsound(Part),
}

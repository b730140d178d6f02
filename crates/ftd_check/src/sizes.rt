//! How many rows accounts have.

ghost use Rattle.std.specs.Prelude.{◌≡◌, ◌<◌, ◌^◌, ◌↔◌, IsTrue};
ghost use Rattle.ftd_store.specs.Frame.{Reads};
ghost use Rattle.ftd_check.specs.Sizes.{AreAllSizes, sizes_of, sizes_together};

use crate::own_rows::OwnRows;
use ftd_store::{StoreFault, Tx};
use sqlite::Alter;

/// How many rows there are of each kind that accounts have.
#[derive(Clone, Copy, Debug, PartialEq, Eq)]
pub struct Sizes {
    /// Forms, of each account one.
    pub forms: u64,
    /// Corrections of accounts.
    pub account_corrections: u64,
    /// Totals of quarters.
    pub reported: u64,
    /// Totals of years.
    pub reported_years: u64,
    /// Corrections of totals of quarters.
    pub corrections: u64,
    /// Corrections of totals of years.
    pub year_corrections: u64,
    /// Open years.
    pub years: u64,
    /// Runs, void ones too.
    pub runs: u64,
    /// Payments, void ones too.
    pub payments: u64,
    /// Obligations.
    pub obligations: u64,
}

impl Sizes {
    /// Those of no account.
    pub(crate) const NONE: Sizes = Sizes {
        forms: 0,
        account_corrections: 0,
        reported: 0,
        reported_years: 0,
        corrections: 0,
        year_corrections: 0,
        years: 0,
        runs: 0,
        payments: 0,
        obligations: 0,
    };

    /// These and those together; 2^64 - 1 where there are as many or more.
    pub(crate) fn plus(&self, more: &Sizes) -> Sizes
        ensures { result ≡ sizes_together self.now more.now }
    {
        Sizes {
            forms: self.forms.saturating_add(more.forms),
            account_corrections: self
                .account_corrections
                .saturating_add(more.account_corrections),
            reported: self.reported.saturating_add(more.reported),
            reported_years: self.reported_years.saturating_add(more.reported_years),
            corrections: self.corrections.saturating_add(more.corrections),
            year_corrections: self.year_corrections.saturating_add(more.year_corrections),
            years: self.years.saturating_add(more.years),
            runs: self.runs.saturating_add(more.runs),
            payments: self.payments.saturating_add(more.payments),
            obligations: self.obligations.saturating_add(more.obligations),
        }
    }

    /// Whether these are as many as those, of each kind.
    pub(crate) fn are_those(&self, others: &Sizes) -> bool
        ensures { IsTrue result ↔ (self.now ≡ others.now) }
    {
        self == others
    }
}

/// How many rows the account has, of which these were read.
pub(crate) fn own_sizes(rows: &OwnRows) -> Sizes
    ensures { result ≡ sizes_of rows.now }
{
    Sizes {
        forms: 1,
        account_corrections: rows.own.moves.len() as u64,
        reported: rows.own.reported.len() as u64,
        reported_years: rows.own.reported_years.len() as u64,
        corrections: rows.own.corrected.len() as u64,
        year_corrections: rows.own.corrected_years.len() as u64,
        years: rows.years.len() as u64,
        runs: rows.own.runs.len() as u64,
        payments: rows.own.payments.len() as u64,
        obligations: rows.obligations.len() as u64,
    }
}

/// The count as a wider number.
fn wide(count: u32) -> u64
    ensures value { result ≡ count }
    ensures small { result < 2 ^ 32 }
{
    u64::from(count)
}

/// How many rows all accounts have, and those that no account has too. `Failed` also where there
/// are 2^32 or more of a kind.
pub(crate) fn all_sizes<S: Alter>(tx: &mut Tx<'_, S>) -> Result<Sizes, StoreFault>
    ensures call { Reads S.Store tx.old tx.new result AreAllSizes }
{
    Ok(Sizes {
        forms: wide(tx.count_all_forms()?),
        account_corrections: wide(tx.count_all_account_corrections()?),
        reported: wide(tx.count_all_reported()?),
        reported_years: wide(tx.count_all_reported_years()?),
        corrections: wide(tx.count_all_corrections()?),
        year_corrections: wide(tx.count_all_year_corrections()?),
        years: wide(tx.count_all_years()?),
        runs: wide(tx.count_all_runs()?),
        payments: wide(tx.count_all_payments()?),
        obligations: wide(tx.count_all_obligations()?),
    })
}

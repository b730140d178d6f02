//! The totals that the accounts reported.

ghost use Rattle.ftd_store.specs.Amounts.{IsStorable};
ghost use Rattle.ftd_store.specs.Changes.{with_reported, with_reported_year};
ghost use Rattle.ftd_store.specs.Finds.{FindsReported, FindsReportedYear};
ghost use Rattle.ftd_store.specs.Frame.{Reads, Writes};

use crate::readings::Reading;
use crate::tx::Tx;
use crate::{StoreFault, StoredCents};
use ftd_days::{Cents, Quarter};
use ftd_sql::TableName;
use sqlite::{Alter, params};

impl<'store, S: Alter> Tx<'store, S> {
    /// The total that the account reported for the quarter, or None.
    pub fn reported_total(
        &mut self,
        account: &str,
        quarter: Quarter,
    ) -> Result<Option<Cents>, StoreFault>
        ensures call { Reads S.Store self.old self.new result (FindsReported account.now quarter) }
    {
        let year = quarter.year();
        let number = u32::from(quarter.number());
        self.read_only(Reading::ReadReported, params![account, year, number])
    }

    /// Adds the total of the quarter. `Failed` where it has one, and where the account is not
    /// there.
    pub fn add_reported(
        &mut self,
        account: &str,
        quarter: Quarter,
        cents: Cents,
    ) -> Result<(), StoreFault>
        requires { IsStorable cents }
        ensures call { Writes S.Store self.old self.new result
            (with_reported account.now quarter cents) }
    {
        let year = quarter.year();
        let number = u32::from(quarter.number());
        self.add(
            TableName::ReportedQuarters,
            params![account, year, number, StoredCents { cents }],
        )
    }

    /// The total that the account reported for the year, or None.
    pub fn reported_year_total(
        &mut self,
        account: &str,
        year: u32,
    ) -> Result<Option<Cents>, StoreFault>
        ensures call { Reads S.Store self.old self.new result (FindsReportedYear account.now year) }
    {
        self.read_only(Reading::ReadReportedYear, params![account, year])
    }

    /// Adds the total of the year. `Failed` where it has one, and where the account is not there.
    pub fn add_reported_year(
        &mut self,
        account: &str,
        year: u32,
        cents: Cents,
    ) -> Result<(), StoreFault>
        requires { IsStorable cents }
        ensures call { Writes S.Store self.old self.new result
            (with_reported_year account.now year cents) }
    {
        self.add(
            TableName::ReportedYears,
            params![account, year, StoredCents { cents }],
        )
    }
}

//! Lists of what is kept.

ghost use Rattle.ftd_store.specs.Frame.{Reads};
ghost use Rattle.ftd_store.specs.Kept.{ListsEnrolled, ListsForms, ListsReported};
ghost use Rattle.ftd_store.specs.Kept.{ListsReportedYears, ListsKeptRuns, ListsKeptPayments};

use crate::readings::Reading;
use crate::tx::Tx;
use crate::{
    NamedAccount, NamedForm, NumberedPayment, NumberedRun, QuarterTotal, StoreFault, StoredDay,
    YearTotal,
};
use ftd_days::Day;
use sqlite::{Alter, params};
use std::alloc::Global;

impl<'store, S: Alter> Tx<'store, S> {
    /// All accounts, by name.
    pub fn all_accounts(&mut self, alloc: Global) -> Result<Vec<NamedAccount>, StoreFault>
        ensures call { Reads S.Store self.old self.new result ListsEnrolled }
    {
        self.read_all(alloc, Reading::ListEnrolled, params![])
    }

    /// The forms of all accounts, by account.
    pub fn forms(&mut self, alloc: Global) -> Result<Vec<NamedForm>, StoreFault>
        ensures call { Reads S.Store self.old self.new result ListsForms }
    {
        self.read_all(alloc, Reading::ListForms, params![])
    }

    /// The totals that the account reported for quarters, by quarter.
    pub fn reported_totals(
        &mut self,
        alloc: Global,
        account: &str,
    ) -> Result<Vec<QuarterTotal>, StoreFault>
        ensures call { Reads S.Store self.old self.new result (ListsReported account.now) }
    {
        self.read_all(alloc, Reading::ListReported, params![account])
    }

    /// The totals that the account reported for years, by year.
    pub fn reported_year_totals(
        &mut self,
        alloc: Global,
        account: &str,
    ) -> Result<Vec<YearTotal>, StoreFault>
        ensures call { Reads S.Store self.old self.new result (ListsReportedYears account.now) }
    {
        self.read_all(alloc, Reading::ListReportedYears, params![account])
    }

    /// The account's runs with a payday from `from` to `to`, void ones too, by payday and number.
    pub fn kept_runs(
        &mut self,
        alloc: Global,
        account: &str,
        from: Day,
        to: Day,
    ) -> Result<Vec<NumberedRun>, StoreFault>
        ensures call { Reads S.Store self.old self.new result (ListsKeptRuns account.now from to) }
    {
        self.read_all(
            alloc,
            Reading::ListKeptRuns,
            params![account, StoredDay(from), StoredDay(to)],
        )
    }

    /// The account's payments for the days from `from` to `to`, void ones too, by that day and
    /// number.
    pub fn kept_payments(
        &mut self,
        alloc: Global,
        account: &str,
        from: Day,
        to: Day,
    ) -> Result<Vec<NumberedPayment>, StoreFault>
        ensures call { Reads S.Store self.old self.new result
            (ListsKeptPayments account.now from to) }
    {
        self.read_all(
            alloc,
            Reading::ListKeptPayments,
            params![account, StoredDay(from), StoredDay(to)],
        )
    }
}

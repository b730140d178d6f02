//! How many rows the tables have.

ghost use Rattle.ftd_sql.specs.declared.TableName.TheVariants.{Forms, CorrectedAccounts};
ghost use Rattle.ftd_sql.specs.declared.TableName.TheVariants.{ReportedQuarters, ReportedYears};
ghost use Rattle.ftd_sql.specs.declared.TableName.TheVariants.{CorrectedQuarters, CorrectedYears};
ghost use Rattle.ftd_sql.specs.declared.TableName.TheVariants.{Years, Runs, Payments, Obligations};
ghost use Rattle.ftd_store.specs.Added.{CountsAll};
ghost use Rattle.ftd_store.specs.Frame.{Reads};

use crate::StoreFault;
use crate::readings::Reading;
use crate::tx::Tx;
use sqlite::{Alter, params};

impl<'store, S: Alter> Tx<'store, S> {
    /// How many forms all accounts have. `Failed` also where they are 2^32 or more.
    pub fn count_all_forms(&mut self) -> Result<u32, StoreFault>
        ensures call { Reads S.Store self.old self.new result (CountsAll Forms) }
    {
        self.count(Reading::CountAllForms, params![])
    }

    /// How many corrections all accounts have. `Failed` also where they are 2^32 or more.
    pub fn count_all_account_corrections(&mut self) -> Result<u32, StoreFault>
        ensures call { Reads S.Store self.old self.new result (CountsAll CorrectedAccounts) }
    {
        self.count(Reading::CountAllAccountCorrections, params![])
    }

    /// How many totals of quarters all accounts reported. `Failed` also where they are 2^32 or
    /// more.
    pub fn count_all_reported(&mut self) -> Result<u32, StoreFault>
        ensures call { Reads S.Store self.old self.new result (CountsAll ReportedQuarters) }
    {
        self.count(Reading::CountAllReported, params![])
    }

    /// How many totals of years all accounts reported. `Failed` also where they are 2^32 or more.
    pub fn count_all_reported_years(&mut self) -> Result<u32, StoreFault>
        ensures call { Reads S.Store self.old self.new result (CountsAll ReportedYears) }
    {
        self.count(Reading::CountAllReportedYears, params![])
    }

    /// How many corrections of totals of quarters all accounts have. `Failed` also where they are
    /// 2^32 or more.
    pub fn count_all_corrections(&mut self) -> Result<u32, StoreFault>
        ensures call { Reads S.Store self.old self.new result (CountsAll CorrectedQuarters) }
    {
        self.count(Reading::CountAllCorrections, params![])
    }

    /// How many corrections of totals of years all accounts have. `Failed` also where they are 2^32
    /// or more.
    pub fn count_all_year_corrections(&mut self) -> Result<u32, StoreFault>
        ensures call { Reads S.Store self.old self.new result (CountsAll CorrectedYears) }
    {
        self.count(Reading::CountAllYearCorrections, params![])
    }

    /// How many open years all accounts have. `Failed` also where they are 2^32 or more.
    pub fn count_all_years(&mut self) -> Result<u32, StoreFault>
        ensures call { Reads S.Store self.old self.new result (CountsAll Years) }
    {
        self.count(Reading::CountAllYears, params![])
    }

    /// How many runs all accounts have, void ones too. `Failed` also where they are 2^32 or more.
    pub fn count_all_runs(&mut self) -> Result<u32, StoreFault>
        ensures call { Reads S.Store self.old self.new result (CountsAll Runs) }
    {
        self.count(Reading::CountAllRuns, params![])
    }

    /// How many payments all accounts have, void ones too. `Failed` also where they are 2^32 or
    /// more.
    pub fn count_all_payments(&mut self) -> Result<u32, StoreFault>
        ensures call { Reads S.Store self.old self.new result (CountsAll Payments) }
    {
        self.count(Reading::CountAllPayments, params![])
    }

    /// How many obligations all accounts have. `Failed` also where they are 2^32 or more.
    pub fn count_all_obligations(&mut self) -> Result<u32, StoreFault>
        ensures call { Reads S.Store self.old self.new result (CountsAll Obligations) }
    {
        self.count(Reading::CountAllObligations, params![])
    }
}

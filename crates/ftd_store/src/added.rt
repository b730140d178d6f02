//! The rows of the tables in the order in which they were added. Each call answers None where a row
//! shows no value, and the transaction goes on.

ghost use Rattle.ftd_store.specs.Added.{AreValues, AccountsByRow, FormsByRow};
ghost use Rattle.ftd_store.specs.Added.{AccountCorrectionsByRow, ReportedByRow, ReportedYearsByRow};
ghost use Rattle.ftd_store.specs.Added.{CorrectionsByRow, YearCorrectionsByRow, CalendarYearsByRow};
ghost use Rattle.ftd_store.specs.Added.{HolidaysByRow, AddedHolidaysByRow, HolidayChangesByRow};
ghost use Rattle.ftd_store.specs.Added.{YearsByRow, RunsByRow, PaymentsByRow, ObligationsByRow};
ghost use Rattle.ftd_store.specs.Frame.{Reads, Queries};
ghost use Rattle.ftd_store.specs.Readings.{text_of};
ghost use Rattle.sqlite.specs.Values.{bound};

use crate::readings::Reading;
use crate::tx::Tx;
use crate::{
    AccountCorrection, FromRow, NamedAccount, NumberedPayment, NumberedRun, QuarterCorrection,
    QuarterTotal, StoreFault, StoredYear, YearCorrection, YearHoliday, YearHolidayChange,
    YearTotal, all,
};
use ftd_rules::{Form, Obligation};
use sqlite::types::ValueRef;
use sqlite::{Alter, params};
use std::alloc::Global;

impl<'store, S: Alter> Tx<'store, S> {
    // runs a query that shows rows in an order, and answers None where a row shows no value
    fn read_values<T: FromRow + Drop>(
        &mut self,
        alloc: Global,
        reading: Reading,
        params: &[ValueRef<'_>],
    ) -> Result<Option<Vec<T>>, StoreFault>
        ensures call { Queries S.Store self.old self.new result (text_of reading)
            (bound params.now) (λ found rows. AreValues T.shown T.is_readable found rows) }
    {
        let rows = self.read(reading, params)?;
        match all(alloc, &rows) {
            Ok(values) => Ok(Some(values)),
            Err(StoreFault::Failed) => Ok(None),
            Err(StoreFault::Memory) => self.stop(StoreFault::Memory),
        }
    }

    /// All accounts, in the order in which they were added. None where a row shows no value.
    pub fn accounts_by_row(
        &mut self,
        alloc: Global,
    ) -> Result<Option<Vec<NamedAccount>>, StoreFault>
        ensures call { Reads S.Store self.old self.new result AccountsByRow }
    {
        self.read_values(alloc, Reading::ListAccountsByRow, params![])
    }

    /// The forms of the account, in the order in which they were added. None where a row shows no
    /// value.
    pub fn forms_by_row(
        &mut self,
        alloc: Global,
        account: &str,
    ) -> Result<Option<Vec<Form>>, StoreFault>
        ensures call { Reads S.Store self.old self.new result (FormsByRow account.now) }
    {
        self.read_values(alloc, Reading::ListFormsByRow, params![account])
    }

    /// The corrections of the account, in the order in which they were added. None where a row
    /// shows no value.
    pub fn account_corrections_by_row(
        &mut self,
        alloc: Global,
        account: &str,
    ) -> Result<Option<Vec<AccountCorrection>>, StoreFault>
        ensures call { Reads S.Store self.old self.new result (AccountCorrectionsByRow account.now) }
    {
        self.read_values(
            alloc,
            Reading::ListAccountCorrectionsByRow,
            params![account],
        )
    }

    /// The totals that the account reported for quarters, in the order in which they were added.
    /// None where a row shows no value.
    pub fn reported_by_row(
        &mut self,
        alloc: Global,
        account: &str,
    ) -> Result<Option<Vec<QuarterTotal>>, StoreFault>
        ensures call { Reads S.Store self.old self.new result (ReportedByRow account.now) }
    {
        self.read_values(alloc, Reading::ListReportedByRow, params![account])
    }

    /// The totals that the account reported for years, in the order in which they were added. None
    /// where a row shows no value.
    pub fn reported_years_by_row(
        &mut self,
        alloc: Global,
        account: &str,
    ) -> Result<Option<Vec<YearTotal>>, StoreFault>
        ensures call { Reads S.Store self.old self.new result (ReportedYearsByRow account.now) }
    {
        self.read_values(alloc, Reading::ListReportedYearsByRow, params![account])
    }

    /// The corrections of the totals that the account reported for quarters, in the order in which
    /// they were added. None where a row shows no value.
    pub fn corrections_by_row(
        &mut self,
        alloc: Global,
        account: &str,
    ) -> Result<Option<Vec<QuarterCorrection>>, StoreFault>
        ensures call { Reads S.Store self.old self.new result (CorrectionsByRow account.now) }
    {
        self.read_values(alloc, Reading::ListCorrectionsByRow, params![account])
    }

    /// The corrections of the totals that the account reported for years, in the order in which
    /// they were added. None where a row shows no value.
    pub fn year_corrections_by_row(
        &mut self,
        alloc: Global,
        account: &str,
    ) -> Result<Option<Vec<YearCorrection>>, StoreFault>
        ensures call { Reads S.Store self.old self.new result (YearCorrectionsByRow account.now) }
    {
        self.read_values(alloc, Reading::ListYearCorrectionsByRow, params![account])
    }

    /// All years whose calendar is given, in the order in which they were added. None where a row
    /// shows no value.
    pub fn calendar_years_by_row(&mut self, alloc: Global) -> Result<Option<Vec<u32>>, StoreFault>
        ensures call { Reads S.Store self.old self.new result CalendarYearsByRow }
    {
        self.read_values(alloc, Reading::ListCalendarYearsByRow, params![])
    }

    /// All holidays that were given with their years, in the order in which they were added. None
    /// where a row shows no value.
    pub fn holidays_by_row(&mut self, alloc: Global) -> Result<Option<Vec<YearHoliday>>, StoreFault>
        ensures call { Reads S.Store self.old self.new result HolidaysByRow }
    {
        self.read_values(alloc, Reading::ListHolidaysByRow, params![])
    }

    /// All holidays that were added to given years, in the order in which they were added. None
    /// where a row shows no value.
    pub fn added_holidays_by_row(
        &mut self,
        alloc: Global,
    ) -> Result<Option<Vec<YearHoliday>>, StoreFault>
        ensures call { Reads S.Store self.old self.new result AddedHolidaysByRow }
    {
        self.read_values(alloc, Reading::ListAddedHolidaysByRow, params![])
    }

    /// All changes of days of given years, in the order in which they were added. None where a row
    /// shows no value.
    pub fn holiday_changes_by_row(
        &mut self,
        alloc: Global,
    ) -> Result<Option<Vec<YearHolidayChange>>, StoreFault>
        ensures call { Reads S.Store self.old self.new result HolidayChangesByRow }
    {
        self.read_values(alloc, Reading::ListChangedHolidaysByRow, params![])
    }

    /// The open years of the account, in the order in which they were added. None where a row shows
    /// no value.
    pub fn years_by_row(
        &mut self,
        alloc: Global,
        account: &str,
    ) -> Result<Option<Vec<StoredYear>>, StoreFault>
        ensures call { Reads S.Store self.old self.new result (YearsByRow account.now) }
    {
        self.read_values(alloc, Reading::ListYearsByRow, params![account])
    }

    /// The runs of the account, void ones too, in the order in which they were added. None where a
    /// row shows no value.
    pub fn runs_by_row(
        &mut self,
        alloc: Global,
        account: &str,
    ) -> Result<Option<Vec<NumberedRun>>, StoreFault>
        ensures call { Reads S.Store self.old self.new result (RunsByRow account.now) }
    {
        self.read_values(alloc, Reading::ListRunsByRow, params![account])
    }

    /// The payments of the account, void ones too, in the order in which they were added. None
    /// where a row shows no value.
    pub fn payments_by_row(
        &mut self,
        alloc: Global,
        account: &str,
    ) -> Result<Option<Vec<NumberedPayment>>, StoreFault>
        ensures call { Reads S.Store self.old self.new result (PaymentsByRow account.now) }
    {
        self.read_values(alloc, Reading::ListPaymentsByRow, params![account])
    }

    /// The obligations of the account, in the order in which they were added. None where a row
    /// shows no value.
    pub fn obligations_by_row(
        &mut self,
        alloc: Global,
        account: &str,
    ) -> Result<Option<Vec<Obligation>>, StoreFault>
        ensures call { Reads S.Store self.old self.new result (ObligationsByRow account.now) }
    {
        self.read_values(alloc, Reading::ListObligationsByRow, params![account])
    }
}

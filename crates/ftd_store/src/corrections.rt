//! What was put right: corrections of totals and of accounts, and changes of holidays.

ghost use Rattle.ftd_store.specs.Amounts.{IsStorable};
ghost use Rattle.ftd_store.specs.Changes.{with_correction, with_year_correction};
ghost use Rattle.ftd_store.specs.Changes.{with_account_correction, with_holiday_change};
ghost use Rattle.ftd_store.specs.Corrections.{ListsCorrections};
ghost use Rattle.ftd_store.specs.Corrections.{ListsYearCorrections};
ghost use Rattle.ftd_store.specs.Corrections.{ListsAccountCorrections, ListsHolidayChanges};
ghost use Rattle.ftd_store.specs.Frame.{Reads, Writes};

use crate::readings::Reading;
use crate::tx::Tx;
use crate::{
    AccountCorrection, Correction, HolidayChange, StoreFault, StoredCents, StoredDay, StoredFlag,
};
use ftd_days::Quarter;
use ftd_sql::TableName;
use sqlite::{Alter, params};
use std::alloc::Global;

impl<'store, S: Alter> Tx<'store, S> {
    /// The corrections of the total that the account reported for the quarter, by number.
    pub fn corrections(
        &mut self,
        alloc: Global,
        account: &str,
        quarter: Quarter,
    ) -> Result<Vec<Correction>, StoreFault>
        ensures call { Reads S.Store self.old self.new result
            (ListsCorrections account.now quarter) }
    {
        let year = quarter.year();
        let part = u32::from(quarter.number());
        self.read_all(
            alloc,
            Reading::ListCorrections,
            params![account, year, part],
        )
    }

    /// Adds a correction of the total of the quarter. `Failed` where there is one of its number,
    /// and where the account is not there.
    pub fn add_correction(
        &mut self,
        account: &str,
        quarter: Quarter,
        correction: Correction,
    ) -> Result<(), StoreFault>
        requires { IsStorable correction.cents }
        ensures call { Writes S.Store self.old self.new result
            (with_correction account.now quarter correction) }
    {
        let year = quarter.year();
        let part = u32::from(quarter.number());
        let cents = StoredCents {
            cents: correction.cents,
        };
        self.add(
            TableName::CorrectedQuarters,
            params![account, year, part, correction.number, cents],
        )
    }

    /// The corrections of the total that the account reported for the year, by number.
    pub fn year_corrections(
        &mut self,
        alloc: Global,
        account: &str,
        year: u32,
    ) -> Result<Vec<Correction>, StoreFault>
        ensures call { Reads S.Store self.old self.new result
            (ListsYearCorrections account.now year) }
    {
        self.read_all(alloc, Reading::ListYearCorrections, params![account, year])
    }

    /// Adds a correction of the total of the year. `Failed` where there is one of its number, and
    /// where the account is not there.
    pub fn add_year_correction(
        &mut self,
        account: &str,
        year: u32,
        correction: Correction,
    ) -> Result<(), StoreFault>
        requires { IsStorable correction.cents }
        ensures call { Writes S.Store self.old self.new result
            (with_year_correction account.now year correction) }
    {
        let cents = StoredCents {
            cents: correction.cents,
        };
        self.add(
            TableName::CorrectedYears,
            params![account, year, correction.number, cents],
        )
    }

    /// The corrections of the account's first day, and of whether it was carried over, by number.
    pub fn account_corrections(
        &mut self,
        alloc: Global,
        account: &str,
    ) -> Result<Vec<AccountCorrection>, StoreFault>
        ensures call { Reads S.Store self.old self.new result
            (ListsAccountCorrections account.now) }
    {
        self.read_all(alloc, Reading::ListAccountCorrections, params![account])
    }

    /// Adds a correction of the account. `Failed` where there is one of its number, and where the
    /// account is not there.
    pub fn add_account_correction(
        &mut self,
        account: &str,
        correction: AccountCorrection,
    ) -> Result<(), StoreFault>
        ensures call { Writes S.Store self.old self.new result
            (with_account_correction account.now correction) }
    {
        let AccountCorrection {
            number,
            account: corrected,
        } = correction;
        let start = StoredDay(corrected.start);
        let carried = StoredFlag(corrected.carried);
        self.add(
            TableName::CorrectedAccounts,
            params![account, number, start, carried],
        )
    }

    /// The changes of the days of the year, by day and number.
    pub fn holiday_changes(
        &mut self,
        alloc: Global,
        year: u32,
    ) -> Result<Vec<HolidayChange>, StoreFault>
        ensures call { Reads S.Store self.old self.new result (ListsHolidayChanges year) }
    {
        self.read_all(alloc, Reading::ListChangedHolidays, params![year])
    }

    /// Adds a change of a day to the day's year. `Failed` where there is one of its number, and
    /// where the year's calendar was not given.
    pub fn add_holiday_change(&mut self, change: HolidayChange) -> Result<(), StoreFault>
        ensures call { Writes S.Store self.old self.new result (with_holiday_change change) }
    {
        let year = change.day.year();
        let day = StoredDay(change.day);
        let is_holiday = StoredFlag(change.is_holiday);
        self.add(
            TableName::ChangedHolidays,
            params![day, change.number, is_holiday, year],
        )
    }
}

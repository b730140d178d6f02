//! The open years of the accounts.

ghost use Rattle.ftd_store.specs.Amounts.{IsStorable};
ghost use Rattle.ftd_store.specs.Changes.{with_year};
ghost use Rattle.ftd_store.specs.Finds.{ListsYears};
ghost use Rattle.ftd_store.specs.Frame.{Reads, Writes};

use crate::readings::Reading;
use crate::tx::Tx;
use crate::{StoreFault, StoredCents, StoredSchedule, StoredYear, open_years, stored_turn};
use ftd_rules::YearLine;
use ftd_sql::{TableName, texts};
use sqlite::{Alter, params};
use std::alloc::Global;

impl<'store, S: Alter> Tx<'store, S> {
    /// The account's open years, by year; none where the account is not there and has none.
    /// `Failed` also where the years have a gap or do not lie in 2001 to 2098, where a turn lies
    /// outside its year or beside a semiweekly opening, and where there are years without their
    /// account.
    pub fn years(&mut self, alloc: Global, account: &str) -> Result<Vec<YearLine>, StoreFault>
        ensures call { Reads S.Store self.old self.new result (ListsYears account.now) }
    {
        let found = self.account_in_force(alloc, account)?;
        let stored: Vec<StoredYear> = self.read_all(alloc, Reading::ListYears, params![account])?;
        match open_years(alloc, found, &stored) {
            Ok(lines) => Ok(lines),
            Err(fault) => self.stop(fault),
        }
    }

    /// Puts the line as that of its year, in place of the one that is there or else last. Whether
    /// the account is carried is not put: that stands with the account. `Failed` where the account
    /// is not there.
    pub fn put_year(&mut self, account: &str, line: YearLine) -> Result<(), StoreFault>
        requires { IsStorable line.lookback }
        ensures call { Writes S.Store self.old self.new result (with_year account.now line) }
    {
        let lookback = StoredCents {
            cents: line.lookback,
        };
        let opening = StoredSchedule(line.opening);
        let turn = stored_turn(line.turn);
        let cells = params![account, line.year, lookback, opening, turn];
        if self.change_any(texts::SET_YEAR, cells)? {
            return Ok(());
        }
        self.add(TableName::Years, cells)
    }
}

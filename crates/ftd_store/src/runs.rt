//! The pay runs of the accounts.

ghost use Rattle.std.specs.Prelude.{pos, filter};
ghost use Rattle.ftd_sql.specs.declared.TableName.TheVariants.{Runs};
ghost use Rattle.ftd_sql.specs.Tests.{is_run};
ghost use Rattle.ftd_store.specs.Amounts.{HasStorableAmounts};
ghost use Rattle.ftd_store.specs.Changes.{with_run, with_void_run};
ghost use Rattle.ftd_store.specs.Finds.{FindsRun, CountsRuns, ListsLiability};
ghost use Rattle.ftd_store.specs.Frame.{Reads, Writes, WritesOne};

use crate::readings::Reading;
use crate::tx::Tx;
use crate::{StoreFault, StoredCents, StoredDay, StoredFlag, sums_of};
use ftd_days::Day;
use ftd_rules::{DaySum, PayRun, Voidable};
use ftd_sql::{TableName, texts};
use sqlite::{Alter, params};
use std::alloc::Global;

impl<'store, S: Alter> Tx<'store, S> {
    /// The account's run of the number, void or not, or None.
    pub fn run(
        &mut self,
        account: &str,
        number: u32,
    ) -> Result<Option<Voidable<PayRun>>, StoreFault>
        ensures call { Reads S.Store self.old self.new result (FindsRun account.now number) }
    {
        self.read_only(Reading::ReadRun, params![account, number])
    }

    /// How many runs the account has, void ones too. `Failed` also where they are 2^32 or more.
    pub fn count_runs(&mut self, account: &str) -> Result<u32, StoreFault>
        ensures call { Reads S.Store self.old self.new result (CountsRuns account.now) }
    {
        self.count(Reading::CountRuns, params![account])
    }

    /// Adds a run of the account, which is not void. `Failed` where the account has one of the
    /// number, and where the account is not there.
    pub fn add_run(&mut self, account: &str, number: u32, run: PayRun) -> Result<(), StoreFault>
        requires { HasStorableAmounts run }
        ensures call { Writes S.Store self.old self.new result (with_run account.now number run) }
    {
        let payday = StoredDay(run.payday);
        let fit = StoredCents { cents: run.fit };
        let ss = StoredCents { cents: run.ss };
        let medicare = StoredCents {
            cents: run.medicare,
        };
        let voided = StoredFlag(false);
        self.add(
            TableName::Runs,
            params![account, number, payday, fit, ss, medicare, voided],
        )
    }

    /// Makes the account's run of the number void, or leaves it so. `Failed` where there is none.
    pub fn void_run(&mut self, account: &str, number: u32) -> Result<(), StoreFault>
        ensures call { WritesOne S.Store self.old self.new result
            (λ t. filter (is_run account.now (pos number)) (t Runs))
            (with_void_run account.now number) }
    {
        self.change_one(texts::VOID_RUN, params![account, number])
    }

    /// The account's liability day by day, rising, for the paydays from `from` to `to`. Void runs
    /// and days on which nothing is owed are left out. `Failed` also where the amounts of a day do
    /// not fit in a `u64` of cents.
    pub fn day_sums(
        &mut self,
        alloc: Global,
        account: &str,
        from: Day,
        to: Day,
    ) -> Result<Vec<DaySum>, StoreFault>
        ensures call { Reads S.Store self.old self.new result (ListsLiability account.now from to) }
    {
        let runs: Vec<PayRun> = self.read_all(
            alloc,
            Reading::ListRuns,
            params![account, StoredDay(from), StoredDay(to)],
        )?;
        match sums_of(alloc, &runs) {
            Ok(sums) => Ok(sums),
            Err(fault) => self.stop(fault),
        }
    }
}

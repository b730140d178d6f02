//! The obligations of the accounts.

ghost use Rattle.std.specs.Prelude.{filter, All};
ghost use Rattle.ftd_sql.specs.declared.TableName.TheVariants.{Obligations};
ghost use Rattle.ftd_sql.specs.Tests.{is_obligation};
ghost use Rattle.ftd_store.specs.Amounts.{IsStorable};
ghost use Rattle.ftd_store.specs.Cells.{day_number};
ghost use Rattle.ftd_store.specs.Rows.{obligation_row};
ghost use Rattle.ftd_store.specs.Changes.{adding, without_obligations, with_obligations};
ghost use Rattle.ftd_store.specs.Changes.{with_obligation, with_due_date};
ghost use Rattle.ftd_store.specs.Finds.{ListsObligations, ListsDueOver, ListsDueBetween};
ghost use Rattle.ftd_store.specs.Frame.{Reads, Writes, WritesOne};

use crate::readings::Reading;
use crate::tx::Tx;
use crate::{AccountObligation, StoreFault, StoredCents, StoredDay, StoredRule};
use ftd_days::Day;
use ftd_rules::Obligation;
use ftd_sql::{TableName, texts};
use sqlite::{Alter, params};
use std::alloc::Global;

impl<'store, S: Alter> Tx<'store, S> {
    /// The account's obligations with a first day from `from` to `to`, by first day.
    pub fn obligations(
        &mut self,
        alloc: Global,
        account: &str,
        from: Day,
        to: Day,
    ) -> Result<Vec<Obligation>, StoreFault>
        ensures call { Reads S.Store self.old self.new result
            (ListsObligations account.now from to) }
    {
        self.read_all(
            alloc,
            Reading::ListObligations,
            params![account, StoredDay(from), StoredDay(to)],
        )
    }

    fn remove_obligations(&mut self, account: &str, from: Day, to: Day) -> Result<(), StoreFault>
        ensures call { Writes S.Store self.old self.new result
            (without_obligations account.now from to) }
    {
        let (first, last) = (StoredDay(from), StoredDay(to));
        self.change(texts::REMOVE_OBLIGATIONS, params![account, first, last])?;
        Ok(())
    }

    fn add_obligation(&mut self, account: &str, obligation: Obligation) -> Result<(), StoreFault>
        requires { IsStorable obligation.cents }
        ensures call { Writes S.Store self.old self.new result (adding Obligations
            (obligation_row account.now obligation)) }
    {
        let first = StoredDay(obligation.first);
        let last = StoredDay(obligation.last);
        let rule = StoredRule(obligation.rule);
        let cents = StoredCents {
            cents: obligation.cents,
        };
        let due = StoredDay(obligation.due);
        self.add(
            TableName::Obligations,
            params![account, first, last, rule, cents, due],
        )
    }

    /// Takes out the account's obligations with a first day from `from` to `to`, and adds the given
    /// ones in their order. `Failed` where the account is not there, and where a first day is there
    /// already or comes twice.
    pub fn replace_obligations(
        &mut self,
        account: &str,
        from: Day,
        to: Day,
        given: &[Obligation],
    ) -> Result<(), StoreFault>
        requires { All (λ o. IsStorable o.cents) given.now }
        ensures call { Writes S.Store self.old self.new result
            (with_obligations account.now from to given.now) }
    {
        self.remove_obligations(account, from, to)?;
        for obligation in given {
            self.add_obligation(account, *obligation)?;
        }
        Ok(())
    }

    /// Gives the account's obligation of the given one's first day the last day, the rule, the
    /// amount and the due date of that. `Failed` where there is none.
    pub fn set_obligation(
        &mut self,
        account: &str,
        obligation: Obligation,
    ) -> Result<(), StoreFault>
        requires { IsStorable obligation.cents }
        ensures call { WritesOne S.Store self.old self.new result
            (λ t. filter (is_obligation account.now (day_number obligation.first)) (t Obligations))
            (with_obligation account.now obligation) }
    {
        let first = StoredDay(obligation.first);
        let last = StoredDay(obligation.last);
        let rule = StoredRule(obligation.rule);
        let cents = StoredCents {
            cents: obligation.cents,
        };
        let due = StoredDay(obligation.due);
        self.change_one(
            texts::SET_OBLIGATION,
            params![account, first, last, rule, cents, due],
        )
    }

    /// The obligations of all accounts that begin before the day and are due on it or later, by
    /// account and first day.
    pub fn due_over(
        &mut self,
        alloc: Global,
        day: Day,
    ) -> Result<Vec<AccountObligation>, StoreFault>
        ensures call { Reads S.Store self.old self.new result (ListsDueOver day) }
    {
        self.read_all(alloc, Reading::ListDueOver, params![StoredDay(day)])
    }

    /// The obligations of all accounts that are due from `from` to `to`, by account and first day.
    /// None where `from` is after `to`.
    pub fn due_between(
        &mut self,
        alloc: Global,
        from: Day,
        to: Day,
    ) -> Result<Vec<AccountObligation>, StoreFault>
        ensures call { Reads S.Store self.old self.new result (ListsDueBetween from to) }
    {
        self.read_all(
            alloc,
            Reading::ListDueBetween,
            params![StoredDay(from), StoredDay(to)],
        )
    }

    /// Gives the account's obligation of the first day another due date. `Failed` where there is
    /// none.
    pub fn move_due(&mut self, account: &str, first: Day, due: Day) -> Result<(), StoreFault>
        ensures call { WritesOne S.Store self.old self.new result
            (λ t. filter (is_obligation account.now (day_number first)) (t Obligations))
            (with_due_date account.now first due) }
    {
        self.change_one(
            texts::SET_DUE,
            params![account, StoredDay(first), StoredDay(due)],
        )
    }
}

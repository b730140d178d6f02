//! The journal of the desk, that of its days and that of an account; and the numbers that an
//! account's runs and payments take.

ghost use Rattle.std.specs.Prelude.{◌≡◌, Err, IfErr, IfOk, option_map};
ghost use Rattle.sqlite.specs.State.{HasCleanDisk};
ghost use Rattle.ftd_journal.specs.Numbers.{IsNextNumber};
ghost use Rattle.ftd_journal.specs.Parts.{journal_of};
ghost use Rattle.ftd_machine.specs.Journal.{days_journal};
ghost use Rattle.ftd_machine.specs.Runs.{IsFault};
ghost use Rattle.ftd_machine.specs.State.{State, entries_of};
ghost use Rattle.ftd_desk.specs.Desks.{IsStopped, held, KeepsIfOpen};
ghost use Rattle.ftd_desk.specs.Telling.{StandsAsBefore};

use crate::desk::Desk;
use crate::journals;
use ftd_machine::{Refusal, Request};
use sqlite::Alter;

impl<S: Alter> Desk<S> {
    /// The journal of the days: the requests by which an empty desk comes to have the same
    /// calendars, the same added holidays and the same changes of days, in their order. `Memory`
    /// and `Store` may come in place of it. The tables stay as they are. A desk that is stopped
    /// answers `Store`, and touches nothing.
    pub fn days_journal(&mut self) -> Result<Vec<Request>, Refusal>
        ensures knows { HasCleanDisk (held S.Store self.new).db
            → (s : State) → KeepsIfOpen (held S.Store self.old) s
            → IfOk result (λ requests. requests.items ≡ days_journal s) }
        ensures fault { IfErr result (λ refusal. IsFault (Err refusal)) }
        ensures stands { StandsAsBefore (held S.Store self.old) (held S.Store self.new) }
        ensures stopped { IsStopped self.old
            → (result ≡ Err Refusal.Store) × (self.new ≡ self.old) }
    {
        if self.stopped {
            return Err(Refusal::Store);
        }
        journals::days_journal(&mut self.store, self.alloc)
    }

    /// The journal of the account of the name: the requests by which a desk that has the same days,
    /// and nothing of the account, comes to have the same of it, in their order. None where no
    /// account has the name. `Memory` and `Store` may come in place of it. The tables stay as they
    /// are. A desk that is stopped answers `Store`, and touches nothing.
    pub fn account_journal(&mut self, account: &str) -> Result<Option<Vec<Request>>, Refusal>
        ensures knows { HasCleanDisk (held S.Store self.new).db
            → (s : State) → KeepsIfOpen (held S.Store self.old) s
            → IfOk result (λ found.
            option_map (λ it. it.items) found ≡ journal_of s account.now) }
        ensures fault { IfErr result (λ refusal. IsFault (Err refusal)) }
        ensures stands { StandsAsBefore (held S.Store self.old) (held S.Store self.new) }
        ensures stopped { IsStopped self.old
            → (result ≡ Err Refusal.Store) × (self.new ≡ self.old) }
    {
        if self.stopped {
            return Err(Refusal::Store);
        }
        journals::account_journal(&mut self.store, self.alloc, account)
    }

    /// The least number above all those of the account's runs, void ones too; 1 where it has none.
    /// `Memory` and `Store` may come in place of it. The tables stay as they are. A desk that is
    /// stopped answers `Store`, and touches nothing.
    pub fn next_run(&mut self, account: &str) -> Result<u32, Refusal>
        ensures knows { HasCleanDisk (held S.Store self.new).db
            → (s : State) → KeepsIfOpen (held S.Store self.old) s
            → IfOk result (λ number. IsNextNumber (entries_of s account.now).runs number) }
        ensures fault { IfErr result (λ refusal. IsFault (Err refusal)) }
        ensures stands { StandsAsBefore (held S.Store self.old) (held S.Store self.new) }
        ensures stopped { IsStopped self.old
            → (result ≡ Err Refusal.Store) × (self.new ≡ self.old) }
    {
        if self.stopped {
            return Err(Refusal::Store);
        }
        journals::next_run(&mut self.store, self.alloc, account)
    }

    /// The least number above all those of the account's payments, void ones too; 1 where it has none.
    /// `Memory` and `Store` may come in place of it. The tables stay as they are. A desk that is
    /// stopped answers `Store`, and touches nothing.
    pub fn next_payment(&mut self, account: &str) -> Result<u32, Refusal>
        ensures knows { HasCleanDisk (held S.Store self.new).db
            → (s : State) → KeepsIfOpen (held S.Store self.old) s
            → IfOk result (λ number. IsNextNumber (entries_of s account.now).payments number) }
        ensures fault { IfErr result (λ refusal. IsFault (Err refusal)) }
        ensures stands { StandsAsBefore (held S.Store self.old) (held S.Store self.new) }
        ensures stopped { IsStopped self.old
            → (result ≡ Err Refusal.Store) × (self.new ≡ self.old) }
    {
        if self.stopped {
            return Err(Refusal::Store);
        }
        journals::next_payment(&mut self.store, self.alloc, account)
    }
}

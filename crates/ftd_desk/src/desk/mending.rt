//! What the tables keep that a refusal can be mended by.

ghost use Rattle.std.specs.Prelude.{◌≡◌, ◌≤◌, Err, IfErr, IfOk, option_map};
ghost use Rattle.sqlite.specs.State.{HasCleanDisk};
ghost use Rattle.ftd_machine.specs.Runs.{IsFault};
ghost use Rattle.ftd_machine.specs.Requests.{is_unused};
ghost use Rattle.ftd_machine.specs.State.{State, calendar_at, enrolled_in, entries_of, kept_at};
ghost use Rattle.ftd_questions.specs.Missing.{first_year, missing_from};
ghost use Rattle.ftd_questions.specs.Nearest.{IsMeant};
ghost use Rattle.ftd_desk.specs.Desks.{IsStopped, held, KeepsIfOpen};
ghost use Rattle.ftd_desk.specs.Telling.{StandsAsBefore};

use crate::desk::Desk;
use ftd_days::{Day, FIRST_YEAR, LAST_OPEN_YEAR, Quarter};
use ftd_machine::{Account, AccountName, Refusal};
use ftd_rules::{PayRun, Payment, Voidable};
use sqlite::Alter;

impl<S: Alter> Desk<S> {
    /// The quarters of the year's lookback period, from this one on, whose totals the account has
    /// not reported (Pub. 15, section 11, "Lookback period"). `Memory` and `Store` may come in
    /// place of them. The tables stay as they are. A desk that is stopped answers `Store`, and
    /// touches nothing.
    pub fn missing_quarters(
        &mut self,
        account: &str,
        first: Quarter,
        year: u32,
    ) -> Result<Vec<Quarter>, Refusal>
        requires from { FIRST_YEAR ≤ year }
        requires to { year ≤ LAST_OPEN_YEAR }
        ensures knows { HasCleanDisk (held S.Store self.new).db
            → (s : State) → KeepsIfOpen (held S.Store self.old) s
            → IfOk result (λ quarters.
            quarters.items ≡ missing_from (entries_of s account.now) first year) }
        ensures fault { IfErr result (λ refusal. IsFault (Err refusal)) }
        ensures stands { StandsAsBefore (held S.Store self.old) (held S.Store self.new) }
        ensures stopped { IsStopped self.old
            → (result ≡ Err Refusal.Store) × (self.new ≡ self.old) }
    {
        if self.stopped {
            return Err(Refusal::Store);
        }
        ftd_questions::missing_quarters(&mut self.store, self.alloc, account, first, year)
    }

    /// The days that the year's calendar was given with, without those that were added to it, or
    /// None where it is not given. `Memory` and `Store` may come in place of them. The tables stay
    /// as they are. A desk that is stopped answers `Store`, and touches nothing.
    pub fn given_days(&mut self, year: u32) -> Result<Option<Vec<Day>>, Refusal>
        ensures knows { HasCleanDisk (held S.Store self.new).db
            → (s : State) → KeepsIfOpen (held S.Store self.old) s
            → IfOk result (λ days. calendar_at s year ≡ option_map (λ it. it.items) days) }
        ensures fault { IfErr result (λ refusal. IsFault (Err refusal)) }
        ensures stands { StandsAsBefore (held S.Store self.old) (held S.Store self.new) }
        ensures stopped { IsStopped self.old
            → (result ≡ Err Refusal.Store) × (self.new ≡ self.old) }
    {
        if self.stopped {
            return Err(Refusal::Store);
        }
        ftd_questions::given_days(&mut self.store, self.alloc, year)
    }

    /// The first year of the account that is open, and where none is, the year of the employer's
    /// first day: no year before it can be opened. None where the account is not enrolled. `Memory`
    /// and `Store` may come in place of it. The tables stay as they are. A desk that is stopped
    /// answers `Store`, and touches nothing.
    pub fn first_year(&mut self, account: &str) -> Result<Option<u32>, Refusal>
        ensures knows { HasCleanDisk (held S.Store self.new).db
            → (s : State) → KeepsIfOpen (held S.Store self.old) s
            → IfOk result (λ year. year ≡ first_year (entries_of s account.now)) }
        ensures fault { IfErr result (λ refusal. IsFault (Err refusal)) }
        ensures stands { StandsAsBefore (held S.Store self.old) (held S.Store self.new) }
        ensures stopped { IsStopped self.old
            → (result ≡ Err Refusal.Store) × (self.new ≡ self.old) }
    {
        if self.stopped {
            return Err(Refusal::Store);
        }
        ftd_questions::first_year(&mut self.store, self.alloc, account)
    }

    /// Of all accounts, the name that is nearest to what was typed, the first of several by name.
    /// None if none is near: at most two edits away, and at most one for every three bytes that
    /// were typed. `Memory` and `Store` may come in place of it. The tables stay as they are. A
    /// desk that is stopped answers `Store`, and touches nothing.
    pub fn meant_account(&mut self, typed: &str) -> Result<Option<AccountName>, Refusal>
        ensures knows { HasCleanDisk (held S.Store self.new).db
            → (s : State) → KeepsIfOpen (held S.Store self.old) s
            → IfOk result (IsMeant s typed.now) }
        ensures fault { IfErr result (λ refusal. IsFault (Err refusal)) }
        ensures stands { StandsAsBefore (held S.Store self.old) (held S.Store self.new) }
        ensures stopped { IsStopped self.old
            → (result ≡ Err Refusal.Store) × (self.new ≡ self.old) }
    {
        if self.stopped {
            return Err(Refusal::Store);
        }
        ftd_questions::meant_account(&mut self.store, self.alloc, typed)
    }

    /// As what the account was enrolled, or None where there is none. `Memory` and `Store` may come
    /// in place of it. The tables stay as they are. A desk that is stopped answers `Store`, and
    /// touches nothing.
    pub fn enrolled_account(&mut self, account: &str) -> Result<Option<Account>, Refusal>
        ensures knows { HasCleanDisk (held S.Store self.new).db
            → (s : State) → KeepsIfOpen (held S.Store self.old) s
            → IfOk result (λ kept. enrolled_in s account.now ≡ kept) }
        ensures fault { IfErr result (λ refusal. IsFault (Err refusal)) }
        ensures stands { StandsAsBefore (held S.Store self.old) (held S.Store self.new) }
        ensures stopped { IsStopped self.old
            → (result ≡ Err Refusal.Store) × (self.new ≡ self.old) }
    {
        if self.stopped {
            return Err(Refusal::Store);
        }
        ftd_questions::enrolled_account(&mut self.store, account)
    }

    /// Whether nothing rests on the account: no total was reported, and no year is open. `Memory`
    /// and `Store` may come in place of it. The tables stay as they are. A desk that is stopped
    /// answers `Store`, and touches nothing.
    pub fn is_unused(&mut self, account: &str) -> Result<bool, Refusal>
        ensures knows { HasCleanDisk (held S.Store self.new).db
            → (s : State) → KeepsIfOpen (held S.Store self.old) s
            → IfOk result (λ unused. is_unused (entries_of s account.now) ≡ unused) }
        ensures fault { IfErr result (λ refusal. IsFault (Err refusal)) }
        ensures stands { StandsAsBefore (held S.Store self.old) (held S.Store self.new) }
        ensures stopped { IsStopped self.old
            → (result ≡ Err Refusal.Store) × (self.new ≡ self.old) }
    {
        if self.stopped {
            return Err(Refusal::Store);
        }
        ftd_questions::is_unused(&mut self.store, self.alloc, account)
    }

    /// The account's run of the number, void or not, or None where there is none. `Memory` and
    /// `Store` may come in place of it. The tables stay as they are. A desk that is stopped answers
    /// `Store`, and touches nothing.
    pub fn kept_run(
        &mut self,
        account: &str,
        number: u32,
    ) -> Result<Option<Voidable<PayRun>>, Refusal>
        ensures knows { HasCleanDisk (held S.Store self.new).db
            → (s : State) → KeepsIfOpen (held S.Store self.old) s
            → IfOk result (λ kept. kept_at number (entries_of s account.now).runs ≡ kept) }
        ensures fault { IfErr result (λ refusal. IsFault (Err refusal)) }
        ensures stands { StandsAsBefore (held S.Store self.old) (held S.Store self.new) }
        ensures stopped { IsStopped self.old
            → (result ≡ Err Refusal.Store) × (self.new ≡ self.old) }
    {
        if self.stopped {
            return Err(Refusal::Store);
        }
        ftd_questions::kept_run(&mut self.store, account, number)
    }

    /// The account's payment of the number, void or not, or None where there is none. `Memory` and
    /// `Store` may come in place of it. The tables stay as they are. A desk that is stopped answers
    /// `Store`, and touches nothing.
    pub fn kept_payment(
        &mut self,
        account: &str,
        number: u32,
    ) -> Result<Option<Voidable<Payment>>, Refusal>
        ensures knows { HasCleanDisk (held S.Store self.new).db
            → (s : State) → KeepsIfOpen (held S.Store self.old) s
            → IfOk result (λ kept. kept_at number (entries_of s account.now).payments ≡ kept) }
        ensures fault { IfErr result (λ refusal. IsFault (Err refusal)) }
        ensures stands { StandsAsBefore (held S.Store self.old) (held S.Store self.new) }
        ensures stopped { IsStopped self.old
            → (result ≡ Err Refusal.Store) × (self.new ≡ self.old) }
    {
        if self.stopped {
            return Err(Refusal::Store);
        }
        ftd_questions::kept_payment(&mut self.store, account, number)
    }
}

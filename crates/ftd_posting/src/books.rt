//! Several runs of an account are posted, one after the other, and what is known of it is read
//! once.

ghost use Rattle.std.specs.Prelude.{◌≡◌, ◌≤◌, IsTrue, None, Some, IfOk, IfSome, MatchOption};
ghost use Rattle.std.specs.Prelude.{MatchResult, OnOk};
ghost use Rattle.ftd_days.specs.Calendar.{year_of, year_start, last_day};
ghost use Rattle.ftd_machine.specs.State.{State};
ghost use Rattle.ftd_machine.specs.Sound.{IsSound};
ghost use Rattle.ftd_store.specs.Finds.{CountsRuns};
ghost use Rattle.ftd_store.specs.Frame.{Calls, Reads};
ghost use Rattle.ftd_entries.specs.Standing.{StandsFor};
ghost use Rattle.ftd_posting.specs.Books.{HasNoYear, IsBook, PostsBy, IsAbove, IsReached};
ghost use Rattle.ftd_posting.specs.Books.{checks_by, first_year, greatest_known};

use ftd_buckets::Window;
use ftd_days::{Day, FIRST_CALENDAR_YEAR, LAST_CALENDAR_YEAR, LAST_NUMBER};
use ftd_entries::{has_year, is_open, known_account};
use ftd_machine::{Account, Answer, Reply, post_check};
use ftd_repairs::Ledger;
use ftd_rules::{PayRun, Voidable};
use ftd_store::{StoreFault, Tx};
use sqlite::Alter;
use std::alloc::Global;

/// The days from the first of the year to the last that there is. None before 1900 and after 2199.
pub(crate) fn days_from(year: u32) -> Option<Window>
    ensures first { IfSome result (λ days. days.from ≡ year_start year) }
    ensures of_year { IfSome result (λ days. year_of days.from ≡ year) }
    ensures last { IfSome result (λ days. days.to ≡ last_day) }
    ensures to { IfSome result (λ days. year ≤ LAST_CALENDAR_YEAR) }
{
    if year < FIRST_CALENDAR_YEAR || year > LAST_CALENDAR_YEAR {
        return None;
    }
    let from = Day::first_of_month((year - FIRST_CALENDAR_YEAR) * 12);
    let to = Day::from_number(LAST_NUMBER)?;
    Some(Window { from, to })
}

/// The greater of a number that is known and this one. None where none is known.
fn reached(greatest: Option<u32>, number: u32) -> Option<u32>
    ensures { IfSome result (IsReached greatest number) }
{
    let greatest = greatest?;
    Some(greatest.max(number))
}

/// What is known of an account while several of its runs are posted.
#[derive(Drop)]
pub struct Book {
    account: Account,
    from: u32,
    ledger: Ledger,
    // none of its runs has a greater number; None where no such number is known
    greatest: Option<u32>,
}

impl Book {
    /// What is known of the account, for runs with paydays from this year on. None where it is not
    /// enrolled, and where the year is not open. `Failed` also where the calendar of an open year
    /// from then on or of the year after is not given.
    pub fn read<S: Alter>(
        tx: &mut Tx<'_, S>,
        alloc: Global,
        name: &str,
        year: u32,
    ) -> Result<Option<Book>, StoreFault>
        ensures call { Reads S.Store tx.old tx.new result (λ found t. (s : State) → StandsFor t s
            → IsSound s → MatchOption found (HasNoYear s name.now year) (IsBook s name.now)) }
        ensures year { IfOk result (λ found. IfSome found (λ book. first_year book ≡ year)) }
    {
        let Some(account) = known_account(tx, alloc, name)? else {
            return Ok(None);
        };
        let there = is_open(tx, alloc, name, year)?;
        if !there {
            return Ok(None);
        }
        let Some(days) = days_from(year) else {
            return tx.give_up(StoreFault::Failed);
        };
        let ledger = Ledger::read(tx, alloc, name, days)?;
        Ok(Some(Book {
            account,
            from: year,
            ledger,
            greatest: None,
        }))
    }

    /// The first year of the paydays that it is for.
    pub fn first_year(&self) -> u32
        ensures { result ≡ first_year self.now }
    {
        self.from
    }

    /// Posts a pay run of the account, under its number. The account has so many runs, voided ones
    /// too. It is answered how the obligations that come differ from those that go, or why the run
    /// is refused; a refused run changes nothing.
    pub fn post<S: Alter>(
        &mut self,
        tx: &mut Tx<'_, S>,
        alloc: Global,
        name: &str,
        number: u32,
        run: PayRun,
        count: u32,
    ) -> Result<Answer, StoreFault>
        requires since { first_year self.old ≤ year_of run.payday }
        ensures call { Calls S.Store tx.old tx.new result (λ answer before after t.
            CountsRuns name.now count t
            → PostsBy name.now number run self.old self.new answer before after t) }
        ensures year { OnOk result (first_year self.new ≡ first_year self.old) }
    {
        let greatest = self.greatest_of(count);
        if !self.is_new(name, number, &run, count) {
            let kept = tx.run(name, number)?;
            if let Err(answer) = self.check(name, number, &run, kept, count) {
                return Ok(answer);
            }
        }
        let form = self.account.form;
        let difference = self.ledger.add(tx, alloc, name, form, number, run)?;
        self.greatest = reached(greatest, number);
        Ok(Ok(Reply::Posted(difference)))
    }

    // what refuses the run or answers it as known, by the book and what is known of its number
    fn check(
        &self,
        name: &str,
        number: u32,
        run: &PayRun,
        kept: Option<Voidable<PayRun>>,
        count: u32,
    ) -> Result<Account, Answer>
        ensures { MatchResult result
            (λ account. checks_by name.now number run.now count self.now kept ≡ None)
            (λ answer. checks_by name.now number run.now count self.now kept ≡ Some answer) }
    {
        let is_open = has_year(&self.ledger.years.lines, run.payday.year());
        post_check(name, number, run, Some(self.account), kept, is_open, count)
    }

    // a number such that none of the account's runs has a greater one, if one is known: where it
    // has no runs, every number is one
    fn greatest_of(&self, count: u32) -> Option<u32>
        ensures { result ≡ greatest_known self.now count }
    {
        if count == 0 { Some(0) } else { self.greatest }
    }

    // whether it is known without a look at the tables that the account has no run of the number,
    // and nothing else refuses the run
    fn is_new(&self, name: &str, number: u32, run: &PayRun, count: u32) -> bool
        ensures above { IsTrue result → IsAbove (greatest_known self.now count) number }
        ensures passes { IsTrue result
            → checks_by name.now number run.now count self.now None ≡ None }
    {
        match self.greatest_of(count) {
            Some(greatest) if number > greatest => {
                self.check(name, number, run, None, count).is_ok()
            }
            _ => false,
        }
    }
}

//! Each request goes to its function.

ghost use Rattle.std.specs.Prelude.{◌≡◌, IfSome};
ghost use Rattle.ftd_store.specs.Finds.{CountsRuns, CountsPayments};
ghost use Rattle.ftd_store.specs.Frame.{Calls};
ghost use Rattle.ftd_machine.specs.declared.requests.Request.TheVariants.{Correct, Enter, Pay};
ghost use Rattle.ftd_machine.specs.declared.requests.Request.TheVariants.{Post};
ghost use Rattle.ftd_entries.specs.Words.{Serves};
ghost use Rattle.ftd_posting.specs.Repaired.{Becoming, PostsRun, Repairs};
ghost use Rattle.ftd_desk.specs.Counted.{Knows, ServesCounted};
ghost use Rattle.ftd_desk.specs.Kept.{kept_of};
ghost use Rattle.ftd_desk.specs.Shown.{ShowsFor};

use crate::answering::ask;
use crate::counts::Counts;
use crate::kept::Kept;
use ftd_entries::{correct_account, enrol, open_year, pay, report, take_calendar, void_payment};
use ftd_machine::{Answer, Correction, Entry, Request};
use ftd_posting::{add_holiday, change_holiday, correct_total, post, void};
use ftd_rules::{PayRun, Payment};
use ftd_store::{StoreFault, Tx};
use sqlite::Alter;
use std::alloc::Global;

/// The answer to a request, and the counts after it.
#[derive(Drop)]
pub(crate) struct Served {
    pub answer: Answer,
    pub counts: Counts,
}

/// A pay run that is to be posted, of an account and under a number.
#[derive(Clone, Copy)]
pub(crate) struct Posting<'a> {
    pub account: &'a str,
    pub number: u32,
    pub run: PayRun,
}

/// The pay run that the request posts. None of a request of another kind.
pub(crate) fn posting_of(request: &Request) -> Option<Posting<'_>>
    ensures { IfSome result (λ posting.
        request.now ≡ Post posting.account.now posting.number posting.run) }
{
    if let Request::Post {
        account,
        number,
        run,
    } = request
    {
        Some(Posting {
            account: account.as_str(),
            number: *number,
            run: *run,
        })
    } else {
        None
    }
}

/// Answers the request within a transaction.
pub(crate) fn serve<S: Alter>(
    tx: &mut Tx<'_, S>,
    alloc: Global,
    counts: Counts,
    request: &Request,
) -> Result<Served, StoreFault>
    ensures call { Calls S.Store tx.old tx.new result (ServesCounted counts request.now) }
    ensures repairs { Calls S.Store tx.old tx.new result (λ served before after.
        Repairs request.now served.answer before.now after.now) }
    ensures shows { Calls S.Store tx.old tx.new result (λ served before after t.
        ShowsFor request.now served.answer t) }
{
    let answer = match request {
        Request::Post {
            account,
            number,
            run,
        } => return serve_post(tx, alloc, counts, account.as_str(), *number, *run),
        Request::Pay {
            account,
            number,
            payment,
        } => return serve_pay(tx, alloc, counts, account.as_str(), *number, *payment),
        Request::Enter(entry) => enter(tx, alloc, entry)?,
        Request::Void { account, number } => void(tx, alloc, account.as_str(), *number)?,
        Request::VoidPay { account, number } => {
            void_payment(tx, alloc, account.as_str(), *number)?
        }
        Request::Correct { number, correction } => correct(tx, alloc, *number, correction)?,
        Request::Question(question) => ask(tx, alloc, question)?,
    };
    Ok(Served { answer, counts })
}

/// Enters what deposits rest on.
fn enter<S: Alter>(tx: &mut Tx<'_, S>, alloc: Global, entry: &Entry) -> Result<Answer, StoreFault>
    ensures { Calls S.Store tx.old tx.new result (Serves (Enter entry.now)) }
{
    match entry {
        Entry::Account { name, account } => enrol(tx, name.as_str(), *account),
        Entry::Calendar { year, days } => take_calendar(tx, alloc, *year, days.as_slice()),
        Entry::Holiday { day } => add_holiday(tx, alloc, *day),
        Entry::Total {
            account,
            period,
            cents,
        } => report(tx, alloc, account.as_str(), period, *cents),
        Entry::Year { account, year } => open_year(tx, alloc, account.as_str(), *year),
    }
}

/// Puts right what was entered before, under a number.
#[tactic(auto, unfolding(ftd_posting::specs::Repaired::Repairs))]
fn correct<S: Alter>(
    tx: &mut Tx<'_, S>,
    alloc: Global,
    number: u32,
    correction: &Correction,
) -> Result<Answer, StoreFault>
    ensures call { Calls S.Store tx.old tx.new result (Serves (Correct number correction.now)) }
    ensures repairs { Calls S.Store tx.old tx.new result (λ answer before after.
        Repairs (Correct number correction.now) answer before.now after.now) }
{
    match correction {
        Correction::Total {
            account,
            period,
            cents,
        } => correct_total(tx, alloc, account.as_str(), period, number, *cents),
        Correction::Holiday { day, is_holiday } => {
            change_holiday(tx, alloc, *day, number, *is_holiday)
        }
        Correction::Account { account, beginning } => {
            correct_account(tx, alloc, account.as_str(), number, *beginning)
        }
    }
}

/// Posts a run.
pub(crate) fn serve_post<S: Alter>(
    tx: &mut Tx<'_, S>,
    alloc: Global,
    mut counts: Counts,
    name: &str,
    number: u32,
    run: PayRun,
) -> Result<Served, StoreFault>
    ensures call { Calls S.Store tx.old tx.new result (ServesCounted counts
        (Post name.now number run)) }
    ensures repairs { Calls S.Store tx.old tx.new result (λ served before after.
        Becoming (PostsRun name.now number run) served.answer before.now after.now) }
{
    let count = count_runs(tx, &counts.runs, name)?;
    let answer = post(tx, alloc, name, number, run, count)?;
    counts.runs.keep(alloc, name, count, &answer);
    Ok(Served { answer, counts })
}

/// How many runs the account has: the number that is kept of it, or else counted anew.
pub(crate) fn count_runs<S: Alter>(
    tx: &mut Tx<'_, S>,
    runs: &Kept<u32>,
    name: &str,
) -> Result<u32, StoreFault>
    ensures { Knows S.Store tx.old tx.new result
        (kept_of runs.now name.now) (CountsRuns name.now) }
{
    match runs.number(name) {
        Some(number) => Ok(number),
        None => tx.count_runs(name),
    }
}

/// Takes a payment.
fn serve_pay<S: Alter>(
    tx: &mut Tx<'_, S>,
    alloc: Global,
    mut counts: Counts,
    name: &str,
    number: u32,
    payment: Payment,
) -> Result<Served, StoreFault>
    ensures call { Calls S.Store tx.old tx.new result (ServesCounted counts
        (Pay name.now number payment)) }
{
    let count = count_payments(tx, &counts.payments, name)?;
    let answer = pay(tx, alloc, name, number, payment, count)?;
    counts.payments.keep(alloc, name, count, &answer);
    Ok(Served { answer, counts })
}

/// How many payments the account has: the number that is kept of it, or else counted anew.
fn count_payments<S: Alter>(
    tx: &mut Tx<'_, S>,
    payments: &Kept<u32>,
    name: &str,
) -> Result<u32, StoreFault>
    ensures { Knows S.Store tx.old tx.new result
        (kept_of payments.now name.now) (CountsPayments name.now) }
{
    match payments.number(name) {
        Some(number) => Ok(number),
        None => tx.count_payments(name),
    }
}

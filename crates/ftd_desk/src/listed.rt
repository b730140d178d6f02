//! A list of requests within one transaction. What is known of an account of which runs are posted
//! is kept from request to request.

ghost use Rattle.std.specs.Prelude.{◌≡◌, ◌∷◌, false, [], if◌then◌else◌, IfOk};
ghost use Rattle.ftd_days.specs.Calendar.{year_of};
ghost use Rattle.ftd_store.specs.Frame.{Calls};
ghost use Rattle.ftd_machine.specs.Laws.{is_change};
ghost use Rattle.ftd_machine.specs.declared.requests.Request.TheVariants.{Post};
ghost use Rattle.ftd_posting.specs.Repaired.{Repairs};
ghost use Rattle.ftd_desk.specs.Shown.{ShowsFor};
ghost use Rattle.ftd_desk.specs.Books.{IsReady, ServesKnown};
ghost use Rattle.ftd_desk.specs.Kept.{TakesFound, kept_of};
ghost use Rattle.ftd_desk.specs.Words.{AreAnswers, ServesAll, is_fault};

use crate::counts::is_fault;
use crate::kept::Kept;
use crate::known::Known;
use crate::requests::{Served, count_runs, posting_of, serve, serve_post};
use ftd_machine::{Answer, Request};
use ftd_posting::Book;
use ftd_rules::PayRun;
use ftd_store::{StoreFault, Tx};
use sqlite::Alter;
use std::alloc::Global;

/// The answer to a request, and what is known after it.
#[derive(Drop)]
pub(crate) struct Answered {
    pub answer: Answer,
    pub known: Known,
}

/// The answers to some requests, and what is known after them.
#[derive(Drop)]
pub(crate) struct ServedAll {
    pub answers: Vec<Answer>,
    pub known: Known,
}

/// Answers the requests one after the other within a transaction.
pub(crate) fn serve_all<S: Alter>(
    tx: &mut Tx<'_, S>,
    alloc: Global,
    known: Known,
    first: &Request,
    later: &[Request],
) -> Result<ServedAll, StoreFault>
    ensures call { Calls S.Store tx.old tx.new result
        (ServesAll known (first.now ∷ later.now)) }
    ensures answers { IfOk result (λ served.
        AreAnswers (first.now ∷ later.now) served.answers.items) }
{
    let Ok(mut answers) = Vec::with_capacity(alloc, later.len() + 1) else {
        return tx.give_up(StoreFault::Memory);
    };
    let served = serve_sure(tx, alloc, known, first)?;
    answers.push_reserved(served.answer);
    let mut known = served.known;
    for request in later {
        let served = serve_sure(tx, alloc, known, request)?;
        answers.push_reserved(served.answer);
        known = served.known;
    }
    Ok(ServedAll { answers, known })
}

/// Answers the request within a transaction, and never by a fault.
fn serve_sure<S: Alter>(
    tx: &mut Tx<'_, S>,
    alloc: Global,
    known: Known,
    request: &Request,
) -> Result<Answered, StoreFault>
    ensures call { Calls S.Store tx.old tx.new result (ServesKnown known request.now) }
    ensures sure { IfOk result (λ served. is_fault served.answer ≡ false) }
{
    let served = serve_listed(tx, alloc, known, request)?;
    // no step of the machine is a fault
    if is_fault(&served.answer) {
        return tx.give_up(StoreFault::Failed);
    }
    Ok(served)
}

/// Answers the request within a transaction: a run is posted by the account's book.
fn serve_listed<S: Alter>(
    tx: &mut Tx<'_, S>,
    alloc: Global,
    known: Known,
    request: &Request,
) -> Result<Answered, StoreFault>
    ensures { Calls S.Store tx.old tx.new result (ServesKnown known request.now) }
{
    if let Some(posting) = posting_of(request) {
        return serve_post_by(
            tx,
            alloc,
            known,
            posting.account,
            posting.number,
            posting.run,
        );
    }
    serve_alone(tx, alloc, known, request)
}

/// Answers the request within a transaction, by no book.
pub(crate) fn serve_alone<S: Alter>(
    tx: &mut Tx<'_, S>,
    alloc: Global,
    known: Known,
    request: &Request,
) -> Result<Answered, StoreFault>
    ensures call { Calls S.Store tx.old tx.new result (ServesKnown known request.now) }
    ensures repairs { Calls S.Store tx.old tx.new result (λ served before after.
        Repairs request.now served.answer before.now after.now) }
    ensures shows { Calls S.Store tx.old tx.new result (λ served before after t.
        ShowsFor request.now served.answer t) }
{
    let served = serve(tx, alloc, known.counts, request)?;
    Ok(past(served, known.books))
}

/// Posts a run by the account's book, which is read where none is kept that is for the run's year.
fn serve_post_by<S: Alter>(
    tx: &mut Tx<'_, S>,
    alloc: Global,
    known: Known,
    name: &str,
    number: u32,
    run: PayRun,
) -> Result<Answered, StoreFault>
    ensures { Calls S.Store tx.old tx.new result (ServesKnown known
        (Post name.now number run)) }
{
    let year = run.payday.year();
    if let Some(place) = known.books.ready(name, year) {
        return post_at(tx, alloc, known, place, name, number, run);
    }
    let found = Book::read(tx, alloc, name, year)?;
    post_read(
        tx,
        alloc,
        learned(alloc, known, name, found),
        name,
        number,
        run,
    )
}

/// Posts a run by the account's book, or without one where none is kept.
fn post_read<S: Alter>(
    tx: &mut Tx<'_, S>,
    alloc: Global,
    known: Known,
    name: &str,
    number: u32,
    run: PayRun,
) -> Result<Answered, StoreFault>
    ensures { Calls S.Store tx.old tx.new result (ServesKnown known
        (Post name.now number run)) }
{
    if let Some(place) = known.books.ready(name, run.payday.year()) {
        return post_at(tx, alloc, known, place, name, number, run);
    }
    let served = serve_post(tx, alloc, known.counts, name, number, run)?;
    Ok(past(served, known.books))
}

/// Posts a run by the account's book, which stands at this place.
fn post_at<S: Alter>(
    tx: &mut Tx<'_, S>,
    alloc: Global,
    mut known: Known,
    place: usize,
    name: &str,
    number: u32,
    run: PayRun,
) -> Result<Answered, StoreFault>
    requires ready { IsReady known.books name.now (year_of run.payday) place }
    ensures { Calls S.Store tx.old tx.new result (ServesKnown known
        (Post name.now number run)) }
{
    let count = count_runs(tx, &known.counts.runs, name)?;
    let book = &mut known.books.entries[place].content;
    let answer = book.post(tx, alloc, name, number, run, count)?;
    known.counts.runs.keep(alloc, name, count, &answer);
    Ok(Answered { answer, known })
}

/// What is known with the book that was read of the account, if one was.
fn learned(alloc: Global, mut known: Known, name: &str, found: Option<Book>) -> Known
    ensures counts { result.counts ≡ known.counts }
    ensures books { TakesFound (kept_of known.books) (kept_of result.books)
        name.now found }
{
    if let Some(book) = found {
        known.books.set(alloc, name, book);
    }
    known
}

/// What is known after a request that was answered by no book.
fn past(served: Served, mut books: Kept<Book>) -> Answered
    ensures answer { result.answer ≡ served.answer }
    ensures counts { result.known.counts ≡ served.counts }
    ensures books { result.known.books.entries.items
        ≡ (if is_change served.answer then [] else books.entries.items) }
{
    books.pass(&served.answer);
    Answered {
        answer: served.answer,
        known: Known {
            counts: served.counts,
            books,
        },
    }
}

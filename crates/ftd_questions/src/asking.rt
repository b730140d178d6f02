//! What a due list that is told row by row rests on besides its obligations, or why it is refused.

ghost use Rattle.std.specs.Prelude.{◌≡◌, ◌⊎◌, ◌<◌, ◌≤◌, None, Some, Ok, Err, IfOk, IfErr};
ghost use Rattle.std.specs.Prelude.{IsTrue, MatchResult};
ghost use Rattle.std.specs.List.{sum_by};
ghost use Rattle.ftd_days.specs.Calendar.{quarter_year};
ghost use Rattle.ftd_rules.specs.Payments.{payment_cents};
ghost use Rattle.sqlite.specs.State.{HasCleanDisk};
ghost use Rattle.ftd_sql.specs.Standing.{Tables};
ghost use Rattle.ftd_store.specs.Frame.{Reads};
ghost use Rattle.ftd_store.specs.Seen.{seen};
ghost use Rattle.ftd_machine.specs.History.{form_of};
ghost use Rattle.ftd_machine.specs.Checks.{first_of};
ghost use Rattle.ftd_machine.specs.Requests.{due_list_checks};
ghost use Rattle.ftd_machine.specs.Runs.{IsFault};
ghost use Rattle.ftd_questions.specs.Telling.{KnowsReturn, KnowsAsked};
ghost use Rattle.ftd_questions.specs.Walks.{Stays, StandIfOpen};

use crate::due::{KnownForDue, known_for_due};
use crate::faults::refusal_of;
use ftd_days::{Day, FIRST_YEAR, Holidays, LAST_OPEN_YEAR, Quarter};
use ftd_entries::{ReturnFacts, return_period};
use ftd_machine::{Refusal, due_list_check};
use ftd_rules::{AMOUNTS_END, Form};
use ftd_store::{Store, StoreFault, Tx};
use sqlite::Alter;
use std::alloc::Global;

/// What the rows of an account's due list rest on besides its obligations.
#[derive(Drop)]
pub(crate) struct KnownReturn {
    /// The account's form.
    pub form: Form,
    /// The holidays of the year of the quarter and of the next.
    pub holidays: Holidays,
    /// What is known of the return period.
    pub period: ReturnFacts,
}

/// The account's form, or why its due list is refused by what is known.
#[tactic(auto, using(crate::proofs::Shown::due_list_passed, crate::proofs::Shown::unknown_refused))]
fn asked_form(
    name: &str,
    quarter: Quarter,
    as_of: Day,
    known: &KnownForDue,
) -> Result<Form, Refusal>
    ensures passed { IfOk result (λ form. (first_of (due_list_checks name.now quarter as_of
        known.now.account known.now.is_open) ≡ None) × (form_of known.now.account ≡ form)) }
    ensures refused { IfErr result (λ refusal. first_of (due_list_checks name.now quarter as_of
        known.now.account known.now.is_open) ≡ Some (Err refusal)) }
{
    let checked = due_list_check(name, quarter, as_of, known.account, known.is_open);
    match &checked {
        Ok(account) => Ok(account.form),
        Err(Err(refusal)) => Err(*refusal),
        // a due list was never asked for before
        Err(Ok(_)) => Err(Refusal::UnknownAccount),
    }
}

/// The holidays and the return period of the quarter, for an account on the form.
fn known_return<S: Alter>(
    tx: &mut Tx<'_, S>,
    alloc: Global,
    name: &str,
    form: Form,
    quarter: Quarter,
) -> Result<KnownReturn, StoreFault>
    requires from { FIRST_YEAR ≤ quarter_year quarter }
    requires to { quarter_year quarter ≤ LAST_OPEN_YEAR }
    ensures call { Reads S.Store tx.old tx.new result (KnowsReturn name.now quarter) }
    ensures form { IfOk result (λ known. known.form ≡ form) }
    ensures small { IfOk result (λ known.
        sum_by payment_cents known.period.payments.items < AMOUNTS_END) }
{
    let year = quarter.year();
    let holidays = tx.holidays(alloc, year, year + 1)?;
    let period = return_period(tx, alloc, name, form, quarter)?;
    Ok(KnownReturn {
        form,
        holidays,
        period,
    })
}

/// What the account's due list rests on, or why it is refused.
fn asked<S: Alter>(
    tx: &mut Tx<'_, S>,
    alloc: Global,
    name: &str,
    quarter: Quarter,
    as_of: Day,
) -> Result<Result<KnownReturn, Refusal>, StoreFault>
    ensures call { Reads S.Store tx.old tx.new result (KnowsAsked name.now quarter as_of) }
    ensures years { IfOk result (λ asked. IfOk asked (λ known.
        (FIRST_YEAR ≤ quarter_year quarter) × (quarter_year quarter ≤ LAST_OPEN_YEAR))) }
    ensures small { IfOk result (λ asked. IfOk asked (λ known.
        sum_by payment_cents known.period.payments.items < AMOUNTS_END)) }
{
    let before = known_for_due(tx, alloc, name, quarter)?;
    let form = match asked_form(name, quarter, as_of, &before) {
        Ok(form) => form,
        Err(refusal) => return Ok(Err(refusal)),
    };
    let known = known_return(tx, alloc, name, form, quarter)?;
    Ok(Ok(known))
}

/// The same, in a transaction that is dropped. `Memory` and `Store` also where there was no memory
/// or the store failed.
pub(crate) fn read_return<S: Alter>(
    store: &mut Store<S>,
    alloc: Global,
    name: &str,
    quarter: Quarter,
    as_of: Day,
) -> Result<KnownReturn, Refusal>
    ensures knows { HasCleanDisk (seen S.Store store.new) → (t : Tables)
        → StandIfOpen (seen S.Store store.old) t → MatchResult result
        (λ known. KnowsAsked name.now quarter as_of (Ok known) t)
        (λ refusal. IsFault (Err refusal) ⊎ KnowsAsked name.now quarter as_of (Err refusal) t) }
    ensures shut { HasCleanDisk (seen S.Store store.new)
        → (IsTrue (seen S.Store store.old).is_open → ⊥)
        → MatchResult result (λ known. ⊥) (λ refusal. IsFault (Err refusal)) }
    ensures years { IfOk result (λ known.
        (FIRST_YEAR ≤ quarter_year quarter) × (quarter_year quarter ≤ LAST_OPEN_YEAR)) }
    ensures small { IfOk result (λ known.
        sum_by payment_cents known.period.payments.items < AMOUNTS_END) }
    ensures stays { Stays (seen S.Store store.old) (seen S.Store store.new) }
{
    let mut tx = match store.begin() {
        Ok(tx) => tx,
        Err(fault) => return Err(refusal_of(fault)),
    };
    match asked(&mut tx, alloc, name, quarter, as_of) {
        Ok(asked) => asked,
        Err(fault) => Err(refusal_of(fault)),
    }
}

//! What is asked of the desk for the hints of a refusal.

ghost use Rattle.std.specs.Prelude.{◌≡◌, Err, IfErr, IfOk};
ghost use Rattle.sqlite.specs.State.{HasCleanDisk};
ghost use Rattle.ftd_machine.specs.Runs.{IsFault};
ghost use Rattle.ftd_machine.specs.Requests.{is_unused};
ghost use Rattle.ftd_machine.specs.State.{State, enrolled_in, entries_of};
ghost use Rattle.ftd_desk.specs.Desks.{KeepsIfOpen, held};
ghost use Rattle.ftd_desk.specs.Telling.{StandsAsBefore};
ghost use Rattle.ftd_questions.specs.Missing.{first_year};
ghost use Rattle.ftd_program.specs.Mending.{KnowsAccount, KnowsDays, KnowsEnrolled, KnowsFor};
ghost use Rattle.ftd_program.specs.Mending.{KnowsMeant};
ghost use Rattle.ftd_program.specs.Mending.{KnowsPayment, KnowsQuarters, KnowsRun};
ghost use Rattle.ftd_program.specs.Mending.{begins_after, differs_as, enrolled_as, or_nothing};

use crate::differences::{payment_difference, run_difference};
use ftd_days::{FIRST_YEAR, LAST_OPEN_YEAR, Quarter};
use ftd_desk::Desk;
use ftd_machine::{Account, Entry, Refusal, Request};
use ftd_replies::{Differing, Enrolment, HintFacts, account_in};
use sqlite::Alter;

/// What the desk keeps that the refusal of a request can be mended by. `Memory` and `Store` may
/// come in place of it. The tables stay as they are.
pub fn known_for<S: Alter>(
    desk: &mut Desk<S>,
    request: &Request,
    refusal: Refusal,
) -> Result<HintFacts, Refusal>
    ensures knows { HasCleanDisk (held S.Store desk.new).db
        → (s : State) → KeepsIfOpen (held S.Store desk.old) s
        → IfOk result (KnowsFor s request.now refusal) }
    ensures fault { IfErr result (λ fault. IsFault (Err fault)) }
    ensures stands { StandsAsBefore (held S.Store desk.old) (held S.Store desk.new) }
{
    match refusal {
        Refusal::QuarterMissing(first) => quarters_for(desk, request, first),
        Refusal::CalendarDiffers => days_for(desk, request),
        Refusal::YearNotOpen(year) => beginning(desk, account_in(request), year),
        Refusal::UnknownAccount => meant(desk, account_in(request)),
        Refusal::AccountDiffers => account_for(desk, request),
        Refusal::RunDiffers => run_for(desk, request),
        Refusal::PaymentDiffers => payment_for(desk, request),
        _ => Ok(HintFacts::Nothing),
    }
}

/// Of a year that could not be opened, the quarters of its lookback period, from this one on, that
/// are still to be reported.
fn quarters_for<S: Alter>(
    desk: &mut Desk<S>,
    request: &Request,
    first: Quarter,
) -> Result<HintFacts, Refusal>
    ensures knows { HasCleanDisk (held S.Store desk.new).db
        → (s : State) → KeepsIfOpen (held S.Store desk.old) s
        → IfOk result (KnowsQuarters s request.now first) }
    ensures fault { IfErr result (λ fault. IsFault (Err fault)) }
    ensures stands { StandsAsBefore (held S.Store desk.old) (held S.Store desk.new) }
{
    match request {
        Request::Enter(Entry::Year { account, year })
            if FIRST_YEAR <= *year && *year <= LAST_OPEN_YEAR => {
            let quarters = desk.missing_quarters(account.as_str(), first, *year)?;
            Ok(HintFacts::Missing(quarters))
        }
        _ => Ok(HintFacts::Nothing),
    }
}

/// Of a calendar that differs, the days that it was given with.
fn days_for<S: Alter>(desk: &mut Desk<S>, request: &Request) -> Result<HintFacts, Refusal>
    ensures knows { HasCleanDisk (held S.Store desk.new).db
        → (s : State) → KeepsIfOpen (held S.Store desk.old) s
        → IfOk result (KnowsDays s request.now) }
    ensures fault { IfErr result (λ fault. IsFault (Err fault)) }
    ensures stands { StandsAsBefore (held S.Store desk.old) (held S.Store desk.new) }
{
    let Request::Enter(Entry::Calendar { year, .. }) = request else {
        return Ok(HintFacts::Nothing);
    };
    match desk.given_days(*year)? {
        Some(days) => Ok(HintFacts::Given(days)),
        None => Ok(HintFacts::Nothing),
    }
}

/// What differs, if something does.
fn differs_as(found: Option<Differing>) -> HintFacts
    ensures { result ≡ differs_as found }
{
    match found {
        Some(differing) => HintFacts::Differs(differing),
        None => HintFacts::Nothing,
    }
}

/// Of a run that differs, the one that has its number.
fn run_for<S: Alter>(desk: &mut Desk<S>, request: &Request) -> Result<HintFacts, Refusal>
    ensures knows { HasCleanDisk (held S.Store desk.new).db
        → (s : State) → KeepsIfOpen (held S.Store desk.old) s
        → IfOk result (KnowsRun s request.now) }
    ensures fault { IfErr result (λ fault. IsFault (Err fault)) }
    ensures stands { StandsAsBefore (held S.Store desk.old) (held S.Store desk.new) }
{
    let Request::Post {
        account,
        number,
        run,
    } = request
    else {
        return Ok(HintFacts::Nothing);
    };
    let found = run_difference(desk, account.as_str(), *number, *run)?;
    Ok(differs_as(found))
}

/// Of a payment that differs, the one that has its number.
fn payment_for<S: Alter>(desk: &mut Desk<S>, request: &Request) -> Result<HintFacts, Refusal>
    ensures knows { HasCleanDisk (held S.Store desk.new).db
        → (s : State) → KeepsIfOpen (held S.Store desk.old) s
        → IfOk result (KnowsPayment s request.now) }
    ensures fault { IfErr result (λ fault. IsFault (Err fault)) }
    ensures stands { StandsAsBefore (held S.Store desk.old) (held S.Store desk.new) }
{
    let Request::Pay {
        account,
        number,
        payment,
    } = request
    else {
        return Ok(HintFacts::Nothing);
    };
    let found = payment_difference(desk, account.as_str(), *number, *payment)?;
    Ok(differs_as(found))
}

/// Of an account that differs, as what it is enrolled, and whether something rests on it.
fn enrolment_of<S: Alter>(
    desk: &mut Desk<S>,
    name: &str,
    asked: Account,
) -> Result<HintFacts, Refusal>
    ensures knows { HasCleanDisk (held S.Store desk.new).db
        → (s : State) → KeepsIfOpen (held S.Store desk.old) s
        → IfOk result (λ known.
        known ≡ enrolled_as asked (enrolled_in s name.now) (is_unused (entries_of s name.now))) }
    ensures fault { IfErr result (λ fault. IsFault (Err fault)) }
    ensures stands { StandsAsBefore (held S.Store desk.old) (held S.Store desk.new) }
{
    let Some(kept) = desk.enrolled_account(name)? else {
        return Ok(HintFacts::Nothing);
    };
    let is_unused = desk.is_unused(name)?;
    Ok(HintFacts::Enrolled(Enrolment {
        asked,
        kept,
        is_unused,
    }))
}

/// Of an entry of an account that differs, what is known of the one that has its name.
fn enrolled_for<S: Alter>(desk: &mut Desk<S>, entry: &Entry) -> Result<HintFacts, Refusal>
    ensures knows { HasCleanDisk (held S.Store desk.new).db
        → (s : State) → KeepsIfOpen (held S.Store desk.old) s
        → IfOk result (KnowsEnrolled s entry.now) }
    ensures fault { IfErr result (λ fault. IsFault (Err fault)) }
    ensures stands { StandsAsBefore (held S.Store desk.old) (held S.Store desk.new) }
{
    if let Entry::Account { name, account } = entry {
        enrolment_of(desk, name.as_str(), *account)
    } else {
        Ok(HintFacts::Nothing)
    }
}

/// Of an account that differs, what is known of the one that has its name.
fn account_for<S: Alter>(desk: &mut Desk<S>, request: &Request) -> Result<HintFacts, Refusal>
    ensures knows { HasCleanDisk (held S.Store desk.new).db
        → (s : State) → KeepsIfOpen (held S.Store desk.old) s
        → IfOk result (KnowsAccount s request.now) }
    ensures fault { IfErr result (λ fault. IsFault (Err fault)) }
    ensures stands { StandsAsBefore (held S.Store desk.old) (held S.Store desk.new) }
{
    if let Request::Enter(entry) = request {
        enrolled_for(desk, entry)
    } else {
        Ok(HintFacts::Nothing)
    }
}

/// Of a year that is not open, the first of the account's years, if that is a later one.
fn beginning<S: Alter>(desk: &mut Desk<S>, account: &str, year: u32) -> Result<HintFacts, Refusal>
    ensures knows { HasCleanDisk (held S.Store desk.new).db
        → (s : State) → KeepsIfOpen (held S.Store desk.old) s
        → IfOk result (λ known.
        known ≡ begins_after year (first_year (entries_of s account.now))) }
    ensures fault { IfErr result (λ fault. IsFault (Err fault)) }
    ensures stands { StandsAsBefore (held S.Store desk.old) (held S.Store desk.new) }
{
    match desk.first_year(account)? {
        Some(first) if year < first => Ok(HintFacts::Begins(first)),
        _ => Ok(HintFacts::Nothing),
    }
}

/// Of an account that is unknown, the one that may be meant by its name.
fn meant<S: Alter>(desk: &mut Desk<S>, account: &str) -> Result<HintFacts, Refusal>
    ensures knows { HasCleanDisk (held S.Store desk.new).db
        → (s : State) → KeepsIfOpen (held S.Store desk.old) s
        → IfOk result (KnowsMeant s account.now) }
    ensures fault { IfErr result (λ fault. IsFault (Err fault)) }
    ensures stands { StandsAsBefore (held S.Store desk.old) (held S.Store desk.new) }
{
    match desk.meant_account(account)? {
        Some(name) => Ok(HintFacts::Meant(name)),
        None => Ok(HintFacts::Nothing),
    }
}

/// What the hints are made of: nothing where a fault came.
pub fn or_nothing(known: Result<HintFacts, Refusal>) -> HintFacts
    ensures { result ≡ or_nothing known }
{
    known.unwrap_or(HintFacts::Nothing)
}

//! Which accounts have a year open.

ghost use Rattle.std.specs.Prelude.{◌≡◌, ◌==◌, ◌≤◌, ◌++◌, ◌∷◌, [], Err, IfErr, IfOk, length};
ghost use Rattle.std.specs.List.{list_any};
ghost use Rattle.sqlite.specs.State.{HasCleanDisk};
ghost use Rattle.ftd_days.specs.declared.limits.TheConstants.{FIRST_YEAR};
ghost use Rattle.ftd_machine.specs.Kept.{AreAccounts, TellsKept};
ghost use Rattle.ftd_machine.specs.Runs.{IsFault};
ghost use Rattle.ftd_machine.specs.State.{State, entries_of, is_open};
ghost use Rattle.ftd_machine.specs.Told.{kept_answer};
ghost use Rattle.ftd_machine.specs.declared.kept.KeptRows.TheVariants as rows;
ghost use Rattle.ftd_desk.specs.Desks.{KeepsIfOpen, held};
ghost use Rattle.ftd_desk.specs.Telling.{StandsAsBefore};
ghost use Rattle.ftd_program.specs.OpenYears.{AreYearRequests, year_request_if, year_requests};

use crate::record_notes::same_name;
use ftd_days::FIRST_YEAR;
use ftd_desk::Desk;
use ftd_machine::{
    AccountName, Answer, Entry, Facts, KeptAccount, KeptAccounts, KeptList, KeptRows, KeptYear,
    Question, Refusal, Reply, Request,
};
use sqlite::Alter;
use std::alloc::Global;

/// Want of memory, or else a fault of the store.
fn fault_of(refusal: Refusal) -> Refusal
    ensures { IsFault (Err result) }
{
    match refusal {
        Refusal::Memory => Refusal::Memory,
        _ => Refusal::Store,
    }
}

/// What the one answer of a list tells of what is kept. `Store` where it tells none of that.
fn told_in(answers: Vec<Answer>) -> Result<KeptRows, Refusal>
    requires one { length answers.items ≡ 1 }
    ensures tells { IfOk result (λ told. answers.items ≡ kept_answer told ∷ []) }
    ensures fault { IfErr result (λ fault. IsFault (Err fault)) }
{
    let mut answers = answers;
    match answers.pop() {
        Some(Ok(Reply::Told(Facts::Kept(rows)))) => Ok(rows),
        _ => Err(Refusal::Store),
    }
}

/// What the desk tells of what is kept. `Memory` and `Store` may come in place of it. The tables
/// stay as they are.
fn told<S: Alter>(desk: &mut Desk<S>, kept: KeptList) -> Result<KeptRows, Refusal>
    ensures tells { HasCleanDisk (held S.Store desk.new).db
        → (s : State) → KeepsIfOpen (held S.Store desk.old) s
        → IfOk result (λ told. TellsKept s kept (kept_answer told)) }
    ensures fault { IfErr result (λ fault. IsFault (Err fault)) }
    ensures stands { StandsAsBefore (held S.Store desk.old) (held S.Store desk.new) }
{
    let questions = [Request::Question(Question::Kept(kept))];
    match desk.trial(&questions) {
        Ok(answers) => told_in(answers),
        Err(refusal) => Err(fault_of(refusal)),
    }
}

/// All accounts, by name.
pub(crate) fn all_accounts<S: Alter>(desk: &mut Desk<S>) -> Result<KeptAccounts, Refusal>
    ensures tells { HasCleanDisk (held S.Store desk.new).db
        → (s : State) → KeepsIfOpen (held S.Store desk.old) s
        → IfOk result (λ accounts. AreAccounts s (kept_answer (rows.Accounts accounts))) }
    ensures fault { IfErr result (λ fault. IsFault (Err fault)) }
    ensures stands { StandsAsBefore (held S.Store desk.old) (held S.Store desk.new) }
{
    match told(desk, KeptList::Accounts)? {
        KeptRows::Accounts { rows } => Ok(rows),
        _ => Err(Refusal::Store),
    }
}

/// Whether one of the rows is of the year.
fn has_year(rows: &[KeptYear], year: u32) -> bool
    ensures { result ≡ list_any (λ row. row.line.year == year) rows.now }
{
    rows.iter().any(|row| row.line.year == year)
}

/// Whether the account has the year open.
fn has_open<S: Alter>(desk: &mut Desk<S>, account: AccountName, year: u32) -> Result<bool, Refusal>
    ensures tells { HasCleanDisk (held S.Store desk.new).db
        → (s : State) → KeepsIfOpen (held S.Store desk.old) s
        → IfOk result (λ is. is ≡ is_open (entries_of s account) year) }
    ensures fault { IfErr result (λ fault. IsFault (Err fault)) }
    ensures stands { StandsAsBefore (held S.Store desk.old) (held S.Store desk.new) }
{
    match told(desk, KeptList::Years { account })? {
        KeptRows::Years { rows, .. } => Ok(has_year(rows.as_slice(), year)),
        _ => Err(Refusal::Store),
    }
}

/// Adds a request behind the others.
fn add_request(request: Request, requests: &mut Vec<Request>) -> Result<(), Refusal>
    ensures added { IfOk result (λ _. requests.new.items ≡ requests.old.items ++ request ∷ []) }
    ensures fault { IfErr result (λ fault. IsFault (Err fault)) }
{
    match requests.push(request) {
        Ok(()) => Ok(()),
        Err(_) => Err(Refusal::Memory),
    }
}

/// Adds the request that opens the year of the account, if it has the year before open.
fn add_year_request<S: Alter>(
    alloc: Global,
    desk: &mut Desk<S>,
    account: &AccountName,
    year: u32,
    requests: &mut Vec<Request>,
) -> Result<(), Refusal>
    requires from { FIRST_YEAR ≤ year }
    ensures added { HasCleanDisk (held S.Store desk.new).db
        → (s : State) → KeepsIfOpen (held S.Store desk.old) s
        → IfOk result (λ _. requests.new.items
        ≡ requests.old.items ++ year_request_if s year account.now) }
    ensures fault { IfErr result (λ fault. IsFault (Err fault)) }
    ensures stands { StandsAsBefore (held S.Store desk.old) (held S.Store desk.new) }
{
    let account = same_name(alloc, account)?;
    let asked = same_name(alloc, &account)?;
    if has_open(desk, asked, year - 1)? {
        add_request(Request::Enter(Entry::Year { account, year }), requests)?;
    }
    Ok(())
}

/// The requests that open the year of those of these accounts that have the year before open.
fn requests_for<S: Alter>(
    alloc: Global,
    desk: &mut Desk<S>,
    accounts: &[KeptAccount],
    year: u32,
) -> Result<Vec<Request>, Refusal>
    requires from { FIRST_YEAR ≤ year }
    ensures tells { HasCleanDisk (held S.Store desk.new).db
        → (s : State) → KeepsIfOpen (held S.Store desk.old) s
        → IfOk result (λ requests. requests.items ≡ year_requests s year accounts.now) }
    ensures fault { IfErr result (λ fault. IsFault (Err fault)) }
    ensures stands { StandsAsBefore (held S.Store desk.old) (held S.Store desk.new) }
{
    let mut requests = Vec::new(alloc);
    for account in accounts {
        add_year_request(alloc, desk, &account.name, year, &mut requests)?;
    }
    Ok(requests)
}

/// The requests that open the year of each account that has the year before open, by name. `Memory`
/// and `Store` may come in place of them. The tables stay as they are.
pub(crate) fn year_requests<S: Alter>(
    alloc: Global,
    desk: &mut Desk<S>,
    year: u32,
) -> Result<Vec<Request>, Refusal>
    requires from { FIRST_YEAR ≤ year }
    ensures tells { HasCleanDisk (held S.Store desk.new).db
        → (s : State) → KeepsIfOpen (held S.Store desk.old) s
        → IfOk result (λ requests. AreYearRequests s year requests.items) }
    ensures fault { IfErr result (λ fault. IsFault (Err fault)) }
    ensures stands { StandsAsBefore (held S.Store desk.old) (held S.Store desk.new) }
{
    let accounts = all_accounts(desk)?;
    requests_for(alloc, desk, accounts.as_slice(), year)
}

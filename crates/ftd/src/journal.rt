//! The journal of the desk, or of an account, as the response to a message: its lines, as the
//! command prints them.

ghost use Rattle.std.specs.Prelude.{◌≡◌, ◌⊎◌, Err, IfErr, IfOk, None, OnErr};
ghost use Rattle.std.specs.Option.{option_copied};
ghost use Rattle.sqlite.specs.State.{HasCleanDisk};
ghost use Rattle.ftd_desk.specs.Desks.{held};
ghost use Rattle.ftd_desk.specs.Telling.{StandsAsBefore};
ghost use Rattle.ftd_machine.specs.Journal.{journal};
ghost use Rattle.ftd_machine.specs.Runs.{IsFault};
ghost use Rattle.ftd_machine.specs.State.{State};
ghost use Rattle.ftd_program.specs.Journals.{StoodFor};
ghost use Rattle.ftd_replies.specs.RequestLines.{lines_of};
ghost use Rattle.ftd_server.specs.Replying.{Responds};
ghost use Rattle.ftd_connections.specs.Responses.{Said, said_of};
ghost use Rattle.ftd_server.specs.Tables.{handles};
ghost use Rattle.ftd.specs.Journals.{TellsJournal, TellsOwn, TellsWhole, told_or_refused};
ghost use Rattle.ftd.specs.Journals.{years_asked};

use ftd_connections::{Response, report_response};
use ftd_desk::Desk;
use ftd_http::Inquiry;
use ftd_machine::{AccountName, KeptList, Question, Refusal, Request};
use ftd_ports::Port;
use ftd_program::{JournalFault, write_journal};
use ftd_replies::write_requests;
use ftd_server::{desk_response, refusal_response};
use ftd_verbs::TEXT;
use sqlite::Alter;
use std::alloc::{AllocError, Global};

/// The lines of the desk's journal, all of them in memory. `Memory` and `Store` may come in place
/// of them. The desk stands as before.
fn journal_lines<S: Alter>(alloc: Global, desk: &mut Desk<S>) -> Result<Vec<u8>, Refusal>
    ensures knows { HasCleanDisk (held S.Store desk.new).db
        → (s : State) → StoodFor (held S.Store desk.old) s
        → IfOk result (λ lines. lines.items ≡ lines_of (journal s)) }
    ensures fault { IfErr result (λ refusal. IsFault (Err refusal)) }
    ensures stands { StandsAsBefore (held S.Store desk.old) (held S.Store desk.new) }
{
    let mut out = Port::new(Vec::new(alloc));
    match write_journal(desk, &mut out) {
        Ok(()) => Ok(out.into_inner()),
        Err(JournalFault::Desk(refusal)) => Err(refusal),
        // A target in memory fails where there is no more of it.
        Err(JournalFault::Output) => Err(Refusal::Memory),
    }
}

/// The lines of requests, all of them in memory. `Memory` where there is none for them.
fn request_lines(alloc: Global, requests: &[Request]) -> Result<Vec<u8>, Refusal>
    ensures lines { IfOk result (λ lines. lines.items ≡ lines_of requests.now) }
    ensures fault { IfErr result (λ refusal. IsFault (Err refusal)) }
{
    let mut out = Port::new(Vec::new(alloc));
    match write_requests(requests, &mut out) {
        Ok(()) => Ok(out.into_inner()),
        Err(_) => Err(Refusal::Memory),
    }
}

/// The response with these lines, or to the refusal that came in place of them.
fn lines_response(alloc: Global, lines: Result<Vec<u8>, Refusal>) -> Result<Response, AllocError>
    ensures { IfOk result (λ response. said_of response ≡ told_or_refused lines) }
{
    match lines {
        Ok(lines) => Ok(report_response(TEXT, lines)),
        Err(refusal) => refusal_response(alloc, &refusal),
    }
}

/// The response with the journal of the desk.
fn whole_response<S: Alter>(alloc: Global, desk: &mut Desk<S>) -> Result<Response, AllocError>
    ensures ok { IfOk result
        (λ response. TellsWhole S.Store desk.old desk.new (said_of response)) }
    ensures err { OnErr result ((said : Said) × TellsWhole S.Store desk.old desk.new said) }
{
    let lines = journal_lines(alloc, desk);
    lines_response(alloc, lines)
}

/// What asks for the years of the account of the name.
fn years_asked(alloc: Global, account: &str) -> Result<Inquiry, AllocError>
    ensures { IfOk result (λ asked. asked ≡ years_asked account.now) }
{
    let account = AccountName::copy_of(alloc, account)?;
    Ok(Inquiry::Asks {
        format: TEXT,
        request: Request::Question(Question::Kept(KeptList::Years { account })),
    })
}

/// The response with the years of the account of the name.
fn years_response<S: Alter>(
    alloc: Global,
    desk: &mut Desk<S>,
    account: &str,
) -> Result<Response, AllocError>
    ensures ok { IfOk result (λ response. Responds (handles S.Store) None desk.old
        (years_asked account.now) (said_of response) desk.new) }
    ensures err { OnErr result ((desk.new ≡ desk.old) ⊎ ((said : Said)
        × Responds (handles S.Store) None desk.old (years_asked account.now) said desk.new)) }
{
    let asked = years_asked(alloc, account)?;
    desk_response(alloc, desk, None, &asked)
}

/// The response with the journal of the account of the name. Where no account has it, that is
/// responded as to who asks for the years of the account.
fn own_response<S: Alter>(
    alloc: Global,
    desk: &mut Desk<S>,
    account: &str,
) -> Result<Response, AllocError>
    ensures ok { IfOk result
        (λ response. TellsOwn S.Store desk.old desk.new account.now (said_of response)) }
    ensures err { OnErr result
        ((said : Said) × TellsOwn S.Store desk.old desk.new account.now said) }
{
    match desk.account_journal(account) {
        Ok(Some(requests)) => lines_response(alloc, request_lines(alloc, &requests)),
        Ok(None) => years_response(alloc, desk, account),
        Err(refusal) => refusal_response(alloc, &refusal),
    }
}

/// The response with the lines of the journal of the account, or of the desk where none is named,
/// all of which are held in memory. Where there is no such account, that is responded as to who
/// asks for its years. `Memory` and `Store` are responded in place of the lines, and the desk
/// stands as before. An error says that there was no memory for the response.
pub(crate) fn journal_response<S: Alter>(
    alloc: Global,
    desk: &mut Desk<S>,
    account: Option<&AccountName>,
) -> Result<Response, AllocError>
    ensures ok { IfOk result (λ response. TellsJournal S.Store desk.old desk.new
        (option_copied account.entry) (said_of response)) }
    ensures err { OnErr result ((said : Said) × TellsJournal S.Store desk.old desk.new
        (option_copied account.entry) said) }
{
    match account {
        None => whole_response(alloc, desk),
        Some(account) => own_response(alloc, desk, account.as_str()),
    }
}

//! The journal of the desk, or of an account, as the commands that make the same one. No more than
//! the days, or one account, is held at a time.

ghost use Rattle.std.specs.Prelude.{IfErr, OnErr, OnOk, flat_map, map};
ghost use Rattle.std.specs.Io.KnownBytes.{Appends};
ghost use Rattle.ftd_journal.specs.Parts.{accounts_journal, kept_name, own_journal};
ghost use Rattle.ftd_machine.specs.Journal.{days_journal, journal};
ghost use Rattle.ftd_ports.specs.Writing.{WritesPrefix};
ghost use Rattle.ftd_replies.specs.RequestLines.{lines_of};
ghost use Rattle.ftd_program.specs.Journals.{IsJournalFault, Journals, PrintsJournal, PrintsOwn};
ghost use Rattle.ftd_program.specs.Journals.{WritesPart};
ghost use Rattle.ftd_program.specs.Performing.{PrintsOut};

use crate::open_accounts::all_accounts;
use crate::performing::{JobEnd, answer, fail_output, print_refusal};
use ftd_desk::Desk;
use ftd_machine::{AccountName, KeptAccount, KeptList, Question, Refusal, Request};
use ftd_ports::Target;
use ftd_replies::{HintFacts, write_requests};
use ftd_verbs::TEXT;
use sqlite::Alter;

/// Why a journal is not written whole.
#[derive(Clone, Copy, Debug, PartialEq, Eq)]
pub enum JournalFault {
    /// There was no memory, or the store failed.
    Desk(Refusal),
    /// What it is written to failed.
    Output,
}

/// Writes the lines of requests.
fn write_lines<O: Target>(requests: &[Request], out: &mut O) -> Result<(), JournalFault>
    ensures whole { OnOk result
        (Appends (O.taken out.old) (O.taken out.new) (lines_of requests.now)) }
    ensures prefix { OnErr result
        (WritesPrefix (O.taken out.old) (O.taken out.new) (lines_of requests.now)) }
    ensures fault { IfErr result (λ fault. IsJournalFault fault (O.failed out.new)) }
{
    match write_requests(requests, out) {
        Ok(()) => Ok(()),
        Err(_) => Err(JournalFault::Output),
    }
}

/// Writes the journal of the days.
fn write_days<S: Alter, O: Target>(desk: &mut Desk<S>, out: &mut O) -> Result<(), JournalFault>
    ensures { WritesPart S.Store O.taken O.failed desk.old desk.new out.old out.new
        result days_journal }
{
    match desk.days_journal() {
        Ok(requests) => write_lines(&requests, out),
        Err(refusal) => Err(JournalFault::Desk(refusal)),
    }
}

/// Writes the journal of the account of the name; nothing where none has it.
fn write_account<S: Alter, O: Target>(
    desk: &mut Desk<S>,
    name: &str,
    out: &mut O,
) -> Result<(), JournalFault>
    ensures { WritesPart S.Store O.taken O.failed desk.old desk.new out.old out.new
        result (λ s. own_journal s name.now) }
{
    match desk.account_journal(name) {
        Ok(Some(requests)) => write_lines(&requests, out),
        Ok(None) => Ok(()),
        Err(refusal) => Err(JournalFault::Desk(refusal)),
    }
}

/// Writes the journals of these accounts, one after the other.
fn write_accounts<S: Alter, O: Target>(
    desk: &mut Desk<S>,
    accounts: &[KeptAccount],
    out: &mut O,
) -> Result<(), JournalFault>
    ensures { WritesPart S.Store O.taken O.failed desk.old desk.new out.old out.new
        result (λ s. flat_map (own_journal s) (map kept_name accounts.now)) }
{
    for account in accounts {
        write_account(desk, account.name.as_str(), out)?;
    }
    Ok(())
}

/// Writes the journals of all accounts, by name.
fn write_all_accounts<S: Alter, O: Target>(
    desk: &mut Desk<S>,
    out: &mut O,
) -> Result<(), JournalFault>
    ensures { WritesPart S.Store O.taken O.failed desk.old desk.new out.old out.new
        result accounts_journal }
{
    match all_accounts(desk) {
        Ok(accounts) => write_accounts(desk, accounts.as_slice(), out),
        Err(refusal) => Err(JournalFault::Desk(refusal)),
    }
}

/// Writes the journal of the desk, a line for each request: that of the days, and then those of all
/// accounts, by name. A fault where there was no memory, the store failed, or the target did: a
/// prefix of the lines was written then. The desk stands as before.
pub fn write_journal<S: Alter, O: Target>(
    desk: &mut Desk<S>,
    out: &mut O,
) -> Result<(), JournalFault>
    ensures { WritesPart S.Store O.taken O.failed desk.old desk.new out.old out.new
        result journal }
{
    write_days(desk, out)?;
    write_all_accounts(desk, out)
}

/// Prints the journal of the desk.
fn whole_journal<S: Alter, O: Target, E: Target>(
    desk: &mut Desk<S>,
    db: &str,
    out: O,
    err: E,
) -> JobEnd<O, E>
    ensures { PrintsJournal S.Store O.taken O.failed E.taken E.failed out err result
        desk.old desk.new db.now }
{
    let mut out = out;
    match write_journal(desk, &mut out) {
        Ok(()) => JobEnd {
            status: 0,
            out,
            err,
        },
        Err(JournalFault::Output) => fail_output(out, err),
        Err(JournalFault::Desk(refusal)) => {
            let request = Request::Question(Question::Kept(KeptList::Accounts));
            print_refusal(db, &request, &refusal, &HintFacts::Nothing, out, err)
        }
    }
}

/// Prints the lines of requests.
fn print_lines<O: Target, E: Target>(requests: &[Request], out: O, err: E) -> JobEnd<O, E>
    ensures { PrintsOut O.taken O.failed E.taken E.failed out err result 0 (lines_of requests.now) }
{
    let mut out = out;
    match write_requests(requests, &mut out) {
        Ok(()) => JobEnd {
            status: 0,
            out,
            err,
        },
        Err(_) => fail_output(out, err),
    }
}

/// Prints the journal of the account of the name. Where no account has it, that is answered as the
/// years of the account are.
fn own_journal<S: Alter, O: Target, E: Target>(
    desk: &mut Desk<S>,
    db: &str,
    account: AccountName,
    out: O,
    err: E,
) -> JobEnd<O, E>
    ensures { PrintsOwn S.Store O.taken O.failed E.taken E.failed out err result
        desk.old desk.new db.now account }
{
    let found = desk.account_journal(account.as_str());
    let request = Request::Question(Question::Kept(KeptList::Years { account }));
    match found {
        Ok(Some(requests)) => print_lines(&requests, out, err),
        Ok(None) => answer(desk, db, TEXT, &request, out, err),
        Err(refusal) => print_refusal(db, &request, &refusal, &HintFacts::Nothing, out, err),
    }
}

/// Prints the journal of the desk, or that of the account: the commands that make the same one, a
/// line each. The desk stands as before.
pub(crate) fn journal<S: Alter, O: Target, E: Target>(
    desk: &mut Desk<S>,
    db: &str,
    account: Option<AccountName>,
    out: O,
    err: E,
) -> JobEnd<O, E>
    ensures { Journals S.Store O.taken O.failed E.taken E.failed out err result
        desk.old desk.new db.now account }
{
    match account {
        None => whole_journal(desk, db, out, err),
        Some(account) => own_journal(desk, db, account, out, err),
    }
}

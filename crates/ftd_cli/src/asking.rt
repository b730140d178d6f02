//! What a subcommand asks, with its values. Each function reads them in their order, and answers
//! the first word that has none of its kind.

ghost use Rattle.std.specs.Prelude.{◌≡◌, Ok};
ghost use Rattle.clap.specs.Words.{first_of, found_of, rows_of};
ghost use Rattle.std.specs.List.{list_any};
ghost use Rattle.ftd_cli.specs.Asking.{Tells, TellsAs, account_in, asked_by, backup_of, day_at};
ghost use Rattle.ftd_cli.specs.Asking.{has_no_number};
ghost use Rattle.ftd_cli.specs.Asking.{import_of, journal_of, open_years_of, plain_of, says_next};
ghost use Rattle.ftd_cli.specs.Asking.{serve_of, settle_of, shell_of, wanted_of, wants_next};
ghost use Rattle.ftd_cli.specs.Asking.{year_in};
ghost use Rattle.ftd_cli.specs.Table.{word_text};
ghost use Rattle.ftd_cli.specs.Tasks.{task_view, in_database};
ghost use Rattle.ftd_cli.specs.Words.{request_of};
ghost use Rattle.ftd_cli.specs.declared.table.Word.TheVariants.{JournalAccount};

use crate::fault::WordFault;
use crate::reading::{days_at, format_at, is_given, owned_text, port_at, text_at, whole_at};
use crate::tasks::{BackupTask, Job, LocalTask, PlainTask, ServeTask, Settlement, ShellTask, Task};
use crate::words::{Words, day_said, is_next};
use crate::{Name, Word};
use clap::ArgMatches;
use ftd_csv::Sheet;
use ftd_days::{Day, FIRST_YEAR, LAST_OPEN_YEAR};
use ftd_machine::{AccountName, Request};
use ftd_rules::is_account_name;
use ftd_verbs::{Field, Kind, Verb, read_request};
use std::alloc::Global;

/// An account name, for `plain`.
fn named_account(alloc: Global, inner: &ArgMatches<'_>) -> Result<AccountName, WordFault>
    ensures { Tells result (account_in (rows_of (found_of inner.now))) }
{
    let word = Word::Field(Field::Account);
    let account = AccountName::from_string(owned_text(alloc, inner, word)?);
    if !is_account_name(account.as_str().as_bytes()) {
        return Err(WordFault::BadWord(word));
    }
    Ok(account)
}

/// A year, for `plain`.
fn plain_year(inner: &ArgMatches<'_>) -> Result<u32, WordFault>
    ensures { result ≡ year_in (rows_of (found_of inner.now)) }
{
    let word = Word::Field(Field::Year);
    let year = whole_at(inner, word)?;
    if year < FIRST_YEAR || year > LAST_OPEN_YEAR {
        return Err(WordFault::BadWord(word));
    }
    Ok(year)
}

/// What `plain` asks.
#[tactic(auto, unfolding(crate::specs::Asking::plain_of))]
fn plain(alloc: Global, inner: &ArgMatches<'_>) -> Result<Task, WordFault>
    ensures { TellsAs task_view result (plain_of (rows_of (found_of inner.now))) }
{
    let account = named_account(alloc, inner)?;
    let year = plain_year(inner)?;
    let Some(holidays) = days_at(alloc, inner, Word::Holidays)? else {
        return Err(WordFault::BadWord(Word::Holidays));
    };
    Ok(Task::Plain(PlainTask {
        account,
        year,
        holidays,
    }))
}

/// What `serve` asks.
#[tactic(auto, unfolding(crate::specs::Asking::serve_of))]
fn serve(alloc: Global, inner: &ArgMatches<'_>) -> Result<Task, WordFault>
    ensures { TellsAs task_view result (serve_of (rows_of (found_of inner.now))) }
{
    let db = owned_text(alloc, inner, Word::Db)?;
    let wait = whole_at(inner, Word::Wait)?;
    let port = port_at(inner, Word::Port)?;
    let connections = whole_at(inner, Word::Connections)?;
    let idle = whole_at(inner, Word::Idle)?;
    let silence = whole_at(inner, Word::Silence)?;
    let duration = whole_at(inner, Word::Duration)?;
    Ok(Task::Serve(ServeTask {
        db,
        wait,
        port,
        connections,
        idle,
        silence,
        duration,
        is_unchecked: is_given(inner, Word::Unchecked),
    }))
}

/// What `shell` asks.
#[tactic(auto, unfolding(crate::specs::Asking::shell_of))]
fn shell(alloc: Global, inner: &ArgMatches<'_>) -> Result<Task, WordFault>
    ensures { TellsAs task_view result (shell_of (rows_of (found_of inner.now))) }
{
    let db = owned_text(alloc, inner, Word::Db)?;
    let wait = whole_at(inner, Word::Wait)?;
    let script = owned_text(alloc, inner, Word::Script)?;
    Ok(Task::Shell(ShellTask {
        db,
        wait,
        script,
        has_echo: is_given(inner, Word::Echo),
        has_stop: is_given(inner, Word::Stop),
    }))
}

/// What a copy asks.
#[tactic(auto, unfolding(crate::specs::Asking::backup_of))]
fn backup(alloc: Global, inner: &ArgMatches<'_>) -> Result<Task, WordFault>
    ensures { TellsAs task_view result (backup_of (rows_of (found_of inner.now))) }
{
    let db = owned_text(alloc, inner, Word::Db)?;
    let wait = whole_at(inner, Word::Wait)?;
    let copy = owned_text(alloc, inner, Word::CopyFile)?;
    Ok(Task::Backup(BackupTask { db, wait, copy }))
}

/// What an import of this sheet asks.
#[tactic(auto, unfolding(crate::specs::Asking::import_of))]
fn import(alloc: Global, sheet: Sheet, inner: &ArgMatches<'_>) -> Result<Task, WordFault>
    ensures { TellsAs task_view result (import_of sheet (rows_of (found_of inner.now))) }
{
    let db = owned_text(alloc, inner, Word::Db)?;
    let wait = whole_at(inner, Word::Wait)?;
    let file = owned_text(alloc, inner, Word::CsvFile)?;
    Ok(Task::Local(LocalTask {
        db,
        wait,
        job: Job::Import {
            sheet,
            file,
            is_trial: is_given(inner, Word::Check),
        },
    }))
}

/// The job, with the desk in the database.
fn in_database(alloc: Global, inner: &ArgMatches<'_>, job: Job) -> Result<Task, WordFault>
    ensures { TellsAs task_view result (in_database (rows_of (found_of inner.now)) job) }
{
    let db = owned_text(alloc, inner, Word::Db)?;
    let wait = whole_at(inner, Word::Wait)?;
    Ok(Task::Local(LocalTask { db, wait, job }))
}

/// What opening a year of each account asks.
#[tactic(auto, unfolding(crate::specs::Asking::open_years_of))]
fn open_years(alloc: Global, inner: &ArgMatches<'_>) -> Result<Task, WordFault>
    ensures { TellsAs task_view result (open_years_of (rows_of (found_of inner.now))) }
{
    let year = whole_at(inner, Word::Field(Field::Year))?;
    in_database(alloc, inner, Job::OpenYears { year })
}

/// The day that a word says, or today, where the word is left out and may be today.
fn day_at(today: Option<Day>, inner: &ArgMatches<'_>, word: Word) -> Result<Day, WordFault>
    ensures { result ≡ day_at today word (rows_of (found_of inner.now)) }
{
    day_said(today, inner, word).ok_or(WordFault::BadWord(word))
}

/// What settling what is due on a day asks.
#[tactic(auto, unfolding(crate::specs::Asking::settle_of))]
fn settle(alloc: Global, today: Option<Day>, inner: &ArgMatches<'_>) -> Result<Task, WordFault>
    ensures { TellsAs task_view result (settle_of today (rows_of (found_of inner.now))) }
{
    let name = owned_text(alloc, inner, Word::Field(Field::Account))?;
    let due = day_at(None, inner, Word::DueDay)?;
    let paid = day_at(today, inner, Word::PaidDay)?;
    let account = AccountName::from_string(name);
    let settlement = Settlement { account, due, paid };
    in_database(alloc, inner, Job::Settle(settlement))
}

/// The account whose journal is asked for; none where that of all is.
fn journal_account(alloc: Global, inner: &ArgMatches<'_>) -> Result<Option<AccountName>, WordFault>
    ensures { Tells result (Ok (first_of (word_text JournalAccount) (rows_of (found_of inner.now)))) }
{
    match text_at(inner, Word::JournalAccount) {
        Some(text) => Ok(Some(AccountName::from_string(String::from_str(alloc, text)?))),
        None => Ok(None),
    }
}

/// What a journal asks.
#[tactic(auto, unfolding(crate::specs::Asking::journal_of))]
fn journal(alloc: Global, inner: &ArgMatches<'_>) -> Result<Task, WordFault>
    ensures { TellsAs task_view result (journal_of (rows_of (found_of inner.now))) }
{
    let account = journal_account(alloc, inner)?;
    in_database(alloc, inner, Job::Journal { account })
}

/// What a verb asks by these words on this day.
fn request(
    alloc: Global,
    today: Option<Day>,
    verb: Verb,
    inner: &ArgMatches<'_>,
) -> Result<Request, WordFault>
    ensures { Tells result (request_of today verb (rows_of (found_of inner.now))) }
{
    let words = Words {
        matches: inner,
        today,
    };
    Ok(read_request(alloc, verb, &words)?)
}

/// Whether the word of a field stands in the place of the next number.
fn says_next(inner: &ArgMatches<'_>, field: Field) -> bool
    ensures { result ≡ says_next (rows_of (found_of inner.now)) field }
{
    match text_at(inner, Word::Field(field)) {
        Some(text) => matches!(field.kind(), Kind::NewNumber) && is_next(text),
        None => false,
    }
}

/// Whether what the verb asks is a correction with no number.
fn has_no_number(verb: Verb, inner: &ArgMatches<'_>) -> bool
    ensures { result ≡ has_no_number verb (rows_of (found_of inner.now)) }
{
    verb.is_correction() && text_at(inner, Word::Field(Field::Number)).is_none()
}

/// Whether the word for the next number stands in the place of one of these fields.
fn one_says_next(fields: &[Field], inner: &ArgMatches<'_>) -> bool
    ensures { result ≡ list_any (says_next (rows_of (found_of inner.now))) fields.now }
{
    fields.iter().any(|field| says_next(inner, *field))
}

/// Whether what the verb asks takes the next number: a correction with no number does, and what has
/// the word for it in the place of a new number.
fn wants_next(verb: Verb, inner: &ArgMatches<'_>) -> bool
    ensures { result ≡ wants_next verb (rows_of (found_of inner.now)) }
{
    has_no_number(verb, inner) || one_says_next(Name::Verb(verb).fields(), inner)
}

/// The request, to the desk in the database: one that takes the next number under that, any other
/// in the format that is asked for.
fn asked(
    alloc: Global,
    verb: Verb,
    inner: &ArgMatches<'_>,
    request: Request,
) -> Result<Task, WordFault>
    ensures { TellsAs task_view result (asked_by verb (rows_of (found_of inner.now)) request) }
{
    if wants_next(verb, inner) {
        return in_database(alloc, inner, Job::AskNext { request });
    }
    let format = format_at(inner, verb.row().formats)?;
    in_database(alloc, inner, Job::Ask { format, request })
}

/// What the subcommand asks on this day.
#[tactic(auto, unfolding(crate::specs::Asking::wanted_of))]
pub fn task_for(
    alloc: Global,
    today: Option<Day>,
    name: Name,
    inner: &ArgMatches<'_>,
) -> Result<Task, WordFault>
    ensures { TellsAs task_view result (wanted_of today name (rows_of (found_of inner.now))) }
{
    match name {
        Name::Plain => plain(alloc, inner),
        Name::Serve => serve(alloc, inner),
        Name::Shell => shell(alloc, inner),
        Name::Backup => backup(alloc, inner),
        Name::Import(sheet) => import(alloc, sheet, inner),
        Name::OpenYears => open_years(alloc, inner),
        Name::Settle => settle(alloc, today, inner),
        Name::Journal => journal(alloc, inner),
        Name::Check => in_database(alloc, inner, Job::Check),
        Name::Verb(verb) => asked(alloc, verb, inner, request(alloc, today, verb, inner)?),
    }
}

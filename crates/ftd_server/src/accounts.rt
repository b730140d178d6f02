//! The response to who asks for the page of an account.

ghost use Rattle.std.specs.Prelude.{◌≡◌, ◌++◌, IfOk, OnErr, OnOk};
ghost use Rattle.std.specs.List.{list_any};
ghost use Rattle.ftd_desk.specs.Desks.{IsStopped, held};
ghost use Rattle.ftd_desk.specs.Words.{HandlesAll};
ghost use Rattle.ftd_server.specs.Accounts.{TellsAccount, account_said, day_questions, is_told};
ghost use Rattle.ftd_server.specs.Accounts.{due_of, nothing_told, page_of_account, page_questions};
ghost use Rattle.ftd_server.specs.Accounts.{said_to, schedule_b_of, schedule_of, years_of};
ghost use Rattle.ftd_connections.specs.Responses.{Said, said_of};

use crate::facts::server_frame;
use crate::refused::refused_as;
use ftd_connections::{Response, bare_response, report_response};
use ftd_days::{Day, Quarter};
use ftd_desk::Desk;
use ftd_http::Status;
use ftd_machine::{AccountName, Answer, KeptList, Question, Reply, Request};
use ftd_ports::Port;
use ftd_site::write_account_page;
use ftd_verbs::AnswerFormat;
use sqlite::Alter;
use std::alloc::{AllocError, Global};

/// What asks for the deposit schedule of an account on a day.
fn schedule_of(alloc: Global, account: &str, day: Day) -> Result<Request, AllocError>
    ensures { IfOk result (λ request. request ≡ schedule_of account.now day) }
{
    let account = AccountName::copy_of(alloc, account)?;
    Ok(Request::Question(Question::Status { account, day }))
}

/// What asks for the due list of an account's quarter as of a day.
fn due_of(alloc: Global, account: &str, quarter: Quarter, as_of: Day) -> Result<Request, AllocError>
    ensures { IfOk result (λ request. request ≡ due_of account.now quarter as_of) }
{
    let account = AccountName::copy_of(alloc, account)?;
    Ok(Request::Question(Question::DueList {
        account,
        quarter,
        as_of,
    }))
}

/// What asks for the liability of an account's quarter by day.
fn schedule_b_of(alloc: Global, account: &str, quarter: Quarter) -> Result<Request, AllocError>
    ensures { IfOk result (λ request. request ≡ schedule_b_of account.now quarter) }
{
    let account = AccountName::copy_of(alloc, account)?;
    Ok(Request::Question(Question::ScheduleB { account, quarter }))
}

/// What asks for the open years of an account.
fn years_of(alloc: Global, account: &str) -> Result<Request, AllocError>
    ensures { IfOk result (λ request. request ≡ years_of account.now) }
{
    let account = AccountName::copy_of(alloc, account)?;
    Ok(Request::Question(Question::Kept(KeptList::Years { account })))
}

/// Adds what the page asks of a day: the deposit schedule, what is due for the quarter of the day
/// and for the one before, as of the day, and the liability of the quarter by day.
fn push_day_questions(
    alloc: Global,
    account: &str,
    day: Day,
    requests: &mut Vec<Request>,
) -> Result<(), AllocError>
    ensures { OnOk result
        (requests.new.items ≡ requests.old.items ++ day_questions account.now day) }
{
    let quarter = day.quarter();
    let before = quarter.before().unwrap_or(quarter);
    requests.push(schedule_of(alloc, account, day)?)?;
    requests.push(due_of(alloc, account, quarter, day)?)?;
    requests.push(due_of(alloc, account, before, day)?)?;
    requests.push(schedule_b_of(alloc, account, quarter)?)?;
    Ok(())
}

/// What the page asks on the day of today, if it is known: what it asks of that day, and the open
/// years.
fn page_questions(
    alloc: Global,
    account: &str,
    today: &Option<Day>,
) -> Result<Vec<Request>, AllocError>
    ensures { IfOk result (λ requests. requests.items ≡ page_questions today.now account.now) }
{
    let mut requests = Vec::new(alloc);
    if let Some(day) = today {
        push_day_questions(alloc, account, *day, &mut requests)?;
    }
    requests.push(years_of(alloc, account)?)?;
    Ok(requests)
}

/// Whether the answer tells something.
fn is_told(answer: &Answer) -> bool
    ensures { result ≡ is_told answer.now }
{
    matches!(answer, Ok(Reply::Told(_)))
}

/// Whether one of the answers tells something.
fn is_one_told(answers: &[Answer]) -> bool
    ensures { result ≡ list_any is_told answers.now }
{
    answers.iter().any(|answer| is_told(answer))
}

/// The response with the page of an account, on the day of today, if it is known.
fn page_of_account(
    alloc: Global,
    today: Option<Day>,
    account: &str,
    answers: &[Answer],
) -> Result<Response, AllocError>
    ensures { IfOk result (λ response. said_of response
        ≡ page_of_account today account.now answers.now) }
{
    let frame = server_frame(today);
    let mut port = Port::new(Vec::new(alloc));
    match write_account_page(&frame, account, answers, &mut port) {
        Ok(()) => Ok(report_response(AnswerFormat::Page, port.into_inner())),
        Err(_) => Err(AllocError),
    }
}

/// The response where no answer tells anything: a page that tells the first refusal.
fn nothing_told(
    alloc: Global,
    today: Option<Day>,
    account: &str,
    answers: &[Answer],
) -> Result<Response, AllocError>
    ensures { IfOk result (λ response. said_of response
        ≡ nothing_told today account.now answers.now) }
{
    match answers.first() {
        Some(Err(refusal)) => refused_as(alloc, today, AnswerFormat::Page, account, refusal),
        Some(Ok(_)) | None => Ok(bare_response(alloc, Status::InternalServerError)),
    }
}

/// The response to these answers, on the day of today, if it is known.
fn account_said(
    alloc: Global,
    today: Option<Day>,
    account: &str,
    answers: &[Answer],
) -> Result<Response, AllocError>
    ensures { IfOk result (λ response. said_of response
        ≡ account_said today account.now answers.now) }
{
    if is_one_told(answers) {
        page_of_account(alloc, today, account, answers)
    } else {
        nothing_told(alloc, today, account, answers)
    }
}

/// Asks what the page asks of the desk. An error says that there was no memory; nothing was asked
/// then.
fn ask_for_page<S: Alter>(
    alloc: Global,
    desk: &mut Desk<S>,
    today: &Option<Day>,
    account: &str,
) -> Result<Vec<Answer>, AllocError>
    ensures ok { IfOk result (λ answers. HandlesAll (IsStopped desk.new) (held S.Store desk.old)
        (held S.Store desk.new) (page_questions today.now account.now) answers.items) }
    ensures err { OnErr result (desk.new ≡ desk.old) }
{
    let requests = page_questions(alloc, account, today)?;
    desk.run(&requests)
}

/// The response to what was answered, if there was memory to ask.
fn response_to(
    alloc: Global,
    today: Option<Day>,
    account: &str,
    asked: &Result<Vec<Answer>, AllocError>,
) -> Result<Response, AllocError>
    ensures { IfOk result (λ response. said_of response ≡ said_to today account.now asked.now) }
{
    match asked {
        Ok(answers) => account_said(alloc, today, account, answers),
        Err(_) => Ok(bare_response(alloc, Status::InternalServerError)),
    }
}

/// The response with the page of an account on the day of today, if it is known: its deposit
/// schedule, what is due for the quarter of the day and for the one before, and its open years, a
/// section each. The liability of the quarter by day is asked too. It has no section: where it is
/// refused since the account files Form 943, the page links the lists and the forms of that return.
/// What the desk refuses has no section; where it refuses all, as of an account that it has not,
/// the response is a page that tells the first refusal. Where there is no memory to ask, the
/// response says so by its status, and the desk stays as it was; an error says that there was none
/// for the response.
pub fn account_response<S: Alter>(
    alloc: Global,
    desk: &mut Desk<S>,
    today: Option<Day>,
    account: &AccountName,
) -> Result<Response, AllocError>
    ensures ok { IfOk result (λ response. TellsAccount S.Store today desk.old desk.new account.now
        (said_of response)) }
    ensures err { OnErr result
        ((said : Said) × TellsAccount S.Store today desk.old desk.new account.now said) }
{
    let name = account.as_str();
    let asked = ask_for_page(alloc, desk, &today, name);
    response_to(alloc, today, name, &asked)
}

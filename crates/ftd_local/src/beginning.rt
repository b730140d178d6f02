//! What becomes of a file that is not there.

ghost use Rattle.std.specs.Prelude.{◌≡◌};
ghost use Rattle.ftd_local.specs.Beginnings.{beginning_of, beginning_of_import};
ghost use Rattle.ftd_local.specs.Beginnings.{beginning_of_question, beginning_of_request};

use ftd_cli::Job;
use ftd_csv::Sheet;
use ftd_machine::{Entry, Question, Request, ReturnPeriod};

/// What a job does about a file that is not there.
#[derive(Clone, Copy, Debug, PartialEq, Eq)]
pub enum Beginning {
    /// A desk begins by it: the file is made.
    Makes,
    /// The file is made, and that is told, since its name may be mistyped.
    Tells,
    /// None is made: a new desk could only refuse it, or has nothing to answer.
    Needs,
}

/// What a job does about a file that is not there. A trial of an import makes none, nor do the
/// years of all accounts, of which a new desk has none, nor what is due, nor does a journal, nor a
/// check.
pub fn beginning_of(job: &Job) -> Beginning
    ensures { result ≡ beginning_of job.now }
{
    match job {
        Job::Import {
            sheet,
            is_trial,
            ..
        } => of_import(*sheet, *is_trial),
        Job::Ask { request, .. } | Job::AskNext { request } => of_request(request),
        Job::OpenYears { .. } | Job::Settle(_) | Job::Journal { .. } | Job::Check => {
            Beginning::Needs
        }
    }
}

/// The like of an import of this sheet. A new desk has no account, and refuses every total and
/// payment; pay runs are imported as they are posted.
fn of_import(sheet: Sheet, is_trial: bool) -> Beginning
    ensures { result ≡ beginning_of_import sheet is_trial }
{
    if is_trial {
        return Beginning::Needs;
    }
    match sheet {
        Sheet::Accounts | Sheet::Runs => Beginning::Tells,
        Sheet::Totals | Sheet::Payments => Beginning::Needs,
    }
}

/// The like of a request. A new desk refuses all but the first two; those that tell answer the
/// refusal over a new file, by their format.
fn of_request(request: &Request) -> Beginning
    ensures { result ≡ beginning_of_request request.now }
{
    match request {
        Request::Enter(Entry::Calendar { .. } | Entry::Account { .. }) => Beginning::Makes,
        Request::Enter(
            Entry::Holiday { .. }
            | Entry::Total {
                period: ReturnPeriod::Year(_),
                ..
            },
        )
        | Request::Correct { .. } => Beginning::Needs,
        Request::Enter(Entry::Total { .. } | Entry::Year { .. })
        | Request::Post { .. }
        | Request::Void { .. }
        | Request::Pay { .. }
        | Request::VoidPay { .. } => Beginning::Tells,
        Request::Question(question) => of_question(question),
    }
}

/// The like of a question.
fn of_question(question: &Question) -> Beginning
    ensures { result ≡ beginning_of_question question.now }
{
    match question {
        Question::Status { .. } | Question::DueList { .. } | Question::ScheduleB { .. } => {
            Beginning::Tells
        }
        _ => Beginning::Needs,
    }
}

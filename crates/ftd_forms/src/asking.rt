//! What a form that was sent asks of the desk.

ghost use Rattle.std.specs.Prelude.{◌≡◌, map};
ghost use Rattle.ftd_http.specs.Controls.{seen};
ghost use Rattle.ftd_forms.specs.Sent.{Does, job_of, takes_next};

use ftd_cli::Job;
use ftd_desk::Desk;
use ftd_http::{Control, text_at};
use ftd_imports::Quiet;
use ftd_machine::Request;
use ftd_ports::Port;
use ftd_program::{JobEnd, perform};
use ftd_verbs::{Field, TEXT, Verb};
use sqlite::Alter;
use std::alloc::Global;

/// A form that was sent.
#[derive(Clone, Copy)]
pub(crate) struct SentForm<'a> {
    /// The verb of the form.
    pub(crate) verb: Verb,
    /// What was filled in.
    pub(crate) controls: &'a [Control],
}

/// What was done, with what it wrote to memory.
pub(crate) type Written = JobEnd<Port<Vec<u8>>, Port<Vec<u8>>>;

/// Whether what a form asks takes the next number: a correction whose number is left out does.
fn takes_next(form: &SentForm<'_>) -> bool
    ensures { result ≡ takes_next form.now.verb (map seen form.now.controls.now) }
{
    form.verb.is_correction() && text_at(form.controls, Field::Number).is_none()
}

/// The job that a form asks by this request.
pub(crate) fn job_of(form: &SentForm<'_>, request: Request) -> Job
    ensures { result ≡ job_of form.now.verb (map seen form.now.controls.now) request }
{
    if takes_next(form) {
        Job::AskNext { request }
    } else {
        Job::Ask {
            format: TEXT,
            request,
        }
    }
}

/// Does the job with the desk of this file, and writes what a command prints to memory.
pub(crate) fn do_job<S: Alter>(alloc: Global, desk: &mut Desk<S>, db: &str, job: Job) -> Written
    ensures { Does S.Store desk.old desk.new db.now job result }
{
    let out = Port::new(Vec::new(alloc));
    let err = Port::new(Vec::new(alloc));
    perform(alloc, db, job, desk, &[], out, err, &mut Quiet)
}

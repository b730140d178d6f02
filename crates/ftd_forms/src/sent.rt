//! The response to who sends a form.

ghost use Rattle.std.specs.Prelude.{map};
ghost use Rattle.ftd_http.specs.Controls.{seen};
ghost use Rattle.ftd_connections.specs.Responses.{said_of};
ghost use Rattle.ftd_forms.specs.Sent.{AnswersSent, AsksSent, TellsBad, TellsControls, TellsEnd};
ghost use Rattle.ftd_forms.specs.Sent.{TellsSent};

use crate::asking::{SentForm, Written, do_job, job_of};
use crate::outcomes::{outcome_of, sent_page, status_for};
use crate::shown::or_failed;
use ftd_connections::{Response, bare_response};
use ftd_days::Day;
use ftd_desk::Desk;
use ftd_http::{Status, are_of_form, read_controls, read_form};
use ftd_machine::Request;
use ftd_site::{Outcome, has_form};
use ftd_verbs::{Field, FieldFault, Verb};
use sqlite::Alter;
use std::alloc::Global;

/// Where a form is answered.
#[derive(Clone, Copy)]
pub struct Setting<'a> {
    /// The desk's file, as hints name it.
    pub db: &'a str,
    /// The day of today, if it is known.
    pub today: Option<Day>,
}

/// The response where a field of a form has no value of its kind.
fn bad_response(alloc: Global, today: &Option<Day>, form: &SentForm<'_>, field: Field) -> Response
    ensures { TellsBad today.now form.now.verb (map seen form.now.controls.now) field
        (said_of result) }
{
    let made = sent_page(alloc, today, form, Status::BadRequest, &Outcome::Bad(field));
    or_failed(alloc, made)
}

/// The response to what ended so.
fn end_response(alloc: Global, today: &Option<Day>, form: &SentForm<'_>, end: Written) -> Response
    ensures { TellsEnd today.now form.now.verb (map seen form.now.controls.now) end
        (said_of result) }
{
    let exit = end.status;
    let out = end.out.into_inner();
    let err = end.err.into_inner();
    let outcome = outcome_of(exit, &out, &err);
    let made = sent_page(alloc, today, form, status_for(exit), &outcome);
    or_failed(alloc, made)
}

/// The response to what a form asks. It is asked of the desk.
fn asked_response<S: Alter>(
    alloc: Global,
    desk: &mut Desk<S>,
    setting: &Setting<'_>,
    form: &SentForm<'_>,
    request: Request,
) -> Response
    ensures { AsksSent S.Store setting.now.db.now setting.now.today desk.old desk.new
        form.now.verb (map seen form.now.controls.now) request (said_of result) }
{
    let end = do_job(alloc, desk, setting.db, job_of(form, request));
    end_response(alloc, &setting.today, form, end)
}

/// The response to a form that is filled in so.
fn read_response<S: Alter>(
    alloc: Global,
    desk: &mut Desk<S>,
    setting: &Setting<'_>,
    form: &SentForm<'_>,
) -> Response
    ensures { TellsSent S.Store setting.now.db.now setting.now.today desk.old desk.new
        form.now.verb (map seen form.now.controls.now) (said_of result) }
{
    match read_form(alloc, form.verb, form.controls) {
        Ok(request) => asked_response(alloc, desk, setting, form, request),
        Err(FieldFault::Bad(field)) => bad_response(alloc, &setting.today, form, field),
        Err(FieldFault::Memory) => bare_response(alloc, Status::InternalServerError),
    }
}

/// The response to a form with these controls. One that has a control which the verb's form has
/// not, or one twice, is refused.
fn controls_response<S: Alter>(
    alloc: Global,
    desk: &mut Desk<S>,
    setting: &Setting<'_>,
    form: &SentForm<'_>,
) -> Response
    ensures { TellsControls S.Store setting.now.db.now setting.now.today desk.old desk.new
        form.now.verb (map seen form.now.controls.now) (said_of result) }
{
    if are_of_form(form.verb, form.controls) {
        read_response(alloc, desk, setting, form)
    } else {
        bare_response(alloc, Status::BadRequest)
    }
}

/// The response to who sends the form of a verb with this body: the page of what came of it. Where
/// each field has a value of its kind, the desk is asked what the command of the verb asks by the
/// same fields, and the page tells what that prints; where it was refused, with the form as it was
/// filled in. A question has no form, and a body with a control that the form has not, or with one
/// twice, is a bad request: nothing is asked then. Where there is no memory, the response says so
/// by its status; it may have been asked all the same.
pub fn sent_response<S: Alter>(
    alloc: Global,
    desk: &mut Desk<S>,
    setting: &Setting<'_>,
    verb: Verb,
    body: &[u8],
) -> Response
    ensures { AnswersSent S.Store setting.now.db.now setting.now.today desk.old desk.new verb
        body.now (said_of result) }
{
    if !has_form(verb) {
        return bare_response(alloc, Status::NotFound);
    }
    match read_controls(alloc, body) {
        Ok(controls) => {
            let form = SentForm {
                verb,
                controls: &controls,
            };
            controls_response(alloc, desk, setting, &form)
        }
        Err(_) => bare_response(alloc, Status::InternalServerError),
    }
}

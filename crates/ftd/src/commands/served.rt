//! The shell of a server.

ghost use Rattle.std.specs.Prelude.{◌≡◌, IfOk, OnErr, None, if◌then◌else◌};
ghost use Rattle.std.specs.String.{string_bytes};
ghost use Rattle.ftd_http.specs.Asking.{is_for_page};
ghost use Rattle.ftd_connections.specs.Responses.{Said, said_of};
ghost use Rattle.ftd.specs.Commands.{AnswersBody, RespondsToBody, file_of};

use crate::commands::body::BodyLines;
use crate::commands::written::written_response;
use crate::journal::journal_response;
use ftd_cli::DayClock;
use ftd_connections::{Machine, Response, home_response};
use ftd_days::Day;
use ftd_desk::Desk;
use ftd_forms::{Named, Setting, form_list_response, form_response, sent_response};
use ftd_http::Inquiry;
use ftd_ports::Port;
use ftd_program::JobEnd;
use ftd_server::{account_response, desk_response, still_answers};
use ftd_shell::{Inputs, Shell, Shows};
use sqlite::Alter;
use std::alloc::{AllocError, Global};

/// The shell of a server over a desk in this file. It does no imports, so that of what is around it
/// the clock alone is asked.
pub(crate) fn server_shell<S: Alter, F>(
    alloc: Global,
    db: String,
    desk: Desk<S>,
    inputs: F,
) -> Shell<S, F>
    ensures desk { result.desk ≡ desk }
    ensures file { file_of result ≡ string_bytes db }
{
    Shell {
        alloc,
        db,
        desk,
        inputs,
        does_imports: false,
        shows: Shows {
            commands: false,
            lines: false,
        },
    }
}

/// Answers the commands of a body, one a line, as a shell does, and writes the answers to memory.
fn answer_body<S: Alter, F: Inputs + DayClock>(
    alloc: Global,
    shell: &mut Shell<S, F>,
    body: &[u8],
) -> JobEnd<Port<Vec<u8>>, Port<Vec<u8>>>
    ensures answers { AnswersBody S.Store shell.old.desk shell.new.desk (file_of shell.old)
        body.now result }
    ensures file { file_of shell.new ≡ file_of shell.old }
{
    shell.does_imports = false;
    shell.shows = Shows {
        commands: false,
        lines: false,
    };
    let mut script = BodyLines {
        alloc,
        left: body,
        has_failed: false,
    };
    let out = Port::new(Vec::new(alloc));
    let err = Port::new(Vec::new(alloc));
    shell.answer_script(&mut script, false, out, err)
}

/// The response to the commands of a body. Where there is no memory for it, they were answered all
/// the same.
fn body_response<S: Alter, F: Inputs + DayClock>(
    alloc: Global,
    shell: &mut Shell<S, F>,
    body: &[u8],
) -> Result<Response, AllocError>
    ensures ok { IfOk result (λ response. RespondsToBody S.Store shell.old.desk shell.new.desk
        (file_of shell.old) body.now (said_of response)) }
    ensures err { OnErr result ((said : Said) × RespondsToBody S.Store shell.old.desk
        shell.new.desk (file_of shell.old) body.now said) }
    ensures file { file_of shell.new ≡ file_of shell.old }
{
    let end = answer_body(alloc, shell, body);
    written_response(
        alloc,
        &end.out.into_inner(),
        &end.err.into_inner(),
        end.status,
    )
}

/// The day that the clock tells to a page. None for all else, which has no day.
fn page_day<C: DayClock>(clock: &mut C, asked: &Inquiry) -> Option<Day>
    ensures { result ≡ (if is_for_page asked.now then C.told clock.new else None) }
{
    if asked.is_for_page() {
        clock.today()
    } else {
        None
    }
}

/// The way in which a shell answers messages: commands itself, the first page by its clock, those
/// of an account and of forms by its clock and its desk, journals out of its desk, and requests by
/// it.
pub(crate) struct ByShell;

impl<S: Alter, F: Inputs + DayClock> Machine<ByShell> for Shell<S, F> {
    ghost use Rattle.ftd.specs.Commands.{AsksDesk, Responds};

    ghost goes = { Responds S.Store F.told };

    ghost stays = { AsksDesk S.Store };

    fn respond(
        &mut self,
        alloc: Global,
        asked: &Inquiry,
        body: &[u8],
    ) -> Result<Response, AllocError> {
        match asked {
            Inquiry::Commands => body_response(alloc, self, body),
            Inquiry::Journal(account) => journal_response(alloc, &mut self.desk, account.as_ref()),
            Inquiry::Home => home_response(alloc, self.inputs.today()),
            Inquiry::Account(account) => {
                let day = self.inputs.today();
                account_response(alloc, &mut self.desk, day, account)
            }
            Inquiry::Forms => form_list_response(alloc, self.inputs.today()),
            Inquiry::Form {
                verb,
                account,
                payable,
            } => {
                let day = self.inputs.today();
                let named = Named { account, payable };
                Ok(form_response(alloc, &mut self.desk, day, *verb, &named))
            }
            Inquiry::Sent(verb) => {
                let setting = Setting {
                    db: &self.db,
                    today: self.inputs.today(),
                };
                Ok(sent_response(alloc, &mut self.desk, &setting, *verb, body))
            }
            _ => {
                let today = page_day(&mut self.inputs, asked);
                desk_response(alloc, &mut self.desk, today, asked)
            }
        }
    }

    fn still_answers(&mut self, alloc: Global) -> bool {
        still_answers(alloc, &mut self.desk)
    }
}

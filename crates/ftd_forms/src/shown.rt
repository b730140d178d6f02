//! The response to who asks for a form.

ghost use Rattle.std.specs.Prelude.{◌≡◌, [], IfOk, true, unwrap_or};
ghost use Rattle.ftd_forms.specs.Given.{given};
ghost use Rattle.ftd_forms.specs.Known.{known_of};
ghost use Rattle.ftd_forms.specs.Shown.{IsFormPage, ShowsForm, made_or_failed};
ghost use Rattle.ftd_http.specs.declared.status.Status.TheVariants.{Okay};
ghost use Rattle.ftd_site.specs.Controls.{pair_of};
ghost use Rattle.ftd_site.specs.Forms.{form_page, has_form};
ghost use Rattle.ftd_verbs.specs.FieldRows.{key_of};
ghost use Rattle.ftd_server.specs.Replying.{server_frame};
ghost use Rattle.ftd_connections.specs.Responses.{page, said_of};

use crate::given::{Known, next_number, texts_of};
use ftd_connections::{Response, bare_response, page_response};
use ftd_days::Day;
use ftd_desk::Desk;
use ftd_http::{Payable, Status};
use ftd_machine::AccountName;
use ftd_ports::Port;
use ftd_server::server_frame;
use ftd_site::{Filled, has_form, write_form};
use ftd_verbs::{Field, Verb};
use sqlite::Alter;
use std::alloc::{AllocError, Global};

/// What the target of a form names.
#[derive(Clone, Copy)]
pub struct Named<'a> {
    /// The account, if one is named.
    pub account: &'a Option<AccountName>,
    /// What may be paid, if that is named.
    pub payable: &'a Option<Payable>,
}

/// The name of an account, empty where none is named.
fn name_of(account: &Option<AccountName>) -> &str
    ensures { result.now ≡ unwrap_or account.now [] }
{
    match account {
        Some(account) => account.as_str(),
        None => "",
    }
}

/// A text that is filled in for a field.
fn filled<'a>(field: Field, text: &'a str) -> Filled<'a>
    ensures { pair_of result ≡ (key_of field, text.now) }
{
    Filled {
        name: field.key(),
        text,
    }
}

/// The response with the form of a verb that is filled in so.
fn filled_form(
    alloc: Global,
    today: Option<Day>,
    verb: Verb,
    filled: &[Filled<'_>],
) -> Result<Response, AllocError>
    requires { has_form verb ≡ true }
    ensures { IfOk result (λ response. said_of response
        ≡ page Okay (form_page (server_frame today) verb filled.now)) }
{
    let frame = server_frame(today);
    let mut port = Port::new(Vec::new(alloc));
    match write_form(&frame, verb, filled, &mut port) {
        Ok(()) => Ok(page_response(Status::Okay, port.into_inner())),
        Err(_) => Err(AllocError),
    }
}

/// The response with the form of a verb, with what is known filled in.
fn form_with(alloc: Global, verb: Verb, known: &Known<'_>) -> Result<Response, AllocError>
    requires { has_form verb ≡ true }
    ensures { IfOk result (λ response. IsFormPage known.now.today verb (given (known_of known.now))
        (said_of response)) }
{
    let texts = texts_of(alloc, known)?;
    let filled = [
        filled(Field::Account, known.account),
        filled(Field::Run, &texts.number),
        filled(Field::Payment, &texts.number),
        filled(Field::Paid, &texts.today),
        filled(Field::For, &texts.first),
        filled(Field::Amount, &texts.left),
    ];
    filled_form(alloc, known.today, verb, &filled)
}

/// The response, or where there was no memory for it, one without a body that says so.
pub(crate) fn or_failed(alloc: Global, made: Result<Response, AllocError>) -> Response
    ensures { said_of result ≡ made_or_failed made }
{
    match made {
        Ok(response) => response,
        Err(_) => bare_response(alloc, Status::InternalServerError),
    }
}

/// The response to who asks for the form of a verb, on the day of today, if it is known: its page,
/// with the account filled in, if one is named; with the next number of what it adds; with today as
/// the day on which a payment is made; and with what may be paid, if that is named. A question has
/// no form. Where there is no memory for the page, the response says so by its status. The desk
/// stands as before.
pub fn form_response<S: Alter>(
    alloc: Global,
    desk: &mut Desk<S>,
    today: Option<Day>,
    verb: Verb,
    named: &Named<'_>,
) -> Response
    ensures { ShowsForm S.Store today desk.old desk.new verb named.now.account.now
        named.now.payable.now (said_of result) }
{
    if !has_form(verb) {
        return bare_response(alloc, Status::NotFound);
    }
    let known = Known {
        account: name_of(named.account),
        number: next_number(desk, verb, named.account),
        today,
        payable: *named.payable,
    };
    let made = form_with(alloc, verb, &known);
    or_failed(alloc, made)
}

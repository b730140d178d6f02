//! What a message asks.

ghost use Rattle.std.specs.Prelude.{◌≡◌, IfOk, option_map};
ghost use Rattle.std.specs.Str.{bytes_eq};
ghost use Rattle.ftd_http.specs.Routes.{all_routes};
ghost use Rattle.ftd_http.specs.Asking.{account_behind, account_in, asked_of, commands_asked};
ghost use Rattle.ftd_http.specs.Asking.{commands_path, formed, page_asked, page_behind, page_name};
ghost use Rattle.ftd_http.specs.Asking.{unrouted};
ghost use Rattle.ftd_http.specs.Asking.{home_asked, home_path, is_for_browser, is_for_page};
ghost use Rattle.ftd_http.specs.Asking.{journal_asked, journal_name, journal_path};
ghost use Rattle.ftd_http.specs.Methods.{method_text};
ghost use Rattle.ftd_http.specs.Asking.{named_by, style_asked, style_path, verb_asked};

use crate::forms::form_at;
use crate::message_fields::make_request;
use crate::route::{last_cut, look_up};
use crate::values::name;
use ftd_days::{Cents, Day};
use ftd_machine::{AccountName, Request};
use ftd_verbs::{AnswerFormat, Method, Verb};
use matchit::Router;
use std::alloc::{AllocError, Global};

/// What of an obligation may be paid.
#[derive(Clone, Copy, Debug, PartialEq, Eq)]
pub struct Payable {
    /// The first day of its deposit period.
    pub first: Day,
    /// What is left to pay of it.
    pub left: Cents,
}

/// The methods of a target.
#[derive(Clone, Copy, Debug, PartialEq, Eq)]
pub enum Methods {
    /// This one alone.
    Only(Method),
    /// `GET` shows a form, and `POST` sends it.
    GetAndPost,
}

/// What a message asks.
#[derive(Drop)]
pub enum Inquiry {
    /// No route matches the target.
    NoRoute,
    /// The target has these methods, and the message another.
    OtherMethod(Methods),
    /// A part of the path, or the body, is not of the route's form.
    BadForm,
    /// The first page of the server is to be found.
    Home,
    /// The commands that stand in its body, one a line, are to be answered.
    Commands,
    /// The journal of the account is to be told, or that of the desk where none is named.
    Journal(Option<AccountName>),
    /// The page of the account is to be told.
    Account(AccountName),
    /// The page that lists forms is to be shown.
    Forms,
    /// The form of the verb is to be shown, with this account filled in, if one is named, and what
    /// may be paid, if that is named too.
    Form {
        verb: Verb,
        account: Option<AccountName>,
        payable: Option<Payable>,
    },
    /// The form of the verb was filled in, and is in the body.
    Sent(Verb),
    /// The style sheet of the pages is to be told.
    StyleSheet,
    /// A request to the desk. A reply that has several formats is told in this one.
    Asks {
        format: AnswerFormat,
        request: Request,
    },
}

impl Inquiry {
    /// Whether it asks the desk for a page.
    pub fn is_for_page(&self) -> bool
        ensures { result ≡ is_for_page self.now }
    {
        matches!(
            self,
            Inquiry::Asks {
                format: AnswerFormat::Page,
                ..
            }
        )
    }

    /// Whether it asks for what a browser shows: a page, the first one, that of an account and those
    /// of forms too, or the style sheet of the pages.
    pub fn is_for_browser(&self) -> bool
        ensures { result ≡ is_for_browser self.now }
    {
        self.is_for_page()
            || matches!(
                self,
                Inquiry::Home
                    | Inquiry::Account(_)
                    | Inquiry::Forms
                    | Inquiry::Form { .. }
                    | Inquiry::Sent(_)
                    | Inquiry::StyleSheet
            )
    }
}

/// The text of a method.
pub fn method_bytes(method: Method) -> &'static [u8]
    ensures { result.now ≡ method_text method }
{
    match method {
        Method::Get => b"GET",
        Method::Post => b"POST",
        Method::Put => b"PUT",
        Method::Delete => b"DELETE",
    }
}

/// What a message of this method, this target and this body asks. An error says that there was no
/// memory.
#[tactic(auto, unfolding(crate::specs::Asking::asked_of))]
pub fn what_is_asked(
    alloc: Global,
    router: &Router<Verb>,
    method: &[u8],
    target: &[u8],
    body: &[u8],
) -> Result<Inquiry, AllocError>
    requires { router.now ≡ all_routes }
    ensures { IfOk result (λ asked. asked ≡ asked_of method.now target.now body.now) }
{
    if is_of_commands(target) {
        return Ok(commands_asked(method));
    }
    if is_of_journal(target) {
        return Ok(journal_asked(method, None));
    }
    if is_of_style(target) {
        return Ok(style_asked(method));
    }
    if is_of_home(target) {
        return Ok(home_asked(method));
    }
    match journal_name(target) {
        Some(account) => Ok(journal_asked(method, Some(name(alloc, account)?))),
        None => verb_asked(alloc, router, method, target, body),
    }
}

/// Whether the target is that of commands.
fn is_of_commands(target: &[u8]) -> bool
    ensures { result ≡ bytes_eq target.now commands_path }
{
    target == b"/commands".as_slice()
}

/// What a message of this method asks whose target is that of commands.
fn commands_asked(method: &[u8]) -> Inquiry
    ensures { result ≡ commands_asked method.now }
{
    if is_method(method, Method::Post) {
        Inquiry::Commands
    } else {
        Inquiry::OtherMethod(Methods::Only(Method::Post))
    }
}

/// Whether the target is that of the desk's journal.
fn is_of_journal(target: &[u8]) -> bool
    ensures { result ≡ bytes_eq target.now journal_path }
{
    target == b"/journal".as_slice()
}

/// The name of the account whose journal a target asks for: what is behind its last slash, if that
/// is not empty and the target of the desk's journal is before it.
fn journal_name(target: &[u8]) -> Option<&str>
    ensures { option_map (λ name. name.now) result ≡ journal_name target.now }
{
    let Ok(target) = str::from_utf8(target) else {
        return None;
    };
    let (path, account) = last_cut(target)?;
    named_by(path, account)
}

/// The name behind the last slash of a target, if it is that of an account whose journal is asked
/// for.
fn named_by<'t>(path: &str, account: &'t str) -> Option<&'t str>
    ensures { option_map (λ name. name.now) result ≡ named_by (path.now, account.now) }
{
    if path == "/journal" && !account.is_empty() {
        Some(account)
    } else {
        None
    }
}

/// What a message of this method asks whose target is that of the account's journal, or of the
/// desk's where there is none.
fn journal_asked(method: &[u8], account: Option<AccountName>) -> Inquiry
    ensures { result ≡ journal_asked method.now account }
{
    if is_method(method, Method::Get) {
        Inquiry::Journal(account)
    } else {
        Inquiry::OtherMethod(Methods::Only(Method::Get))
    }
}

/// Whether the target is that of the style sheet.
fn is_of_style(target: &[u8]) -> bool
    ensures { result ≡ bytes_eq target.now style_path }
{
    target == b"/style.css".as_slice()
}

/// What a message of this method asks whose target is that of the style sheet.
fn style_asked(method: &[u8]) -> Inquiry
    ensures { result ≡ style_asked method.now }
{
    if is_method(method, Method::Get) {
        Inquiry::StyleSheet
    } else {
        Inquiry::OtherMethod(Methods::Only(Method::Get))
    }
}

/// Whether the target is that of the first page.
fn is_of_home(target: &[u8]) -> bool
    ensures { result ≡ bytes_eq target.now home_path }
{
    target == b"/".as_slice()
}

/// What a message of this method asks whose target is that of the first page.
fn home_asked(method: &[u8]) -> Inquiry
    ensures { result ≡ home_asked method.now }
{
    if is_method(method, Method::Get) {
        Inquiry::Home
    } else {
        Inquiry::OtherMethod(Methods::Only(Method::Get))
    }
}

/// What a message asks whose target is another.
fn verb_asked(
    alloc: Global,
    router: &Router<Verb>,
    method: &[u8],
    target: &[u8],
    body: &[u8],
) -> Result<Inquiry, AllocError>
    requires { router.now ≡ all_routes }
    ensures { IfOk result (λ asked. asked ≡ verb_asked method.now target.now body.now) }
{
    let Ok(target) = str::from_utf8(target) else {
        return Ok(Inquiry::NoRoute);
    };
    let Some(route) = look_up(router, target) else {
        return unrouted(alloc, method, target);
    };
    let wanted = route.verb.row().method;
    if !is_method(method, wanted) {
        return Ok(Inquiry::OtherMethod(Methods::Only(wanted)));
    }
    let request = make_request(alloc, route.verb, target, body)?;
    Ok(formed(route.format, request))
}

/// What is behind the last slash of a path, if that is not empty and the path of accounts is before
/// it.
fn account_behind<'t>(before: &str, account: &'t str) -> Option<&'t str>
    ensures { option_map (λ name. name.now) result ≡ account_behind (before.now, account.now) }
{
    if before == "/accounts" && !account.is_empty() {
        Some(account)
    } else {
        None
    }
}

/// The name of the account that a path ends with, if it is the path of accounts before that.
fn account_in(path: &str) -> Option<&str>
    ensures { option_map (λ name. name.now) result ≡ account_in path.now }
{
    let (before, account) = last_cut(path)?;
    account_behind(before, account)
}

/// The name of the account of a path, where the format behind it is that of a page.
fn page_behind<'t>(path: &'t str, format: &str) -> Option<&'t str>
    ensures { option_map (λ name. name.now) result ≡ page_behind (path.now, format.now) }
{
    if format == "html" {
        account_in(path)
    } else {
        None
    }
}

/// The name of the account whose page a target asks for.
fn page_name(target: &str) -> Option<&str>
    ensures { option_map (λ name. name.now) result ≡ page_name target.now }
{
    let (path, format) = last_cut(target)?;
    page_behind(path, format)
}

/// What a message of this method asks whose target is that of the account's page.
fn page_asked(method: &[u8], account: AccountName) -> Inquiry
    ensures { result ≡ page_asked method.now account }
{
    if is_method(method, Method::Get) {
        Inquiry::Account(account)
    } else {
        Inquiry::OtherMethod(Methods::Only(Method::Get))
    }
}

/// What a message of this method asks whose target is no verb's: the page of an account, a form, or
/// nothing.
fn unrouted(alloc: Global, method: &[u8], target: &str) -> Result<Inquiry, AllocError>
    ensures { IfOk result (λ asked. asked ≡ unrouted method.now target.now) }
{
    match page_name(target) {
        Some(account) => Ok(page_asked(method, name(alloc, account)?)),
        None => form_at(alloc, method, target),
    }
}

/// Whether the text is this method.
pub(crate) fn is_method(text: &[u8], method: Method) -> bool
    ensures { result ≡ bytes_eq text.now (method_text method) }
{
    text == method_bytes(method)
}

/// What a message of the right method asks.
fn formed(format: AnswerFormat, request: Option<Request>) -> Inquiry
    ensures { result ≡ formed format request }
{
    match request {
        None => Inquiry::BadForm,
        Some(request) => Inquiry::Asks { format, request },
    }
}

//! The targets of forms.

ghost use Rattle.std.specs.Prelude.{◌≡◌, IfOk, Some, option_map};
ghost use Rattle.std.specs.Path.{rsplit_once};
ghost use Rattle.ftd_http.specs.Forms.{account_form, behind_forms, empty_form, filled_cut};
ghost use Rattle.ftd_http.specs.Forms.{form_at, form_behind, form_command, form_verb};
ghost use Rattle.ftd_http.specs.Forms.{forms_asked, pay_form, pay_named, payable_in};
ghost use Rattle.ftd_http.specs.Forms.{paying_account, verb_named};

use crate::ask::{Inquiry, Methods, Payable, is_method};
use crate::route::last_cut;
use crate::values::name;
use ftd_days::{Cents, Day};
use ftd_machine::AccountName;
use ftd_verbs::{Method, VERBS, Verb};
use std::alloc::{AllocError, Global};

/// The verb of a command, if it is one.
#[tactic(auto, unfolding(crate::specs::Forms::verb_named))]
fn verb_named(command: &str) -> Option<Verb>
    ensures { result ≡ verb_named command.now }
{
    VERBS
        .iter()
        .copied()
        .find(|verb| verb.row().command == command)
}

/// What is behind the last slash of a target, if the path of forms is before it.
fn behind_forms<'t>(before: &str, command: &'t str) -> Option<&'t str>
    ensures { option_map (λ command. command.now) result ≡ behind_forms (before.now, command.now) }
{
    if before == "/forms" {
        Some(command)
    } else {
        None
    }
}

/// The command of an empty form, whose target is the path of forms and the command.
fn form_command(target: &str) -> Option<&str>
    ensures { option_map (λ command. command.now) result ≡ form_command target.now }
{
    let (before, command) = last_cut(target)?;
    behind_forms(before, command)
}

/// The verb of an empty form.
fn form_verb(target: &str) -> Option<Verb>
    ensures { result ≡ form_verb target.now }
{
    verb_named(form_command(target)?)
}

/// What a message of this method asks of an empty form: to be shown it, or what it was filled in
/// with.
fn empty_form(method: &[u8], verb: Verb) -> Inquiry
    ensures { result ≡ empty_form method.now verb }
{
    if is_method(method, Method::Get) {
        Inquiry::Form {
            verb,
            account: None,
            payable: None,
        }
    } else if is_method(method, Method::Post) {
        Inquiry::Sent(verb)
    } else {
        Inquiry::OtherMethod(Methods::GetAndPost)
    }
}

/// What a message of this method asks of a form with an account filled in.
fn account_form(method: &[u8], verb: Verb, account: AccountName) -> Inquiry
    ensures { result ≡ account_form method.now verb account }
{
    if is_method(method, Method::Get) {
        Inquiry::Form {
            verb,
            account: Some(account),
            payable: None,
        }
    } else {
        Inquiry::OtherMethod(Methods::Only(Method::Get))
    }
}

/// What of an obligation may be paid, if the texts spell it.
fn payable_in(first: &str, left: &str) -> Option<Payable>
    ensures { result ≡ payable_in first.now left.now }
{
    let first = Day::read(first.as_bytes())?;
    let left = Cents::read(left.as_bytes())?;
    Some(Payable { first, left })
}

/// The account that is behind the path of the form of payments, if that is before it.
fn paying_account(path: &str) -> Option<&str>
    ensures { option_map (λ account. account.now) result ≡ paying_account path.now }
{
    let (before, account) = last_cut(path)?;
    if before == "/forms/pay" {
        Some(account)
    } else {
        None
    }
}

/// What a target names of a payment: the account, and what may be paid, behind the path of its form.
#[tactic(auto, unfolding(crate::specs::Forms::pay_named))]
fn pay_named(target: &str) -> Option<(&str, Payable)>
    ensures { option_map (λ named. (named.0.now, named.1)) result ≡ pay_named target.now }
{
    let (path, left) = last_cut(target)?;
    let (path, first) = last_cut(path)?;
    let payable = payable_in(first, left)?;
    let account = paying_account(path)?;
    Some((account, payable))
}

/// What a message of this method asks of the form of a payment with all that filled in.
fn pay_form(method: &[u8], account: AccountName, payable: Payable) -> Inquiry
    ensures { result ≡ pay_form method.now (Some (account, payable)) }
{
    if is_method(method, Method::Get) {
        Inquiry::Form {
            verb: Verb::Pay,
            account: Some(account),
            payable: Some(payable),
        }
    } else {
        Inquiry::OtherMethod(Methods::Only(Method::Get))
    }
}

/// What a message asks whose target may be that of the form of a payment with all that filled in.
fn pay_form_at(alloc: Global, method: &[u8], target: &str) -> Result<Inquiry, AllocError>
    ensures { IfOk result (λ asked. asked ≡ pay_form method.now (pay_named target.now)) }
{
    match pay_named(target) {
        Some((account, payable)) => Ok(pay_form(method, name(alloc, account)?, payable)),
        None => Ok(Inquiry::NoRoute),
    }
}

/// What a message asks whose target has no empty form: the form of the verb with the account that is
/// behind its path, or the form of a payment with all filled in, or nothing.
fn filled_at(alloc: Global, method: &[u8], target: &str) -> Result<Inquiry, AllocError>
    ensures { IfOk result (λ asked. asked ≡ filled_cut method.now target.now
        (rsplit_once 47 target.now)) }
{
    let Some((path, account)) = last_cut(target) else {
        return Ok(Inquiry::NoRoute);
    };
    match form_verb(path) {
        Some(verb) => Ok(account_form(method, verb, name(alloc, account)?)),
        None => pay_form_at(alloc, method, target),
    }
}

/// What a message of this method asks whose target may be that of a form: the form of a verb, empty
/// or filled in, or nothing.
fn form_behind(alloc: Global, method: &[u8], target: &str) -> Result<Inquiry, AllocError>
    ensures { IfOk result (λ asked. asked ≡ form_behind method.now target.now) }
{
    match form_verb(target) {
        Some(verb) => Ok(empty_form(method, verb)),
        None => filled_at(alloc, method, target),
    }
}

/// What a message of this method asks whose target is that of the page that lists forms.
fn forms_asked(method: &[u8]) -> Inquiry
    ensures { result ≡ forms_asked method.now }
{
    if is_method(method, Method::Get) {
        Inquiry::Forms
    } else {
        Inquiry::OtherMethod(Methods::Only(Method::Get))
    }
}

/// What a message of this method asks whose target may be that of forms: the page that lists them,
/// the form of a verb, empty or filled in, or nothing.
pub fn form_at(alloc: Global, method: &[u8], target: &str) -> Result<Inquiry, AllocError>
    ensures { IfOk result (λ asked. asked ≡ form_at method.now target.now) }
{
    if target == "/forms" {
        Ok(forms_asked(method))
    } else {
        form_behind(alloc, method, target)
    }
}

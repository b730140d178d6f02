//! What the desk knows for a form before it is filled in.

ghost use Rattle.std.specs.Prelude.{◌≡◌, IfOk, option_map};
ghost use Rattle.std.specs.String.{string_bytes};
ghost use Rattle.ftd_desk.specs.Desks.{held};
ghost use Rattle.ftd_forms.specs.Given.{FindsNext, amount_shown, day_shown, first_of, left_of};
ghost use Rattle.ftd_forms.specs.Given.{number_shown};
ghost use Rattle.ftd_forms.specs.Known.{AreTextsOf, known_of};

use ftd_days::{Cents, Day};
use ftd_desk::Desk;
use ftd_http::Payable;
use ftd_machine::AccountName;
use ftd_verbs::Verb;
use sqlite::Alter;
use std::alloc::{AllocError, Global};

/// The next number of what a verb adds to an account: the least above all that the account has
/// used. None for a verb that adds no pay run and no payment, and where there is no memory or the
/// store fails. The tables stay as they are.
pub(crate) fn next_number<S: Alter>(
    desk: &mut Desk<S>,
    verb: Verb,
    account: &Option<AccountName>,
) -> Option<u32>
    ensures { FindsNext (held S.Store desk.old) (held S.Store desk.new) verb account.now result }
{
    let Some(account) = account else {
        return None;
    };
    match verb {
        Verb::Post => desk.next_run(account.as_str()).ok(),
        Verb::Pay => desk.next_payment(account.as_str()).ok(),
        _ => None,
    }
}

/// What the desk and its clock know for a form.
#[derive(Clone, Copy)]
pub(crate) struct Known<'a> {
    /// The account that is named; empty where none is.
    pub(crate) account: &'a str,
    /// The next number of what is added to it, if there is one.
    pub(crate) number: Option<u32>,
    /// The day of today, if it is known.
    pub(crate) today: Option<Day>,
    /// What may be paid, if that is named.
    pub(crate) payable: Option<Payable>,
}

/// The texts of what is known.
#[derive(Drop)]
pub(crate) struct Texts {
    /// The next number.
    pub(crate) number: String,
    /// The day of today.
    pub(crate) today: String,
    /// The first day of the deposit period of what may be paid.
    pub(crate) first: String,
    /// What is left to pay of it.
    pub(crate) left: String,
}

/// A number as a form shows it: empty where there is none.
fn number_shown(alloc: Global, number: Option<u32>) -> Result<String, AllocError>
    ensures { IfOk result (λ text. string_bytes text ≡ number_shown number) }
{
    match number {
        Some(number) => format!(in alloc; "{number}"),
        None => Ok(String::new(alloc)),
    }
}

/// A day as a form shows it: empty where it is not known.
fn day_shown(alloc: Global, day: Option<Day>) -> Result<String, AllocError>
    ensures { IfOk result (λ text. string_bytes text ≡ day_shown day) }
{
    match day {
        Some(day) => format!(in alloc; "{day}"),
        None => Ok(String::new(alloc)),
    }
}

/// An amount as a form shows it: empty where there is none.
fn amount_shown(alloc: Global, amount: Option<Cents>) -> Result<String, AllocError>
    ensures { IfOk result (λ text. string_bytes text
        ≡ amount_shown (option_map (λ cents. cents.0) amount)) }
{
    match amount {
        Some(amount) => format!(in alloc; "{amount}"),
        None => Ok(String::new(alloc)),
    }
}

/// The first day of the deposit period of what may be paid.
fn first_of(payable: Option<Payable>) -> Option<Day>
    ensures { result ≡ first_of payable }
{
    match payable {
        Some(owed) => Some(owed.first),
        None => None,
    }
}

/// What is left of what may be paid.
fn left_of(payable: Option<Payable>) -> Option<Cents>
    ensures { option_map (λ cents. cents.0) result ≡ left_of payable }
{
    match payable {
        Some(owed) => Some(owed.left),
        None => None,
    }
}

/// The texts of what is known.
pub(crate) fn texts_of(alloc: Global, known: &Known<'_>) -> Result<Texts, AllocError>
    ensures { IfOk result (λ texts. AreTextsOf (known_of known.now) texts) }
{
    let number = number_shown(alloc, known.number)?;
    let today = day_shown(alloc, known.today)?;
    let first = day_shown(alloc, first_of(known.payable))?;
    let left = amount_shown(alloc, left_of(known.payable))?;
    Ok(Texts {
        number,
        today,
        first,
        left,
    })
}

//! The links in the cells of a page.

ghost use Rattle.std.specs.Prelude.{◌≡◌, Some};
ghost use Rattle.std.specs.List.{flat_map};
ghost use Rattle.ftd_ports.specs.Writing.{Writes};
ghost use Rattle.ftd_answers.specs.Fields.{shown_as};
ghost use Rattle.ftd_pages.specs.Escapes.{shown};
ghost use Rattle.ftd_pages.specs.Links.{account_address, account_way, account_way_if, address_of};
ghost use Rattle.ftd_pages.specs.Links.{link, linked, pay_if, reason_address};

use crate::escapes::{Values, write_shown};
use ftd_answers::{Value, write_rows};
use ftd_days::{Cents, Day};
use ftd_ports::{Target, WriteFault, write_all};
use ftd_rules::MOST_CENTS;

/// Where a cell leads.
#[derive(Clone, Copy, Debug)]
pub enum Way<'a> {
    /// It leads nowhere.
    Nowhere,
    /// To the page of an account.
    Account(&'a str),
    /// To why the obligation of an account is so whose deposit period begins on a day.
    Obligation(&'a str, Day),
    /// To the form of a payment of what is left of that obligation.
    Payment(&'a str, Day, Cents),
}

/// The way to the page of an account.
pub fn to_account<'a>(account: &'a str) -> Way<'a>
    ensures { address_of result ≡ Some (account_address account.now) }
{
    Way::Account(account)
}

/// The way to why the obligation of an account is so whose deposit period begins on a day.
pub fn to_reason<'a>(account: &'a str, first: Day) -> Way<'a>
    ensures { address_of result ≡ Some (reason_address account.now first) }
{
    Way::Obligation(account, first)
}

/// The way to the form of a payment of what is left of the obligation of an account whose deposit
/// period begins on a day. Where nothing is left, or more than one payment may have, it leads
/// nowhere.
pub fn to_payment<'a>(account: &'a str, first: Day, left: Cents) -> Way<'a>
    ensures { address_of result ≡ pay_if account.now first left.0 }
{
    if 1 <= left.0 && left.0 <= MOST_CENTS {
        Way::Payment(account, first, left)
    } else {
        Way::Nowhere
    }
}

/// Writes a link: a value that leads to an address, whose parts are these.
pub fn write_link<W: Target>(
    address: &[Value<'_>],
    value: &Value<'_>,
    target: &mut W,
) -> Result<(), WriteFault>
    ensures { Writes result (W.taken target.old) (W.taken target.new) (W.failed target.new)
        (link (flat_map shown address.now) (shown_as value.now).plain) }
{
    write_all(target, b"<a href=\"")?;
    write_rows(&Values, address, target)?;
    write_all(target, b"\">")?;
    write_shown(value, target)?;
    write_all(target, b"</a>")
}

/// Writes a value that leads to an address, or nowhere.
pub fn write_linked<W: Target>(
    way: &Way<'_>,
    value: &Value<'_>,
    target: &mut W,
) -> Result<(), WriteFault>
    ensures { Writes result (W.taken target.old) (W.taken target.new)
        (W.failed target.new) (linked (address_of way.now) (shown_as value.now).plain) }
{
    match way {
        Way::Nowhere => write_shown(value, target),
        Way::Account(account) => {
            let address = [
                Value::Text("/accounts/"),
                Value::Text(account),
                Value::Text("/html"),
            ];
            write_link(&address, value, target)
        }
        Way::Obligation(account, first) => {
            let address = [
                Value::Text("/accounts/"),
                Value::Text(account),
                Value::Text("/explain/"),
                Value::Day(*first),
                Value::Text("/html"),
            ];
            write_link(&address, value, target)
        }
        Way::Payment(account, first, left) => {
            let address = [
                Value::Text("/forms/pay/"),
                Value::Text(account),
                Value::Text("/"),
                Value::Day(*first),
                Value::Text("/"),
                Value::Amount(*left),
            ];
            write_link(&address, value, target)
        }
    }
}

/// Writes the way to the page of an account, behind a blank.
#[tactic(auto, using(ftd_ports::proofs::WritingFacts::written_in_parts), unfolding(crate::specs::Links::account_way))]
fn write_account_way<W: Target>(account: &str, target: &mut W) -> Result<(), WriteFault>
    ensures { Writes result (W.taken target.old) (W.taken target.new)
        (W.failed target.new) (account_way account.now) }
{
    write_all(target, b" ")?;
    write_linked(&to_account(account), &Value::Text(account), target)
}

/// Writes the way to the page of an account, if one is named.
pub(crate) fn write_account_way_if<W: Target>(
    account: &str,
    target: &mut W,
) -> Result<(), WriteFault>
    ensures { Writes result (W.taken target.old) (W.taken target.new)
        (W.failed target.new) (account_way_if account.now) }
{
    if account.is_empty() {
        Ok(())
    } else {
        write_account_way(account, target)
    }
}

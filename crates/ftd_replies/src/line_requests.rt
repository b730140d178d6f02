//! What the words of a line ask that can be read as they are, each a value at its place. No command
//! line is made of them.

ghost use Rattle.std.specs.Prelude.{◌≡◌, IfOk, IfSome, map};
ghost use Rattle.std.specs.String.{string_bytes};
ghost use Rattle.ftd_cli.specs.Words.{amount_of};
ghost use Rattle.ftd_days.specs.Spelling.{day_of};
ghost use Rattle.ftd_replies.specs.LineRequests.{AlwaysAsk, is_value, name_in, number_in, pay_in};
ghost use Rattle.ftd_replies.specs.LineRequests.{payment_in, post_in, request_in, run_in, value_as};

use ftd_days::digits::whole_number;
use ftd_days::{Cents, Day};
use ftd_machine::{AccountName, Request};
use ftd_rules::{PayRun, Payment};
use ftd_verbs::Verb;
use itoa::Buffer;
use std::alloc::{AllocError, Global};

/// Whether the word is a value, and no flag.
fn is_value(word: &str) -> bool
    ensures { result ≡ is_value word.now }
{
    match word.as_bytes() {
        [first, ..] => *first != b'-',
        [] => false,
    }
}

/// The account that the word names.
fn name_in(alloc: Global, word: &str) -> Result<Option<AccountName>, AllocError>
    ensures { IfOk result (λ found. found ≡ name_in word.now) }
{
    if is_value(word) {
        Ok(Some(AccountName::copy_of(alloc, word)?))
    } else {
        Ok(None)
    }
}

/// The number that the word is, as it is printed: with no zero before it.
fn number_in(word: &str) -> Option<u32>
    ensures { result ≡ number_in word.now }
{
    let number = whole_number(word)?;
    let mut digits = Buffer::new();
    if digits.format(number) == word {
        Some(number)
    } else {
        None
    }
}

/// The day that the word spells.
fn day_in(word: &str) -> Option<Day>
    ensures { result ≡ value_as day_of word.now }
{
    if is_value(word) {
        Day::read(word.as_bytes())
    } else {
        None
    }
}

/// The amount that the word spells.
fn amount_in(word: &str) -> Option<Cents>
    ensures { result ≡ value_as amount_of word.now }
{
    if is_value(word) {
        Cents::read(word.as_bytes())
    } else {
        None
    }
}

/// The pay run that the words spell, one for each of its values.
fn run_in(payday: &str, fit: &str, ss: &str, medicare: &str) -> Option<PayRun>
    ensures { result ≡ run_in payday.now fit.now ss.now medicare.now }
{
    Some(PayRun {
        payday: day_in(payday)?,
        fit: amount_in(fit)?,
        ss: amount_in(ss)?,
        medicare: amount_in(medicare)?,
    })
}

/// The payment that the words spell, one for each of its values.
fn payment_in(paid: &str, for_day: &str, cents: &str) -> Option<Payment>
    ensures { result ≡ payment_in paid.now for_day.now cents.now }
{
    Some(Payment {
        paid: day_in(paid)?,
        for_day: day_in(for_day)?,
        cents: amount_in(cents)?,
    })
}

/// What `post` asks with these words behind it, where each is a value.
fn post_in(alloc: Global, words: &[String]) -> Result<Option<Request>, AllocError>
    ensures { IfOk result (λ found. found ≡ post_in (map string_bytes words.now)) }
{
    let [account, number, payday, fit, ss, medicare] = words else {
        return Ok(None);
    };
    let Some(number) = number_in(number) else {
        return Ok(None);
    };
    let Some(run) = run_in(payday, fit, ss, medicare) else {
        return Ok(None);
    };
    match name_in(alloc, account)? {
        Some(account) => Ok(Some(Request::Post {
            account,
            number,
            run,
        })),
        None => Ok(None),
    }
}

/// What `pay` asks with these words behind it, where each is a value.
fn pay_in(alloc: Global, words: &[String]) -> Result<Option<Request>, AllocError>
    ensures { IfOk result (λ found. found ≡ pay_in (map string_bytes words.now)) }
{
    let [account, number, paid, for_day, cents] = words else {
        return Ok(None);
    };
    let Some(number) = number_in(number) else {
        return Ok(None);
    };
    let Some(payment) = payment_in(paid, for_day, cents) else {
        return Ok(None);
    };
    match name_in(alloc, account)? {
        Some(account) => Ok(Some(Request::Pay {
            account,
            number,
            payment,
        })),
        None => Ok(None),
    }
}

/// The request that the words of a line ask, by their first.
fn by_command(alloc: Global, words: &[String]) -> Result<Option<Request>, AllocError>
    ensures { IfOk result (λ found. found ≡ request_in (map string_bytes words.now)) }
{
    let Some((name, words)) = words.split_first() else {
        return Ok(None);
    };
    if name.as_str() == Verb::Post.row().command {
        post_in(alloc, words)
    } else if name.as_str() == Verb::Pay.row().command {
        pay_in(alloc, words)
    } else {
        Ok(None)
    }
}

/// The request that the words of a line ask, where they are those of a pay run or a payment, each a
/// value at its place, and the number is written as it is printed, with no zero before it. Most
/// lines of a journal are such, and are read here in a fraction of the time that a command line
/// takes. `None` is answered for all other words, which may ask something too. An error if there is
/// no memory.
#[tactic(auto, using(crate::proofs::LineRequests::found_asks))]
pub fn request_in(alloc: Global, words: &[String]) -> Result<Option<Request>, AllocError>
    ensures reads { IfOk result (λ found. found ≡ request_in (map string_bytes words.now)) }
    ensures asks { IfOk result (λ found. IfSome found (λ request.
        AlwaysAsk (map string_bytes words.now) request)) }
{
    by_command(alloc, words)
}

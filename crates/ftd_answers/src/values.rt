//! Values as bytes of a fixed number, which take no memory.

ghost use Rattle.std.specs.Prelude.{◌≡◌, ◌<◌, ◌≤◌, ◌/◌, ◌∷◌, ◌++◌, length};
ghost use Rattle.std.specs.Fmt.{decimal};
ghost use Rattle.ftd_days.specs.Text.{day_text, point, quarter_text};
ghost use Rattle.ftd_days.specs.Digits.{digit, two_digits};
ghost use Rattle.ftd_rules.specs.Text.{rule_text};
ghost use Rattle.ftd_rules.specs.Verdicts.{verdict_text};
ghost use Rattle.ftd_answers.specs.Columns.{left_in, amount_in};
ghost use Rattle.ftd_answers.specs.SchedulesB.{month_text};

use ftd_days::{Cents, Day, FIRST_CALENDAR_YEAR, MONTHS, Quarter};
use ftd_rules::{Rule, Verdict};
use itoa::Buffer;

/// Spaces to the left of dollars.
const SPACES: &[u8; 14] = b"              ";

/// The bytes of an amount: dollars, and the point with the cents.
#[derive(Drop)]
pub struct AmountText<'a> {
    pub dollars: &'a [u8],
    pub cents: [u8; 3],
}

/// An amount in cents, its dollars written into the buffer.
pub fn amount_text(amount: u128, buffer: &mut Buffer) -> AmountText<'_>
    ensures dollars { result.dollars.now ≡ decimal (amount / 100) }
    ensures cents { result.cents ≡ point ∷ two_digits amount }
{
    let dollars = buffer.format(amount / 100).as_bytes();
    let cents = (amount % 100) as u32;
    AmountText {
        dollars,
        cents: [b'.', last_digit(cents / 10), last_digit(cents)],
    }
}

/// The bytes of an amount at the right of 17: spaces, dollars, and the point with the cents.
#[derive(Drop)]
pub struct AmountColumn<'a> {
    pub spaces: &'static [u8],
    pub dollars: &'a [u8],
    pub cents: [u8; 3],
}

/// An amount at the right of 17 bytes, its dollars written into the buffer.
pub fn amount_column(amount: Cents, buffer: &mut Buffer) -> AmountColumn<'_>
    ensures { result.spaces.now ++ result.dollars.now ++ result.cents ≡ amount_in amount.0 }
{
    total_column(u128::from(amount.0), buffer)
}

/// A sum of amounts in cents, at the right of 17 bytes, its dollars written into the buffer.
pub fn total_column(total: u128, buffer: &mut Buffer) -> AmountColumn<'_>
    ensures { result.spaces.now ++ result.dollars.now ++ result.cents ≡ amount_in total }
{
    let amount = amount_text(total, buffer);
    AmountColumn {
        spaces: &SPACES[..14usize.saturating_sub(amount.dollars.len())],
        dollars: amount.dollars,
        cents: amount.cents,
    }
}

/// The last digit of a number.
pub fn last_digit(number: u32) -> u8
    ensures { result ≡ digit number }
{
    b'0' + (number % 10) as u8
}

/// A day as YYYY-MM-DD.
pub fn day_bytes(day: Day) -> [u8; 10]
    ensures { result ≡ day_text day }
{
    let (year, month, of_month) = (day.year(), day.month(), day.day_of_month());
    [
        last_digit(year / 1000),
        last_digit(year / 100),
        last_digit(year / 10),
        last_digit(year),
        b'-',
        last_digit(month / 10),
        last_digit(month),
        b'-',
        last_digit(of_month / 10),
        last_digit(of_month),
    ]
}

/// A month as 2024-05. It goes by its number of months after January 1900.
pub fn month_bytes(month: u32) -> [u8; 7]
    requires { month < MONTHS }
    ensures { result ≡ month_text month }
{
    let (year, in_year) = (FIRST_CALENDAR_YEAR + month / 12, month % 12 + 1);
    [
        last_digit(year / 1000),
        last_digit(year / 100),
        last_digit(year / 10),
        last_digit(year),
        b'-',
        last_digit(in_year / 10),
        last_digit(in_year),
    ]
}

/// A text of at most 12 bytes at the left of 12.
pub fn label_column(text: &[u8]) -> [u8; 12]
    requires { length text.now ≤ 12 }
    ensures { result ≡ left_in 12 text.now }
{
    let mut column = [b' '; 12];
    column[..text.len()].copy_from_slice(text);
    column
}

/// A quarter as 2024Q1.
pub fn quarter_bytes(quarter: Quarter) -> [u8; 6]
    ensures { result ≡ quarter_text quarter }
{
    let year = quarter.year();
    [
        last_digit(year / 1000),
        last_digit(year / 100),
        last_digit(year / 10),
        last_digit(year),
        b'Q',
        last_digit(u32::from(quarter.number())),
    ]
}

/// The name of a rule, at the left of ten bytes.
pub fn rule_column(rule: Rule) -> &'static [u8]
    ensures { result.now ≡ left_in 10 (rule_text rule) }
{
    match rule {
        Rule::Monthly => b"monthly   ",
        Rule::Semiweekly => b"semiweekly",
        Rule::NextDay => b"next-day  ",
    }
}

/// The name of a rule.
pub fn rule_name(rule: Rule) -> &'static [u8]
    ensures { result.now ≡ rule_text rule }
{
    match rule {
        Rule::Monthly => b"monthly",
        Rule::Semiweekly => b"semiweekly",
        Rule::NextDay => b"next-day",
    }
}

/// The name of a verdict.
pub fn verdict_name(verdict: Verdict) -> &'static [u8]
    ensures { result.now ≡ verdict_text verdict }
{
    match verdict {
        Verdict::Met => b"met",
        Verdict::WithReturn => b"with-return",
        Verdict::Open => b"open",
        Verdict::MadeUp => b"made-up",
        Verdict::Short => b"short",
        Verdict::Late => b"late",
    }
}

//! Histories: years with lookback totals, and an amount for each day.

ghost use Rattle.std.specs.Prelude.{◌≡◌, ℕ, ◌+◌, ◌<◌, ◌≤◌, length, All, IfOk, IfSome, IsTrue};
ghost use Rattle.std.specs.List.{sum_by};
ghost use Rattle.ftd_days.specs.Calendar.{year_of};
ghost use Rattle.ftd_rules.specs.Liability.{cents_of};
ghost use Rattle.ftd_rules.specs.Years.{YearsFrom, OnlyFirstCarried};

use anyhow::{Context, Result, bail};
use ftd_days::{Cents, Day, FIRST_YEAR, Holidays, LAST_OPEN_YEAR, LAST_YEAR};
use ftd_rules::{AMOUNTS_END, Assessment, DaySum, Form, Kind, YearLine, assess};
use rand_core::utils::NextWord;
use rand_pcg::Pcg32;
use std::alloc::{AllocError, Global};

/// An account: its form, its open years from `first` on with their lookback totals, whether it is
/// carried into the first, and the amount of each day.
#[derive(Drop)]
pub struct Account {
    pub form: Form,
    pub first: u32,
    pub carried: bool,
    pub lookbacks: Vec<u64>,
    pub amounts: Vec<u64>,
}

impl Account {
    /// Semiweekly years with 20,000 runs.
    pub fn of_many_runs(alloc: Global) -> Result<Account> {
        let mut lookbacks = Vec::new(alloc);
        for _ in 0..60 {
            lookbacks.push(6_000_000)?;
        }
        let mut amounts = Vec::new(alloc);
        for place in 0..20_000 {
            amounts.push(100_000 + place % 1_000)?;
        }
        Ok(Account {
            form: Form::F941,
            first: 2024,
            carried: false,
            lookbacks,
            amounts,
        })
    }
}

/// Five years with some runs.
pub fn random(alloc: Global, numbers: &mut Pcg32) -> Result<Account> {
    let mut lookbacks = Vec::new(alloc);
    for _ in 0..5 {
        let semiweekly = numbers.next_word() % 4 == 0;
        lookbacks.push(if semiweekly { 6_000_000 } else { 400_000 })?;
    }
    let mut amounts = Vec::new(alloc);
    let often = 2 + numbers.next_word() % 60;
    for _ in 0..1_826 {
        let amount = match numbers.next_word() % often {
            0 => u64::from(numbers.next_word() % 6_000_000),
            1 => 9_999_999 + u64::from(numbers.next_word() % 3),
            _ => 0,
        };
        let paid = numbers.next_word() % 4 == 0;
        amounts.push(if paid { amount } else { 0 })?;
    }
    Ok(Account {
        form: if numbers.next_word() % 2 == 0 {
            Form::F941
        } else {
            Form::F943
        },
        first: 2019,
        carried: numbers.next_word() % 4 == 0,
        lookbacks,
        amounts,
    })
}

/// The day that is so many days after the first of the year.
pub fn day_at(first: u32, place: usize) -> Result<Day> {
    let start = Day::on_date(first, 1, 1).context("a year")?;
    let number = i64::from(start.number()).saturating_add(i64::try_from(place)?);
    Day::from_number(i32::try_from(number)?).context("a day")
}

/// The sums of the days with an amount.
pub fn day_sums(alloc: Global, account: &Account) -> Result<Vec<DaySum>> {
    sums_between(alloc, account, 0, usize::MAX)
}

/// The sums of the days with an amount, from one place to another.
pub fn sums_between(
    alloc: Global,
    account: &Account,
    from: usize,
    to: usize,
) -> Result<Vec<DaySum>> {
    let mut sums = Vec::new(alloc);
    for (place, cents) in account.amounts.iter().enumerate().skip(from) {
        if place > to {
            return Ok(sums);
        }
        if *cents > 0 {
            sums.push(DaySum {
                day: day_at(account.first, place)?,
                cents: Cents(*cents),
            })?;
        }
    }
    Ok(sums)
}

/// The years from `first` on with these lookback totals.
fn years(
    alloc: Global,
    first: u32,
    carried: bool,
    lookbacks: &[u64],
) -> Result<Vec<YearLine>, AllocError>
    requires { first + length lookbacks.now ≤ LAST_YEAR }
    ensures years { IfOk result (λ lines. YearsFrom first lines.items) }
    ensures carried { IfOk result (λ lines. OnlyFirstCarried lines.items) }
    ensures count { IfOk result (λ lines. length lines.items ≡ length lookbacks.now) }
{
    let mut lines = Vec::new(alloc);
    let mut year = first;
    for cents in lookbacks {
        let here = carried && year == first;
        lines.push(YearLine {
            year,
            lookback: Cents(*cents),
            carried: here,
            opening: Kind::Monthly,
            turn: None,
        })?;
        year += 1;
    }
    Ok(lines)
}

/// Whether the sums are of the years from `first` up to, but without, `end`.
fn in_years(first: u32, end: u32, sums: &[DaySum]) -> bool
    ensures { IsTrue result → All (λ s. (first ≤ year_of s.day) × (year_of s.day < end)) sums.now }
{
    match sums {
        [] => true,
        [sum, later @ ..] => {
            let year = sum.day.year();
            first <= year && year < end && in_years(first, end, later)
        }
    }
}

/// What the sums are together. None where that is no amount of a history.
pub fn total_of(sums: &[DaySum]) -> Option<u64>
    ensures { IfSome result
        (λ total. (sum_by cents_of sums.now ≡ total) × (total < AMOUNTS_END)) }
{
    match sums {
        [] => Some(0),
        [sum, later @ ..] => {
            let rest = total_of(later)?;
            if sum.cents.0 >= AMOUNTS_END - rest {
                return None;
            }
            Some(rest + sum.cents.0)
        }
    }
}

/// The obligations and the years of the account.
pub fn assess_account(alloc: Global, account: &Account, holidays: &Holidays) -> Result<Assessment> {
    let sums = day_sums(alloc, account)?;
    of_sums(
        alloc,
        account.form,
        account.first,
        account.carried,
        &account.lookbacks,
        &sums,
        holidays,
    )
}

/// The obligations and the years of these sums.
pub fn of_sums(
    alloc: Global,
    form: Form,
    first: u32,
    carried: bool,
    lookbacks: &[u64],
    sums: &[DaySum],
    holidays: &Holidays,
) -> Result<Assessment> {
    if first < FIRST_YEAR || first > LAST_OPEN_YEAR {
        bail!("years of 2001 to 2098");
    }
    let count = lookbacks.len();
    if count > (LAST_YEAR - first) as usize {
        bail!("years of 2001 to 2098");
    }
    let years = years(alloc, first, carried, lookbacks)?;
    let end = first + count as u32;
    if !in_years(first, end, sums) {
        bail!("days of the years");
    }
    total_of(sums).context("amounts of a history")?;
    Ok(assess(form, alloc, &years, sums, holidays)?)
}

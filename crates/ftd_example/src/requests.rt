//! Requests out of texts and numbers: what an office asks of the desk before the first pay run.

use anyhow::{Context, Result, bail};
use ftd_days::Day;
use ftd_machine::{Account, AccountName, Days, Entry, Request};
use ftd_rules::Form;
use std::alloc::Global;

/// The legal holidays in the District of Columbia in 2024, by the days on which they are kept.
const HOLIDAYS_2024: &str = "2024-01-01 2024-01-15 2024-02-19 2024-04-16 2024-05-27 2024-06-19 \
    2024-07-04 2024-09-02 2024-10-14 2024-11-11 2024-11-28 2024-12-25";

/// The legal holidays in the District of Columbia in 2025.
const HOLIDAYS_2025: &str = "2025-01-01 2025-01-20 2025-02-17 2025-04-16 2025-05-26 2025-06-19 \
    2025-07-04 2025-09-01 2025-10-13 2025-11-11 2025-11-27 2025-12-25";

/// The day that a text spells, as 2024-01-05.
pub fn day(text: &str) -> Result<Day> {
    Day::read(text.as_bytes()).context("a day is written as 2024-01-05")
}

/// An account by its name.
pub fn account(alloc: Global, name: &str) -> Result<AccountName> {
    Ok(AccountName::from_string(String::from_str(alloc, name)?))
}

/// The calendar of 2024 or of 2025.
pub fn calendar(alloc: Global, year: u32) -> Result<Request> {
    let holidays = match year {
        2024 => HOLIDAYS_2024,
        2025 => HOLIDAYS_2025,
        _ => bail!("no calendar of {year}"),
    };
    let mut days = Vec::new(alloc);
    for text in holidays.split(' ') {
        days.push(day(text)?)?;
    }
    let days = Days::from_vec(days);
    Ok(Request::Enter(Entry::Calendar { year, days }))
}

/// An employer enrolled on Form 941 from its first day on.
pub fn enrol(alloc: Global, name: &str, start: &str) -> Result<Request> {
    Ok(Request::Enter(Entry::Account {
        name: account(alloc, name)?,
        account: Account {
            start: day(start)?,
            carried: false,
            form: Form::F941,
        },
    }))
}

/// A year of an account opened, so that its pay runs can be posted.
pub fn open_year(alloc: Global, name: &str, year: u32) -> Result<Request> {
    let account = account(alloc, name)?;
    Ok(Request::Enter(Entry::Year { account, year }))
}

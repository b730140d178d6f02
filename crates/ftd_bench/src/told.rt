//! A history from standard input, and its obligations.

use crate::history::of_sums;
use anyhow::{Context, Result};
use ftd_days::{Cents, Day, Holidays};
use ftd_rules::{DaySum, Form};
use std::alloc::Global;
use std::io::Write;

/// The day and the cents of a line.
fn day_sum(line: &str) -> Result<DaySum> {
    let (day, cents) = line.split_once(' ').context("a day and its cents")?;
    let day = Day::read(day.as_bytes()).context("a day")?;
    Ok(DaySum {
        day,
        cents: Cents(cents.parse()?),
    })
}

/// The sums of the lines.
fn day_sums(alloc: Global, lines: &str) -> Result<Vec<DaySum>> {
    let mut sums = Vec::new(alloc);
    for line in lines.lines() {
        sums.push(day_sum(line)?)?;
    }
    Ok(sums)
}

/// So many lookback totals of zero.
fn lookbacks(alloc: Global, count: u32) -> Result<Vec<u64>> {
    let mut totals = Vec::new(alloc);
    for _ in 0..count {
        totals.push(0)?;
    }
    Ok(totals)
}

/// The obligations of so many years from `first` on with the sums of the lines, a line for each.
pub fn history_text(alloc: Global, first: u32, count: u32, lines: &str) -> Result<String> {
    let lookbacks = lookbacks(alloc, count)?;
    let sums = day_sums(alloc, lines)?;
    let holidays = Holidays::new(alloc);
    let history = of_sums(
        alloc,
        Form::F941,
        first,
        false,
        &lookbacks,
        &sums,
        &holidays,
    )?;
    let mut told = String::new(alloc);
    for row in history.rows.as_slice() {
        writeln!(told, "{row}")?;
    }
    Ok(told)
}

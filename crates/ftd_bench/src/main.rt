//! Measures `assess` and repairs. The first line of standard input says what is asked:
//! `assess FIRST COUNT` prints the obligations of so many years from the first on, with the day
//! sums of the lines that follow, a day and its cents on each; `changes SEED COUNT` repairs random
//! histories after random changes of one day, and compares what comes of it with a new assessment;
//! `speed COUNT` tells on standard error the time of an assessment and of so many repairs.
#![tactic(auto)]

mod history;
mod repair;
mod told;

use crate::history::{Account, assess_account, day_at, day_sums, of_sums, random};
use crate::repair::{is_mended, repair_day};
use crate::told::history_text;
use anyhow::{Context, Result, bail, ensure};
use ftd_days::Holidays;
use rand_core::utils::NextWord;
use rand_pcg::Pcg32;
use std::alloc::Global;
use std::io::{self, Write};
use std::time::Instant;

/// Changes a day of a random history, and answers how many windows the repair asked for.
fn change(alloc: Global, random_numbers: &mut Pcg32) -> Result<u32> {
    let holidays = Holidays::new(alloc);
    let mut account = random(alloc, random_numbers)?;
    let before = assess_account(alloc, &account, &holidays)?;
    let days = account.amounts.len();
    if days == 0 {
        bail!("days of the history");
    }
    let place = (random_numbers.next_word() as usize) % days;
    let day = day_at(account.first, place)?;
    let amount = match random_numbers.next_word() % 3 {
        0 => 0,
        1 => u64::from(random_numbers.next_word() % 6_000_000),
        _ => 10_000_000 + u64::from(random_numbers.next_word() % 3),
    };
    ensure!(place < account.amounts.len(), "a day of the history");
    account.amounts[place] = amount;
    let after = assess_account(alloc, &account, &holidays)?;
    let (patch, windows) = repair_day(alloc, &account, before.years.as_slice(), day, &holidays)?;
    ensure!(
        is_mended(alloc, &before, &patch, &after)?,
        "a repair that differs, at {day}"
    );
    ensure!(
        windows <= 2 + 2023 - day.year().min(2023),
        "too many windows, at {day}"
    );
    Ok(windows)
}

/// Makes so many changes, and writes how many windows they took.
fn changes(alloc: Global, seed: u64, count: u32) -> Result<String> {
    let mut random_numbers = Pcg32::new(seed, 54);
    let mut taken = [0u32; 7];
    for _ in 0..count {
        let windows = change(alloc, &mut random_numbers)? as usize;
        ensure!(windows < 7, "too many windows");
        taken[windows] = taken[windows].saturating_add(1);
    }
    let mut text = String::new(alloc);
    writeln!(text, "{count} changes, each as assessed anew")?;
    for (windows, times) in taken.iter().enumerate() {
        if *times > 0 {
            writeln!(text, "{windows} windows: {times}")?;
        }
    }
    Ok(text)
}

/// Measures a repair of a semiweekly window and an assessment of 20,000 runs.
fn speed(rt: &HostRuntime, count: u32) -> Result<String> {
    let alloc = rt.alloc();
    let holidays = Holidays::new(alloc);
    let account = Account::of_many_runs(alloc)?;
    let sums = day_sums(alloc, &account)?;
    let (form, first, carried) = (account.form, account.first, account.carried);
    let start = Instant::now(rt)?;
    let history = of_sums(
        alloc,
        form,
        first,
        carried,
        &account.lookbacks,
        &sums,
        &holidays,
    )?;
    let assessing = start.elapsed(rt)?;
    let day = day_at(account.first, 5_000)?;
    let lines = history.years.as_slice();
    let mut rows = 0;
    let start = Instant::now(rt)?;
    for _ in 0..count {
        let (patch, _) = repair_day(alloc, &account, lines, day, &holidays)?;
        rows = patch.rows.as_slice().len();
    }
    let repairing = start.elapsed(rt)?;
    let mut text = String::new(alloc);
    let (assessing, repairing) = (assessing.as_nanos(), repairing.as_nanos());
    writeln!(
        text,
        "assess {assessing} ns, {count} repairs {repairing} ns, {rows} rows"
    )?;
    Ok(text)
}

/// What the words ask for, with the lines that follow them. What is measured is told on standard
/// error alone.
fn answer(rt: &HostRuntime, words: &str, lines: &str) -> Result<String> {
    if let Some(count) = words.strip_prefix("speed ") {
        let measured = speed(rt, count.parse()?)?;
        rt.stderr().write_all(measured.as_bytes())?;
        return Ok(String::new(rt.alloc()));
    }
    if let Some(years) = words.strip_prefix("assess ") {
        let (first, count) = years.split_once(' ').context("a year and a count")?;
        return history_text(rt.alloc(), first.parse()?, count.parse()?, lines);
    }
    let Some(numbers) = words.strip_prefix("changes ") else {
        bail!("assess FIRST COUNT, changes SEED COUNT, or speed COUNT");
    };
    let (seed, count) = numbers.split_once(' ').context("a seed and a count")?;
    changes(rt.alloc(), seed.parse()?, count.parse()?)
}

fn main(rt: HostRuntime) -> Result<()> {
    let text = io::read_to_string(rt.alloc(), rt.stdin())?;
    let (words, lines) = text.as_str().split_once('\n').context("a first line")?;
    let told = answer(&rt, words, lines)?;
    rt.stdout().write_all(told.as_bytes())?;
    Ok(())
}

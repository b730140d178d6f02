//! The deposits of one employer in one year, from its pay runs.

ghost use Rattle.std.specs.Prelude.{◌≡◌, ◌≤◌, ◌++◌, IfOk, OnOk, MatchResult, All, length, map};
ghost use Rattle.std.specs.BTreeMap.{values};
ghost use Rattle.std.specs.List.{flat_map};
ghost use Rattle.ftd_days.specs.Calendar.{year_of};
ghost use Rattle.ftd_days.specs.Holidays.{holidays_of};
ghost use Rattle.ftd_plain.specs.Plain.{PlainFails, PlainGives, Prints, line_text};
ghost use Rattle.ftd_plain.specs.Taking.{IsSmall, sum_of};

use crate::calendar::calendar;
use crate::fault::PlainFault;
use crate::runs::take_records;
use ftd_csv::{MOST_BYTES, Records, Sheet};
use ftd_days::{Cents, Day, FIRST_YEAR, Holidays, LAST_OPEN_YEAR};
use ftd_machine::MOST_ENTRIES;
use ftd_rules::{DaySum, Form, Kind, Obligation, PayRun, YearLine, assess};
use std::alloc::{AllocError, Global};
use std::collections::BTreeMap;

/// The deposits of an account in a year, from its pay runs as CSV (Pub. 15, section 11): the
/// obligations of an employer that opens the year as a monthly depositor (its lookback total is
/// zero, and it is not carried into the year as semiweekly), one line each, by first day.
///
/// The year is one of 2001 to 2098. The holidays rise, lie in the year or the next, and are at most
/// 60 for each. The text has at most 16 MiB and the header `employer,run,payday,fit,ss,medicare`.
/// Under it runs of other accounts and years are read too, and left out. A run of the account that
/// comes again with equal content counts once. `PlainFault` says when which fault is answered.
pub fn plain(
    alloc: Global,
    csv: &[u8],
    account: &str,
    year: u32,
    holidays: &[Day],
) -> Result<Vec<u8>, PlainFault>
    requires from { FIRST_YEAR ≤ year }
    requires to { year ≤ LAST_OPEN_YEAR }
    ensures { MatchResult result
        (λ text. PlainGives csv.now account.now year holidays.now text.items)
        (λ fault. PlainFails csv.now account.now year holidays.now fault) }
{
    if csv.len() > MOST_BYTES {
        return Err(PlainFault::TooLong);
    }
    let calendar = calendar(alloc, year, holidays)?;
    let mut records = Records::open(alloc, Sheet::Runs, csv)?;
    let runs = take_records(alloc, &mut records, account, year)?;
    let sums = day_sums(alloc, &runs)?;
    let text = deposits(alloc, year, &sums, &calendar)?;
    Ok(text)
}

/// What the run adds to the liability of its payday: the income tax withheld and both shares of
/// social security and of Medicare tax.
fn day_sum(run: &PayRun) -> DaySum
    requires { IsSmall run.now }
    ensures { result ≡ sum_of run.now }
{
    DaySum {
        day: run.payday,
        cents: Cents(run.fit.0 + run.ss.0 + run.medicare.0),
    }
}

/// What the runs add to the liability of their paydays.
fn day_sums(alloc: Global, runs: &BTreeMap<u32, PayRun>) -> Result<Vec<DaySum>, AllocError>
    requires { All IsSmall (values runs.now) }
    ensures { IfOk result (λ sums. sums.items ≡ map sum_of (values runs.now)) }
{
    let mut sums = Vec::new(alloc);
    for pay_run in runs.values() {
        sums.push(day_sum(pay_run))?;
    }
    Ok(sums)
}

/// The deposits of a monthly depositor with these sums in the year, as text.
fn deposits(
    alloc: Global,
    year: u32,
    sums: &[DaySum],
    holidays: &Holidays,
) -> Result<Vec<u8>, AllocError>
    requires from { FIRST_YEAR ≤ year }
    requires to { year ≤ LAST_OPEN_YEAR }
    requires few { length sums.now ≤ MOST_ENTRIES }
    requires in_year { All (λ sum. year_of sum.day ≡ year) sums.now }
    requires small { All (λ sum. sum.cents.0 ≤ 299_999_999_997) sums.now }
    ensures { IfOk result (λ text. Prints year (holidays_of holidays.now) sums.now text.items) }
{
    let line = YearLine {
        year,
        lookback: Cents(0),
        carried: false,
        opening: Kind::Monthly,
        turn: None,
    };
    let assessment = assess(Form::F941, alloc, &[line], sums, holidays)?;
    lines(alloc, assessment.rows.as_slice())
}

/// The rows as text, one line each.
fn lines(alloc: Global, rows: &[Obligation]) -> Result<Vec<u8>, AllocError>
    ensures { IfOk result (λ text. text.items ≡ flat_map line_text rows.now) }
{
    let mut text = Vec::new(alloc);
    for row in rows {
        push_line(alloc, &mut text, row)?;
    }
    Ok(text)
}

/// Writes the line of the row at the end of the text.
fn push_line(alloc: Global, text: &mut Vec<u8>, row: &Obligation) -> Result<(), AllocError>
    ensures { OnOk result (text.new.items ≡ text.old.items ++ line_text row.now) }
{
    let line = row.to_string(alloc)?;
    text.extend_from_slice(line.as_bytes())?;
    text.push(b'\n')?;
    Ok(())
}

//! The pay runs of one account with a payday in one year.

ghost use Rattle.std.specs.Prelude.{◌≡◌, ◌≤◌, ◌&&◌, ◌==◌, MatchResult, length};
ghost use Rattle.std.specs.BTreeMap.{IsOrdered};
ghost use Rattle.std.specs.Ordering.{nat_cmp};
ghost use Rattle.std.specs.Str.{bytes_eq};
ghost use Rattle.ftd_days.specs.Calendar.{year_of};
ghost use Rattle.ftd_csv.specs.Places.{CanAdvance, number_of};
ghost use Rattle.ftd_plain.specs.Plain.{run_said};
ghost use Rattle.ftd_plain.specs.Taking.{RefusesRecord, RefusesRun, StopsAtFault, TakesAll};
ghost use Rattle.ftd_plain.specs.Taking.{TakesRecord, TakesRun, runs_left};

use crate::fault::PlainFault;
use ftd_csv::{Content, Records};
use ftd_machine::{AccountName, MOST_ENTRIES, Request};
use ftd_rules::PayRun;
use std::alloc::Global;
use std::collections::BTreeMap;

/// Whether the run of the employer is one of the account, with a payday in the year.
fn is_taken(employer: &AccountName, run: &PayRun, account: &str, year: u32) -> bool
    ensures { result ≡ (bytes_eq employer.now account.now && (year_of run.now.payday == year)) }
{
    employer.as_str() == account && run.payday.year() == year
}

/// Takes a run of the account.
fn take_run(runs: &mut BTreeMap<u32, PayRun>, number: u32, run: &PayRun) -> Result<(), PlainFault>
    requires ordered { IsOrdered nat_cmp runs.old }
    requires few { length runs.old.entries ≤ MOST_ENTRIES }
    ensures ordered { IsOrdered nat_cmp runs.new }
    ensures takes { MatchResult result
        (λ _. TakesRun runs.old.entries number run.now runs.new.entries)
        (λ fault. RefusesRun runs.old.entries number run.now fault) }
{
    match runs.get(&number) {
        Some(known) if known == run => Ok(()),
        Some(_) => Err(PlainFault::RunDiffers(number)),
        None if runs.len() == MOST_ENTRIES as usize => Err(PlainFault::TooManyRuns),
        None => {
            runs.insert(number, *run)?;
            Ok(())
        }
    }
}

/// Takes what a record says: a run of the account, if it is one.
fn take_content(
    runs: &mut BTreeMap<u32, PayRun>,
    content: &Content,
    number: u32,
    account: &str,
    year: u32,
) -> Result<(), PlainFault>
    requires ordered { IsOrdered nat_cmp runs.old }
    requires few { length runs.old.entries ≤ MOST_ENTRIES }
    ensures ordered { IsOrdered nat_cmp runs.new }
    ensures takes { MatchResult result
        (λ _. TakesRecord account.now year runs.old.entries (run_said content.now) runs.new.entries)
        (λ fault. RefusesRecord account.now year number runs.old.entries (run_said content.now)
        fault) }
{
    match content {
        Content::Malformed(field) => Err(PlainFault::Malformed {
            number,
            field: *field,
        }),
        Content::Entry(
            Request::Post {
                account: employer,
                number,
                run,
            },
        ) => {
            if is_taken(employer, run, account, year) {
                return take_run(runs, *number, run);
            }
            Ok(())
        }
        Content::Entry(_) => Err(PlainFault::Malformed { number, field: 0 }),
    }
}

/// Takes the runs of the account with a payday in the year from the records, which stand before the
/// first. A run that comes again with equal content counts once.
pub fn take_records(
    alloc: Global,
    records: &mut Records<'_>,
    account: &str,
    year: u32,
) -> Result<BTreeMap<u32, PayRun>, PlainFault>
    requires can { CanAdvance records.old }
    requires first { number_of records.old ≡ 1 }
    ensures { MatchResult result
        (λ runs. IsOrdered nat_cmp runs
        × TakesAll account.now year (runs_left records.old) runs.entries)
        (λ fault. StopsAtFault account.now year (runs_left records.old) fault) }
{
    let mut runs = BTreeMap::new(alloc);
    while records.advance()? {
        let content = records.entry(alloc)?;
        take_content(&mut runs, &content, records.number(), account, year)?;
    }
    Ok(runs)
}

//! What is kept that a refusal can be mended by: the quarters of a lookback period whose totals are
//! still to be reported, the days that a calendar was given with, the first year of an account, as
//! what it was enrolled, whether nothing rests on it, and the run or the payment that has a number.

ghost use Rattle.std.specs.Prelude.{◌≡◌, ◌≤◌, Err, IfErr, IfOk, map, option_map};
ghost use Rattle.sqlite.specs.State.{HasCleanDisk};
ghost use Rattle.ftd_store.specs.Frame.{Reads};
ghost use Rattle.ftd_store.specs.Seen.{seen};
ghost use Rattle.ftd_machine.specs.History.{year_of_line};
ghost use Rattle.ftd_machine.specs.Runs.{IsFault};
ghost use Rattle.ftd_machine.specs.Requests.{is_unused};
ghost use Rattle.ftd_machine.specs.State.{State, calendar_at, enrolled_in, entries_of, kept_at};
ghost use Rattle.ftd_questions.specs.Missing.{KnowsFirstYear, KnowsMissing, are_missing};
ghost use Rattle.ftd_questions.specs.Missing.{first_among, first_year, missing_from};
ghost use Rattle.ftd_questions.specs.Walks.{Stays, KeptIfOpen};

use crate::faults::refusal_of;
use ftd_days::{Cents, Day, FIRST_YEAR, LAST_OPEN_YEAR, Quarter};
use ftd_entries::{enrolment, known_account};
use ftd_machine::{Account, Refusal};
use ftd_rules::{PayRun, Payment, Voidable, YearLine, lookback_start};
use ftd_store::{Store, StoreFault, Tx};
use sqlite::Alter;
use std::alloc::{AllocError, Global};

/// The quarters from this one on for which nothing was found.
fn are_missing(
    alloc: Global,
    found: &[(Quarter, Option<Cents>)],
    first: Quarter,
) -> Result<Vec<Quarter>, AllocError>
    ensures { IfOk result (λ quarters. quarters.items ≡ are_missing first found.now) }
{
    let mut quarters = Vec::new(alloc);
    for (quarter, cents) in found {
        if first.quarters() <= quarter.quarters() && cents.is_none() {
            quarters.push(*quarter)?;
        }
    }
    Ok(quarters)
}

/// The quarters of the year's lookback period, from this one on, whose totals the account has not
/// reported.
fn missing_in<S: Alter>(
    tx: &mut Tx<'_, S>,
    alloc: Global,
    name: &str,
    first: Quarter,
    year: u32,
) -> Result<Vec<Quarter>, StoreFault>
    requires from { FIRST_YEAR ≤ year }
    requires to { year ≤ LAST_OPEN_YEAR }
    ensures call { Reads S.Store tx.old tx.new result (KnowsMissing name.now first year) }
{
    let quarters = lookback_start(year);
    let (third, fourth) = (Quarter::at(quarters), Quarter::at(quarters + 1));
    let (next, last) = (Quarter::at(quarters + 2), Quarter::at(quarters + 3));
    let found = [
        (third, tx.reported_total(name, third)?),
        (fourth, tx.reported_total(name, fourth)?),
        (next, tx.reported_total(name, next)?),
        (last, tx.reported_total(name, last)?),
    ];
    match are_missing(alloc, &found, first) {
        Ok(quarters) => Ok(quarters),
        Err(_) => tx.give_up(StoreFault::Memory),
    }
}

/// The quarters of the lookback period of the year, from this one on, whose totals the account has
/// not reported, read in a transaction that is dropped. `Memory` and `Store` where there was no
/// memory or the store failed. The tables stay as they are, whatever comes of it.
pub fn missing_quarters<S: Alter>(
    store: &mut Store<S>,
    alloc: Global,
    name: &str,
    first: Quarter,
    year: u32,
) -> Result<Vec<Quarter>, Refusal>
    requires from { FIRST_YEAR ≤ year }
    requires to { year ≤ LAST_OPEN_YEAR }
    ensures knows { HasCleanDisk (seen S.Store store.new) → (s : State)
        → KeptIfOpen (seen S.Store store.old) s
        → IfOk result (λ quarters.
        quarters.items ≡ missing_from (entries_of s name.now) first year) }
    ensures fault { IfErr result (λ refusal. IsFault (Err refusal)) }
    ensures stays { Stays (seen S.Store store.old) (seen S.Store store.new) }
{
    let mut tx = match store.begin() {
        Ok(tx) => tx,
        Err(fault) => return Err(refusal_of(fault)),
    };
    match missing_in(&mut tx, alloc, name, first, year) {
        Ok(quarters) => Ok(quarters),
        Err(fault) => Err(refusal_of(fault)),
    }
}

/// The days that the year's calendar was given with, or None where it is not given, read in a
/// transaction that is dropped. `Memory` and `Store` where there was no memory or the store failed.
/// The tables stay as they are, whatever comes of it.
pub fn given_days<S: Alter>(
    store: &mut Store<S>,
    alloc: Global,
    year: u32,
) -> Result<Option<Vec<Day>>, Refusal>
    ensures knows { HasCleanDisk (seen S.Store store.new) → (s : State)
        → KeptIfOpen (seen S.Store store.old) s
        → IfOk result (λ days. calendar_at s year ≡ option_map (λ it. it.items) days) }
    ensures fault { IfErr result (λ refusal. IsFault (Err refusal)) }
    ensures stays { Stays (seen S.Store store.old) (seen S.Store store.new) }
{
    let mut tx = match store.begin() {
        Ok(tx) => tx,
        Err(fault) => return Err(refusal_of(fault)),
    };
    match tx.calendar(alloc, year) {
        Ok(days) => Ok(days),
        Err(fault) => Err(refusal_of(fault)),
    }
}

/// The first of an account's years, by the lines of those that are open, by year. Where there are
/// none, it is that of the employer's first day.
fn first_among(account: Option<Account>, lines: &[YearLine]) -> Option<u32>
    ensures { result ≡ first_among account (map year_of_line lines.now) }
{
    let account = account?;
    match lines.first() {
        Some(line) => Some(line.year),
        None => Some(account.start.year()),
    }
}

/// The first of the account's years. None where it is not enrolled.
fn first_year_in<S: Alter>(
    tx: &mut Tx<'_, S>,
    alloc: Global,
    name: &str,
) -> Result<Option<u32>, StoreFault>
    ensures call { Reads S.Store tx.old tx.new result (KnowsFirstYear name.now) }
{
    let account = known_account(tx, alloc, name)?;
    let lines = tx.years(alloc, name)?;
    Ok(first_among(account, &lines))
}

/// The first year of the account that is open, and where none is, the year of the employer's first
/// day: no year before it can be opened. None where the account is not enrolled. It is read in a
/// transaction that is dropped. `Memory` and `Store` where there was no memory or the store failed.
/// The tables stay as they are, whatever comes of it.
pub fn first_year<S: Alter>(
    store: &mut Store<S>,
    alloc: Global,
    name: &str,
) -> Result<Option<u32>, Refusal>
    ensures knows { HasCleanDisk (seen S.Store store.new) → (s : State)
        → KeptIfOpen (seen S.Store store.old) s
        → IfOk result (λ year. year ≡ first_year (entries_of s name.now)) }
    ensures fault { IfErr result (λ refusal. IsFault (Err refusal)) }
    ensures stays { Stays (seen S.Store store.old) (seen S.Store store.new) }
{
    let mut tx = match store.begin() {
        Ok(tx) => tx,
        Err(fault) => return Err(refusal_of(fault)),
    };
    match first_year_in(&mut tx, alloc, name) {
        Ok(year) => Ok(year),
        Err(fault) => Err(refusal_of(fault)),
    }
}

/// As what the account was enrolled, or None where there is none, read in a transaction that is
/// dropped. `Memory` and `Store` where there was no memory or the store failed. The tables stay as
/// they are, whatever comes of it.
pub fn enrolled_account<S: Alter>(
    store: &mut Store<S>,
    name: &str,
) -> Result<Option<Account>, Refusal>
    ensures knows { HasCleanDisk (seen S.Store store.new) → (s : State)
        → KeptIfOpen (seen S.Store store.old) s
        → IfOk result (λ kept. enrolled_in s name.now ≡ kept) }
    ensures fault { IfErr result (λ refusal. IsFault (Err refusal)) }
    ensures stays { Stays (seen S.Store store.old) (seen S.Store store.new) }
{
    let mut tx = match store.begin() {
        Ok(tx) => tx,
        Err(fault) => return Err(refusal_of(fault)),
    };
    match enrolment(&mut tx, name) {
        Ok(kept) => Ok(kept),
        Err(fault) => Err(refusal_of(fault)),
    }
}

/// Whether nothing rests on the account: no total was reported, and no year is open; read in a
/// transaction that is dropped. `Memory` and `Store` where there was no memory or the store failed.
/// The tables stay as they are, whatever comes of it.
pub fn is_unused<S: Alter>(store: &mut Store<S>, alloc: Global, name: &str) -> Result<bool, Refusal>
    ensures knows { HasCleanDisk (seen S.Store store.new) → (s : State)
        → KeptIfOpen (seen S.Store store.old) s
        → IfOk result (λ unused. is_unused (entries_of s name.now) ≡ unused) }
    ensures fault { IfErr result (λ refusal. IsFault (Err refusal)) }
    ensures stays { Stays (seen S.Store store.old) (seen S.Store store.new) }
{
    let mut tx = match store.begin() {
        Ok(tx) => tx,
        Err(fault) => return Err(refusal_of(fault)),
    };
    match ftd_entries::is_unused(&mut tx, alloc, name) {
        Ok(unused) => Ok(unused),
        Err(fault) => Err(refusal_of(fault)),
    }
}

/// The account's run of the number, void or not, or None where there is none, read in a
/// transaction that is dropped. `Memory` and `Store` where there was no memory or the store failed.
/// The tables stay as they are, whatever comes of it.
pub fn kept_run<S: Alter>(
    store: &mut Store<S>,
    name: &str,
    number: u32,
) -> Result<Option<Voidable<PayRun>>, Refusal>
    ensures knows { HasCleanDisk (seen S.Store store.new) → (s : State)
        → KeptIfOpen (seen S.Store store.old) s
        → IfOk result (λ kept. kept_at number (entries_of s name.now).runs ≡ kept) }
    ensures fault { IfErr result (λ refusal. IsFault (Err refusal)) }
    ensures stays { Stays (seen S.Store store.old) (seen S.Store store.new) }
{
    let mut tx = match store.begin() {
        Ok(tx) => tx,
        Err(fault) => return Err(refusal_of(fault)),
    };
    match tx.run(name, number) {
        Ok(kept) => Ok(kept),
        Err(fault) => Err(refusal_of(fault)),
    }
}

/// The account's payment of the number, void or not, or None where there is none, read in a
/// transaction that is dropped. `Memory` and `Store` where there was no memory or the store failed.
/// The tables stay as they are, whatever comes of it.
pub fn kept_payment<S: Alter>(
    store: &mut Store<S>,
    name: &str,
    number: u32,
) -> Result<Option<Voidable<Payment>>, Refusal>
    ensures knows { HasCleanDisk (seen S.Store store.new) → (s : State)
        → KeptIfOpen (seen S.Store store.old) s
        → IfOk result (λ kept. kept_at number (entries_of s name.now).payments ≡ kept) }
    ensures fault { IfErr result (λ refusal. IsFault (Err refusal)) }
    ensures stays { Stays (seen S.Store store.old) (seen S.Store store.new) }
{
    let mut tx = match store.begin() {
        Ok(tx) => tx,
        Err(fault) => return Err(refusal_of(fault)),
    };
    match tx.payment(name, number) {
        Ok(kept) => Ok(kept),
        Err(fault) => Err(refusal_of(fault)),
    }
}

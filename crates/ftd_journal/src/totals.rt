//! The totals that an account reported, as they were first given, each with its corrections.

ghost use Rattle.std.specs.Prelude.{◌≡◌, ◌++◌, ◌∷◌, [], IfOk, OnOk, map};
ghost use Rattle.ftd_store.specs.Frame.{Reads};
ghost use Rattle.ftd_machine.specs.Journal.{corrections, total_reported};
ghost use Rattle.ftd_machine.specs.declared.entries.ReturnPeriod.TheVariants.{Quarter, Year};
ghost use Rattle.ftd_machine.specs.declared.requests.Correction.TheVariants as correction;
ghost use Rattle.ftd_machine.specs.declared.requests.Entry.TheVariants as entry;
ghost use Rattle.ftd_machine.specs.declared.requests.Request.TheVariants.{Enter};
ghost use Rattle.ftd_entries.specs.Known.{amounts_of};
ghost use Rattle.ftd_journal.specs.Parts.{AddsPart, quarter_of, quarters_part, year_total_of};
ghost use Rattle.ftd_journal.specs.Parts.{total_correction, total_requests, year_totals_part};

use crate::adding::{add, add_corrections};
use ftd_days::Cents;
use ftd_machine::{AccountName, Entry, Request, ReturnPeriod};
use ftd_store::{Correction, QuarterTotal, StoreFault, Tx, YearTotal};
use sqlite::Alter;
use std::alloc::Global;

/// Adds the request by which the total of the period was first reported, in cents. `Memory` where
/// there was none.
fn add_first(
    alloc: Global,
    name: &str,
    period: &ReturnPeriod,
    cents: Cents,
    requests: &mut Vec<Request>,
) -> Result<(), StoreFault>
    ensures { OnOk result (requests.new.items ≡ requests.old.items
        ++ Enter (entry.Total name.now period.now cents) ∷ []) }
{
    let account = AccountName::copy_of(alloc, name)?;
    let period = *period;
    add(
        Request::Enter(Entry::Total {
            account,
            period,
            cents,
        }),
        requests,
    )
}

/// The corrections of the total of the period. `Memory` where there was none.
fn total_corrections(
    alloc: Global,
    name: &str,
    period: &ReturnPeriod,
    rows: &[Correction],
) -> Result<Vec<ftd_machine::Correction>, StoreFault>
    ensures { IfOk result (λ given.
        given.items ≡ map (total_correction name.now period.now) rows.now) }
{
    let mut given = Vec::new(alloc);
    for row in rows {
        let account = AccountName::copy_of(alloc, name)?;
        let cents = row.cents;
        add(
            ftd_machine::Correction::Total {
                account,
                period: *period,
                cents,
            },
            &mut given,
        )?;
    }
    Ok(given)
}

/// Adds the requests of the corrections of the total of the period. `Failed` where there are too
/// many for their numbers, and `Memory` where there was no memory; after either some of them may
/// have been added.
fn add_later(
    alloc: Global,
    name: &str,
    period: &ReturnPeriod,
    rows: &[Correction],
    requests: &mut Vec<Request>,
) -> Result<(), StoreFault>
    ensures { OnOk result (requests.new.items ≡ requests.old.items
        ++ corrections (λ cents. correction.Total name.now period.now cents)
        (amounts_of rows.now)) }
{
    let given = total_corrections(alloc, name, period, rows)?;
    add_corrections(given, requests)
}

/// Adds the requests of the total of the period, first reported in cents, with these corrections.
/// The errors are those of `add_later`.
fn add_total(
    alloc: Global,
    name: &str,
    period: &ReturnPeriod,
    cents: Cents,
    rows: &[Correction],
    requests: &mut Vec<Request>,
) -> Result<(), StoreFault>
    ensures { OnOk result (requests.new.items ≡ requests.old.items
        ++ total_requests name.now period.now cents (amounts_of rows.now)) }
{
    add_first(alloc, name, period, cents, requests)?;
    add_later(alloc, name, period, rows, requests)
}

// ---- of quarters

/// Adds the part of the account's journal that has this total of a quarter. After an error some
/// requests may have been added.
fn add_quarter<S: Alter>(
    tx: &mut Tx<'_, S>,
    alloc: Global,
    name: &str,
    total: &QuarterTotal,
    requests: &mut Vec<Request>,
) -> Result<(), StoreFault>
    ensures call { Reads S.Store tx.old tx.new result (λ done.
        AddsPart (λ s. total_reported Quarter s.corrected (quarter_of name.now total.now))
        requests.old.items requests.new.items) }
{
    let rows = tx.corrections(alloc, name, total.quarter)?;
    let period = ReturnPeriod::Quarter(total.quarter);
    match add_total(alloc, name, &period, total.cents, &rows, requests) {
        Ok(()) => Ok(()),
        Err(fault) => tx.give_up(fault),
    }
}

/// Adds the part of the account's journal that has its totals of quarters. After an error some
/// requests may have been added.
pub(crate) fn add_quarters<S: Alter>(
    tx: &mut Tx<'_, S>,
    alloc: Global,
    name: &str,
    requests: &mut Vec<Request>,
) -> Result<(), StoreFault>
    ensures call { Reads S.Store tx.old tx.new result
        (λ done. AddsPart (quarters_part name.now) requests.old.items requests.new.items) }
{
    let totals = tx.reported_totals(alloc, name)?;
    for total in &totals {
        add_quarter(tx, alloc, name, total, requests)?;
    }
    Ok(())
}

// ---- of years

/// Adds the part of the account's journal that has this total of a year. After an error some
/// requests may have been added.
fn add_year<S: Alter>(
    tx: &mut Tx<'_, S>,
    alloc: Global,
    name: &str,
    total: &YearTotal,
    requests: &mut Vec<Request>,
) -> Result<(), StoreFault>
    ensures call { Reads S.Store tx.old tx.new result (λ done.
        AddsPart (λ s. total_reported Year s.corrected_years (year_total_of name.now total.now))
        requests.old.items requests.new.items) }
{
    let rows = tx.year_corrections(alloc, name, total.year)?;
    let period = ReturnPeriod::Year(total.year);
    match add_total(alloc, name, &period, total.cents, &rows, requests) {
        Ok(()) => Ok(()),
        Err(fault) => tx.give_up(fault),
    }
}

/// Adds the part of the account's journal that has its totals of years. After an error some
/// requests may have been added.
pub(crate) fn add_year_totals<S: Alter>(
    tx: &mut Tx<'_, S>,
    alloc: Global,
    name: &str,
    requests: &mut Vec<Request>,
) -> Result<(), StoreFault>
    ensures call { Reads S.Store tx.old tx.new result
        (λ done. AddsPart (year_totals_part name.now) requests.old.items requests.new.items) }
{
    let totals = tx.reported_year_totals(alloc, name)?;
    for total in &totals {
        add_year(tx, alloc, name, total, requests)?;
    }
    Ok(())
}

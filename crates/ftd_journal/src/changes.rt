//! The days of a year that were given or added as holidays, and how each was changed.

ghost use Rattle.std.specs.Prelude.{◌≡◌, ◌++◌, IfOk, OnOk, flat_map, map};
ghost use Rattle.std.specs.List.Sorted.{IsPermutation};
ghost use Rattle.ftd_rules.specs.Lists.{KeysDoNotFall};
ghost use Rattle.ftd_store.specs.Frame.{Reads};
ghost use Rattle.ftd_store.specs.Holidays.{words_on};
ghost use Rattle.ftd_journal.specs.Days.{KnowsDays, as_itself, changes_on, day_correction};

use crate::adding::{add, add_corrections};
use ftd_days::Day;
use ftd_machine::{Correction, Request};
use ftd_store::{HolidayChange, StoreFault, Tx};
use sqlite::Alter;
use std::alloc::Global;

// ---- days

/// The days, rising. `Memory` where there was none.
fn by_day(given: Vec<Day>, added: &[Day]) -> Result<Vec<Day>, StoreFault>
    ensures same { IfOk result (λ sorted. IsPermutation (given.items ++ added.now) sorted.items) }
    ensures in_order { IfOk result (λ sorted. KeysDoNotFall as_itself sorted.items) }
{
    let mut days = given;
    days.extend_from_slice(added)?;
    days.sort_by_key(|day| *day)?;
    Ok(days)
}

/// The days of the year that were given or added as holidays, rising; none where its calendar is
/// not given. `Memory` where there was none.
pub(crate) fn days_of_year<S: Alter>(
    tx: &mut Tx<'_, S>,
    alloc: Global,
    year: u32,
) -> Result<Vec<Day>, StoreFault>
    ensures call { Reads S.Store tx.old tx.new result (λ days. KnowsDays year days.items) }
{
    let Some(given) = tx.calendar(alloc, year)? else {
        return Ok(Vec::new(alloc));
    };
    let added = tx.added_holidays(alloc, year)?;
    match by_day(given, &added) {
        Ok(days) => Ok(days),
        Err(fault) => tx.give_up(fault),
    }
}

// ---- changes

/// The corrections of the day, among these changes. `Memory` where there was none.
fn day_corrections(
    alloc: Global,
    day: Day,
    changes: &[HolidayChange],
) -> Result<Vec<Correction>, StoreFault>
    ensures { IfOk result (λ given.
        given.items ≡ map (day_correction day) (words_on day changes.now)) }
{
    let mut given = Vec::new(alloc);
    for change in changes {
        if change.day == day {
            let is_holiday = change.is_holiday;
            add(Correction::Holiday { day, is_holiday }, &mut given)?;
        }
    }
    Ok(given)
}

/// Adds the requests of those of the changes that are of the day. `Failed` where there are too many
/// for their numbers, and `Memory` where there was no memory; after either some of them may have
/// been added.
fn add_day_changes(
    alloc: Global,
    day: Day,
    changes: &[HolidayChange],
    requests: &mut Vec<Request>,
) -> Result<(), StoreFault>
    ensures { OnOk result (requests.new.items ≡ requests.old.items
        ++ changes_on changes.now day) }
{
    let given = day_corrections(alloc, day, changes)?;
    add_corrections(given, requests)
}

/// Adds the requests of those of the changes that are of these days, day by day. The errors are
/// those of `add_day_changes`.
pub(crate) fn add_changes_of(
    alloc: Global,
    days: &[Day],
    changes: &[HolidayChange],
    requests: &mut Vec<Request>,
) -> Result<(), StoreFault>
    ensures { OnOk result (requests.new.items ≡ requests.old.items
        ++ flat_map (changes_on changes.now) days.now) }
{
    for day in days {
        add_day_changes(alloc, *day, changes, requests)?;
    }
    Ok(())
}

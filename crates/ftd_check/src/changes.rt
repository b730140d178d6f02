//! Changes of days, as their rows show them.

ghost use Rattle.std.specs.Prelude.{[], ◌≡◌, IfOk, map};
ghost use Rattle.std.specs.List.{count_by, list_all};
ghost use Rattle.ftd_entries.specs.Standing.{with_earlier};
ghost use Rattle.ftd_sound.specs.Days.{change_in};
ghost use Rattle.ftd_check.specs.Private.DayRows.{change_shown, is_numbered, is_on};

use ftd_days::Day;
use ftd_sound::DayChange;
use ftd_store::YearHolidayChange;
use std::alloc::{AllocError, Global};

/// How many of the changes are of the day.
fn changes_on(day: Day, changes: &[YearHolidayChange]) -> usize
    ensures { result ≡ count_by (is_on day) changes.now }
{
    changes
        .iter()
        .filter(|change| change.change.day == day)
        .count()
}

/// Whether the change is stored for the year of its day, and has the next number after the changes
/// of the day that came before it.
fn is_numbered(earlier: &[YearHolidayChange], change: &YearHolidayChange) -> bool
    ensures { result ≡ is_numbered (earlier.now, change.now) }
{
    let day = change.change.day;
    let number = change.change.number as usize;
    day.year() == change.year && number > 0 && changes_on(day, earlier) == number - 1
}

/// Whether each change is stored for the year of its day, and the changes of each day are numbered
/// from 1 in their order.
pub(crate) fn are_numbered(changes: &[YearHolidayChange]) -> bool
    ensures { result ≡ list_all is_numbered (with_earlier [] changes.now) }
{
    for i in 0..changes.len() {
        if !is_numbered(&changes[..i], &changes[i]) {
            return false;
        }
    }
    true
}

/// The changes, without their years and their numbers. `Err` says that memory ran out.
pub(crate) fn changes_shown(
    alloc: Global,
    changes: &[YearHolidayChange],
) -> Result<Vec<DayChange>, AllocError>
    ensures { IfOk result (λ shown. map change_in shown.items ≡ map change_shown changes.now) }
{
    let mut shown = Vec::new(alloc);
    for change in changes {
        shown.push(DayChange {
            day: change.change.day,
            is_holiday: change.change.is_holiday,
        })?;
    }
    Ok(shown)
}

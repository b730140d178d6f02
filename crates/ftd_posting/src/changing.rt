//! A day is taken back as a holiday, or made one again.

ghost use Rattle.std.specs.Prelude.{◌≡◌, IfOk};
ghost use Rattle.ftd_store.specs.Frame.{Calls, Reads};
ghost use Rattle.ftd_store.specs.Holidays.{words_on};
ghost use Rattle.ftd_machine.specs.declared.requests.Request.TheVariants.{Correct};
ghost use Rattle.ftd_machine.specs.declared.requests.Correction.TheVariants as correction;
ghost use Rattle.ftd_machine.specs.State.{numbered};
ghost use Rattle.ftd_entries.specs.Words.{Serves};
ghost use Rattle.ftd_posting.specs.Changing.{KnowsForChange, KnowsWords};

use crate::moving::{DayEntry, enter_and_move};
use ftd_days::Day;
use ftd_machine::{Answer, Reply, change_holiday_check};
use ftd_store::{HolidayChange, StoreFault, Tx};
use sqlite::Alter;
use std::alloc::{AllocError, Global};

/// What is known of a day before it is changed.
#[derive(Drop)]
pub(crate) struct KnownForChange {
    /// The calendar of its year, if it was given.
    pub calendar: Option<Vec<Day>>,
    /// The days that were added to its year.
    pub added: Vec<Day>,
    /// What its changes say, the first one first.
    pub words: Vec<bool>,
    /// How many changes it has.
    pub count: u32,
}

/// What the changes of the day say, the first one first.
fn words_said(alloc: Global, changes: &[HolidayChange], day: Day) -> Result<Vec<bool>, AllocError>
    ensures { IfOk result (λ words. words.items ≡ words_on day changes.now) }
{
    let mut words = Vec::new(alloc);
    for change in changes {
        if change.day == day {
            words.push(change.is_holiday)?;
        }
    }
    Ok(words)
}

/// The word of a number: the first one has number 1.
fn numbered(words: &[bool], number: u32) -> Option<bool>
    ensures { result ≡ numbered number words.now }
{
    words.get(number.saturating_sub(1) as usize).copied()
}

/// What the changes of a day say, the first one first.
fn words_of<S: Alter>(tx: &mut Tx<'_, S>, alloc: Global, day: Day) -> Result<Vec<bool>, StoreFault>
    ensures call { Reads S.Store tx.old tx.new result (λ words. KnowsWords day words.items) }
{
    let changes = tx.holiday_changes(alloc, day.year())?;
    match words_said(alloc, &changes, day) {
        Ok(words) => Ok(words),
        Err(_) => tx.give_up(StoreFault::Memory),
    }
}

/// What is known of a day before it is changed. `Failed` also where it has more changes than a
/// number can tell.
fn known_for_change<S: Alter>(
    tx: &mut Tx<'_, S>,
    alloc: Global,
    day: Day,
) -> Result<KnownForChange, StoreFault>
    ensures call { Reads S.Store tx.old tx.new result (KnowsForChange day) }
{
    let calendar = tx.calendar(alloc, day.year())?;
    let added = tx.added_holidays(alloc, day.year())?;
    let words = words_of(tx, alloc, day)?;
    let Ok(count) = u32::try_from(words.len()) else {
        return tx.give_up(StoreFault::Failed);
    };
    Ok(KnownForChange {
        calendar,
        added,
        words,
        count,
    })
}

/// Takes back a day that was given or added as a holiday, or makes it one again, as the change of
/// this number, and moves the due dates that count it, of all accounts. `Failed` also where the
/// rows stand for no state that requests lead to.
pub fn change_holiday<S: Alter>(
    tx: &mut Tx<'_, S>,
    alloc: Global,
    day: Day,
    number: u32,
    is_holiday: bool,
) -> Result<Answer, StoreFault>
    ensures call { Calls S.Store tx.old tx.new result
        (Serves (Correct number (correction.Holiday day is_holiday))) }
{
    let before = known_for_change(tx, alloc, day)?;
    let checked = change_holiday_check(
        day,
        number,
        is_holiday,
        before.calendar.as_deref(),
        &before.added,
        numbered(&before.words, number),
        before.count,
    );
    if let Err(answer) = checked {
        return Ok(answer);
    }
    let change = HolidayChange {
        day,
        number,
        is_holiday,
    };
    enter_and_move(tx, alloc, &DayEntry::Changed(change))?;
    Ok(Ok(Reply::Done))
}

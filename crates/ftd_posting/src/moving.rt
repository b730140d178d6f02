//! Due dates that a change of the holidays moves.

ghost use Rattle.std.specs.Prelude.{◌≡◌, ◌≤◌, ◌≢◌, filter, string_bytes, MatchOption};
ghost use Rattle.ftd_days.specs.Calendar.{year_of};
ghost use Rattle.ftd_days.specs.Holidays.{holidays_of};
ghost use Rattle.ftd_rules.specs.Due.{IsDue};
ghost use Rattle.ftd_sql.specs.declared.TableName.TheVariants.{Obligations};
ghost use Rattle.ftd_store.specs.Changes.{with_due_date};
ghost use Rattle.ftd_store.specs.Frame.{Rewrites, Writes, WritesOne};
ghost use Rattle.ftd_posting.specs.Moved.{EntersDay, MovesOver, day_of, is_row_of, with_entered};

use crate::reading::holidays_about;
use ftd_days::{Day, Holidays, LAST_OPEN_YEAR, LAST_YEAR};
use ftd_rules::{Obligation, due_of};
use ftd_store::{AccountObligation, HolidayChange, StoreFault, Tx};
use sqlite::Alter;
use std::alloc::Global;

/// What is entered of a day.
#[derive(Clone, Copy)]
pub(crate) enum DayEntry {
    /// It is a holiday more of its year.
    Added(Day),
    /// It is taken back as a holiday, or made one again.
    Changed(HolidayChange),
}

impl DayEntry {
    /// The day of which it is entered.
    fn day(&self) -> Day
        ensures { result ≡ day_of self.now }
    {
        match self {
            DayEntry::Added(day) => *day,
            DayEntry::Changed(change) => change.day,
        }
    }
}

/// Enters it, beside what was entered of the day before.
fn enter<S: Alter>(tx: &mut Tx<'_, S>, entry: &DayEntry) -> Result<(), StoreFault>
    ensures call { Writes S.Store tx.old tx.new result (with_entered entry.now) }
{
    match entry {
        DayEntry::Added(day) => tx.add_added_holiday(*day),
        DayEntry::Changed(change) => tx.add_holiday_change(*change),
    }
}

/// The due date of the obligation by the holidays, where that is another one than it has.
fn new_due(obligation: &Obligation, holidays: &Holidays) -> Option<Day>
    requires { year_of obligation.now.last ≤ LAST_OPEN_YEAR }
    ensures { MatchOption result (IsDue (holidays_of holidays.now) obligation.now.rule
        obligation.now.last obligation.now.due)
        (λ due. IsDue (holidays_of holidays.now) obligation.now.rule obligation.now.last due
        × (due ≢ obligation.now.due)) }
{
    let due = due_of(obligation.rule, obligation.last, holidays);
    if due == obligation.due {
        return None;
    }
    Some(due)
}

/// Gives the account's obligation of the first day another due date. `Failed` where there is none.
fn move_row<S: Alter>(
    tx: &mut Tx<'_, S>,
    owed: &AccountObligation,
    due: Day,
) -> Result<(), StoreFault>
    ensures call { WritesOne S.Store tx.old tx.new result
        (λ t. filter (is_row_of owed.now) (t Obligations))
        (with_due_date (string_bytes owed.now.account) owed.now.obligation.first due) }
{
    let account: &str = &owed.account;
    tx.move_due(account, owed.obligation.first, due)
}

/// Gives each obligation that begins before the day and is due on it or later the due date that it
/// has by the holidays, where that is another one. `Failed` also where one ends after 2098.
fn move_over<S: Alter>(
    tx: &mut Tx<'_, S>,
    alloc: Global,
    day: Day,
    holidays: &Holidays,
) -> Result<(), StoreFault>
    ensures call { Rewrites S.Store tx.old tx.new result
        (λ done. MovesOver day (holidays_of holidays.now)) }
{
    let obligations = tx.due_over(alloc, day)?;
    for owed in &obligations {
        if owed.obligation.last.year() > LAST_OPEN_YEAR {
            return tx.give_up(StoreFault::Failed);
        }
        if let Some(due) = new_due(&owed.obligation, holidays) {
            move_row(tx, owed, due)?;
        }
    }
    Ok(())
}

/// Enters it, of a day up to 2099, and moves the due dates that count the day. `Failed` also where
/// the rows are no calendars of the years about it, and where an obligation ends after 2098.
pub(crate) fn enter_and_move<S: Alter>(
    tx: &mut Tx<'_, S>,
    alloc: Global,
    entry: &DayEntry,
) -> Result<(), StoreFault>
    requires { year_of (day_of entry.now) ≤ LAST_YEAR }
    ensures call { Rewrites S.Store tx.old tx.new result (λ done. EntersDay entry.now) }
{
    enter(tx, entry)?;
    let holidays = holidays_about(tx, alloc, entry.day())?;
    move_over(tx, alloc, entry.day(), &holidays)
}

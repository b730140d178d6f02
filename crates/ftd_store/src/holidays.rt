//! The legal holidays of years: those of the days that their calendars were given with, and of the
//! days that were added later, that no change took back.

ghost use Rattle.std.specs.Prelude.{◌≡◌, ◌≢◌, ◌≤◌, ◌||◌, ℕ, false, OnOk, IfOk, All, filter};
ghost use Rattle.ftd_days.specs.Business.{is_holiday};
ghost use Rattle.ftd_days.specs.Calendar.{year_of};
ghost use Rattle.ftd_days.specs.Holidays.{holidays_of};
ghost use Rattle.ftd_store.specs.Frame.{Reads};
ghost use Rattle.ftd_store.specs.Holidays.{AddsIfGiven, AddsYear, HasYears};
ghost use Rattle.ftd_store.specs.Holidays.{is_holiday_in, is_kept};

use crate::tx::Tx;
use crate::{HolidayChange, StoreFault};
use ftd_days::{CalendarFault, Day, Holidays, LAST_YEAR};
use sqlite::Alter;
use std::alloc::Global;

/// Adds the holidays of a year: those that it was given with, and those that were added to it.
/// `BadCalendar` where they are no calendar of the year, or the year was added before, `Memory`
/// where memory was refused; after either some of them may have been added.
fn add_both(
    holidays: &mut Holidays,
    year: u32,
    given: &[Day],
    added: &[Day],
) -> Result<(), CalendarFault>
    ensures same { OnOk result ((day : ℕ) → is_holiday (holidays_of holidays.new) day
        ≡ (is_holiday (holidays_of holidays.old) day
        || (is_holiday given.now day || is_holiday added.now day))) }
    ensures given { OnOk result (All (λ day. year_of day ≡ year) given.now) }
    ensures added { OnOk result (All (λ day. year_of day ≡ year) added.now) }
    ensures year { OnOk result (year ≤ LAST_YEAR) }
{
    holidays.add_year(year, given)?;
    for day in added {
        if day.year() != year {
            return Err(CalendarFault::BadCalendar);
        }
        holidays.add_day(*day)?;
    }
    Ok(())
}

/// Whether a day that was given or added as a holiday is one, by these changes: the last of it says
/// so, or there is none.
pub fn is_kept(changes: &[HolidayChange], day: Day) -> bool
    ensures { result ≡ is_kept changes.now day }
{
    let mut is_kept = true;
    for change in changes {
        if change.day == day {
            is_kept = change.is_holiday;
        }
    }
    is_kept
}

/// Those of the days that are holidays by these changes. `Memory` where it was refused.
fn kept(alloc: Global, days: &[Day], changes: &[HolidayChange]) -> Result<Vec<Day>, CalendarFault>
    ensures { IfOk result (λ kept. kept.items ≡ filter (is_kept changes.now) days.now) }
{
    let mut kept = Vec::new(alloc);
    for day in days {
        if is_kept(changes, *day) && kept.push(*day).is_err() {
            return Err(CalendarFault::Memory);
        }
    }
    Ok(kept)
}

/// Adds the holidays of a year: those of the days that it was given with, and of those that were
/// added to it, that these changes keep. The errors are those of `add_both`.
fn add_in_force(
    alloc: Global,
    holidays: &mut Holidays,
    year: u32,
    given: &[Day],
    added: &[Day],
    changes: &[HolidayChange],
) -> Result<(), CalendarFault>
    ensures same { OnOk result ((day : ℕ) → is_holiday (holidays_of holidays.new) day
        ≡ (is_holiday (holidays_of holidays.old) day
        || is_holiday_in given.now added.now changes.now day)) }
    ensures elsewhere { OnOk result ((day : ℕ) → year_of day ≢ year
        → is_holiday_in given.now added.now changes.now day ≡ false) }
    ensures year { OnOk result (year ≤ LAST_YEAR) }
{
    let given = kept(alloc, given, changes)?;
    let added = kept(alloc, added, changes)?;
    add_both(holidays, year, &given, &added)
}

impl<'store, S: Alter> Tx<'store, S> {
    /// Adds the holidays of a year to those of others: of the days that its calendar was given
    /// with, and of those that were added later, the ones that no change took back. `false` where
    /// its calendar was not given, and nothing is added. `Failed` also where the rows are no
    /// calendar of the year, or the year is among the others; after an error some days may have
    /// been added.
    pub fn add_holidays(
        &mut self,
        alloc: Global,
        year: u32,
        holidays: &mut Holidays,
    ) -> Result<bool, StoreFault>
        ensures call { Reads S.Store self.old self.new result
            (AddsIfGiven year (holidays_of holidays.old) (holidays_of holidays.new)) }
    {
        let Some(given) = self.calendar(alloc, year)? else {
            return Ok(false);
        };
        let added = self.added_holidays(alloc, year)?;
        let changes = self.holiday_changes(alloc, year)?;
        match add_in_force(alloc, holidays, year, &given, &added, &changes) {
            Ok(()) => Ok(true),
            Err(CalendarFault::BadCalendar) => self.give_up(StoreFault::Failed),
            Err(CalendarFault::Memory) => self.give_up(StoreFault::Memory),
        }
    }

    // adds those of a year whose calendar has to be given
    fn add_given(
        &mut self,
        alloc: Global,
        year: u32,
        holidays: &mut Holidays,
    ) -> Result<(), StoreFault>
        ensures call { Reads S.Store self.old self.new result
            (λ done. AddsYear year (holidays_of holidays.old) (holidays_of holidays.new)) }
    {
        if self.add_holidays(alloc, year, holidays)? {
            Ok(())
        } else {
            self.give_up(StoreFault::Failed)
        }
    }

    /// The holidays of the years from the first to the last, both among them; of the first alone
    /// where the last is before it. `Failed` also where the calendar of one of them was not given,
    /// and where the rows are no calendar of it.
    pub fn holidays(&mut self, alloc: Global, first: u32, last: u32) -> Result<Holidays, StoreFault>
        ensures call { Reads S.Store self.old self.new result
            (λ holidays. HasYears first last (holidays_of holidays)) }
    {
        let mut holidays = Holidays::new(alloc);
        self.add_given(alloc, first, &mut holidays)?;
        for year in first.saturating_add(1)..last.saturating_add(1) {
            self.add_given(alloc, year, &mut holidays)?;
        }
        Ok(holidays)
    }
}

//! The calendars: the years that were given, and their holidays.

ghost use Rattle.ftd_sql.specs.declared.TableName.TheVariants.{CalendarYears, Holidays};
ghost use Rattle.ftd_store.specs.Rows.{calendar_year_row, holiday_row};
ghost use Rattle.ftd_store.specs.Changes.{adding, with_calendar, with_added_holiday};
ghost use Rattle.ftd_store.specs.Finds.{HasCalendar, FindsCalendar, ListsAdded};
ghost use Rattle.ftd_store.specs.Frame.{Reads, Writes};

use crate::readings::Reading;
use crate::tx::Tx;
use crate::{StoreFault, StoredDay};
use ftd_days::Day;
use ftd_sql::TableName;
use sqlite::{Alter, params};
use std::alloc::Global;

impl<'store, S: Alter> Tx<'store, S> {
    // whether the year's calendar was given
    fn has_calendar(&mut self, year: u32) -> Result<bool, StoreFault>
        ensures call { Reads S.Store self.old self.new result (HasCalendar year) }
    {
        let found: Option<u32> = self.read_only(Reading::ReadCalendarYear, params![year])?;
        Ok(found.is_some())
    }

    /// The holidays that the year was given with, rising, or None where its calendar was not given.
    /// Those that were added later are not among them.
    pub fn calendar(&mut self, alloc: Global, year: u32) -> Result<Option<Vec<Day>>, StoreFault>
        ensures call { Reads S.Store self.old self.new result (FindsCalendar year) }
    {
        if !self.has_calendar(year)? {
            return Ok(None);
        }
        let days = self.read_all(alloc, Reading::ListHolidays, params![year])?;
        Ok(Some(days))
    }

    fn add_calendar_year(&mut self, year: u32) -> Result<(), StoreFault>
        ensures call { Writes S.Store self.old self.new result (adding CalendarYears
            (calendar_year_row year)) }
    {
        self.add(TableName::CalendarYears, params![year])
    }

    fn add_holiday(&mut self, year: u32, day: Day) -> Result<(), StoreFault>
        ensures call { Writes S.Store self.old self.new result (adding Holidays
            (holiday_row year day)) }
    {
        self.add(TableName::Holidays, params![StoredDay(day), year])
    }

    /// Gives the year's calendar: the year itself, and its holidays. `Failed` where the year or one
    /// of the days is there already.
    pub fn add_calendar(&mut self, year: u32, days: &[Day]) -> Result<(), StoreFault>
        ensures call { Writes S.Store self.old self.new result (with_calendar year days.now) }
    {
        self.add_calendar_year(year)?;
        for day in days {
            self.add_holiday(year, *day)?;
        }
        Ok(())
    }

    /// The holidays that were added to the year after its calendar was given, rising.
    pub fn added_holidays(&mut self, alloc: Global, year: u32) -> Result<Vec<Day>, StoreFault>
        ensures call { Reads S.Store self.old self.new result (ListsAdded year) }
    {
        self.read_all(alloc, Reading::ListAddedHolidays, params![year])
    }

    /// Adds a holiday to its year. `Failed` where it was added before, and where the year's
    /// calendar was not given.
    pub fn add_added_holiday(&mut self, day: Day) -> Result<(), StoreFault>
        ensures call { Writes S.Store self.old self.new result (with_added_holiday day) }
    {
        let year = day.year();
        self.add(TableName::AddedHolidays, params![StoredDay(day), year])
    }
}

//! The holidays by which due dates are computed anew.

ghost use Rattle.std.specs.Prelude.{◌≤◌};
ghost use Rattle.ftd_days.specs.Calendar.{year_of};
ghost use Rattle.ftd_days.specs.Holidays.{holidays_of};
ghost use Rattle.ftd_store.specs.Frame.{Reads};
ghost use Rattle.ftd_posting.specs.Known.{KnowsHolidays};

use ftd_days::{Day, Holidays, LAST_YEAR};
use ftd_store::{StoreFault, Tx};
use sqlite::Alter;
use std::alloc::Global;

/// The holidays of the year of a day up to 2099, of the year before and of the year after. `Failed`
/// also where the rows are no calendars of these years.
pub(crate) fn holidays_about<S: Alter>(
    tx: &mut Tx<'_, S>,
    alloc: Global,
    day: Day,
) -> Result<Holidays, StoreFault>
    requires { year_of day ≤ LAST_YEAR }
    ensures call { Reads S.Store tx.old tx.new result
        (λ holidays. KnowsHolidays day (holidays_of holidays)) }
{
    let year = day.year();
    let mut holidays = Holidays::new(alloc);
    tx.add_holidays(alloc, year - 1, &mut holidays)?;
    tx.add_holidays(alloc, year, &mut holidays)?;
    tx.add_holidays(alloc, year + 1, &mut holidays)?;
    Ok(holidays)
}

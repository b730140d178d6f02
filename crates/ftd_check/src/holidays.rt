//! The holidays in force.

ghost use Rattle.ftd_days.specs.Holidays.{holidays_of};
ghost use Rattle.ftd_store.specs.Frame.{Reads};
ghost use Rattle.ftd_check.specs.Holidays.{KnowsAll};

use ftd_days::{FIRST_YEAR, Holidays, LAST_YEAR};
use ftd_store::{StoreFault, Tx};
use sqlite::Alter;
use std::alloc::Global;

/// The holidays of all years. `Err` says that a call of the transaction failed, that the rows of a
/// year are no calendar of it, or that memory ran out.
pub(crate) fn all_holidays<S: Alter>(
    tx: &mut Tx<'_, S>,
    alloc: Global,
) -> Result<Holidays, StoreFault>
    ensures call { Reads S.Store tx.old tx.new result
        (λ holidays. KnowsAll (holidays_of holidays)) }
{
    let mut holidays = Holidays::new(alloc);
    tx.add_holidays(alloc, FIRST_YEAR, &mut holidays)?;
    for year in FIRST_YEAR + 1..LAST_YEAR + 1 {
        tx.add_holidays(alloc, year, &mut holidays)?;
    }
    Ok(holidays)
}

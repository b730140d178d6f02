//! The correction of a total is entered, and what follows from it is followed: the lookback total
//! of the year in whose lookback period the total counts, and the years that open otherwise then.

ghost use Rattle.std.specs.Prelude.{◌≡◌, ◌≤◌, IfSome};
ghost use Rattle.ftd_store.specs.Amounts.{IsStorable};
ghost use Rattle.ftd_store.specs.Frame.{Rewrites, Writes};
ghost use Rattle.ftd_machine.specs.Requests.{year_of_period};
ghost use Rattle.ftd_machine.specs.Step.{first_day_of};
ghost use Rattle.ftd_posting.specs.Correcting.{EntersTotal, IsCountedIn, IsOnlyYearOf, unchanged};
ghost use Rattle.ftd_posting.specs.Correcting.{with_corrected};

use crate::books::days_from;
use ftd_days::{Day, FIRST_YEAR, LAST_OPEN_YEAR, Quarter};
use ftd_entries::lookback_total;
use ftd_machine::{Account, Difference, ReturnPeriod};
use ftd_repairs::correct_lookback;
use ftd_rules::{Obligations, YearLines};
use ftd_store::{Correction, StoreFault, Tx};
use sqlite::Alter;
use std::alloc::Global;

/// A correction of a total, and what rests on it.
#[derive(Clone, Copy)]
pub(crate) struct TotalCorrection {
    /// The quarter or the year whose total it is.
    pub period: ReturnPeriod,
    pub correction: Correction,
    /// The first day of the period.
    pub first: Day,
    /// The year in whose lookback period the total counts.
    pub year: u32,
    /// Whether that year of the account is open.
    pub is_open: bool,
}

/// The year in whose lookback period the quarter counts, and in that of no other: the next year for
/// the first and the second quarter of a year, and else the one after that.
fn year_counting(quarter: Quarter) -> u32
    ensures { IsOnlyYearOf quarter result }
{
    if quarter.number() <= 2 {
        quarter.year() + 1
    } else {
        quarter.year() + 2
    }
}

/// The year in whose lookback period the total of the period counts, and in that of no other.
pub(crate) fn year_counting_total(period: &ReturnPeriod) -> u32
    ensures { year_of_period period.now ≤ LAST_OPEN_YEAR → IsCountedIn period.now result }
{
    match period {
        ReturnPeriod::Quarter(quarter) => year_counting(*quarter),
        ReturnPeriod::Year(year) => year.saturating_add(2),
    }
}

/// The first day of the period, unless it is before 1900 or after 2199.
pub(crate) fn first_day(period: &ReturnPeriod) -> Option<Day>
    ensures { IfSome result (λ first. first ≡ first_day_of period.now) }
{
    match period {
        ReturnPeriod::Quarter(quarter) => Some(quarter.first()),
        ReturnPeriod::Year(year) => {
            let days = days_from(*year)?;
            Some(days.from)
        }
    }
}

/// Enters the correction of the total, beside those that were entered before.
fn enter<S: Alter>(
    tx: &mut Tx<'_, S>,
    name: &str,
    period: &ReturnPeriod,
    correction: Correction,
) -> Result<(), StoreFault>
    requires { IsStorable correction.cents }
    ensures call { Writes S.Store tx.old tx.new result
        (with_corrected name.now period.now correction) }
{
    match period {
        ReturnPeriod::Quarter(quarter) => tx.add_correction(name, *quarter, correction),
        ReturnPeriod::Year(year) => tx.add_year_correction(name, *year, correction),
    }
}

/// No obligation was removed, none was added, and no year is on another schedule.
fn unchanged(alloc: Global, first: Day) -> Difference
    ensures { result ≡ unchanged first }
{
    Difference {
        from: first,
        to: first,
        removed: Obligations::from_vec(Vec::new(alloc)),
        added: Obligations::from_vec(Vec::new(alloc)),
        years: YearLines::from_vec(Vec::new(alloc)),
    }
}

/// Enters the correction, and gives the year in whose lookback period the total counts, if it is
/// open, the lookback total that it has then. It answers how the account's obligations differ, and
/// where they do not, the first day of the quarter or the year whose total it is.
pub(crate) fn enter_and_follow<S: Alter>(
    tx: &mut Tx<'_, S>,
    alloc: Global,
    name: &str,
    account: Account,
    it: &TotalCorrection,
) -> Result<Difference, StoreFault>
    requires { IsStorable it.now.correction.cents }
    ensures call { Rewrites S.Store tx.old tx.new result
        (EntersTotal name.now account it.now.is_open it.now.first it.now.year
        (with_corrected name.now it.now.period it.now.correction)) }
{
    enter(tx, name, &it.period, it.correction)?;
    let is_open = it.is_open;
    let year = it.year;
    if !is_open || year < FIRST_YEAR || year > LAST_OPEN_YEAR {
        return Ok(unchanged(alloc, it.first));
    }
    let form = account.form;
    let Ok(total) = lookback_total(tx, alloc, name, account, year)? else {
        return tx.give_up(StoreFault::Failed);
    };
    correct_lookback(tx, alloc, name, form, it.first, year, total)
}

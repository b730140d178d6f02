//! The repair of an account's rows, fed from the tables or by day sums that are known.

ghost use Rattle.std.specs.Prelude.{IfOk};
ghost use Rattle.ftd_days.specs.Holidays.{holidays_of};
ghost use Rattle.ftd_buckets.specs.Histories.{MayBegin};
ghost use Rattle.ftd_store.specs.Frame.{Reads};
ghost use Rattle.ftd_repairs.specs.Repaired.{Repairs, RepairsBy};

use crate::windows::{known_sums, window_sums};
use ftd_buckets::{Next, Patch, Repair};
use ftd_days::{Day, Holidays};
use ftd_rules::{DaySum, Form, YearLine};
use ftd_store::{StoreFault, Tx};
use sqlite::Alter;
use std::alloc::Global;

/// What replaces the account's rows after a change of the runs of the day, by the day sums of each
/// window that is needed, and of no other day. The lines are those before the change, from the
/// day's year on.
pub(crate) fn repaired<S: Alter>(
    tx: &mut Tx<'_, S>,
    alloc: Global,
    account: &str,
    form: Form,
    lines: &[YearLine],
    holidays: &Holidays,
    day: Day,
) -> Result<Patch, StoreFault>
    requires { MayBegin day lines.now }
    ensures call { Reads S.Store tx.old tx.new result
        (Repairs account.now form day lines.now (holidays_of holidays.now)) }
{
    let (mut repair, mut window) = Repair::begin(form, alloc, lines, holidays, day);
    let mut total = 0;
    for _ in 0..100 {
        let read = window_sums(tx, alloc, account, window, total)?;
        total = read.total;
        match repair.feed(&read.sums) {
            Ok(Next::Done(patch)) => return Ok(patch),
            Ok(Next::Need(next, asked)) => {
                repair = next;
                window = asked;
            }
            Err(_) => return tx.give_up(StoreFault::Memory),
        }
    }
    tx.give_up(StoreFault::Failed)
}

/// What replaces the account's rows after a change of the runs of the day, by these day sums. The
/// lines are those before the change, from the day's year on. `Failed` where the sums of a window
/// that is needed do not rise, and where the amounts reach 60,000,000,000,000.00.
pub(crate) fn repaired_by(
    alloc: Global,
    form: Form,
    lines: &[YearLine],
    holidays: &Holidays,
    sums: &[DaySum],
    day: Day,
) -> Result<Patch, StoreFault>
    requires { MayBegin day lines.now }
    ensures { IfOk result (RepairsBy form day sums.now lines.now (holidays_of holidays.now)) }
{
    let (mut repair, mut window) = Repair::begin(form, alloc, lines, holidays, day);
    let mut total = 0;
    for _ in 0..100 {
        let known = known_sums(alloc, sums, window, total)?;
        total = known.total;
        match repair.feed(&known.sums)? {
            Next::Done(patch) => return Ok(patch),
            Next::Need(next, asked) => {
                repair = next;
                window = asked;
            }
        }
    }
    Err(StoreFault::Failed)
}

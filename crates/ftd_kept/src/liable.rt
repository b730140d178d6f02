//! The liability of a quarter by day, as Schedule B of Form 941 shows it.

ghost use Rattle.ftd_store.specs.Frame.{Calls};
ghost use Rattle.ftd_machine.specs.declared.requests.Question.TheVariants.{ScheduleB};
ghost use Rattle.ftd_machine.specs.declared.requests.Request.TheVariants.{Question};
ghost use Rattle.ftd_entries.specs.Words.{Serves};

use ftd_days::Quarter;
use ftd_entries::{is_open, known_account};
use ftd_machine::{AccountName, Answer, DaySums, Facts, LiabilityByDay, Reply, schedule_b_check};
use ftd_store::{StoreFault, Tx};
use sqlite::Alter;
use std::alloc::Global;

/// Tells the account's liability of the quarter, by each day that has any.
pub fn schedule_b<S: Alter>(
    tx: &mut Tx<'_, S>,
    alloc: Global,
    name: &str,
    quarter: Quarter,
) -> Result<Answer, StoreFault>
    ensures call { Calls S.Store tx.old tx.new result
        (Serves (Question (ScheduleB name.now quarter))) }
{
    let Ok(owner) = AccountName::copy_of(alloc, name) else {
        return tx.give_up(StoreFault::Memory);
    };
    let account = known_account(tx, alloc, name)?;
    let there = is_open(tx, alloc, name, quarter.year())?;
    if let Err(answer) = schedule_b_check(name, quarter, account, there) {
        return Ok(answer);
    }
    let sums = tx.day_sums(alloc, name, quarter.first(), quarter.last())?;
    Ok(Ok(Reply::Told(Facts::Days(LiabilityByDay {
        account: owner,
        quarter,
        sums: DaySums::from_vec(sums),
    }))))
}

//! The totals that the accounts reported are taken.

ghost use Rattle.ftd_store.specs.Amounts.{IsStorable};
ghost use Rattle.ftd_store.specs.Frame.{Calls, Reads, Writes};
ghost use Rattle.ftd_machine.specs.declared.requests.Request.TheVariants.{Enter};
ghost use Rattle.ftd_machine.specs.declared.requests.Entry.TheVariants as entry;
ghost use Rattle.ftd_entries.specs.Known.{FindsTotal, with_total_row};
ghost use Rattle.ftd_entries.specs.Words.{Serves};

use crate::accounts::known_account;
use ftd_days::Cents;
use ftd_machine::{Answer, Reply, ReturnPeriod, report_check};
use ftd_store::{StoreFault, Tx};
use sqlite::Alter;
use std::alloc::Global;

/// The total that an account first reported for a quarter or a year, in cents, if it did.
pub fn first_reported<S: Alter>(
    tx: &mut Tx<'_, S>,
    name: &str,
    period: &ReturnPeriod,
) -> Result<Option<Cents>, StoreFault>
    ensures call { Reads S.Store tx.old tx.new result (FindsTotal name.now period.now) }
{
    match period {
        ReturnPeriod::Quarter(quarter) => tx.reported_total(name, *quarter),
        ReturnPeriod::Year(year) => tx.reported_year_total(name, *year),
    }
}

/// Adds the total that an account reported for a quarter or a year, in cents.
fn add_total<S: Alter>(
    tx: &mut Tx<'_, S>,
    name: &str,
    period: &ReturnPeriod,
    cents: Cents,
) -> Result<(), StoreFault>
    requires { IsStorable cents }
    ensures call { Writes S.Store tx.old tx.new result (with_total_row name.now period.now cents) }
{
    match period {
        ReturnPeriod::Quarter(quarter) => tx.add_reported(name, *quarter, cents),
        ReturnPeriod::Year(year) => tx.add_reported_year(name, *year, cents),
    }
}

/// Takes the total that an account reported, in cents: for a quarter on Form 941, for a year on
/// Form 943.
pub fn report<S: Alter>(
    tx: &mut Tx<'_, S>,
    alloc: Global,
    name: &str,
    period: &ReturnPeriod,
    cents: Cents,
) -> Result<Answer, StoreFault>
    ensures call { Calls S.Store tx.old tx.new result
        (Serves (Enter (entry.Total name.now period.now cents))) }
{
    let account = known_account(tx, alloc, name)?;
    let reported = first_reported(tx, name, period)?;
    if let Err(answer) = report_check(name, period, cents, account, reported) {
        return Ok(answer);
    }
    add_total(tx, name, period, cents)?;
    Ok(Ok(Reply::Done))
}

//! The payments of an account: those for a quarter, and those that count for an obligation.

ghost use Rattle.ftd_store.specs.Frame.{Calls, Reads};
ghost use Rattle.ftd_machine.specs.declared.requests.KeptList.TheVariants as kept;
ghost use Rattle.ftd_machine.specs.declared.requests.Question.TheVariants as questions;
ghost use Rattle.ftd_machine.specs.declared.requests.Request.TheVariants.{Question};
ghost use Rattle.ftd_entries.specs.Words.{Serves};
ghost use Rattle.ftd_kept.specs.Payments.{KnowsPaymentsOf};

use crate::payment_rows::{told_for, told_payments};
use ftd_days::{Day, Quarter};
use ftd_entries::known_account;
use ftd_machine::{
    AccountName, Answer, Facts, KeptPayment, KeptPayments, KeptRows, Reply, kept_in_quarter_check,
};
use ftd_rules::Obligation;
use ftd_store::{StoreFault, Tx};
use sqlite::Alter;
use std::alloc::Global;

/// Tells the payments of an account for a day of the quarter. `Failed` also where they do not go on
/// by that day and number.
pub fn payments<S: Alter>(
    tx: &mut Tx<'_, S>,
    alloc: Global,
    name: &str,
    quarter: Quarter,
) -> Result<Answer, StoreFault>
    ensures call { Calls S.Store tx.old tx.new result
        (Serves (Question (questions.Kept (kept.Payments name.now quarter)))) }
{
    let Ok(owner) = AccountName::copy_of(alloc, name) else {
        return tx.give_up(StoreFault::Memory);
    };
    let account = known_account(tx, alloc, name)?;
    let found = tx.kept_payments(alloc, name, quarter.first(), quarter.last())?;
    let owed = tx.obligations(alloc, name, Day::first_of_month(0), quarter.last())?;
    if let Err(answer) = kept_in_quarter_check(name, quarter, account) {
        return Ok(answer);
    }
    match told_payments(alloc, &found, &owed) {
        Ok(rows) => Ok(Ok(Reply::Told(Facts::Kept(KeptRows::Payments {
            account: owner,
            quarter,
            rows: KeptPayments::from_vec(rows),
        })))),
        Err(fault) => tx.give_up(fault),
    }
}

/// The payments that count for an obligation of the account: those for its days that are not void,
/// by the day that they are for and number. `Failed` also where they do not go on so.
pub(crate) fn obligation_payments<S: Alter>(
    tx: &mut Tx<'_, S>,
    alloc: Global,
    name: &str,
    obligation: &Obligation,
) -> Result<Vec<KeptPayment>, StoreFault>
    ensures call { Reads S.Store tx.old tx.new result
        (λ rows. KnowsPaymentsOf name.now obligation.now rows.items) }
{
    let found = tx.kept_payments(alloc, name, obligation.first, obligation.last)?;
    match told_for(alloc, &found, obligation.first) {
        Ok(rows) => Ok(rows),
        Err(fault) => tx.give_up(fault),
    }
}

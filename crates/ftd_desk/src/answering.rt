//! Each question goes to its function.

ghost use Rattle.ftd_store.specs.Frame.{Calls};
ghost use Rattle.ftd_machine.specs.declared.requests.Question.TheVariants as questions;
ghost use Rattle.ftd_machine.specs.declared.requests.Request.TheVariants as requests;
ghost use Rattle.ftd_entries.specs.Words.{Serves};
ghost use Rattle.ftd_desk.specs.Shown.{Shows};

use ftd_kept::{
    accounts, explain, holidays, payments, reported_totals, runs, schedule_b, status,
    unapplied_money, years,
};
use ftd_machine::{Answer, KeptList, Question};
use ftd_questions::{agenda, due_list, owed_list};
use ftd_store::{StoreFault, Tx};
use sqlite::Alter;
use std::alloc::Global;

/// Answers a question within a transaction. `Memory` and `Failed` come in place of an answer where
/// there was no memory or the store failed.
pub(crate) fn ask<S: Alter>(
    tx: &mut Tx<'_, S>,
    alloc: Global,
    question: &Question,
) -> Result<Answer, StoreFault>
    ensures call { Calls S.Store tx.old tx.new result (Serves (requests.Question question.now)) }
    ensures shows { Calls S.Store tx.old tx.new result (λ answer before after t.
        Shows question.now answer t) }
{
    match question {
        Question::Status { account, day } => status(tx, alloc, account.as_str(), *day),
        Question::Explain { account, day } => explain(tx, alloc, account.as_str(), *day),
        Question::DueList {
            account,
            quarter,
            as_of,
        } => due_list(tx, alloc, account.as_str(), *quarter, *as_of),
        Question::ScheduleB { account, quarter } => {
            schedule_b(tx, alloc, account.as_str(), *quarter)
        }
        Question::Agenda { from, to, as_of } => agenda(tx, alloc, *from, *to, *as_of),
        Question::Owed { until, as_of } => owed_list(tx, alloc, *until, *as_of),
        Question::Unapplied { until } => unapplied_money(tx, alloc, *until),
        Question::Kept(asked) => kept(tx, alloc, asked),
    }
}

/// Tells what is kept, as far as it is asked for.
fn kept<S: Alter>(tx: &mut Tx<'_, S>, alloc: Global, asked: &KeptList) -> Result<Answer, StoreFault>
    ensures call { Calls S.Store tx.old tx.new result
        (Serves (requests.Question (questions.Kept asked.now))) }
{
    match asked {
        KeptList::Accounts => accounts(tx, alloc),
        KeptList::Years { account } => years(tx, alloc, account.as_str()),
        KeptList::Reported { account } => reported_totals(tx, alloc, account.as_str()),
        KeptList::Holidays { year } => holidays(tx, alloc, *year),
        KeptList::Runs { account, quarter } => runs(tx, alloc, account.as_str(), *quarter),
        KeptList::Payments { account, quarter } => payments(tx, alloc, account.as_str(), *quarter),
    }
}

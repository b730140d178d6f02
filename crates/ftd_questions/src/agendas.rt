//! What is due over all accounts, and what of it is not paid.

ghost use Rattle.std.specs.Prelude.{IfOk};
ghost use Rattle.std.specs.List.Sorted.{IsPermutation};
ghost use Rattle.ftd_rules.specs.Lists.{KeysDoNotFall};
ghost use Rattle.ftd_store.specs.Frame.{Calls};
ghost use Rattle.ftd_machine.specs.Agenda.{EachToLater, IsOwnBefore, ComesBefore, due_date_of};
ghost use Rattle.ftd_machine.specs.declared.requests.Question.TheVariants as questions;
ghost use Rattle.ftd_machine.specs.declared.requests.Request.TheVariants.{Question};
ghost use Rattle.ftd_entries.specs.Words.{Serves};
ghost use Rattle.ftd_questions.specs.Shown.{ShowsAgenda, ShowsOwed};

use crate::agenda_rows::rows_due;
use ftd_days::Day;
use ftd_machine::{
    Agenda, AgendaRow, AgendaRows, Answer, Facts, OwedList, Reply, agenda_check, owed_check,
};
use ftd_store::{StoreFault, Tx};
use sqlite::Alter;
use std::alloc::{AllocError, Global};

/// The rows by due date, and of one due date by account and first day, where they are given so.
fn by_due_date(rows: Vec<AgendaRow>) -> Result<Vec<AgendaRow>, AllocError>
    ensures same { IfOk result (λ sorted. IsPermutation rows.items sorted.items) }
    ensures by_due_date { IfOk result (λ sorted. KeysDoNotFall due_date_of sorted.items) }
    ensures in_order { IfOk result (λ sorted. EachToLater IsOwnBefore rows.items
        → EachToLater ComesBefore sorted.items) }
{
    let mut rows = rows;
    rows.sort_by_key(|row| row.row.obligation.due)?;
    Ok(rows)
}

/// Tells what is due between the days, both included, over all accounts, as of a day. They are the
/// rows of the tables as they stand, whatever else these hold. They are read before the days are
/// checked, as what is known of an account is for the other questions.
pub fn agenda<S: Alter>(
    tx: &mut Tx<'_, S>,
    alloc: Global,
    from: Day,
    to: Day,
    as_of: Day,
) -> Result<Answer, StoreFault>
    ensures call { Calls S.Store tx.old tx.new result
        (Serves (Question (questions.Agenda from to as_of))) }
    ensures shows { Calls S.Store tx.old tx.new result (λ answer before after t.
        ShowsAgenda from to answer t) }
{
    let rows = rows_due(tx, alloc, from, to, as_of, None)?;
    if let Err(answer) = agenda_check(from, to, as_of) {
        return Ok(answer);
    }
    match by_due_date(rows) {
        Ok(rows) => Ok(Ok(Reply::Told(Facts::Agenda(Agenda {
            from,
            to,
            as_of,
            rows: AgendaRows::from_vec(rows),
        })))),
        Err(_) => tx.give_up(StoreFault::Memory),
    }
}

/// Tells what is due until the day, over all accounts, and not paid as of a day. They are the rows
/// of the tables as they stand, whatever else these hold.
pub fn owed_list<S: Alter>(
    tx: &mut Tx<'_, S>,
    alloc: Global,
    until: Day,
    as_of: Day,
) -> Result<Answer, StoreFault>
    ensures call { Calls S.Store tx.old tx.new result
        (Serves (Question (questions.Owed until as_of))) }
    ensures shows { Calls S.Store tx.old tx.new result (λ answer before after t.
        ShowsOwed until as_of answer t) }
{
    let from = Day::first_of_month(0);
    let rows = rows_due(tx, alloc, from, until, as_of, Some(as_of))?;
    if let Err(answer) = owed_check(until, as_of) {
        return Ok(answer);
    }
    match by_due_date(rows) {
        Ok(rows) => Ok(Ok(Reply::Told(Facts::Owed(OwedList {
            until,
            as_of,
            rows: AgendaRows::from_vec(rows),
        })))),
        Err(_) => tx.give_up(StoreFault::Memory),
    }
}

//! What must be deposited for a quarter, and how it stands as of a day.

ghost use Rattle.std.specs.Prelude.{◌≡◌, ◌≤◌, IfOk};
ghost use Rattle.ftd_days.specs.Calendar.{quarter_year};
ghost use Rattle.ftd_store.specs.Frame.{Calls, Reads};
ghost use Rattle.ftd_machine.specs.declared.requests.Question.TheVariants as questions;
ghost use Rattle.ftd_machine.specs.declared.requests.Request.TheVariants.{Question};
ghost use Rattle.ftd_entries.specs.Words.{Serves};
ghost use Rattle.ftd_questions.specs.DueRows.{KnowsForDue, KnowsYears};
ghost use Rattle.ftd_questions.specs.Shown.{KnowsQuarter, ShowsList};

use crate::due_rows::{due_rows, has_next_day, quarter_return};
use ftd_days::{Day, FIRST_YEAR, Holidays, LAST_OPEN_YEAR, Quarter};
use ftd_entries::{is_open, known_account, return_period};
use ftd_machine::{Account, AccountName, Answer, DueList, DueRows, Facts, Reply, due_list_check};
use ftd_rules::{DueRow, Form};
use ftd_store::{StoreFault, Tx};
use sqlite::Alter;
use std::alloc::Global;

/// What is known of an account before its due list of a quarter is told.
#[derive(Drop)]
pub(crate) struct KnownForDue {
    /// The account, if it is enrolled.
    pub account: Option<Account>,
    /// Whether the year of the quarter is open.
    pub is_open: bool,
}

/// The rows of an account's due list of a quarter, and when the return of the quarter is due.
#[derive(Drop)]
pub(crate) struct QuarterRows {
    /// The due date of the return.
    pub return_due: Day,
    /// The rows.
    pub rows: Vec<DueRow>,
    /// The holidays that they rest on.
    pub holidays: Holidays,
}

/// What is known of an account before its due list of the quarter is told.
pub(crate) fn known_for_due<S: Alter>(
    tx: &mut Tx<'_, S>,
    alloc: Global,
    name: &str,
    quarter: Quarter,
) -> Result<KnownForDue, StoreFault>
    ensures call { Reads S.Store tx.old tx.new result (KnowsForDue name.now quarter) }
{
    let account = known_account(tx, alloc, name)?;
    let is_open = is_open(tx, alloc, name, quarter.year())?;
    Ok(KnownForDue { account, is_open })
}

/// The rows of the account's due list, and when the return is due, by what the tables have and the
/// holidays of the year of the quarter and of the next. `Failed` also where they are not those of a
/// desk.
pub(crate) fn rows_of_quarter<S: Alter>(
    tx: &mut Tx<'_, S>,
    alloc: Global,
    name: &str,
    form: Form,
    quarter: Quarter,
    as_of: Day,
    holidays: Holidays,
) -> Result<QuarterRows, StoreFault>
    requires from { FIRST_YEAR ≤ quarter_year quarter }
    requires to { quarter_year quarter ≤ LAST_OPEN_YEAR }
    ensures call { Reads S.Store tx.old tx.new result (λ found t.
        KnowsYears quarter holidays t → KnowsQuarter name.now form quarter as_of found t) }
    ensures same { IfOk result (λ found. found.holidays ≡ holidays) }
{
    let period = return_period(tx, alloc, name, form, quarter)?;
    let obligations = tx.obligations(alloc, name, period.first, period.last)?;
    let next_day = has_next_day(&obligations);
    let of_return = quarter_return(form, quarter, next_day, period, holidays);
    match due_rows(alloc, quarter, as_of, &of_return, &obligations) {
        Ok(rows) => Ok(QuarterRows {
            return_due: of_return.due,
            rows,
            holidays: of_return.holidays,
        }),
        Err(fault) => tx.give_up(fault),
    }
}

/// Tells the account's obligations that begin in the quarter, by first day, each with its makeup
/// date, what was paid for it by the day, and how it stands as of the day. They are the rows of the
/// tables as they stand, whatever else these hold.
pub fn due_list<S: Alter>(
    tx: &mut Tx<'_, S>,
    alloc: Global,
    name: &str,
    quarter: Quarter,
    as_of: Day,
) -> Result<Answer, StoreFault>
    ensures call { Calls S.Store tx.old tx.new result
        (Serves (Question (questions.DueList name.now quarter as_of))) }
    ensures shows { Calls S.Store tx.old tx.new result (λ answer before after t.
        ShowsList name.now quarter answer t) }
{
    let Ok(owner) = AccountName::copy_of(alloc, name) else {
        return tx.give_up(StoreFault::Memory);
    };
    let before = known_for_due(tx, alloc, name, quarter)?;
    let checked = due_list_check(name, quarter, as_of, before.account, before.is_open);
    let form = match checked {
        Ok(account) => account.form,
        Err(answer) => return Ok(answer),
    };
    let year = quarter.year();
    let holidays = tx.holidays(alloc, year, year + 1)?;
    let found = rows_of_quarter(tx, alloc, name, form, quarter, as_of, holidays)?;
    Ok(Ok(Reply::Told(Facts::Due(DueList {
        account: owner,
        quarter,
        as_of,
        rows: DueRows::from_vec(found.rows),
    }))))
}

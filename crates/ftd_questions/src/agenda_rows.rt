//! What is due between two days, over all accounts, by what the tables have: the rows, by account
//! and first day.

ghost use Rattle.std.specs.Prelude.{◌≡◌, ◌≤◌, IfOk, IfSome, IsTrue, OnOk, Some};
ghost use Rattle.std.specs.Prelude.{string_bytes};
ghost use Rattle.ftd_days.specs.Calendar.{quarter_of, quarter_year};
ghost use Rattle.ftd_rules.specs.Lists.{Has};
ghost use Rattle.ftd_sql.specs.Standing.{Tables};
ghost use Rattle.ftd_store.specs.Frame.{Reads};
ghost use Rattle.ftd_entries.specs.Known.{KnowsAccount};
ghost use Rattle.ftd_questions.specs.Agendas.{day_for, KnowsList, KnowsLast, IsLast, IsRowOf};
ghost use Rattle.ftd_questions.specs.Agendas.{AddsRow, KnowsLastYears, KnowsRowsDue};
ghost use Rattle.ftd_questions.specs.DueRows.{KnowsYears};

use crate::due::{QuarterRows, rows_of_quarter};
use crate::listing::due_between;
use ftd_days::{Day, FIRST_YEAR, Holidays, LAST_OPEN_YEAR, Quarter};
use ftd_entries::known_account;
use ftd_machine::{Account, AccountName, AgendaRow};
use ftd_rules::period::return_period;
use ftd_rules::{DueRow, Form, Obligation, Verdict};
use ftd_store::{AccountObligation, StoreFault, Tx};
use sqlite::Alter;
use std::alloc::Global;

/// An account's due list of a quarter, with what a row of an agenda has besides.
#[derive(Drop)]
pub(crate) struct AccountList {
    /// The account's form.
    pub form: Form,
    /// The due date of the quarter's return.
    pub return_due: Day,
    /// The rows of the due list.
    pub rows: Vec<DueRow>,
}

/// A due list, and whose it is.
#[derive(Drop)]
pub(crate) struct QuarterList {
    /// The account.
    pub account: String,
    /// The quarter.
    pub quarter: Quarter,
    /// Its due list.
    pub list: AccountList,
    /// The holidays of the year of the quarter and of the next.
    pub holidays: Holidays,
}

/// The row of the obligation.
fn row_from(rows: &[DueRow], obligation: &Obligation) -> Option<DueRow>
    ensures { IfSome result (λ row. Has rows.now row × (row.obligation ≡ obligation.now)) }
{
    for row in rows {
        if row.obligation == *obligation {
            return Some(*row);
        }
    }
    None
}

/// The day by which to pay what is left of a row on a list, as of a day. A deposit that may be paid
/// with its return is paid by its own due date until the return period is over.
fn day_to_pay(row: &DueRow, list: &AccountList, as_of: Day) -> Day
    ensures { result ≡ day_for row.now.verdict row.now list.now as_of }
{
    match row.verdict {
        Verdict::Met | Verdict::Open | Verdict::MadeUp | Verdict::Late => row.obligation.due,
        Verdict::WithReturn => {
            let (_, last) = return_period(list.form, row.obligation.first);
            if last < as_of {
                list.return_due
            } else {
                row.obligation.due
            }
        }
        Verdict::Short => row.makeup,
    }
}

/// The holidays of the due list that was read last, where it is one of the year of the quarter.
fn last_years(last: Option<QuarterList>, quarter: Quarter) -> Option<Holidays>
    ensures { IfSome result (λ holidays. (t : Tables) → KnowsLastYears last t
        → KnowsYears quarter holidays t) }
{
    let last = last?;
    if last.quarter.year() == quarter.year() {
        Some(last.holidays)
    } else {
        None
    }
}

/// The account, and the holidays of the year of the quarter and of the next, which are those of the
/// due list that was read last where it is one of that year. `Failed` also where the account is not
/// enrolled.
fn account_and_years<S: Alter>(
    tx: &mut Tx<'_, S>,
    alloc: Global,
    name: &str,
    quarter: Quarter,
    last: Option<QuarterList>,
) -> Result<(Account, Holidays), StoreFault>
    requires { quarter_year quarter ≤ LAST_OPEN_YEAR }
    ensures call { Reads S.Store tx.old tx.new result (λ found t.
        KnowsAccount name.now (Some found.0) t
        × (KnowsLastYears last t → KnowsYears quarter found.1 t)) }
{
    let Some(account) = known_account(tx, alloc, name)? else {
        return tx.give_up(StoreFault::Failed);
    };
    if let Some(holidays) = last_years(last, quarter) {
        return Ok((account, holidays));
    }
    let year = quarter.year();
    let holidays = tx.holidays(alloc, year, year + 1)?;
    Ok((account, holidays))
}

/// The account's due list of the quarter, and the holidays that it rests on. `Failed` also where
/// the account is not enrolled, and where the quarter is not one of 2001 to 2098.
fn list_of<S: Alter>(
    tx: &mut Tx<'_, S>,
    alloc: Global,
    name: &str,
    quarter: Quarter,
    as_of: Day,
    last: Option<QuarterList>,
) -> Result<(AccountList, Holidays), StoreFault>
    ensures call { Reads S.Store tx.old tx.new result (λ found t. KnowsLastYears last t
        → KnowsList name.now quarter as_of found.0 t × KnowsYears quarter found.1 t) }
{
    if quarter.year() < FIRST_YEAR || quarter.year() > LAST_OPEN_YEAR {
        return tx.give_up(StoreFault::Failed);
    }
    let (account, years) = account_and_years(tx, alloc, name, quarter, last)?;
    let form = account.form;
    let QuarterRows {
        return_due,
        rows,
        holidays,
    } = rows_of_quarter(tx, alloc, name, form, quarter, as_of, years)?;
    let list = AccountList {
        form,
        return_due,
        rows,
    };
    Ok((list, holidays))
}

/// The due list that the obligation of an account is on, where this one was read last. `Failed`
/// also where there is none.
fn its_list<S: Alter>(
    tx: &mut Tx<'_, S>,
    alloc: Global,
    owed: &AccountObligation,
    as_of: Day,
    last: Option<QuarterList>,
) -> Result<Option<QuarterList>, StoreFault>
    ensures call { Reads S.Store tx.old tx.new result
        (λ its t. KnowsLastYears last t → KnowsLast as_of its t × KnowsLastYears its t) }
    ensures is { IfOk result (λ its. IsLast owed.now its) }
{
    let account: &str = &owed.account;
    let quarter = owed.obligation.first.quarter();
    let (list, holidays) = list_of(tx, alloc, account, quarter, as_of, last)?;
    match String::from_str(alloc, account) {
        Ok(account) => Ok(Some(QuarterList {
            account,
            quarter,
            list,
            holidays,
        })),
        Err(_) => tx.give_up(StoreFault::Memory),
    }
}

/// Whether the list is the one that the obligation of an account is on.
fn is_last(last: &Option<QuarterList>, owed: &AccountObligation) -> bool
    ensures { IsTrue result → IsLast owed.now last.now }
{
    match last {
        Some(last) => {
            last.account == owed.account && last.quarter == owed.obligation.first.quarter()
        }
        None => false,
    }
}

/// The row of the obligation of an account on the list, as of a day. `Failed` where it has none,
/// and `Memory` where there was no memory.
fn agenda_row(
    alloc: Global,
    owed: &AccountObligation,
    list: &AccountList,
    as_of: Day,
) -> Result<AgendaRow, StoreFault>
    ensures { IfOk result (λ row. IsRowOf owed.now list.now as_of row) }
{
    let Some(row) = row_from(&list.rows, &owed.obligation) else {
        return Err(StoreFault::Failed);
    };
    let account = String::from_str(alloc, &owed.account)?;
    Ok(AgendaRow {
        account: AccountName::from_string(account),
        form: list.form,
        row,
        pay_by: day_to_pay(&row, list, as_of),
    })
}

/// Adds the row of the obligation of an account on the list, as of a day. The faults are those of
/// `agenda_row`; then the rows are as they were.
fn add_row(
    alloc: Global,
    owed: &AccountObligation,
    last: &Option<QuarterList>,
    as_of: Day,
    rows: &mut Vec<AgendaRow>,
) -> Result<(), StoreFault>
    ensures { OnOk result (AddsRow owed.now last.now as_of rows.old.items rows.new.items) }
{
    let Some(last) = last else {
        return Err(StoreFault::Failed);
    };
    rows.push(agenda_row(alloc, owed, &last.list, as_of)?)?;
    Ok(())
}

/// The rows of what is due between the days, both included, as of a day, by account and first day;
/// without what is paid in full as of another day, where one is given.
pub(crate) fn rows_due<S: Alter>(
    tx: &mut Tx<'_, S>,
    alloc: Global,
    from: Day,
    to: Day,
    as_of: Day,
    unpaid: Option<Day>,
) -> Result<Vec<AgendaRow>, StoreFault>
    ensures call { Reads S.Store tx.old tx.new result
        (λ rows. KnowsRowsDue unpaid from to as_of rows.items) }
{
    let listed = due_between(tx, alloc, from, to, unpaid)?;
    let mut rows: Vec<AgendaRow> = Vec::new(alloc);
    let mut last: Option<QuarterList> = None;
    for owed in &listed {
        if !is_last(&last, owed) {
            last = its_list(tx, alloc, owed, as_of, last)?;
        }
        if let Err(fault) = add_row(alloc, owed, &last, as_of, &mut rows) {
            return tx.give_up(fault);
        }
    }
    Ok(rows)
}

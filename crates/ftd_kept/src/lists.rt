//! What is kept, by what the tables have.

ghost use Rattle.ftd_store.specs.Frame.{Calls, Reads};
ghost use Rattle.ftd_machine.specs.declared.requests.KeptList.TheVariants as kept;
ghost use Rattle.ftd_machine.specs.declared.requests.Question.TheVariants as questions;
ghost use Rattle.ftd_machine.specs.declared.requests.Request.TheVariants.{Question};
ghost use Rattle.ftd_entries.specs.Words.{Serves};
ghost use Rattle.ftd_kept.specs.Kept.{IsInForce, KnowsFirstTotals, KnowsTotals};

use crate::holiday_rows::all_holidays;
use crate::rows::{add_row, told_quarters, told_runs, told_years};
use crate::year_rows::open_years;
use ftd_days::Quarter;
use ftd_entries::{all_accounts, figure, known_account};
use ftd_machine::{
    AccountName, Answer, Facts, KeptAccounts, KeptHolidays, KeptRows, KeptRuns, KeptTotal,
    KeptTotals, KeptYears, Refusal, Reply, holidays_check, kept_in_quarter_check, kept_of_check,
};
use ftd_rules::Form;
use ftd_store::{StoreFault, Tx};
use sqlite::Alter;
use std::alloc::Global;

/// Tells all accounts, by name.
pub fn accounts<S: Alter>(tx: &mut Tx<'_, S>, alloc: Global) -> Result<Answer, StoreFault>
    ensures call { Calls S.Store tx.old tx.new result
        (Serves (Question (questions.Kept kept.Accounts))) }
{
    let rows = all_accounts(tx, alloc)?;
    Ok(Ok(Reply::Told(Facts::Kept(KeptRows::Accounts {
        rows: KeptAccounts::from_vec(rows),
    }))))
}

/// Tells the open years of an account, by year.
pub fn years<S: Alter>(tx: &mut Tx<'_, S>, alloc: Global, name: &str) -> Result<Answer, StoreFault>
    ensures call { Calls S.Store tx.old tx.new result
        (Serves (Question (questions.Kept (kept.Years name.now)))) }
{
    let Ok(owner) = AccountName::copy_of(alloc, name) else {
        return tx.give_up(StoreFault::Memory);
    };
    let found = known_account(tx, alloc, name)?;
    let account = match kept_of_check(name, found) {
        Ok(account) => account,
        Err(answer) => return Ok(answer),
    };
    let rows = open_years(tx, alloc, name, &account)?;
    Ok(Ok(Reply::Told(Facts::Kept(KeptRows::Years {
        account: owner,
        rows: KeptYears::from_vec(rows),
    }))))
}

/// The totals that an account on this form reported, as they were first given. `Failed` also where
/// they do not go on by quarter or year.
fn first_totals<S: Alter>(
    tx: &mut Tx<'_, S>,
    alloc: Global,
    name: &str,
    form: Form,
) -> Result<Vec<KeptTotal>, StoreFault>
    ensures call { Reads S.Store tx.old tx.new result
        (λ rows. KnowsFirstTotals name.now form rows.items) }
{
    let quarters = tx.reported_totals(alloc, name)?;
    let years = tx.reported_year_totals(alloc, name)?;
    let told = match form {
        Form::F941 => told_quarters(alloc, &quarters),
        Form::F943 => told_years(alloc, &years),
    };
    match told {
        Ok(rows) => Ok(rows),
        Err(fault) => tx.give_up(fault),
    }
}

/// A total as it is in force, and as it was first reported. `Failed` also where none was reported.
fn total_in_force<S: Alter>(
    tx: &mut Tx<'_, S>,
    alloc: Global,
    name: &str,
    total: &KeptTotal,
) -> Result<KeptTotal, StoreFault>
    ensures call { Reads S.Store tx.old tx.new result
        (λ told t. IsInForce name.now t total.now told) }
{
    let Some(cents) = figure(tx, alloc, name, total.period)? else {
        return tx.give_up(StoreFault::Failed);
    };
    Ok(KeptTotal {
        period: total.period,
        cents,
        first: total.first,
    })
}

/// The totals that an account on this form reported, as they are in force and as they were first
/// reported. `Failed` also where they do not go on by quarter or year.
fn totals<S: Alter>(
    tx: &mut Tx<'_, S>,
    alloc: Global,
    name: &str,
    form: Form,
) -> Result<Vec<KeptTotal>, StoreFault>
    ensures call { Reads S.Store tx.old tx.new result
        (λ rows. KnowsTotals name.now form rows.items) }
{
    let first = first_totals(tx, alloc, name, form)?;
    let mut totals: Vec<KeptTotal> = Vec::new(alloc);
    for total in &first {
        let told = total_in_force(tx, alloc, name, total)?;
        if let Err(fault) = add_row(told, &mut totals) {
            return tx.give_up(fault);
        }
    }
    Ok(totals)
}

/// Tells the totals that an account reported.
pub fn reported_totals<S: Alter>(
    tx: &mut Tx<'_, S>,
    alloc: Global,
    name: &str,
) -> Result<Answer, StoreFault>
    ensures call { Calls S.Store tx.old tx.new result
        (Serves (Question (questions.Kept (kept.Reported name.now)))) }
{
    let Ok(owner) = AccountName::copy_of(alloc, name) else {
        return tx.give_up(StoreFault::Memory);
    };
    let found = known_account(tx, alloc, name)?;
    let account = match kept_of_check(name, found) {
        Ok(account) => account,
        Err(answer) => return Ok(answer),
    };
    let rows = totals(tx, alloc, name, account.form)?;
    Ok(Ok(Reply::Told(Facts::Kept(KeptRows::Reported {
        account: owner,
        rows: KeptTotals::from_vec(rows),
    }))))
}

/// Tells the days of a year that were given or added as holidays: those that its calendar was given
/// with, and then those that were added to it. `Failed` also where the latter do not rise.
pub fn holidays<S: Alter>(
    tx: &mut Tx<'_, S>,
    alloc: Global,
    year: u32,
) -> Result<Answer, StoreFault>
    ensures call { Calls S.Store tx.old tx.new result
        (Serves (Question (questions.Kept (kept.Holidays year)))) }
{
    let given = tx.calendar(alloc, year)?;
    if let Err(answer) = holidays_check(year, given.is_some()) {
        return Ok(answer);
    }
    let Some(days) = given else {
        return Ok(Err(Refusal::CalendarMissing(year)));
    };
    let rows = all_holidays(tx, alloc, year, &days)?;
    Ok(Ok(Reply::Told(Facts::Kept(KeptRows::Holidays {
        year,
        rows: KeptHolidays::from_vec(rows),
    }))))
}

/// Tells the runs of an account with a payday in the quarter. `Failed` also where they do not go on
/// by payday and number.
pub fn runs<S: Alter>(
    tx: &mut Tx<'_, S>,
    alloc: Global,
    name: &str,
    quarter: Quarter,
) -> Result<Answer, StoreFault>
    ensures call { Calls S.Store tx.old tx.new result
        (Serves (Question (questions.Kept (kept.Runs name.now quarter)))) }
{
    let Ok(owner) = AccountName::copy_of(alloc, name) else {
        return tx.give_up(StoreFault::Memory);
    };
    let account = known_account(tx, alloc, name)?;
    let found = tx.kept_runs(alloc, name, quarter.first(), quarter.last())?;
    if let Err(answer) = kept_in_quarter_check(name, quarter, account) {
        return Ok(answer);
    }
    match told_runs(alloc, &found) {
        Ok(rows) => Ok(Ok(Reply::Told(Facts::Kept(KeptRows::Runs {
            account: owner,
            quarter,
            rows: KeptRuns::from_vec(rows),
        })))),
        Err(fault) => tx.give_up(fault),
    }
}

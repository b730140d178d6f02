//! The rows of one account.

ghost use Rattle.std.specs.Prelude.{◌≡◌};
ghost use Rattle.ftd_store.specs.Frame.{Reads};
ghost use Rattle.ftd_check.specs.OwnRows.{ReadsOwn};
ghost use Rattle.ftd_check.specs.Private.Groups.{ReadsBegun, ReadsQuarters, ReadsYears};
ghost use Rattle.ftd_check.specs.Private.Groups.{ReadsPosted, ReadsEntered, own_of};

use crate::parts::{
    Begun, Posted, Quarters, Years, account_begun, numbers_posted, quarter_totals, year_totals,
};
use crate::values::years_of;
use ftd_rules::Obligation;
use ftd_sound::Own;
use ftd_store::{Account, StoreFault, StoredYear, Tx};
use sqlite::Alter;
use std::alloc::{AllocError, Global};

/// What was read of one account: what is kept of it, and the rows that follow from that, in the
/// order in which they were added.
#[derive(Drop)]
pub(crate) struct OwnRows {
    /// What is kept of the account.
    pub(crate) own: Own,
    /// The rows of its open years.
    pub(crate) years: Vec<StoredYear>,
    /// Its obligations.
    pub(crate) obligations: Vec<Obligation>,
}

/// The account by its row and its form, and how it begins by its corrections. None where its rows
/// are those of no entries that requests may have entered.
fn read_begun<S: Alter>(
    tx: &mut Tx<'_, S>,
    alloc: Global,
    name: &str,
    account: Account,
) -> Result<Option<Begun>, StoreFault>
    ensures call { Reads S.Store tx.old tx.new result (ReadsBegun name.now account) }
{
    let Some(forms) = tx.forms_by_row(alloc, name)? else {
        return Ok(None);
    };
    let Some(corrections) = tx.account_corrections_by_row(alloc, name)? else {
        return Ok(None);
    };
    match account_begun(alloc, account, &forms, &corrections) {
        Ok(found) => Ok(found),
        Err(AllocError) => tx.give_up(StoreFault::Memory),
    }
}

/// The totals of quarters. None where the account's rows are those of no entries that requests may
/// have entered.
fn read_quarters<S: Alter>(
    tx: &mut Tx<'_, S>,
    alloc: Global,
    name: &str,
) -> Result<Option<Quarters>, StoreFault>
    ensures call { Reads S.Store tx.old tx.new result (ReadsQuarters name.now) }
{
    let Some(reported) = tx.reported_by_row(alloc, name)? else {
        return Ok(None);
    };
    let Some(corrected) = tx.corrections_by_row(alloc, name)? else {
        return Ok(None);
    };
    match quarter_totals(alloc, &reported, &corrected) {
        Ok(found) => Ok(found),
        Err(AllocError) => tx.give_up(StoreFault::Memory),
    }
}

/// The totals of years. None where the account's rows are those of no entries that requests may
/// have entered.
fn read_years<S: Alter>(
    tx: &mut Tx<'_, S>,
    alloc: Global,
    name: &str,
) -> Result<Option<Years>, StoreFault>
    ensures call { Reads S.Store tx.old tx.new result (ReadsYears name.now) }
{
    let Some(reported) = tx.reported_years_by_row(alloc, name)? else {
        return Ok(None);
    };
    let Some(corrected) = tx.year_corrections_by_row(alloc, name)? else {
        return Ok(None);
    };
    match year_totals(alloc, &reported, &corrected) {
        Ok(found) => Ok(found),
        Err(AllocError) => tx.give_up(StoreFault::Memory),
    }
}

/// The runs and the payments. None where the account's rows are those of no entries that requests
/// may have entered.
fn read_posted<S: Alter>(
    tx: &mut Tx<'_, S>,
    alloc: Global,
    name: &str,
) -> Result<Option<Posted>, StoreFault>
    ensures call { Reads S.Store tx.old tx.new result (ReadsPosted name.now) }
{
    let Some(runs) = tx.runs_by_row(alloc, name)? else {
        return Ok(None);
    };
    let Some(payments) = tx.payments_by_row(alloc, name)? else {
        return Ok(None);
    };
    match numbers_posted(alloc, &runs, &payments) {
        Ok(posted) => Ok(Some(posted)),
        Err(AllocError) => tx.give_up(StoreFault::Memory),
    }
}

/// What is kept of the account, whose open years are these. None where its rows are those of no
/// entries that requests may have entered.
fn read_own<S: Alter>(
    tx: &mut Tx<'_, S>,
    alloc: Global,
    name: &str,
    account: Account,
    open_years: Vec<u32>,
) -> Result<Option<Own>, StoreFault>
    ensures call { Reads S.Store tx.old tx.new result
        (ReadsEntered name.now account open_years.items) }
{
    let Some(begun) = read_begun(tx, alloc, name, account)? else {
        return Ok(None);
    };
    let Some(quarters) = read_quarters(tx, alloc, name)? else {
        return Ok(None);
    };
    let Some(years) = read_years(tx, alloc, name)? else {
        return Ok(None);
    };
    let Some(posted) = read_posted(tx, alloc, name)? else {
        return Ok(None);
    };
    Ok(Some(own_of(open_years, begun, quarters, years, posted)))
}

/// What is kept of an account, by its parts.
fn own_of(
    open_years: Vec<u32>,
    begun: Begun,
    quarters: Quarters,
    years: Years,
    posted: Posted,
) -> Own
    ensures { result ≡ own_of open_years begun quarters years posted }
{
    Own {
        account: begun.account,
        moves: begun.moves,
        reported: quarters.reported,
        corrected: quarters.corrected,
        reported_years: years.reported,
        corrected_years: years.corrected,
        open_years,
        runs: posted.runs,
        payments: posted.payments,
    }
}

/// The rows of the account of the name, whose own row says that it begins so. None where they are
/// those of no entries that requests may have entered: one shows no value, the account does not
/// have one form, or the numbers of corrections do not count from 1. `Memory` where there was no
/// memory, and `Failed` where the store failed.
pub(crate) fn own_rows<S: Alter>(
    tx: &mut Tx<'_, S>,
    alloc: Global,
    name: &str,
    account: Account,
) -> Result<Option<OwnRows>, StoreFault>
    ensures call { Reads S.Store tx.old tx.new result (ReadsOwn name.now account) }
{
    let Some(years) = tx.years_by_row(alloc, name)? else {
        return Ok(None);
    };
    let Some(obligations) = tx.obligations_by_row(alloc, name)? else {
        return Ok(None);
    };
    let Ok(open_years) = years_of(alloc, &years) else {
        return tx.give_up(StoreFault::Memory);
    };
    let Some(own) = read_own(tx, alloc, name, account, open_years)? else {
        return Ok(None);
    };
    Ok(Some(OwnRows {
        own,
        years,
        obligations,
    }))
}

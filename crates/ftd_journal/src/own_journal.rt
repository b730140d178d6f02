//! The journal of one account.

ghost use Rattle.std.specs.Prelude.{[]};
ghost use Rattle.ftd_store.specs.Frame.{Reads};
ghost use Rattle.ftd_journal.specs.Parts.{AddsPart, KnowsJournal, entries_part, figures_part};
ghost use Rattle.ftd_journal.specs.Parts.{own_part};

use crate::enrolment::add_enrolment;
use crate::payments::add_payments;
use crate::runs::add_runs;
use crate::totals::{add_quarters, add_year_totals};
use crate::years::add_years;
use ftd_entries::enrolment;
use ftd_machine::{Account, Request};
use ftd_store::{StoreFault, Tx};
use sqlite::Alter;
use std::alloc::Global;

/// Adds the part of the account's journal that has its totals, of quarters and then of years. After
/// an error some requests may have been added.
fn add_figures<S: Alter>(
    tx: &mut Tx<'_, S>,
    alloc: Global,
    name: &str,
    requests: &mut Vec<Request>,
) -> Result<(), StoreFault>
    ensures call { Reads S.Store tx.old tx.new result
        (λ done. AddsPart (figures_part name.now) requests.old.items requests.new.items) }
{
    add_quarters(tx, alloc, name, requests)?;
    add_year_totals(tx, alloc, name, requests)?;
    Ok(())
}

/// Adds the part of the account's journal that has its open years, its runs and its payments. After
/// an error some requests may have been added.
fn add_entries<S: Alter>(
    tx: &mut Tx<'_, S>,
    alloc: Global,
    name: &str,
    requests: &mut Vec<Request>,
) -> Result<(), StoreFault>
    ensures call { Reads S.Store tx.old tx.new result
        (λ done. AddsPart (entries_part name.now) requests.old.items requests.new.items) }
{
    add_years(tx, alloc, name, requests)?;
    add_runs(tx, alloc, name, requests)?;
    add_payments(tx, alloc, name, requests)?;
    Ok(())
}

/// The journal of the account, where it was enrolled so. `Memory` where there was none.
fn enrolled_journal<S: Alter>(
    tx: &mut Tx<'_, S>,
    alloc: Global,
    name: &str,
    account: Account,
) -> Result<Vec<Request>, StoreFault>
    ensures call { Reads S.Store tx.old tx.new result
        (λ requests. AddsPart (own_part name.now account) [] requests.items) }
{
    let mut requests = Vec::new(alloc);
    add_enrolment(tx, alloc, name, account, &mut requests)?;
    add_figures(tx, alloc, name, &mut requests)?;
    add_entries(tx, alloc, name, &mut requests)?;
    Ok(requests)
}

/// The journal of the account of the name: the requests by which a desk that has the same days, and
/// nothing of the account, comes to have the same of it, in their order. None where no account has
/// the name. `Failed` where the rows do not go together, as where its open years have a gap, or a
/// total has more corrections than there are numbers; `Memory` where there was no memory.
pub fn account_journal<S: Alter>(
    tx: &mut Tx<'_, S>,
    alloc: Global,
    name: &str,
) -> Result<Option<Vec<Request>>, StoreFault>
    ensures call { Reads S.Store tx.old tx.new result (KnowsJournal name.now) }
{
    let Some(account) = enrolment(tx, name)? else {
        return Ok(None);
    };
    let requests = enrolled_journal(tx, alloc, name, account)?;
    Ok(Some(requests))
}

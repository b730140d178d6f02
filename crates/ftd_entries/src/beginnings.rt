//! How an account begins is put right, as long as nothing rests on it.

ghost use Rattle.std.specs.Prelude.{◌≡◌, ◌==◌, ◌&&◌, length};
ghost use Rattle.ftd_store.specs.Frame.{Calls, Reads};
ghost use Rattle.ftd_machine.specs.State.{numbered};
ghost use Rattle.ftd_machine.specs.declared.requests.Request.TheVariants.{Correct};
ghost use Rattle.ftd_machine.specs.declared.requests.Correction.TheVariants as correction;
ghost use Rattle.ftd_entries.specs.Correcting.{KnowsForCorrection, KnowsUnused, correction_of};
ghost use Rattle.ftd_entries.specs.Known.{beginnings_of};
ghost use Rattle.ftd_entries.specs.Words.{Serves};

use crate::accounts::known_account;
use ftd_machine::{Account, Answer, Beginning, Reply, correct_account_check};
use ftd_rules::YearLine;
use ftd_store::{AccountCorrection, QuarterTotal, StoreFault, Tx, YearTotal};
use sqlite::Alter;
use std::alloc::Global;

/// What is known of an account before it is put right.
#[derive(Drop)]
pub(crate) struct KnownForCorrection {
    /// The account in force, if it is enrolled.
    pub account: Option<Account>,
    /// The correction of the number, if there is one.
    pub known: Option<Beginning>,
    /// Whether nothing rests on the account: no total was reported, and no year is open.
    pub is_unused: bool,
    /// How many corrections there are.
    pub count: u32,
}

/// Whether there are no totals and no open years.
fn are_none(quarters: &[QuarterTotal], years: &[YearTotal], lines: &[YearLine]) -> bool
    ensures { result ≡ ((length quarters.now == 0)
        && ((length years.now == 0) && (length lines.now == 0))) }
{
    quarters.is_empty() && years.is_empty() && lines.is_empty()
}

/// Whether nothing rests on the account: no total was reported, and no year is open.
pub fn is_unused<S: Alter>(
    tx: &mut Tx<'_, S>,
    alloc: Global,
    name: &str,
) -> Result<bool, StoreFault>
    ensures call { Reads S.Store tx.old tx.new result (KnowsUnused name.now) }
{
    let quarters = tx.reported_totals(alloc, name)?;
    let years = tx.reported_year_totals(alloc, name)?;
    let lines = tx.years(alloc, name)?;
    Ok(are_none(&quarters, &years, &lines))
}

/// The correction of a number: the first one has number 1.
fn numbered(corrections: &[AccountCorrection], number: u32) -> Option<Beginning>
    ensures { result ≡ numbered number (beginnings_of corrections.now) }
{
    let correction = corrections.get(number.saturating_sub(1) as usize)?;
    Some(Beginning {
        start: correction.account.start,
        carried: correction.account.carried,
    })
}

/// What is known of an account before the correction of this number. `Failed` also where there are
/// more corrections than a number can tell.
fn known_for_correction<S: Alter>(
    tx: &mut Tx<'_, S>,
    alloc: Global,
    name: &str,
    number: u32,
) -> Result<KnownForCorrection, StoreFault>
    ensures call { Reads S.Store tx.old tx.new result (KnowsForCorrection name.now number) }
{
    let account = known_account(tx, alloc, name)?;
    let corrections = tx.account_corrections(alloc, name)?;
    let is_unused = is_unused(tx, alloc, name)?;
    let Ok(count) = u32::try_from(corrections.len()) else {
        return tx.give_up(StoreFault::Failed);
    };
    Ok(KnownForCorrection {
        account,
        known: numbered(&corrections, number),
        is_unused,
        count,
    })
}

/// A beginning as the correction of a number.
fn correction_of(number: u32, beginning: Beginning) -> AccountCorrection
    ensures { result ≡ correction_of number beginning }
{
    AccountCorrection {
        number,
        account: ftd_store::Account {
            start: beginning.start,
            carried: beginning.carried,
        },
    }
}

/// Puts right how an account begins: its first day, and whether it was carried over. Its form
/// stays.
pub fn correct_account<S: Alter>(
    tx: &mut Tx<'_, S>,
    alloc: Global,
    name: &str,
    number: u32,
    beginning: Beginning,
) -> Result<Answer, StoreFault>
    ensures call { Calls S.Store tx.old tx.new result
        (Serves (Correct number (correction.Account name.now beginning))) }
{
    let before = known_for_correction(tx, alloc, name, number)?;
    let checked = correct_account_check(
        name,
        number,
        &beginning,
        before.account,
        before.known,
        before.is_unused,
        before.count,
    );
    if let Err(answer) = checked {
        return Ok(answer);
    }
    tx.add_account_correction(name, correction_of(number, beginning))?;
    Ok(Ok(Reply::Done))
}

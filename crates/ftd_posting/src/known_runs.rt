//! What is known of an account before one of its runs is posted or voided.

ghost use Rattle.ftd_days.specs.Calendar.{year_of};
ghost use Rattle.ftd_store.specs.Frame.{Reads};
ghost use Rattle.ftd_posting.specs.Runs.{KnowsForPost, KnowsForVoid};

use ftd_days::Day;
use ftd_entries::{is_open, known_account};
use ftd_machine::Account;
use ftd_rules::{PayRun, Voidable};
use ftd_store::{StoreFault, Tx};
use sqlite::Alter;
use std::alloc::Global;

/// What is known before a pay run is voided.
#[derive(Drop)]
pub(crate) struct KnownForVoid {
    /// The account, if it is enrolled.
    pub account: Option<Account>,
    /// The account's run of the number, if there is one.
    pub kept: Option<Voidable<PayRun>>,
}

/// What is known before a pay run is posted.
#[derive(Drop)]
pub(crate) struct KnownForPost {
    /// The account, if it is enrolled.
    pub account: Option<Account>,
    /// The account's run of the number, if there is one.
    pub kept: Option<Voidable<PayRun>>,
    /// Whether the year of the payday is open.
    pub is_open: bool,
}

/// What is known of an account before its run of this number is voided.
pub(crate) fn known_for_void<S: Alter>(
    tx: &mut Tx<'_, S>,
    alloc: Global,
    name: &str,
    number: u32,
) -> Result<KnownForVoid, StoreFault>
    ensures call { Reads S.Store tx.old tx.new result (KnowsForVoid name.now number) }
{
    let account = known_account(tx, alloc, name)?;
    let kept = tx.run(name, number)?;
    Ok(KnownForVoid { account, kept })
}

/// What is known of an account before a run of this number is posted for the payday.
pub(crate) fn known_for_post<S: Alter>(
    tx: &mut Tx<'_, S>,
    alloc: Global,
    name: &str,
    number: u32,
    payday: Day,
) -> Result<KnownForPost, StoreFault>
    ensures call { Reads S.Store tx.old tx.new result
        (KnowsForPost name.now number (year_of payday)) }
{
    let before = known_for_void(tx, alloc, name, number)?;
    let is_open = is_open(tx, alloc, name, payday.year())?;
    Ok(KnownForPost {
        account: before.account,
        kept: before.kept,
        is_open,
    })
}

//! Totals that were reported are corrected.

ghost use Rattle.std.specs.Prelude.{◌≡◌};
ghost use Rattle.ftd_store.specs.Frame.{Calls, Reads};
ghost use Rattle.ftd_machine.specs.State.{numbered};
ghost use Rattle.ftd_machine.specs.declared.requests.Request.TheVariants.{Correct};
ghost use Rattle.ftd_machine.specs.declared.requests.Correction.TheVariants as correction;
ghost use Rattle.ftd_entries.specs.Known.{amounts_of};
ghost use Rattle.ftd_entries.specs.Words.{Serves};
ghost use Rattle.ftd_posting.specs.Correcting.{KnowsForTotal, ListsCorrectionsOf};
ghost use Rattle.ftd_posting.specs.Repaired.{Becoming, CorrectsTotal};

use crate::totals::{TotalCorrection, enter_and_follow, first_day, year_counting_total};
use ftd_days::Cents;
use ftd_entries::{first_reported, is_open, known_account};
use ftd_machine::{Account, Answer, Reply, ReturnPeriod, correct_total_check};
use ftd_store::{Correction, StoreFault, Tx};
use sqlite::Alter;
use std::alloc::Global;

/// What is known of an account and of one of its totals before that is corrected.
#[derive(Drop)]
pub(crate) struct KnownForTotal {
    /// The account, if it is enrolled.
    pub account: Option<Account>,
    /// The total as it was first reported, in cents, if it was.
    pub reported: Option<Cents>,
    /// Its correction of the number, in cents, if there is one.
    pub known: Option<Cents>,
    /// How many corrections it has.
    pub count: u32,
    /// Whether the year is open in whose lookback period it counts.
    pub is_open: bool,
}

/// The amount of the correction of a number: the first one has number 1.
fn numbered(corrections: &[Correction], number: u32) -> Option<Cents>
    ensures { result ≡ numbered number (amounts_of corrections.now) }
{
    let correction = corrections.get(number.saturating_sub(1) as usize)?;
    Some(correction.cents)
}

/// The corrections of the total, by number.
fn corrections_of<S: Alter>(
    tx: &mut Tx<'_, S>,
    alloc: Global,
    name: &str,
    period: &ReturnPeriod,
) -> Result<Vec<Correction>, StoreFault>
    ensures call { Reads S.Store tx.old tx.new result
        (ListsCorrectionsOf name.now period.now) }
{
    match period {
        ReturnPeriod::Quarter(quarter) => tx.corrections(alloc, name, *quarter),
        ReturnPeriod::Year(year) => tx.year_corrections(alloc, name, *year),
    }
}

/// What is known before the total of the period is corrected under this number. `Failed` also where
/// it has more corrections than a number can tell.
fn known_for_total<S: Alter>(
    tx: &mut Tx<'_, S>,
    alloc: Global,
    name: &str,
    period: &ReturnPeriod,
    number: u32,
    year: u32,
) -> Result<KnownForTotal, StoreFault>
    ensures call { Reads S.Store tx.old tx.new result
        (KnowsForTotal name.now period.now number year) }
{
    let account = known_account(tx, alloc, name)?;
    let reported = first_reported(tx, name, period)?;
    let is_open = is_open(tx, alloc, name, year)?;
    let corrections = corrections_of(tx, alloc, name, period)?;
    let Ok(count) = u32::try_from(corrections.len()) else {
        return tx.give_up(StoreFault::Failed);
    };
    Ok(KnownForTotal {
        account,
        reported,
        known: numbered(&corrections, number),
        count,
        is_open,
    })
}

/// Corrects the total that an account reported for a quarter, on Form 941, or a year, on Form 943,
/// under a number. It is answered how the obligations that come differ from those that go, or why
/// the correction is refused; a refused one changes nothing.
pub fn correct_total<S: Alter>(
    tx: &mut Tx<'_, S>,
    alloc: Global,
    name: &str,
    period: &ReturnPeriod,
    number: u32,
    cents: Cents,
) -> Result<Answer, StoreFault>
    ensures call { Calls S.Store tx.old tx.new result
        (Serves (Correct number (correction.Total name.now period.now cents))) }
    ensures repairs { Calls S.Store tx.old tx.new result (λ answer before after.
        Becoming (CorrectsTotal name.now period.now number cents) answer before.now after.now) }
{
    let year = year_counting_total(period);
    let before = known_for_total(tx, alloc, name, period, number, year)?;
    let checked = correct_total_check(
        name,
        period,
        number,
        cents,
        before.account,
        before.reported,
        before.known,
        before.count,
    );
    let account = match checked {
        Ok(account) => account,
        Err(answer) => return Ok(answer),
    };
    let Some(first) = first_day(period) else {
        return tx.give_up(StoreFault::Failed);
    };
    let it = TotalCorrection {
        period: *period,
        correction: Correction { number, cents },
        first,
        year,
        is_open: before.is_open,
    };
    let difference = enter_and_follow(tx, alloc, name, account, &it)?;
    Ok(Ok(Reply::Posted(difference)))
}

//! What is in force of the totals that an account reported: the last correction of each, or where
//! there is none the total as it was first given.

ghost use Rattle.std.specs.Prelude.{◌≡◌, option_map};
ghost use Rattle.ftd_store.specs.Frame.{Reads};
ghost use Rattle.ftd_machine.specs.State.{latest};
ghost use Rattle.ftd_entries.specs.Known.{KnowsFigure, amounts_of};

use ftd_days::Cents;
use ftd_machine::ReturnPeriod;
use ftd_store::{Correction, StoreFault, Tx};
use sqlite::Alter;
use std::alloc::Global;

/// The total in force of a period, in cents, if the account reported one.
pub fn figure<S: Alter>(
    tx: &mut Tx<'_, S>,
    alloc: Global,
    name: &str,
    period: ReturnPeriod,
) -> Result<Option<Cents>, StoreFault>
    ensures call { Reads S.Store tx.old tx.new result (KnowsFigure name.now period) }
{
    match period {
        ReturnPeriod::Quarter(quarter) => {
            let reported = tx.reported_total(name, quarter)?;
            let corrections = tx.corrections(alloc, name, quarter)?;
            Ok(in_force(reported, &corrections))
        }
        ReturnPeriod::Year(year) => {
            let reported = tx.reported_year_total(name, year)?;
            let corrections = tx.year_corrections(alloc, name, year)?;
            Ok(in_force(reported, &corrections))
        }
    }
}

/// What is in force of a total, with these corrections of it.
fn in_force(reported: Option<Cents>, corrections: &[Correction]) -> Option<Cents>
    ensures { result ≡ option_map (λ first. latest first (amounts_of corrections.now)) reported }
{
    Some(last_amount(reported?, corrections))
}

/// The amount of the last correction, or the first amount where there is none.
fn last_amount(cents: Cents, corrections: &[Correction]) -> Cents
    ensures { result ≡ latest cents (amounts_of corrections.now) }
{
    let mut cents = cents;
    for correction in corrections {
        cents = correction.cents;
    }
    cents
}

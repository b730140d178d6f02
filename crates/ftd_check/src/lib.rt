//! Whether tables are those of a sound state.
#![tactic(auto)]

ghost use Rattle.std.specs.Prelude.{◌≡◌, IfOk, map};
ghost use Rattle.ftd_machine.specs.Sound.{year_of_calendar};
ghost use Rattle.ftd_sound.specs.Days.{calendar_in};
ghost use Rattle.ftd_store.specs.Frame.{Reads};
ghost use Rattle.ftd_check.specs.Private.Compared.{Compares};
ghost use Rattle.ftd_check.specs.Soundness.{Finds};

mod account;
mod accounts;
mod calendars;
mod changes;
mod day_rows;
mod days;
mod holidays;
mod numbers;
mod own_rows;
mod parts;
mod settled;
mod sizes;
mod soundness;
mod values;

use crate::accounts::check_accounts;
use crate::days::kept_days;
use crate::holidays::all_holidays;
pub use crate::sizes::Sizes;
use crate::sizes::all_sizes;
pub use crate::soundness::{Part, Soundness};
use ftd_sound::Calendar;
use ftd_store::{StoreFault, Tx};
use sqlite::Alter;
use std::alloc::{AllocError, Global};

/// The years of the calendars. `Err` says that memory ran out.
fn years_given(alloc: Global, calendars: &[Calendar]) -> Result<Vec<u32>, AllocError>
    ensures { IfOk result (λ years.
        years.items ≡ map year_of_calendar (map calendar_in calendars.now)) }
{
    let mut years = Vec::new(alloc);
    for calendar in calendars {
        years.push(calendar.year)?;
    }
    Ok(years)
}

/// What is found where each account is sound, and all accounts have these rows together, of all that
/// the tables have.
fn soundness_of(sizes: &Sizes, all: Sizes) -> Soundness
    ensures { Compares sizes.now all result }
{
    if sizes.are_those(&all) {
        Soundness::Sound(all)
    } else {
        Soundness::Unsound(Part::Rows)
    }
}

/// Whether the tables are those of a sound state: what requests may have entered, and what follows
/// from that, and nothing else; how many rows they have then, or the first part of them that shows
/// that they are not. The parts are looked at in this order: the holidays, the list of accounts, each
/// account in the order in which they were enrolled, and the rows of no account. `Failed` also
/// where the tables have 2^32 rows of a kind or more. Nothing is written.
pub fn check_tables<S: Alter>(tx: &mut Tx<'_, S>, alloc: Global) -> Result<Soundness, StoreFault>
    ensures call { Reads S.Store tx.old tx.new result Finds }
{
    let Some(days) = kept_days(tx, alloc)? else {
        return Ok(Soundness::Unsound(Part::Holidays));
    };
    let Ok(given) = years_given(alloc, &days.calendars) else {
        return tx.give_up(StoreFault::Memory);
    };
    let holidays = all_holidays(tx, alloc)?;
    let sizes = match check_accounts(tx, alloc, &given, &holidays)? {
        Ok(sizes) => sizes,
        Err(part) => return Ok(Soundness::Unsound(part)),
    };
    let all = all_sizes(tx)?;
    Ok(soundness_of(&sizes, all))
}

//! The lines of the open years.

ghost use Rattle.std.specs.Prelude.{◌≡◌, ◌≤◌, IfOk, IfNone, IfSome, MatchOption, All, true};
ghost use Rattle.ftd_days.specs.declared.cents.Cents.{Cents};
ghost use Rattle.ftd_machine.specs.Limits.{can_be_opened};
ghost use Rattle.ftd_sound.specs.Private.Plain.{AreAllAmounts};
ghost use Rattle.ftd_sound.specs.Private.Lines.{IsTotal, HaveTotals, AreBegun};

use crate::figures::Figures;
use ftd_days::{Cents, FIRST_YEAR, LAST_OPEN_YEAR};
use ftd_machine::Account;
use ftd_rules::{Form, Kind, YearLine, lookback, lookback_943};
use std::alloc::{AllocError, Global};

/// The lines of the years, each with its lookback total, and the first carried as the account is;
/// their openings and turns are left to `assess`. `None` where a year lacks its lookback total, and
/// `Err` where memory ran out.
pub(crate) fn lines_of(
    alloc: Global,
    account: &Account,
    figures: &Figures,
    years: &[u32],
) -> Result<Option<Vec<YearLine>>, AllocError>
    requires years { All (λ year. can_be_opened year ≡ true) years.now }
    requires amounts { AreAllAmounts figures.now.quarters.items }
    ensures none { IfOk result (λ found. IfNone found
        (HaveTotals account.now figures.now years.now → ⊥)) }
    ensures some { IfOk result (λ found. IfSome found
        (λ lines. AreBegun account.now figures.now years.now lines.items)) }
{
    let mut lines = Vec::new(alloc);
    let mut carried = account.carried;
    for year in years {
        let Some(lookback) = total_of(account, figures, *year) else {
            return Ok(None);
        };
        lines.push(YearLine {
            year: *year,
            lookback,
            carried,
            opening: Kind::Monthly,
            turn: None,
        })?;
        carried = false;
    }
    Ok(Some(lines))
}

/// The lookback total of the year, if none of its figures is missing.
fn total_of(account: &Account, figures: &Figures, year: u32) -> Option<Cents>
    requires from { FIRST_YEAR ≤ year }
    requires to { year ≤ LAST_OPEN_YEAR }
    requires amounts { AreAllAmounts figures.now.quarters.items }
    ensures { MatchOption result
        ((total : Cents) → IsTotal account.now figures.now year total → ⊥)
        (λ total. IsTotal account.now figures.now year total) }
{
    match account.form {
        Form::F941 => lookback(&figures.quarters, account.start, year).ok(),
        Form::F943 => lookback_943(&figures.years, account.start, year).ok(),
    }
}

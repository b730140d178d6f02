//! The totals in force.

ghost use Rattle.std.specs.Prelude.{◌≡◌, IfOk};
ghost use Rattle.ftd_machine.specs.State.{latest};
ghost use Rattle.ftd_sound.specs.Private.Plain.{amounts_under};
ghost use Rattle.ftd_sound.specs.Private.Lines.{figures_in};

use ftd_days::{Cents, Quarter};
use std::alloc::{AllocError, Global};

/// The totals in force: the last correction of each, or where there is none the total as it was
/// first reported.
#[derive(Drop)]
pub(crate) struct Figures {
    pub(crate) quarters: Vec<(Quarter, Cents)>,
    pub(crate) years: Vec<(u32, Cents)>,
}

/// The totals of quarters in force. `Err` says that memory ran out.
pub(crate) fn quarter_figures(
    alloc: Global,
    reported: &[(Quarter, Cents)],
    corrected: &[(u32, Cents)],
) -> Result<Vec<(Quarter, Cents)>, AllocError>
    ensures { IfOk result (λ figures. figures.items ≡ figures_in reported.now corrected.now) }
{
    let mut figures = Vec::new(alloc);
    for (quarter, cents) in reported {
        figures.push((*quarter, latest(*cents, quarter.quarters(), corrected)))?;
    }
    Ok(figures)
}

/// The totals of years in force. `Err` says that memory ran out.
pub(crate) fn year_figures(
    alloc: Global,
    reported: &[(u32, Cents)],
    corrected: &[(u32, Cents)],
) -> Result<Vec<(u32, Cents)>, AllocError>
    ensures { IfOk result (λ figures. figures.items ≡ figures_in reported.now corrected.now) }
{
    let mut figures = Vec::new(alloc);
    for (year, cents) in reported {
        figures.push((*year, latest(*cents, *year, corrected)))?;
    }
    Ok(figures)
}

/// The last correction under the key, or the first total where there is none.
fn latest(first: Cents, key: u32, corrected: &[(u32, Cents)]) -> Cents
    ensures { result ≡ latest first (amounts_under key corrected.now) }
{
    let mut cents = first;
    for correction in corrected {
        if correction.0 == key {
            cents = correction.1;
        }
    }
    cents
}

/// The same totals, each with the number of its quarter. `Err` says that memory ran out.
pub(crate) fn numbered(
    alloc: Global,
    totals: &[(Quarter, Cents)],
) -> Result<Vec<(u32, Cents)>, AllocError>
    ensures { IfOk result (λ numbered. numbered.items ≡ totals.now) }
{
    let mut numbered = Vec::new(alloc);
    for (quarter, cents) in totals {
        numbered.push((quarter.quarters(), *cents))?;
    }
    Ok(numbered)
}

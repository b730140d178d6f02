//! Whether stored rows are those that follow from what was entered.

ghost use Rattle.std.specs.Prelude.{◌≡◌, ◌↔◌, IsTrue, IfOk, map};
ghost use Rattle.std.specs.List.Sorted.{IsPermutation};
ghost use Rattle.ftd_rules.specs.Lists.{KeysRise};
ghost use Rattle.ftd_rules.specs.Obligations.{ByFirstDay};
ghost use Rattle.ftd_machine.specs.History.{year_of_line};
ghost use Rattle.ftd_check.specs.Account.{stored_of};

use ftd_rules::{Obligation, YearLine};
use ftd_store::StoredYear;
use std::alloc::{AllocError, Global};

/// The line as it is stored.
fn stored_of(line: &YearLine) -> StoredYear
    ensures { result ≡ stored_of line.now }
{
    StoredYear {
        year: line.year,
        lookback: line.lookback,
        opening: line.opening,
        turn: line.turn,
    }
}

/// The lines as they are stored. `Err` says that memory ran out.
fn all_stored(alloc: Global, lines: &[YearLine]) -> Result<Vec<StoredYear>, AllocError>
    ensures { IfOk result (λ years. years.items ≡ map stored_of lines.now) }
{
    lines.iter().map(|line| stored_of(line)).collect(alloc)
}

/// Whether the open years that are stored are those of the lines, which rise by year, in some
/// order. `Err` says that memory ran out.
pub(crate) fn are_lines(
    alloc: Global,
    stored: &[StoredYear],
    lines: &[YearLine],
) -> Result<bool, AllocError>
    requires { KeysRise year_of_line lines.now }
    ensures { IfOk result (λ are.
        IsTrue are ↔ IsPermutation stored.now (map stored_of lines.now)) }
{
    let mut sorted = Vec::from_slice(alloc, stored)?;
    sorted.sort_by_key(|year| year.year)?;
    let those = all_stored(alloc, lines)?;
    Ok(sorted.as_slice() == those.as_slice())
}

/// Whether the obligations that are stored are those that are owed, which rise by first day, in
/// some order. `Err` says that memory ran out.
pub(crate) fn are_owed(
    alloc: Global,
    stored: &[Obligation],
    owed: &[Obligation],
) -> Result<bool, AllocError>
    requires { ByFirstDay owed.now }
    ensures { IfOk result (λ are. IsTrue are ↔ IsPermutation stored.now owed.now) }
{
    let mut sorted = Vec::from_slice(alloc, stored)?;
    sorted.sort_by_key(|obligation| obligation.first)?;
    Ok(sorted.as_slice() == owed)
}

//! Items added behind others, and corrections under their numbers.

ghost use Rattle.std.specs.Prelude.{◌≡◌, ◌+◌, ◌++◌, ◌∷◌, [], IfOk, OnOk};
ghost use Rattle.ftd_journal.specs.Parts.{with_numbers};

use ftd_machine::{Correction, Request};
use ftd_store::StoreFault;

/// Adds an item. `Memory` where there was none.
pub(crate) fn add<T: Drop>(item: T, items: &mut Vec<T>) -> Result<(), StoreFault>
    ensures { OnOk result (items.new.items ≡ items.old.items ++ item ∷ []) }
{
    items.push(item)?;
    Ok(())
}

/// The number after this one. `Failed` where there is none below 2^32.
pub(crate) fn next_number(number: u32) -> Result<u32, StoreFault>
    ensures { IfOk result (λ next. next ≡ number + 1) }
{
    match number.checked_add(1) {
        Some(next) => Ok(next),
        None => Err(StoreFault::Failed),
    }
}

/// Adds the corrections of one thing, under the numbers from 1 on. `Failed` where there is none
/// below 2^32 for the one after the last, and `Memory` where there was no memory; after either some
/// of them may have been added.
pub(crate) fn add_corrections(
    given: Vec<Correction>,
    requests: &mut Vec<Request>,
) -> Result<(), StoreFault>
    ensures { OnOk result (requests.new.items ≡ requests.old.items ++ with_numbers given.items) }
{
    let mut number = 1;
    for correction in given {
        add(Request::Correct { number, correction }, requests)?;
        number = next_number(number)?;
    }
    Ok(())
}

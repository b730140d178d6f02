//! Keys that stand once.

ghost use Rattle.std.specs.Prelude.{◌≡◌, ◌↔◌, IsTrue, IfOk, map};
ghost use Rattle.std.specs.List.Sorted.{IsStrictlyIncreasing};
ghost use Rattle.ftd_machine.specs.Sound.{AreDistinct};
ghost use Rattle.ftd_sound.specs.Private.Plain.{AreApart, key_in};

use std::alloc::{AllocError, Global};

/// Whether no two entries have the same key. `Err` says that memory ran out.
pub(crate) fn stand_once<X>(alloc: Global, entries: &[(u32, X)]) -> Result<bool, AllocError>
    ensures { IfOk result (λ once. IsTrue once ↔ AreDistinct key_in entries.now) }
{
    Ok(are_apart(keys_of(alloc, entries)?))
}

/// The keys of the entries.
fn keys_of<X>(alloc: Global, entries: &[(u32, X)]) -> Result<Vec<u32>, AllocError>
    ensures { IfOk result (λ keys. keys.items ≡ map key_in entries.now) }
{
    entries.iter().map(|entry| entry.0).collect(alloc)
}

/// Whether no two numbers are the same.
fn are_apart(numbers: Vec<u32>) -> bool
    ensures { IsTrue result ↔ AreApart numbers.items }
{
    let mut numbers = numbers;
    numbers.sort_unstable();
    are_rising(&numbers)
}

/// Whether each number is less than the next.
fn are_rising(numbers: &[u32]) -> bool
    ensures { IsTrue result ↔ IsStrictlyIncreasing numbers.now }
{
    numbers.is_sorted_by(|number, next| number < next)
}

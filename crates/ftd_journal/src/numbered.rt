//! The rows of an account that have a number, its runs and its payments, and the requests by which
//! it has them.

ghost use Rattle.std.specs.Prelude.{◌≡◌, ℕ, ◌-◌, ◌++◌, Bool, IfOk, List, OnOk, flat_map, length};
ghost use Rattle.std.specs.Prelude.{option_map, slice_get};
ghost use Rattle.std.specs.List.Sorted.{IsPermutation};
ghost use Rattle.ftd_rules.specs.Lists.{KeysDoNotFall};
ghost use Rattle.ftd_machine.specs.Journal.{void_if};
ghost use Rattle.ftd_machine.specs.declared.requests.Request.{Request};
ghost use Rattle.ftd_journal.specs.Numbers.{number_after};
ghost use Rattle.ftd_journal.specs.Parts.{with_void};

use crate::adding::{add, next_number};
use ftd_machine::{AccountName, Request};
use ftd_store::StoreFault;
use std::alloc::Global;

/// A row of an account that has a number, and can be void.
pub(crate) trait Numbered: Drop {
    /// The number.
    ghost number_of: { Self → ℕ };

    /// Whether it is void.
    ghost is_voided: { Self → Bool };

    /// The request by which the account of the name has the row.
    ghost request_of: { List ℕ → Self → Request };

    /// The request by which the row of the account of the name is voided.
    ghost void_of: { List ℕ → Self → Request };

    /// The number.
    fn number(&self) -> u32
        ensures { result ≡ number_of self.now };

    /// Whether it is void.
    fn is_void(&self) -> bool
        ensures { result ≡ is_voided self.now };

    /// The request by which the account has the row.
    fn request(&self, account: AccountName) -> Request
        ensures { result ≡ request_of account self.now };

    /// The request by which the row of the account is voided.
    fn void_request(&self, account: AccountName) -> Request
        ensures { result ≡ void_of account self.now };
}

/// Adds the request by which the row is voided, where it is void. `Memory` where there was none.
fn add_void<T: Numbered>(
    alloc: Global,
    name: &str,
    row: &T,
    requests: &mut Vec<Request>,
) -> Result<(), StoreFault>
    ensures { OnOk result (requests.new.items ≡ requests.old.items
        ++ void_if (T.is_voided row.now) (T.void_of name.now row.now)) }
{
    if !row.is_void() {
        return Ok(());
    }
    let account = AccountName::copy_of(alloc, name)?;
    add(row.void_request(account), requests)
}

/// Adds the request by which the account has the row, and the one by which it is voided, where it
/// is void. `Memory` where there was none; after it the first may have been added.
fn add_row<T: Numbered>(
    alloc: Global,
    name: &str,
    row: &T,
    requests: &mut Vec<Request>,
) -> Result<(), StoreFault>
    ensures { OnOk result (requests.new.items ≡ requests.old.items
        ++ with_void (T.request_of name.now) T.is_voided (T.void_of name.now) row.now) }
{
    let account = AccountName::copy_of(alloc, name)?;
    add(row.request(account), requests)?;
    add_void(alloc, name, row, requests)
}

/// Adds the requests of the rows, in their order. `Memory` where there was none; after it some of
/// them may have been added.
pub(crate) fn add_rows<T: Numbered>(
    alloc: Global,
    name: &str,
    rows: &[T],
    requests: &mut Vec<Request>,
) -> Result<(), StoreFault>
    ensures { OnOk result (requests.new.items ≡ requests.old.items
        ++ flat_map (with_void (T.request_of name.now) T.is_voided (T.void_of name.now)) rows.now) }
{
    for row in rows {
        add_row(alloc, name, row, requests)?;
    }
    Ok(())
}

/// The rows by number. `Memory` where there was none.
pub(crate) fn by_number<T: Numbered>(rows: Vec<T>) -> Result<Vec<T>, StoreFault>
    ensures same { IfOk result (λ sorted. IsPermutation rows.items sorted.items) }
    ensures in_order { IfOk result (λ sorted. KeysDoNotFall T.number_of sorted.items) }
{
    let mut rows = rows;
    rows.sort_by_key(|row| row.number())?;
    Ok(rows)
}

/// The number after the last of these rows, which go by number; 1 where there is none. `Failed`
/// where there is none below 2^32.
pub(crate) fn after_last<T: Numbered>(rows: &[T]) -> Result<u32, StoreFault>
    ensures { IfOk result (λ number. number
        ≡ number_after (option_map T.number_of (slice_get rows.now (length rows.now - 1)))) }
{
    match rows.last() {
        Some(row) => next_number(row.number()),
        None => Ok(1),
    }
}

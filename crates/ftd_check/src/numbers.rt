//! Numbers that count from 1 under each key.

ghost use Rattle.std.specs.Prelude.{◌↔◌, IsTrue, IfOk};
ghost use Rattle.ftd_check.specs.Numbers.{AreNumbered};

use std::alloc::{AllocError, Global};
use std::collections::HashMap;

/// Whether the number of each row, which has a key and a number, is one more than there are rows
/// before it of the same key. An error where there is no memory.
pub(crate) fn are_numbered(alloc: Global, rows: &[(u32, u32)]) -> Result<bool, AllocError>
    ensures { IfOk result (λ are. IsTrue are ↔ AreNumbered rows.now) }
{
    let mut counts: HashMap<u32, u32> = HashMap::new(alloc);
    for row in rows {
        let before = counts.get(&row.0).copied().unwrap_or(0);
        if row.1 == 0 || row.1 - 1 != before {
            return Ok(false);
        }
        counts.insert(row.0, row.1)?;
    }
    Ok(true)
}

//! Values read from rows.

ghost use Rattle.std.specs.Prelude.{◌≡◌, map, IfOk, Err};
ghost use Rattle.std.specs.List.{All};
ghost use Rattle.ftd_store.specs.Reading.{rows_of, IsAnswer};

use crate::faults::StoreFault;
use sqlite::Row;
use std::alloc::Global;

/// A value that a row shows.
pub trait FromRow: Sized {
    ghost use Rattle.sqlite.specs.Order.{Row as Cells};

    // the cells that show the value
    ghost shown: { Self → Cells };

    // Whether the cells show any value.
    ghost is_readable: { Cells → Type 0 };

    /// The value of the row. `Failed` where the row shows none, `Memory` where there is none.
    fn from_row(row: &Row) -> Result<Self, StoreFault>
        ensures value { IfOk result (λ x. row.now ≡ shown x) }
        ensures bad { result ≡ Err StoreFault.Failed → ¬ is_readable row.now };
}

/// The value of an answer of no row or one. `Failed` where there are more rows, or where the row
/// shows no value; `Memory` where there is none.
pub fn only<T: FromRow>(rows: &[Row]) -> Result<Option<T>, StoreFault>
    ensures value { IfOk result (λ found. rows.now ≡ rows_of T.shown found) }
    ensures bad { result ≡ Err StoreFault.Failed → ¬ IsAnswer T.is_readable rows.now }
{
    match rows {
        [] => Ok(None),
        [row] => Ok(Some(T::from_row(row)?)),
        _ => Err(StoreFault::Failed),
    }
}

/// The values of the rows, in their order. `Failed` where a row shows no value, `Memory` where
/// there is none.
pub fn all<T: FromRow + Drop>(alloc: Global, rows: &[Row]) -> Result<Vec<T>, StoreFault>
    ensures value { IfOk result (λ xs. rows.now ≡ map T.shown xs.items) }
    ensures bad { result ≡ Err StoreFault.Failed → ¬ All T.is_readable rows.now }
{
    let mut xs = Vec::new(alloc);
    for row in rows {
        let x = T::from_row(row)?;
        xs.push(x)?;
    }
    Ok(xs)
}

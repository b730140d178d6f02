//! A patch is put in the place of an account's obligations that are known.

ghost use Rattle.std.specs.Prelude.{◌≡◌, filter, IfOk};
ghost use Rattle.ftd_repairs.specs.Placing.{begins};
ghost use Rattle.ftd_repairs.specs.Replaced.{patched};
ghost use Rattle.ftd_rules.specs.Obligations.{begins_on};

use ftd_buckets::Patch;
use ftd_days::Day;
use ftd_rules::Obligation;
use std::alloc::{AllocError, Global};

/// Where a row begins: before some days, on one of them, or after them.
#[derive(Clone, Copy)]
pub(crate) enum Place {
    Before,
    On,
    After,
}

/// The rows after a patch is put in the place of those that begin on its days, and these.
#[derive(Drop)]
pub(crate) struct PlacedRows {
    /// Those that go.
    pub gone: Vec<Obligation>,
    /// All rows then, by first day.
    pub rows: Vec<Obligation>,
}

/// Whether the row begins at this place, seen from the days from one to another.
fn begins(row: &Obligation, place: Place, from: Day, to: Day) -> bool
    ensures { result ≡ begins place from to row.now }
{
    match place {
        Place::Before => row.first < from,
        Place::On => from <= row.first && row.first <= to,
        Place::After => to < row.first,
    }
}

/// The rows that begin at this place, seen from the days of the patch.
fn rows_at(
    alloc: Global,
    rows: &[Obligation],
    place: Place,
    patch: &Patch,
) -> Result<Vec<Obligation>, AllocError>
    ensures { IfOk result (λ some.
        some.items ≡ filter (begins place patch.now.from patch.now.to) rows.now) }
{
    let mut some = Vec::new(alloc);
    for row in rows {
        if begins(row, place, patch.from, patch.to) {
            some.push(*row)?;
        }
    }
    Ok(some)
}

/// Puts the patch in the place of the rows that begin on its days.
pub(crate) fn place_rows(
    alloc: Global,
    rows: &[Obligation],
    patch: &Patch,
) -> Result<PlacedRows, AllocError>
    ensures gone { IfOk result (λ placed.
        placed.gone.items ≡ filter (begins_on patch.now.from patch.now.to) rows.now) }
    ensures rows { IfOk result (λ placed.
        placed.rows.items ≡ patched patch.now.from patch.now.to rows.now patch.now.rows) }
{
    let gone = rows_at(alloc, rows, Place::On, patch)?;
    let later = rows_at(alloc, rows, Place::After, patch)?;
    let mut rows = rows_at(alloc, rows, Place::Before, patch)?;
    rows.extend_from_slice(patch.rows.as_slice())?;
    rows.extend_from_slice(&later)?;
    Ok(PlacedRows { gone, rows })
}

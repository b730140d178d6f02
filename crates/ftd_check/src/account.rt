//! Whether what was read of an account is sound.

ghost use Rattle.std.specs.Prelude.{◌↔◌, ℕ, List, IsTrue, IfOk};
ghost use Rattle.ftd_days.specs.Holidays.{holidays_of};
ghost use Rattle.ftd_check.specs.Account.{IsSoundOwn};

use crate::own_rows::OwnRows;
use crate::settled::{are_lines, are_owed};
use ftd_days::Holidays;
use ftd_sound::assess_own;
use std::alloc::{AllocError, Global};

/// Whether what was read of an account is what requests may have entered, where the calendars of
/// the years `given` are given, and what follows from that with these holidays. `Err` says that
/// memory ran out.
pub(crate) fn is_sound(
    alloc: Global,
    given: &[u32],
    holidays: &Holidays,
    rows: &OwnRows,
) -> Result<bool, AllocError>
    ensures { IfOk result (λ sound. (name : List ℕ) → IsTrue sound
        ↔ IsSoundOwn name given.now (holidays_of holidays.now) rows.now) }
{
    let Some(found) = assess_own(alloc, given, &rows.own, holidays)? else {
        return Ok(false);
    };
    if !are_lines(alloc, &rows.years, found.years.as_slice())? {
        return Ok(false);
    }
    are_owed(alloc, &rows.obligations, found.rows.as_slice())
}

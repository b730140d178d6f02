//! How far the pages look ahead.

ghost use Rattle.std.specs.Prelude.{◌≡◌};
ghost use Rattle.ftd_connections.specs.Ahead.{shown_until};

use ftd_days::{Day, LAST_NUMBER};

/// How many days the pages look ahead.
const LOOK_AHEAD: u32 = 30;

/// The last day of what the pages lead to from today: as many days later as they look ahead, or the
/// last day that there is.
pub fn shown_until(today: Day) -> Day
    ensures { result ≡ shown_until today }
{
    let left = (LAST_NUMBER - today.number()).unsigned_abs();
    today.plus(left.min(LOOK_AHEAD))
}

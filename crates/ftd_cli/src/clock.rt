//! A clock that tells which day is today, for words that leave it out.

ghost use Rattle.std.specs.Prelude.{◌≡◌, ℕ, IfErr, Option, map};
ghost use Rattle.std.specs.String.{string_bytes};
ghost use Rattle.ftd_cli.specs.Apps.{ftd_app};
ghost use Rattle.ftd_cli.specs.Clocks.{DecidesOn};
ghost use Rattle.ftd_cli.specs.Tasks.{ShowsValue, rows_in};
ghost use Rattle.clap.specs.Words.{subcommand_of};

use crate::deciding::decide;
use crate::tasks::{CliFault, Task};
use ftd_days::Day;
use std::alloc::Global;

/// What tells the day of today.
pub trait DayClock {
    /// The day that it told last.
    ghost told: { Self → Option ℕ };

    /// The day of today, where the program runs. `None` if it can't be known, or is before 1900 or
    /// after 2199.
    fn today(&mut self) -> Option<Day>
        ensures { told self.new ≡ result };
}

/// What the words ask, as `decide` reads them on the day that the clock tells. The clock is asked
/// only where a word is left out that is today then.
pub fn decide_today<C: DayClock>(
    alloc: Global,
    clock: &mut C,
    words: &[String],
) -> Result<Task, CliFault>
    ensures asked { DecidesOn (C.told clock.new) (map string_bytes words.now) result }
    ensures value { IfErr result
        (ShowsValue (rows_in (subcommand_of ftd_app (map string_bytes words.now)))) }
{
    match decide(alloc, None, words) {
        Err(CliFault::NoToday(_)) => decide(alloc, clock.today(), words),
        decided => decided,
    }
}

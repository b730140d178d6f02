//! The day of today, where the program runs.

ghost use Rattle.std.specs.Prelude.{ℕ, Option};

use ftd_cli::DayClock;
use ftd_days::Day;
use jiff::Zoned;
use jiff::tz::{SystemTimeZone, TimeZoneDatabase};

/// The clock of the system, in the time zone that `TZ` names, or else `/etc/localtime`.
#[derive(Drop)]
pub struct SystemClock<'a> {
    rt: &'a HostRuntime,
    /// The day that it told last.
    pub told: Option<Day>,
}

impl<'a> SystemClock<'a> {
    /// The clock, which has told no day yet.
    pub fn new(rt: &'a HostRuntime) -> SystemClock<'a> {
        SystemClock { rt, told: None }
    }
}

impl DayClock for SystemClock<'_> {
    ghost told = { λ clock. clock.told };

    fn today(&mut self) -> Option<Day> {
        self.told = local_day(self.rt);
        self.told
    }
}

/// The local day. None where the clock or the time zone can't be read, or where there is no memory.
fn local_day(rt: &HostRuntime) -> Option<Day> {
    let zones = TimeZoneDatabase::from_env(rt).ok()?;
    let system = SystemTimeZone::read(rt).ok()?;
    let zone = system.time_zone(&zones).ok()?;
    let today = Zoned::now(rt, zone).ok()?.date();
    let year = u32::try_from(today.year()).ok()?;
    let month = u32::try_from(today.month()).ok()?;
    let day = u32::try_from(today.day()).ok()?;
    Day::on_date(year, month, day)
}

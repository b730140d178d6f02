//! What a change of one day's runs does to the turn of its year.

ghost use Rattle.std.specs.Prelude.{◌≡◌, ℕ, ◌<◌, ◌≤◌, Some, MatchOption, ⊤};
ghost use Rattle.ftd_days.specs.Calendar.{last_day};
ghost use Rattle.std.specs.List.{sum_by};
ghost use Rattle.ftd_rules.specs.declared.Form.{Form};
ghost use Rattle.ftd_rules.specs.declared.YearLine.{YearLine};
ghost use Rattle.ftd_rules.specs.Liability.{liability, cents_of, SumsRise};
ghost use Rattle.ftd_rules.specs.Periods.{IsPeriod};
ghost use Rattle.ftd_rules.specs.Years.{IsTurnOf};
ghost use Rattle.ftd_buckets.specs.Histories.{TurnsWithin};
ghost use Rattle.ftd_buckets.specs.Private.Turned.{IsYearChange, IsTurnNow, IsWithin};
ghost use Rattle.ftd_buckets.specs.Private.Turned.{IsMonthStart};

use crate::Window;
use ftd_days::{Day, FIRST_YEAR, LAST_OPEN_YEAR};
use ftd_rules::schedule::turn_of;
use ftd_rules::year::first_semiweekly_day;
use ftd_rules::{AMOUNTS_END, DaySum, YearLine};

/// The turn of a year after a change of one day's runs, as far as the day's deposit period tells
/// it.
#[derive(Drop)]
pub enum TurnNow {
    /// It is as it was.
    Kept,
    /// It differs, and is this day of the period, or comes after it if it comes at all.
    Changed(Option<Day>),
}

/// What the day sums of a deposit period after the change tell of the turn, where the changed day
/// is one of its days. The line is that before the change.
pub fn turn_now(line: &YearLine, period: Window, sums: &[DaySum]) -> TurnNow
    requires from { FIRST_YEAR ≤ line.now.year }
    requires to { line.now.year ≤ LAST_OPEN_YEAR }
    requires turn { TurnsWithin line.now }
    requires period { (form : Form) × IsPeriod form line.now period.from period.to }
    requires rise { SumsRise period.from period.to sums.now }
    requires small { sum_by cents_of sums.now < AMOUNTS_END }
    ensures within { IsWithin line.now period.from period.to result }
    ensures now { (before after : ℕ → ℕ → ℕ) (day : ℕ) (new : YearLine)
        → IsYearChange before after day line.now new
        → period.from ≤ day → day ≤ period.to
        → ((a b : ℕ) → period.from ≤ a → b ≤ period.to → after a b ≡ liability sums.now a b)
        → IsTurnNow line.now new period.to result }
{
    if first_semiweekly_day(line) <= period.from {
        return TurnNow::Kept;
    }
    match turn_of(period.from, period.to, sums) {
        Some(turn) => {
            if line.turn == Some(turn) {
                TurnNow::Kept
            } else {
                TurnNow::Changed(Some(turn))
            }
        }
        None => {
            if line.turn == Some(period.to) {
                TurnNow::Changed(None)
            } else {
                TurnNow::Kept
            }
        }
    }
}

/// The turn of a year: the one that has come, or the first from `first` on, which begins a month
/// then.
pub fn turn_from(turn: Option<Day>, first: Day, last: Day, sums: &[DaySum]) -> Option<Day>
    requires begins { MatchOption turn (IsMonthStart first) (λ t. ⊤) }
    requires ends { last ≤ last_day }
    requires rise { SumsRise first last sums.now }
    requires small { sum_by cents_of sums.now < AMOUNTS_END }
    ensures { MatchOption turn (IsTurnOf (liability sums.now) first last result)
        (λ t. result ≡ Some t) }
{
    match turn {
        Some(turn) => Some(turn),
        None => turn_of(first, last, sums),
    }
}

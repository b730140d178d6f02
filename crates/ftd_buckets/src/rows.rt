//! The obligations of a run of whole deposit periods.

ghost use Rattle.std.specs.Prelude.{◌≡◌, ℕ, ◌+◌, ◌<◌, ◌≤◌, ◌++◌, OnOk, List};
ghost use Rattle.std.specs.List.{sum_by, All};
ghost use Rattle.ftd_days.specs.Business.{holidays_end};
ghost use Rattle.ftd_days.specs.Holidays.{holidays_of};
ghost use Rattle.ftd_rules.specs.declared.Obligation.{Obligation};
ghost use Rattle.ftd_rules.specs.Liability.{liability, cents_of, SumsRise};
ghost use Rattle.ftd_rules.specs.Private.Years.{semiweekly_from};
ghost use Rattle.ftd_rules.specs.Private.Walk.{due_date, AreOwed, periods};
ghost use Rattle.ftd_buckets.specs.Histories.{TurnsWithin};
ghost use Rattle.ftd_buckets.specs.Private.Ready.{IsWhole};

use ftd_days::{Day, FIRST_YEAR, Holidays, LAST_OPEN_YEAR};
use ftd_rules::year::{add_days, first_semiweekly_day};
use ftd_rules::{AMOUNTS_END, DaySum, Form, Obligation, YearLine};
use std::alloc::AllocError;

/// Adds the obligations of the days from `first` to `last`, whole deposit periods of the year.
pub fn add_rows(
    form: Form,
    line: &YearLine,
    first: Day,
    last: Day,
    sums: &[DaySum],
    holidays: &Holidays,
    rows: &mut Vec<Obligation>,
) -> Result<(), AllocError>
    requires from { FIRST_YEAR ≤ line.now.year }
    requires to { line.now.year ≤ LAST_OPEN_YEAR }
    requires turn { TurnsWithin line.now }
    requires whole { IsWhole form line.now first last }
    requires rise { SumsRise first last sums.now }
    requires small { sum_by cents_of sums.now < AMOUNTS_END }
    ensures rows { OnOk result
        ((added : List Obligation) × (rows.new.items ≡ rows.old.items ++ added)
        × AreOwed (due_date (holidays_of holidays.now)) (liability sums.now)
        (periods form (semiweekly_from line.now)) first (last + 1) added) }
    ensures known { All (λ d. d < holidays_end) (holidays_of holidays.now) }
{
    holidays.end_before_2100();
    add_days(
        form,
        first_semiweekly_day(line),
        first,
        last,
        sums,
        holidays,
        rows,
    )
}

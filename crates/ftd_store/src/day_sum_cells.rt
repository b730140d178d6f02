//! The liability of an account day by day.

ghost use Rattle.std.specs.Prelude.{◌≡◌, ◌<◌, ◌≤◌, ◌+◌, ◌^◌, ℕ, IfOk, OnOk, MatchResult};
ghost use Rattle.std.specs.List.{All, sum_by};
ghost use Rattle.std.specs.List.Sorted.{IsNonDecreasingBy};
ghost use Rattle.ftd_rules.specs.Liability.{share, liability};
ghost use Rattle.ftd_store.specs.DaySums.{DaysRise, ArePositive, owed_on, run_sum};

use crate::faults::StoreFault;
use ftd_days::Cents;
use ftd_rules::{DaySum, PayRun};
use std::alloc::Global;

/// Two amounts together. `Failed` where they are more than a `u64` of cents.
pub fn add_cents(one: Cents, other: Cents) -> Result<Cents, StoreFault>
    ensures { MatchResult result (λ cents. cents.0 ≡ one.0 + other.0)
        (λ fault. (fault ≡ StoreFault.Failed) × (2 ^ 64 ≤ one.0 + other.0)) }
{
    match one.0.checked_add(other.0) {
        Some(cents) => Ok(Cents(cents)),
        None => Err(StoreFault::Failed),
    }
}

/// The liability that a run makes, on its payday. `Failed` where it is more than a `u64` of cents.
pub fn sum_of(run: PayRun) -> Result<DaySum, StoreFault>
    ensures { MatchResult result (λ sum. sum ≡ run_sum run)
        (λ fault. (fault ≡ StoreFault.Failed) × (2 ^ 64 ≤ (run_sum run).cents.0)) }
{
    let withheld = add_cents(run.fit, run.ss)?;
    let cents = add_cents(withheld, run.medicare)?;
    Ok(DaySum {
        day: run.payday,
        cents,
    })
}

// adds an amount to the last sum where that is of the same day, or else after it
fn add_sum(sums: &mut Vec<DaySum>, sum: DaySum) -> Result<(), StoreFault>
    ensures adds { OnOk result ((day : ℕ)
        → liability sums.new.items day day ≡ liability sums.old.items day day + share day day sum) }
    ensures positive { OnOk result (ArePositive sums.old.items → 0 < sum.cents.0
        → ArePositive sums.new.items) }
    ensures rise { OnOk result (All (λ s. s.day ≤ sum.day) sums.old.items
        → DaysRise sums.old.items → DaysRise sums.new.items) }
    ensures until { OnOk result ((day : ℕ) → All (λ s. s.day ≤ day) sums.old.items
        → sum.day ≤ day → All (λ s. s.day ≤ day) sums.new.items) }
{
    match sums.last_mut() {
        Some(last) if last.day == sum.day => {
            last.cents = add_cents(last.cents, sum.cents)?;
            Ok(())
        }
        _ => {
            sums.push(sum)?;
            Ok(())
        }
    }
}

/// The day sums of pay runs in the order of their paydays: rising days, and none that is zero.
/// `Failed` where an amount is more than a `u64` of cents, `Memory` where there is none.
pub fn sums_of(alloc: Global, runs: &[PayRun]) -> Result<Vec<DaySum>, StoreFault>
    ensures same { IfOk result (λ sums. (day : ℕ) → liability sums.items day day ≡ sum_by
        (owed_on day) runs.now) }
    ensures positive { IfOk result (λ sums. ArePositive sums.items) }
    ensures rise { IfOk result (λ sums. IsNonDecreasingBy (λ r. r.payday) runs.now
        → DaysRise sums.items) }
{
    let mut sums = Vec::new(alloc);
    for run in runs {
        let sum = sum_of(*run)?;
        if sum.cents.0 > 0 {
            add_sum(&mut sums, sum)?;
        }
    }
    Ok(sums)
}

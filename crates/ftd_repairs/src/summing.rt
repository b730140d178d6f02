//! A run is added to day sums.

ghost use Rattle.std.specs.Prelude.{◌≡◌, ◌+◌, ℕ, OnOk};
ghost use Rattle.ftd_machine.specs.History.{liability_of};
ghost use Rattle.ftd_rules.specs.Liability.{share, liability};
ghost use Rattle.ftd_repairs.specs.Reposted.{AddsRun};

use ftd_rules::{DaySum, PayRun};
use ftd_store::{StoreFault, add_cents, sum_of};

/// Adds an amount to the sum of its day, or in the place of that day where there is none. `Failed`
/// where they are more than a `u64` of cents, `Memory` where there is none.
fn add_sum(sums: &mut Vec<DaySum>, sum: DaySum) -> Result<(), StoreFault>
    ensures { OnOk result ((from to : ℕ) → liability sums.new.items from to
        ≡ liability sums.old.items from to + share from to sum) }
{
    let at = sums.partition_point(|other| other.day < sum.day);
    if at < sums.len() && sums[at].day == sum.day {
        sums[at].cents = add_cents(sums[at].cents, sum.cents)?;
        return Ok(());
    }
    sums.insert(at, sum)?;
    Ok(())
}

/// Adds the liability of a run to the sums. `Failed` where an amount is more than a `u64` of cents,
/// `Memory` where there is none.
pub(crate) fn add_run_to(sums: &mut Vec<DaySum>, run: &PayRun) -> Result<(), StoreFault>
    ensures { OnOk result (AddsRun run.now sums.old.items sums.new.items) }
{
    let sum = sum_of(*run)?;
    add_sum(sums, sum)
}

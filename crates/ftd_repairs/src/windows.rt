//! The day sums of one window, read from the tables or taken from those that are known.

ghost use Rattle.std.specs.Prelude.{◌≡◌, ◌+◌, ◌<◌, IfOk, IfSome};
ghost use Rattle.std.specs.List.{sum_by};
ghost use Rattle.ftd_rules.specs.Liability.{cents_of, SumsRise};
ghost use Rattle.ftd_store.specs.Frame.{Reads};
ghost use Rattle.ftd_repairs.specs.Repaired.{AreLiveIn, AreWithin};

use ftd_buckets::Window;
use ftd_rules::{AMOUNTS_END, DaySum};
use ftd_store::{StoreFault, Tx};
use sqlite::Alter;
use std::alloc::{AllocError, Global};

/// The day sums of a window.
#[derive(Drop)]
pub(crate) struct WindowSums {
    pub sums: Vec<DaySum>,
    /// The amount of these sums and of those of all windows before, in cents.
    pub total: u64,
}

/// The amount together with that of the sums, or None where it reaches 60,000,000,000,000.00.
fn total_with(before: u64, sums: &[DaySum]) -> Option<u64>
    requires { before < AMOUNTS_END }
    ensures total { IfSome result (λ total. total ≡ before + sum_by cents_of sums.now) }
    ensures small { IfSome result (λ total. total < AMOUNTS_END) }
{
    let mut total = before;
    for sum in sums {
        if AMOUNTS_END - total <= sum.cents.0 {
            return None;
        }
        total += sum.cents.0;
    }
    Some(total)
}

/// The sums as those of the window. None where they do not rise within it, and where the amounts
/// with those before reach 60,000,000,000,000.00.
fn tested(window: Window, sums: Vec<DaySum>, before: u64) -> Option<WindowSums>
    requires { before < AMOUNTS_END }
    ensures same { IfSome result (λ read. read.sums.items ≡ sums.items) }
    ensures rise { IfSome result (λ read. SumsRise window.from window.to read.sums.items) }
    ensures total { IfSome result (λ read. read.total ≡ before + sum_by cents_of read.sums.items) }
    ensures small { IfSome result (λ read. read.total < AMOUNTS_END) }
{
    if !window.has_rising(&sums) {
        return None;
    }
    let total = total_with(before, &sums)?;
    Some(WindowSums { sums, total })
}

/// The account's day sums of the window, which rise within it. `Failed` also where the days do not
/// rise, and where the amounts with those before reach 60,000,000,000,000.00.
pub(crate) fn window_sums<S: Alter>(
    tx: &mut Tx<'_, S>,
    alloc: Global,
    account: &str,
    window: Window,
    before: u64,
) -> Result<WindowSums, StoreFault>
    requires { before < AMOUNTS_END }
    ensures call { Reads S.Store tx.old tx.new result
        (λ read t. AreLiveIn account.now t window read.sums.items) }
    ensures rise { IfOk result (λ read. SumsRise window.from window.to read.sums.items) }
    ensures total { IfOk result (λ read. read.total ≡ before + sum_by cents_of read.sums.items) }
    ensures small { IfOk result (λ read. read.total < AMOUNTS_END) }
{
    let sums = tx.day_sums(alloc, account, window.from, window.to)?;
    match tested(window, sums, before) {
        Some(read) => Ok(read),
        None => tx.give_up(StoreFault::Failed),
    }
}

/// The sums of the days of the window.
fn sums_in(alloc: Global, sums: &[DaySum], window: &Window) -> Result<Vec<DaySum>, AllocError>
    ensures { IfOk result (λ within. AreWithin window.now sums.now within.items) }
{
    let mut within = Vec::new(alloc);
    for sum in sums {
        if window.from <= sum.day && sum.day <= window.to {
            within.push(*sum)?;
        }
    }
    Ok(within)
}

/// Of the known day sums those of the window, which rise within it. `Failed` where the days do not
/// rise, and where the amounts with those before reach 60,000,000,000,000.00.
pub(crate) fn known_sums(
    alloc: Global,
    sums: &[DaySum],
    window: Window,
    before: u64,
) -> Result<WindowSums, StoreFault>
    requires { before < AMOUNTS_END }
    ensures within { IfOk result (λ known. AreWithin window sums.now known.sums.items) }
    ensures rise { IfOk result (λ known. SumsRise window.from window.to known.sums.items) }
    ensures total { IfOk result (λ known. known.total ≡ before + sum_by cents_of known.sums.items) }
    ensures small { IfOk result (λ known. known.total < AMOUNTS_END) }
{
    let within = sums_in(alloc, sums, &window)?;
    tested(window, within, before).ok_or(StoreFault::Failed)
}

//! The rules of deposits as functions for C, over plain numbers, and a desk in memory that answers
//! messages of HTTP. A day is the number of days after 1 January 1900. Holidays are those of the
//! year of a deposit's last day and those of the next year, each rising. No function keeps
//! anything.
#![tactic(auto)]

ghost use Rattle.std.specs.Prelude.{◌≡◌, ◌⊎◌, ◌++◌, ℕ, IfOk, IsErrOf, IsSome};
ghost use Rattle.ftd_days.specs.Calendar.{IsDate};
ghost use Rattle.ftd_c.specs.Calls.{IsAsked, IsDueBy, IsMakeupBy, IsReturnBy};
ghost use Rattle.ftd_c.specs.Calls.{form_of, no_memory, out_of_range, rule_of};

mod asked;
mod codes;
mod office;
mod verdicts;

use crate::asked::day_and_holidays;
use crate::codes::{CallFault, form_of, number_of, rule_of};
use ftd_days::Day;
use ftd_rules::due_of;
use std::alloc::Global;

/// The number of the day of a year, month (from 1) and day of the month (from 1). 4294967295 where
/// the calendar has no such day from 1900 to 2199.
#[unsafe(no_mangle)]
pub extern "C" fn ftd_day(year: u32, month: u32, day: u32) -> u32
    ensures day { (result ≡ out_of_range) ⊎ IsDate result year month day }
    ensures range { result ≡ out_of_range → (found : ℕ) → ¬ IsDate found year month day }
{
    number_of(Day::on_date(year, month, day).ok_or(CallFault::OutOfRange))
}

/// The due date of a deposit.
fn due(
    alloc: Global,
    rule: u8,
    last: u32,
    this_year: &[u32],
    next_year: &[u32],
) -> Result<Day, CallFault>
    ensures due { IfOk result (IsDueBy (this_year.now ++ next_year.now) rule last) }
    ensures range { IsErrOf result CallFault.OutOfRange
        → ¬ (IsSome (rule_of rule) × IsAsked last this_year.now next_year.now) }
{
    let rule = rule_of(rule)?;
    let (last, holidays) = day_and_holidays(alloc, last, this_year, next_year)?;
    Ok(due_of(rule, last, &holidays))
}

/// When a deposit for days up to `last` is due: `rule` is 0 for monthly, 1 for semiweekly and 2 for
/// next-day. 4294967295 where an argument is out of range, 4294967294 where memory was refused.
#[unsafe(no_mangle)]
pub extern "C" fn ftd_due(
    alloc: Global,
    rule: u8,
    last: u32,
    this_year: &[u32],
    next_year: &[u32],
) -> u32
    ensures due { (result ≡ out_of_range) ⊎ (result ≡ no_memory)
        ⊎ IsDueBy (this_year.now ++ next_year.now) rule last result }
    ensures range { result ≡ out_of_range
        → ¬ (IsSome (rule_of rule) × IsAsked last this_year.now next_year.now) }
{
    number_of(due(alloc, rule, last, this_year, next_year))
}

/// The due date of a return.
fn return_due(
    alloc: Global,
    form: u16,
    last: u32,
    this_year: &[u32],
    next_year: &[u32],
) -> Result<Day, CallFault>
    ensures due { IfOk result (IsReturnBy (this_year.now ++ next_year.now) form last) }
    ensures range { IsErrOf result CallFault.OutOfRange
        → ¬ (IsSome (form_of form) × IsAsked last this_year.now next_year.now) }
{
    let form = form_of(form)?;
    let (last, holidays) = day_and_holidays(alloc, last, this_year, next_year)?;
    Ok(ftd_rules::return_due(form, last.quarter(), &holidays))
}

/// When the return for the quarter of `last` is due, for `form` 943 that for its year. 4294967295
/// where an argument is out of range, 4294967294 where memory was refused.
#[unsafe(no_mangle)]
pub extern "C" fn ftd_return_due(
    alloc: Global,
    form: u16,
    last: u32,
    this_year: &[u32],
    next_year: &[u32],
) -> u32
    ensures due { (result ≡ out_of_range) ⊎ (result ≡ no_memory)
        ⊎ IsReturnBy (this_year.now ++ next_year.now) form last result }
    ensures range { result ≡ out_of_range
        → ¬ (IsSome (form_of form) × IsAsked last this_year.now next_year.now) }
{
    number_of(return_due(alloc, form, last, this_year, next_year))
}

/// The makeup date of a deposit.
fn makeup(
    alloc: Global,
    form: u16,
    rule: u8,
    last: u32,
    this_year: &[u32],
    next_year: &[u32],
) -> Result<Day, CallFault>
    ensures makeup { IfOk result (IsMakeupBy (this_year.now ++ next_year.now) form rule last) }
    ensures range { IsErrOf result CallFault.OutOfRange → ¬ (IsSome (form_of form)
        × IsSome (rule_of rule) × IsAsked last this_year.now next_year.now) }
{
    let (form, rule) = (form_of(form)?, rule_of(rule)?);
    let (last, holidays) = day_and_holidays(alloc, last, this_year, next_year)?;
    let due = due_of(rule, last, &holidays);
    Ok(ftd_rules::makeup(form, rule, last, due, &holidays))
}

/// Until when a tolerated shortfall of a deposit for days up to `last` can be made up. 4294967295
/// where an argument is out of range, 4294967294 where memory was refused.
#[unsafe(no_mangle)]
pub extern "C" fn ftd_makeup(
    alloc: Global,
    form: u16,
    rule: u8,
    last: u32,
    this_year: &[u32],
    next_year: &[u32],
) -> u32
    ensures makeup { (result ≡ out_of_range) ⊎ (result ≡ no_memory)
        ⊎ IsMakeupBy (this_year.now ++ next_year.now) form rule last result }
    ensures range { result ≡ out_of_range → ¬ (IsSome (form_of form)
        × IsSome (rule_of rule) × IsAsked last this_year.now next_year.now) }
{
    number_of(makeup(alloc, form, rule, last, this_year, next_year))
}

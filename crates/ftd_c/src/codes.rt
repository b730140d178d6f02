//! What C has as numbers.

ghost use Rattle.std.specs.Prelude.{◌≡◌, ◌≤◌, MatchResult, None, Some};
ghost use Rattle.ftd_days.specs.Calendar.{last_day};
ghost use Rattle.ftd_c.specs.Calls.{form_of, rule_of};
ghost use Rattle.ftd_c.specs.Faults.{code_of};

use ftd_days::{CalendarFault, DAYS_TO_1970, Day, LAST_DAY};
use ftd_rules::{Form, Rule};
use std::alloc::AllocFailed;

/// Why there is no answer.
#[derive(Clone, Copy, Debug, PartialEq, Eq)]
pub enum CallFault {
    /// An argument is out of range.
    OutOfRange,
    /// Memory was refused.
    Memory,
}

impl From<CalendarFault> for CallFault {
    ghost use Rattle.std.specs.Prelude.{◌≡◌};
    ghost use Rattle.ftd_c.specs.Faults.{call_fault};

    ghost from_gives = { λ fault e. e ≡ call_fault fault };

    fn from(fault: CalendarFault) -> CallFault {
        match fault {
            CalendarFault::BadCalendar => CallFault::OutOfRange,
            CalendarFault::Memory => CallFault::Memory,
        }
    }
}

impl<T: Drop> From<AllocFailed<T>> for CallFault {
    ghost use Rattle.std.specs.Prelude.{◌≡◌};
    ghost use Rattle.ftd_c.specs.declared.codes.CallFault.TheVariants.{Memory};

    ghost from_gives = { λ _ e. e ≡ Memory };

    fn from(_refused: AllocFailed<T>) -> CallFault {
        CallFault::Memory
    }
}

/// The day of a number.
pub fn day_of(number: u32) -> Result<Day, CallFault>
    ensures { MatchResult result (λ day. (day ≡ number) × (number ≤ last_day))
        (λ fault. (fault ≡ CallFault.OutOfRange) × ¬ (number ≤ last_day)) }
{
    if number > LAST_DAY {
        return Err(CallFault::OutOfRange);
    }
    Ok(Day::first_of_month(0).plus(number))
}

/// The number of a day, or that of the fault.
pub fn number_of(day: Result<Day, CallFault>) -> u32
    ensures { MatchResult day (λ it. (result ≡ it) × (it ≤ last_day))
        (λ fault. result ≡ code_of fault) }
{
    match day {
        Ok(day) => (day.number() + DAYS_TO_1970) as u32,
        Err(CallFault::OutOfRange) => u32::MAX,
        Err(CallFault::Memory) => u32::MAX - 1,
    }
}

/// The rule of a code.
pub fn rule_of(code: u8) -> Result<Rule, CallFault>
    ensures { MatchResult result (λ rule. rule_of code ≡ Some rule)
        (λ fault. (fault ≡ CallFault.OutOfRange) × (rule_of code ≡ None)) }
{
    match code {
        0 => Ok(Rule::Monthly),
        1 => Ok(Rule::Semiweekly),
        2 => Ok(Rule::NextDay),
        _ => Err(CallFault::OutOfRange),
    }
}

/// The form of its number.
pub fn form_of(number: u16) -> Result<Form, CallFault>
    ensures { MatchResult result (λ form. form_of number ≡ Some form)
        (λ fault. (fault ≡ CallFault.OutOfRange) × (form_of number ≡ None)) }
{
    match number {
        941 => Ok(Form::F941),
        943 => Ok(Form::F943),
        _ => Err(CallFault::OutOfRange),
    }
}

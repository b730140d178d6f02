//! The verdict on a deposit.

ghost use Rattle.std.specs.Prelude.{◌≡◌, ◌⊎◌, MatchResult};
ghost use Rattle.ftd_c.specs.Verdicts.{IsVerdictBy, MayBeJudged, case_of};

use crate::codes::{CallFault, day_of};
use ftd_days::Cents;
use ftd_rules::{AMOUNTS_END, Case, Verdict};

/// What the verdict on a deposit depends on: amounts in cents, days as numbers.
#[repr(C)]
pub struct FtdCase {
    /// The amount of the deposit.
    pub cents: u64,
    /// What was paid for it up to its due date, and up to the day as of which it is asked.
    pub paid_due: u64,
    /// What was paid for it up to its makeup date, and up to that day.
    pub paid_makeup: u64,
    /// Its due date.
    pub due: u32,
    /// Its makeup date.
    pub makeup: u32,
    /// The due date of the return of its quarter.
    pub return_due: u32,
    /// The day as of which the verdict is asked.
    pub as_of: u32,
    /// Whether its quarter may be paid with the return.
    pub small: bool,
    /// Whether the payments up to the return reach the quarter's total.
    pub quarter_paid: bool,
}

/// The case as the rules have it.
fn case_of(case: &FtdCase) -> Result<Case, CallFault>
    ensures { MatchResult result (λ it. (it ≡ case_of case.now) × MayBeJudged case.now)
        (λ fault. ¬ MayBeJudged case.now) }
{
    if case.cents >= AMOUNTS_END {
        return Err(CallFault::OutOfRange);
    }
    Ok(Case {
        cents: Cents(case.cents),
        due: day_of(case.due)?,
        makeup: day_of(case.makeup)?,
        return_due: day_of(case.return_due)?,
        as_of: day_of(case.as_of)?,
        paid_due: Cents(case.paid_due),
        paid_makeup: Cents(case.paid_makeup),
        small: case.small,
        quarter_paid: case.quarter_paid,
    })
}

/// The verdict: 0 for met, 1 for with-return, 2 for open, 3 for made-up, 4 for short, 5 for late.
/// 255 where a day is none, or the amount is 60,000,000,000,000.00 or more.
#[unsafe(no_mangle)]
pub extern "C" fn ftd_verdict(case: &FtdCase) -> u8
    ensures verdict { (result ≡ 255) ⊎ IsVerdictBy case.now result }
    ensures range { result ≡ 255 → ¬ MayBeJudged case.now }
{
    match case_of(case) {
        Ok(case) => match case.verdict() {
            Verdict::Met => 0,
            Verdict::WithReturn => 1,
            Verdict::Open => 2,
            Verdict::MadeUp => 3,
            Verdict::Short => 4,
            Verdict::Late => 5,
        },
        Err(_) => 255,
    }
}

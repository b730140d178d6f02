//! The deposit schedule of a day, and why (Pub. 15, section 11, "When To Deposit").

ghost use Rattle.std.specs.Prelude.{◌≡◌, ℕ, true, IsSomeAnd, MatchOption};
ghost use Rattle.std.specs.List.{list_any};
ghost use Rattle.ftd_days.specs.Calendar.{year_of};
ghost use Rattle.ftd_rules.specs.Lists.{Has};
ghost use Rattle.ftd_rules.specs.Years.{HasSchedule, HasStatusOn};
ghost use Rattle.ftd_store.specs.Frame.{Calls};
ghost use Rattle.ftd_machine.specs.Asking.{HasNoTurnBefore, IsReason, IsTurnBefore};
ghost use Rattle.ftd_machine.specs.declared.requests.Question.TheVariants.{Status};
ghost use Rattle.ftd_machine.specs.declared.requests.Request.TheVariants.{Question};
ghost use Rattle.ftd_entries.specs.Opening.{is_line_of};
ghost use Rattle.ftd_entries.specs.Words.{Serves};
ghost use Rattle.ftd_kept.specs.Schedules.{AreScheduled, IsScheduleBy, IsStatusBy};

use ftd_days::Day;
use ftd_entries::{has_year, known_account};
use ftd_machine::{Answer, DaySchedule, Facts, Reason, Refusal, Reply, status_check};
use ftd_rules::{Kind, MONTHLY_LIMIT, YearLine};
use ftd_store::{StoreFault, Tx};
use sqlite::Alter;
use std::alloc::Global;

/// The deposit schedule of a day.
#[derive(Clone, Copy)]
pub(crate) struct Schedule {
    /// The schedule.
    pub kind: Kind,
    /// Why the account has it.
    pub reason: Reason,
}

/// Tells the account's deposit schedule on the day, and why.
pub fn status<S: Alter>(
    tx: &mut Tx<'_, S>,
    alloc: Global,
    name: &str,
    day: Day,
) -> Result<Answer, StoreFault>
    ensures call { Calls S.Store tx.old tx.new result (Serves (Question (Status name.now day))) }
{
    let account = known_account(tx, alloc, name)?;
    let lines = tx.years(alloc, name)?;
    let there = has_year(&lines, day.year());
    if let Err(answer) = status_check(name, day, account, there) {
        return Ok(answer);
    }
    Ok(status_by(&lines, day))
}

/// The schedule of the day by the lines of the open years. `YearNotOpen` where its year is not
/// open.
fn status_by(lines: &[YearLine], day: Day) -> Answer
    ensures { list_any (is_line_of (year_of day)) lines.now ≡ true → AreScheduled lines.now
        → IsStatusBy lines.now day result }
{
    match schedule_on(lines, day) {
        Some(Schedule { kind, reason }) => {
            Ok(Reply::Told(Facts::Status(DaySchedule { day, kind, reason })))
        }
        None => Err(Refusal::YearNotOpen(day.year())),
    }
}

/// The schedule of the day, and why the account has it, by the lines of the open years. None where
/// its year is not open.
pub(crate) fn schedule_on(lines: &[YearLine], day: Day) -> Option<Schedule>
    ensures { list_any (is_line_of (year_of day)) lines.now ≡ true → AreScheduled lines.now
        → IsSomeAnd result (IsScheduleBy lines.now day) }
{
    let line = line_of(lines, day.year())?;
    let kind = kind_on(line, day);
    let reason = reason(lines, line, kind);
    Some(Schedule { kind, reason })
}

/// The line of the year.
fn line_of(lines: &[YearLine], year: u32) -> Option<&YearLine>
    ensures { MatchOption result
        ((line : _) → Has lines.now line → line.year ≡ year → ⊥)
        (λ line. Has lines.now line.now × (line.now.year ≡ year)) }
{
    lines.iter().find(|line| line.year == year)
}

/// The schedule of a day of the line's year.
fn kind_on(line: &YearLine, day: Day) -> Kind
    ensures { HasStatusOn line.now day result }
{
    match line.turn {
        Some(turn) if turn < day => Kind::Semiweekly,
        _ => line.opening,
    }
}

/// Why the account has this schedule: the first that holds of the lookback total, the turn of the
/// year before, that the account is carried into the year, and the turn of the year.
fn reason(lines: &[YearLine], line: &YearLine, kind: Kind) -> Reason
    ensures { (day : ℕ) (liability : ℕ → ℕ → ℕ) → HasSchedule lines.now liability line.now
        → HasStatusOn line.now day kind → IsReason lines.now line.now kind result }
{
    if kind == Kind::Monthly || MONTHLY_LIMIT < line.lookback.0 {
        return Reason::Lookback;
    }
    if let Some(turn) = turn_before(lines, line.year) {
        return Reason::Turned(turn);
    }
    match line.turn {
        Some(turn) if !line.carried => Reason::Turned(turn),
        _ => Reason::Carried,
    }
}

/// The turn of the year before.
fn turn_before(lines: &[YearLine], year: u32) -> Option<Day>
    ensures { (line : _) → line.year ≡ year → MatchOption result (HasNoTurnBefore lines.now line)
        (IsTurnBefore lines.now line) }
{
    lines
        .iter()
        .find(|line| line.year < year && year - line.year == 1 && line.turn.is_some())?
        .turn
}

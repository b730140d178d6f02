//! The deposit schedule of a day, in a format.

ghost use Rattle.std.specs.Prelude.{◌≡◌, ◌++◌, Some, map};
ghost use Rattle.ftd_ports.specs.Writing.{Writes};
ghost use Rattle.ftd_answers.specs.Fields.{member_of, members_of, object_told};
ghost use Rattle.ftd_answers.specs.Schedules.{reason_fields, schedule_as, turn_field};

use crate::explanations::{reason_name, turn_of, write_schedule};
use crate::{Format, ListFormat, Value, write_object};
use ftd_days::Day;
use ftd_machine::DaySchedule;
use ftd_ports::{Target, WriteFault, write_all};

/// The day, its deposit schedule, and why.
fn schedule_members<'a>(schedule: &DaySchedule) -> [(&'a str, Value<'a>); 3]
    ensures { map member_of result ≡ members_of (reason_fields schedule.now) }
{
    let why = reason_name(&schedule.reason);
    [
        ("day", Value::Day(schedule.day)),
        ("kind", Value::Kind(schedule.kind)),
        ("reason", Value::Text(why)),
    ]
}

/// The same, and the day on which 100,000.00 was reached.
fn turn_members<'a>(schedule: &DaySchedule, turn: Day) -> [(&'a str, Value<'a>); 4]
    ensures { map member_of result ≡ members_of
        (reason_fields schedule.now ++ turn_field (Some turn)) }
{
    let why = reason_name(&schedule.reason);
    [
        ("day", Value::Day(schedule.day)),
        ("kind", Value::Kind(schedule.kind)),
        ("reason", Value::Text(why)),
        ("turn", Value::Day(turn)),
    ]
}

/// Writes the deposit schedule of a day, why the account has it, and the day on which 100,000.00
/// was reached, if that is why, as an object of JSON.
#[tactic(auto, unfolding(crate::specs::Fields::object_told))]
fn write_object_of<W: Target>(
    schedule: &DaySchedule,
    turn: Option<Day>,
    target: &mut W,
) -> Result<(), WriteFault>
    ensures { Writes result (W.taken target.old) (W.taken target.new) (W.failed target.new)
        (object_told (reason_fields schedule.now ++ turn_field turn)) }
{
    match turn {
        None => write_object(&schedule_members(schedule), target),
        Some(turn) => write_object(&turn_members(schedule, turn), target),
    }
}

/// Writes the deposit schedule of a day, and why the account has it, in a format: as text or as
/// JSON. It has no other: in each of them nothing is written. Where the target fails, a prefix of
/// the text was written, and it fails nowhere else.
pub fn write_schedule_as<W: Target>(
    format: Format,
    schedule: &DaySchedule,
    target: &mut W,
) -> Result<(), WriteFault>
    ensures { Writes result (W.taken target.old) (W.taken target.new)
        (W.failed target.new) (schedule_as format schedule.now) }
{
    match format {
        Format::List(ListFormat::Text) => {
            write_schedule(schedule.day, schedule.kind, schedule.reason, target)
        }
        Format::List(ListFormat::Json) => {
            write_object_of(schedule, turn_of(&schedule.reason), target)
        }
        Format::List(ListFormat::Csv) | Format::Calendar => write_all(target, b""),
    }
}

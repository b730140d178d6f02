//! The deposit schedule of a day.

ghost use Rattle.std.specs.Prelude.{[]};
ghost use Rattle.std.specs.List.{flat_map};
ghost use Rattle.ftd_ports.specs.Writing.{Writes};
ghost use Rattle.ftd_pages.specs.Pages.{page_of};
ghost use Rattle.ftd_pages.specs.Escapes.{shown};
ghost use Rattle.ftd_pages.specs.Schedules.{schedule_at, schedule_part, schedule_shape};

use crate::columns::{DAY, KIND, REASON, TURN};
use crate::feet::Foot;
use crate::frames::{Frame, Place, Ways};
use crate::pages::{Page, write_end, write_start};
use crate::rows::{Class, PageRow, Part, write_fields};
use crate::sections::write_section;
use crate::statements::{reason_statement, write_statement};
use ftd_answers::{Value, reason_name, turn_of};
use ftd_machine::DaySchedule;
use ftd_ports::{Target, WriteFault};

impl PageRow for DaySchedule {
    ghost shape = { λ account. schedule_shape };

    fn write_part<W: Target>(
        &self,
        account: &str,
        part: Part,
        target: &mut W,
    ) -> Result<(), WriteFault> {
        let fields = [
            (DAY, Value::Day(self.day)),
            (KIND, Value::Kind(self.kind)),
            (REASON, Value::Text(reason_name(&self.reason))),
            (TURN, Value::DayOrNone(turn_of(&self.reason))),
        ];
        write_fields(part, Class::Plain, &fields, target)
    }
}

/// Writes the deposit schedule of a day, and the rule by which the account has it, as a part of a
/// page. Where the target fails, a prefix of that was written, and it fails nowhere else.
#[tactic(auto, using(ftd_ports::proofs::WritingFacts::written_in_parts), unfolding(crate::specs::Schedules::schedule_part))]
pub fn write_schedule_part<W: Target>(
    title: &[Value<'_>],
    schedule: &DaySchedule,
    target: &mut W,
) -> Result<(), WriteFault>
    ensures { Writes result (W.taken target.old) (W.taken target.new) (W.failed target.new)
        (schedule_part (flat_map shown title.now) schedule.now) }
{
    let list = Page {
        title,
        sentence: "",
        account: "",
        foot: Foot::Nothing,
    };
    write_section(Ways::Nowhere, &list, &[*schedule], target)?;
    write_statement(&reason_statement(schedule.kind, schedule.reason), target)
}

/// Writes it as a page of its own.
fn write_schedule_page<W: Target>(
    frame: &Frame,
    title: &[Value<'_>],
    schedule: &DaySchedule,
    target: &mut W,
) -> Result<(), WriteFault>
    ensures { Writes result (W.taken target.old) (W.taken target.new) (W.failed target.new)
        (page_of frame.now [] (flat_map shown title.now)
        (schedule_part (flat_map shown title.now) schedule.now)) }
{
    write_start(frame, "", title, target)?;
    write_schedule_part(title, schedule, target)?;
    write_end(target)
}

/// Writes the deposit schedule of a day, and the rule by which the account has it, at its place. It
/// takes no memory but what the target takes. Where the target fails, a prefix of that was written,
/// and it fails nowhere else.
pub fn write_schedule<W: Target>(
    place: &Place,
    schedule: &DaySchedule,
    target: &mut W,
) -> Result<(), WriteFault>
    ensures { Writes result (W.taken target.old) (W.taken target.new)
        (W.failed target.new) (schedule_at place.now schedule.now) }
{
    let title = [
        Value::Text("Deposit schedule on "),
        Value::Day(schedule.day),
    ];
    match place {
        Place::Alone(frame) => write_schedule_page(frame, &title, schedule, target),
        Place::Section(_) => write_schedule_part(&title, schedule, target),
    }
}

//! What is told, in a format.

ghost use Rattle.ftd_ports.specs.Writing.{Writes};
ghost use Rattle.ftd_machine.specs.Questions.{AreBounded};
ghost use Rattle.ftd_answers.specs.Facts.{facts_text};

use crate::Format;
use crate::explanations::write_explanation_as;
use crate::formats::{write_agenda_as, write_b_as, write_due_as, write_owed_as};
use crate::listings::write_kept_as;
use crate::schedules::write_schedule_as;
use crate::unapplied::write_unapplied_as;
use ftd_machine::Facts;
use ftd_ports::{Target, WriteFault};

/// Writes what is told, in a format. A list that has no calendar is written as text where one is
/// asked for. It takes no memory but what the target takes. Where the target fails, a prefix of the
/// text was written, and it fails nowhere else.
pub fn write_facts<W: Target>(
    format: Format,
    facts: &Facts,
    target: &mut W,
) -> Result<(), WriteFault>
    requires bounded { AreBounded facts.now }
    ensures { Writes result (W.taken target.old) (W.taken target.new)
        (W.failed target.new) (facts_text format facts.now) }
{
    match facts {
        Facts::Status(schedule) => write_schedule_as(format, schedule, target),
        Facts::Explained(explained) => write_explanation_as(format, explained, target),
        Facts::Due(list) => write_due_as(format.of_list(), list, target),
        Facts::Days(list) => write_b_as(format.of_list(), list, target),
        Facts::Agenda(agenda) => write_agenda_as(format, agenda, target),
        Facts::Owed(owed) => write_owed_as(format, owed, target),
        Facts::Unapplied(unapplied) => write_unapplied_as(format.of_list(), unapplied, target),
        Facts::Kept(rows) => write_kept_as(format.of_list(), rows, target),
    }
}

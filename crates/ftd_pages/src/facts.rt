//! What is told, at its place.

ghost use Rattle.ftd_ports.specs.Writing.{Writes};
ghost use Rattle.ftd_pages.specs.Facts.{facts_at, facts_page};

use crate::days::write_days;
use crate::dues::{write_agenda, write_due, write_owed};
use crate::explanations::write_explanation;
use crate::frames::{Frame, Place};
use crate::kept::write_kept;
use crate::schedules::write_schedule;
use crate::unapplied::write_unapplied;
use ftd_machine::Facts;
use ftd_ports::{Target, WriteFault};

/// Writes what is told at its place: as a page of its own, or as a section. It takes no memory but
/// what the target takes. Where the target fails, a prefix of that was written, and it fails
/// nowhere else.
pub fn write_facts_at<W: Target>(
    place: &Place,
    facts: &Facts,
    target: &mut W,
) -> Result<(), WriteFault>
    ensures { Writes result (W.taken target.old) (W.taken target.new)
        (W.failed target.new) (facts_at place.now facts.now) }
{
    match facts {
        Facts::Status(schedule) => write_schedule(place, schedule, target),
        Facts::Explained(explained) => write_explanation(place, explained, target),
        Facts::Due(list) => write_due(place, list, target),
        Facts::Days(list) => write_days(place, list, target),
        Facts::Agenda(agenda) => write_agenda(place, agenda, target),
        Facts::Owed(owed) => write_owed(place, owed, target),
        Facts::Unapplied(unapplied) => write_unapplied(place, unapplied, target),
        Facts::Kept(rows) => write_kept(place, rows, target),
    }
}

/// Writes what is told, as a page. It takes no memory but what the target takes. Where the target
/// fails, a prefix of the page was written, and it fails nowhere else.
pub fn write_facts_page<W: Target>(
    frame: &Frame,
    facts: &Facts,
    target: &mut W,
) -> Result<(), WriteFault>
    ensures { Writes result (W.taken target.old) (W.taken target.new)
        (W.failed target.new) (facts_page frame.now facts.now) }
{
    let alone = Place::Alone(Frame {
        style: frame.style,
        ways: frame.ways,
    });
    write_facts_at(&alone, facts, target)
}

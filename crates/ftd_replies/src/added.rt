//! What is said below a reply of the obligations that were added, and of the years that are on
//! another schedule.

ghost use Rattle.ftd_ports.specs.Writing.{Writes};
ghost use Rattle.ftd_replies.specs.Added.{added_cents, added_days, added_note, added_notes};
ghost use Rattle.ftd_replies.specs.Added.{changes_text, due_end, more_note, schedule_note};

use crate::notes::write_amount_so;
use ftd_answers::{RowFormat, day_bytes, rule_name, write_rows};
use ftd_machine::Difference;
use ftd_ports::{Target, WriteFault, write_all, write_pieces};
use ftd_rules::{Kind, Obligation, YearLine};
use itoa::Buffer;

/// So many obligations have a line each.
const MOST_NOTES: usize = 20;

/// Writes the days of an obligation that was added, and its rule.
fn write_days<W: Target>(row: &Obligation, target: &mut W) -> Result<(), WriteFault>
    ensures { Writes result (W.taken target.old) (W.taken target.new)
        (W.failed target.new) (added_days row.now) }
{
    let first = day_bytes(row.first);
    let last = day_bytes(row.last);
    let rule = rule_name(row.rule);
    write_pieces(
        target,
        &[b"note: added ", &first, b" to ", &last, b", ", rule],
    )
}

/// Writes its amount, and what is before its due date.
fn write_cents<W: Target>(row: &Obligation, target: &mut W) -> Result<(), WriteFault>
    ensures { Writes result (W.taken target.old) (W.taken target.new)
        (W.failed target.new) (added_cents row.now) }
{
    write_amount_so(u128::from(row.cents.0), b", due ", target)
}

/// Writes its due date, to the end of the line.
fn write_due<W: Target>(row: &Obligation, target: &mut W) -> Result<(), WriteFault>
    ensures { Writes result (W.taken target.old) (W.taken target.new)
        (W.failed target.new) (due_end row.now) }
{
    let due = day_bytes(row.due);
    write_pieces(target, &[&due, b"\n"])
}

/// A line for an obligation that was added.
#[derive(Drop)]
struct AddedNotes;

// Its days, its rule, its amount and its due date.
impl RowFormat<Obligation> for AddedNotes {
    ghost row_text = { λ notes row. added_note row };

    #[tactic(auto, using(ftd_ports::proofs::WritingFacts::written_in_parts), unfolding(crate::specs::Added::added_note))]
    fn write_row<W: Target>(&self, row: &Obligation, target: &mut W) -> Result<(), WriteFault> {
        write_days(row, target)?;
        write_cents(row, target)?;
        write_due(row, target)
    }
}

/// Writes how many more obligations there are, if there are any.
fn write_more<W: Target>(more: &[Obligation], target: &mut W) -> Result<(), WriteFault>
    ensures { Writes result (W.taken target.old) (W.taken target.new)
        (W.failed target.new) (more_note more.now) }
{
    match more {
        [] => write_all(target, b""),
        [_, ..] => {
            let mut digits = Buffer::new();
            let count = digits.format(more.len()).as_bytes();
            write_pieces(target, &[b"note: and ", count, b" more\n"])
        }
    }
}

/// Writes a line for each of the obligations that were added, at most 20, and how many more there
/// are.
#[tactic(auto, using(ftd_ports::proofs::WritingFacts::written_in_parts), unfolding(crate::specs::Added::added_notes))]
fn write_added<W: Target>(added: &[Obligation], target: &mut W) -> Result<(), WriteFault>
    ensures { Writes result (W.taken target.old) (W.taken target.new)
        (W.failed target.new) (added_notes added.now) }
{
    if added.len() <= MOST_NOTES {
        return write_rows(&AddedNotes, added, target);
    }
    write_rows(&AddedNotes, &added[..MOST_NOTES], target)?;
    write_more(&added[MOST_NOTES..], target)
}

/// A line for a year that is on another schedule.
#[derive(Drop)]
struct ScheduleNotes;

// The year, and from when on it is semiweekly.
impl RowFormat<YearLine> for ScheduleNotes {
    ghost row_text = { λ notes line. schedule_note line };

    fn write_row<W: Target>(&self, line: &YearLine, target: &mut W) -> Result<(), WriteFault> {
        let mut digits = Buffer::new();
        let year = digits.format(line.year).as_bytes();
        match (line.opening, line.turn) {
            (Kind::Semiweekly, _) => write_pieces(
                target,
                &[b"note: ", year, b" is semiweekly from its first day\n"],
            ),
            (Kind::Monthly, None) => write_pieces(target, &[b"note: ", year, b" is monthly\n"]),
            (Kind::Monthly, Some(turn)) => {
                let day = day_bytes(turn);
                write_pieces(
                    target,
                    &[
                        b"note: ",
                        year,
                        b" is semiweekly after ",
                        &day,
                        b", when 100000.00 was reached\n",
                    ],
                )
            }
        }
    }
}

/// Writes what is said of how an account differs before and after a change: the obligations that
/// were added, and the years that are on another schedule.
#[tactic(auto, using(ftd_ports::proofs::WritingFacts::written_in_parts), unfolding(crate::specs::Added::changes_text))]
pub(crate) fn write_changes<W: Target>(
    difference: &Difference,
    target: &mut W,
) -> Result<(), WriteFault>
    ensures { Writes result (W.taken target.old) (W.taken target.new)
        (W.failed target.new) (changes_text difference.now) }
{
    write_added(difference.added.as_slice(), target)?;
    write_rows(&ScheduleNotes, difference.years.as_slice(), target)
}

//! What is said below a reply: lines that begin with `note: ` or `hint: `.

ghost use Rattle.std.specs.Prelude.{◌≡◌};
ghost use Rattle.std.specs.List.{list_any};
ghost use Rattle.ftd_ports.specs.Writing.{Writes};
ghost use Rattle.ftd_replies.specs.Below.{already_hint, below_text, depends, done_hint};
ghost use Rattle.ftd_replies.specs.Below.{entry_already};
ghost use Rattle.ftd_replies.specs.Below.{holidays_hint, told_hint};
ghost use Rattle.ftd_replies.specs.Below.{rows_hint};

use crate::added::write_changes;
use crate::hints::write_on;
use ftd_answers::{day_bytes, left_of};
use ftd_days::Day;
use ftd_machine::{AgendaRow, Entry, Facts, Reply, Request};
use ftd_ports::{Target, WriteFault, write_all};

/// Writes what is said of the days that a calendar was given with: if there are none, that this may
/// be a mistake.
fn write_holidays_hint<W: Target>(db: &str, days: &[Day], target: &mut W) -> Result<(), WriteFault>
    ensures { Writes result (W.taken target.old) (W.taken target.new)
        (W.failed target.new) (holidays_hint db.now days.now) }
{
    match days {
        [] => {
            let before = b"hint: no holidays: is that meant? ftd add-holiday --db ";
            write_on(before, db, b"DAY", b" adds one\n", target)
        }
        [_, ..] => write_all(target, b""),
    }
}

/// Writes what is said of a request that was done.
fn write_done_hint<W: Target>(db: &str, request: &Request, target: &mut W) -> Result<(), WriteFault>
    ensures { Writes result (W.taken target.old) (W.taken target.new)
        (W.failed target.new) (done_hint db.now request.now) }
{
    if let Request::Enter(Entry::Calendar { days, .. }) = request {
        write_holidays_hint(db, days.as_slice(), target)
    } else {
        write_all(target, b"")
    }
}

/// Writes what is said of an entry that was done before: a day that was given or added before may
/// be taken back since, and is no holiday then.
fn write_entry_already<W: Target>(db: &str, entry: &Entry, target: &mut W) -> Result<(), WriteFault>
    ensures { Writes result (W.taken target.old) (W.taken target.new)
        (W.failed target.new) (entry_already db.now entry.now) }
{
    if let Entry::Holiday { day } = entry {
        let before = b"hint: if the day was taken back, ftd change-holiday --db ";
        let text = day_bytes(*day);
        write_on(before, db, &text, b" yes\n", target)
    } else {
        write_all(target, b"")
    }
}

/// Writes what is said of a request that was done before.
fn write_already_hint<W: Target>(
    db: &str,
    request: &Request,
    target: &mut W,
) -> Result<(), WriteFault>
    ensures { Writes result (W.taken target.old) (W.taken target.new)
        (W.failed target.new) (already_hint db.now request.now) }
{
    if let Request::Enter(entry) = request {
        write_entry_already(db, entry, target)
    } else {
        write_all(target, b"")
    }
}

/// Whether something is left of a deposit that may be paid with its return only if a total stays
/// small, which may still grow.
fn depends(row: &AgendaRow) -> bool
    ensures { result ≡ depends row.now }
{
    row.depends_on_total() && left_of(&row.row).0 > 0
}

/// Whether one of the deposits is such.
fn some_depend(rows: &[AgendaRow]) -> bool
    ensures { result ≡ list_any depends rows.now }
{
    rows.iter().any(|row| depends(row))
}

/// Writes what is said of what a question is told.
fn write_told_hint<W: Target>(facts: &Facts, target: &mut W) -> Result<(), WriteFault>
    ensures { Writes result (W.taken target.old) (W.taken target.new)
        (W.failed target.new) (told_hint facts.now) }
{
    match facts {
        Facts::Agenda(agenda) => write_depends(agenda.rows.as_slice(), target),
        Facts::Owed(owed) => write_depends(owed.rows.as_slice(), target),
        _ => write_all(target, b""),
    }
}

/// Writes what is said below what is due over all accounts, where one of the deposits may be paid
/// with its return only if a total stays small.
fn write_depends<W: Target>(rows: &[AgendaRow], target: &mut W) -> Result<(), WriteFault>
    ensures { Writes result (W.taken target.old) (W.taken target.new)
        (W.failed target.new) (rows_hint rows.now) }
{
    if some_depend(rows) {
        write_all(
            target,
            b"hint: with-return: pay it with the return if the total for the return stays below \
              2500.00; if you are not sure of that, pay by the day shown\n",
        )
    } else {
        write_all(target, b"")
    }
}

/// Writes what is said below the reply to a request, for the desk of this file: below a change of
/// an account's liability, the obligations that were added, and the years that are on another
/// schedule.
pub fn write_below<W: Target>(
    db: &str,
    request: &Request,
    reply: &Reply,
    target: &mut W,
) -> Result<(), WriteFault>
    ensures { Writes result (W.taken target.old) (W.taken target.new)
        (W.failed target.new) (below_text db.now request.now reply.now) }
{
    match reply {
        Reply::Done => write_done_hint(db, request, target),
        Reply::Already => write_already_hint(db, request, target),
        Reply::Posted(difference) => write_changes(difference, target),
        Reply::Told(facts) => write_told_hint(facts, target),
    }
}

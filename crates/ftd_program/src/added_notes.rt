//! What is said below the summary of an import: which accounts it added obligations to.

ghost use Rattle.std.specs.Prelude.{◌≡◌, []};
ghost use Rattle.ftd_ports.specs.Writing.{Writes, WritesPrefix};
ghost use Rattle.ftd_imports.specs.Added.{added_by};
ghost use Rattle.ftd_program.specs.AddedNotes.{account_note, added_notes, counted_note, earliest};

use ftd_answers::{RowFormat, day_bytes, write_rows};
use ftd_days::Day;
use ftd_imports::{AccountAdded, AccountChange, Collection};
use ftd_ports::{Target, WriteFault, write_all, write_pieces};
use ftd_rules::Obligation;
use itoa::Buffer;

/// The earliest of the day and the due dates of the rows.
fn earliest(day: Day, rows: &[Obligation]) -> Day
    ensures { result ≡ earliest day rows.now }
{
    let mut due = day;
    for row in rows {
        due = due.min(row.due);
    }
    due
}

/// Writes how many obligations were added to an account, of which this is the first, and the
/// earliest due date among them.
fn write_counted<W: Target>(
    added: &AccountAdded,
    count: usize,
    due: Day,
    target: &mut W,
) -> Result<(), WriteFault>
    ensures { Writes result (W.taken target.old) (W.taken target.new)
        (W.failed target.new) (counted_note added.now.account count due) }
{
    let mut digits = Buffer::new();
    let count = digits.format(count).as_bytes();
    let due = day_bytes(due);
    write_pieces(
        target,
        &[
            b"note: ",
            added.account.as_str().as_bytes(),
            b": obligations added: ",
            count,
            b", earliest due date ",
            &due,
            b"\n",
        ],
    )
}

/// A line for each account.
#[derive(Drop)]
struct AccountNotes;

// Nothing of one of whose obligations none is left.
impl RowFormat<AccountAdded> for AccountNotes {
    ghost row_text = { λ notes added. account_note added };

    fn write_row<W: Target>(&self, added: &AccountAdded, target: &mut W) -> Result<(), WriteFault> {
        match added.rows.as_slice() {
            [] => write_all(target, b""),
            [first, later @ ..] => {
                let due = earliest(first.due, later);
                write_counted(added, later.len() + 1, due, target)
            }
        }
    }
}

/// Puts the lines on standard error. They may be left out where there is no memory.
pub(crate) fn put_added<E: Target>(changes: &Collection<AccountChange>, err: &mut E)
    ensures notes { WritesPrefix (E.taken err.old) (E.taken err.new)
        (added_notes (added_by changes.now.entries.items)) }
    ensures none { changes.now.entries.items ≡ [] → err.new ≡ err.old }
{
    if !changes.are_all || changes.entries.is_empty() {
        return;
    }
    let Ok(accounts) = ftd_imports::added_by(changes) else {
        return;
    };
    // Where standard error fails, the status still tells.
    let _ = write_rows(&AccountNotes, &accounts, err);
}

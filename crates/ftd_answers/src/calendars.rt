//! What is due over all accounts as a calendar of iCalendar.

ghost use Rattle.std.specs.Prelude.{◌≡◌};
ghost use Rattle.ftd_ports.specs.Writing.{Writes};
ghost use Rattle.ftd_answers.specs.Calendars.{agenda_calendar, event_text, event_owner};
ghost use Rattle.ftd_answers.specs.Calendars.{condition_of, event_deposit, plain_day};

use crate::rows::{RowFormat, write_rows};
use crate::values::{last_digit, verdict_name};
use crate::{amount_text, day_bytes, form_bytes, left_of, rule_name};
use ftd_days::Day;
use ftd_machine::AgendaRow;
use ftd_ports::{Target, WriteFault, write_all, write_pieces};
use itoa::Buffer;

/// The events of a calendar, as of a day.
#[derive(Drop)]
struct Events {
    as_of: Day,
}

/// Writes what is due over all accounts as a calendar of iCalendar, as of a day: an event for each
/// row, on the day on which it is due. The event of a deposit has the same name whenever it is
/// written, so a calendar that reads it again puts it in the place of the old one. Each line is at
/// most 75 bytes long where no name of an account is longer than 20. It takes no memory but what
/// the target takes. Where the target fails, a prefix of the text was written, and it fails nowhere
/// else.
#[tactic(auto, unfolding(crate::specs::Calendars::agenda_calendar))]
pub fn write_agenda_calendar<W: Target>(
    as_of: Day,
    rows: &[AgendaRow],
    target: &mut W,
) -> Result<(), WriteFault>
    ensures { Writes result (W.taken target.old) (W.taken target.new)
        (W.failed target.new) (agenda_calendar as_of rows.now) }
{
    write_all(
        target,
        b"BEGIN:VCALENDAR\r\nVERSION:2.0\r\nPRODID:-//ftd//Federal tax deposits//EN\r\n",
    )?;
    write_rows(&Events { as_of }, rows, target)?;
    write_all(target, b"END:VCALENDAR\r\n")
}

// Its lines up to the rule, and those from it on.
impl RowFormat<AgendaRow> for Events {
    ghost row_text = { λ events row. event_text events.as_of row };

    fn write_row<W: Target>(&self, row: &AgendaRow, target: &mut W) -> Result<(), WriteFault> {
        write_event_owner(self.as_of, row, target)?;
        write_event_deposit(row, target)
    }
}

/// Writes its lines that say when it is due and who owes it, up to the rule.
fn write_event_owner<W: Target>(
    as_of: Day,
    row: &AgendaRow,
    target: &mut W,
) -> Result<(), WriteFault>
    ensures { Writes result (W.taken target.old) (W.taken target.new)
        (W.failed target.new) (event_owner as_of row.now) }
{
    let as_of = plain_day(as_of);
    let due = plain_day(row.row.obligation.due);
    let first = day_bytes(row.row.obligation.first);
    let account = row.account.as_str();
    let form = form_bytes(row.form);
    write_pieces(
        target,
        &[
            b"BEGIN:VEVENT\r\nUID:",
            account.as_bytes(),
            b"-",
            &form,
            b"-",
            &first,
            b"@ftd\r\nDTSTAMP:",
            &as_of,
            b"T000000Z\r\nDTSTART;VALUE=DATE:",
            &due,
            b"\r\nSUMMARY:",
            account.as_bytes(),
            b" ",
            &form,
            b" ",
        ],
    )
}

/// What follows the verdict of a row: the condition under which its deposit may be paid with its
/// return, if that depends on a total which may still grow. It goes on in a line of its own.
fn condition_of(row: &AgendaRow) -> &'static [u8]
    ensures { result.now ≡ condition_of row.now }
{
    if row.depends_on_total() {
        b"\r\n  if the total for the return stays below 2500.00"
    } else {
        b""
    }
}

/// Writes its lines from the rule on.
fn write_event_deposit<W: Target>(row: &AgendaRow, target: &mut W) -> Result<(), WriteFault>
    ensures { Writes result (W.taken target.old) (W.taken target.new)
        (W.failed target.new) (event_deposit row.now) }
{
    let obligation = row.row.obligation;
    let mut dollars = Buffer::new();
    let left = amount_text(u128::from(left_of(&row.row).0), &mut dollars);
    let pieces: [&[u8]; 14] = [
        rule_name(obligation.rule),
        b" ",
        left.dollars,
        &left.cents,
        b"\r\nDESCRIPTION:",
        &day_bytes(obligation.first),
        b" to ",
        &day_bytes(obligation.last),
        b"\\, pay by ",
        &day_bytes(row.pay_by),
        b"\\, ",
        verdict_name(row.row.verdict),
        condition_of(row),
        b"\r\nEND:VEVENT\r\n",
    ];
    write_pieces(target, &pieces)
}

/// A day as YYYYMMDD.
fn plain_day(day: Day) -> [u8; 8]
    ensures { result ≡ plain_day day }
{
    let (year, month, of_month) = (day.year(), day.month(), day.day_of_month());
    [
        last_digit(year / 1000),
        last_digit(year / 100),
        last_digit(year / 10),
        last_digit(year),
        last_digit(month / 10),
        last_digit(month),
        last_digit(of_month / 10),
        last_digit(of_month),
    ]
}

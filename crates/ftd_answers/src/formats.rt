//! The formats in which lists are told.

ghost use Rattle.std.specs.Prelude.{◌≡◌, ◌<◌};
ghost use Rattle.std.specs.List.{sum_by};
ghost use Rattle.ftd_ports.specs.Writing.{Writes};
ghost use Rattle.ftd_rules.specs.Liability.{cents_of};
ghost use Rattle.ftd_rules.specs.Verdicts.{amount_of};
ghost use Rattle.ftd_answers.specs.Formats.{agenda_as, b_as, due_as, list_format, owed_as};

use crate::agendas::{write_agenda, write_owed};
use crate::calendars::write_agenda_calendar;
use crate::due_rows::{write_agenda_json, write_b_json, write_due_json};
use crate::forms::write_csv;
use crate::{due_list, schedule_b};
use ftd_machine::{Agenda, DueList, LiabilityByDay, OwedList};
use ftd_ports::{Target, WriteFault};
use ftd_rules::AMOUNTS_END;

/// A format of a list.
#[derive(Clone, Copy, Debug, PartialEq, Eq)]
pub enum ListFormat {
    /// Lines of columns, for people.
    Text,
    /// CSV.
    Csv,
    /// JSON.
    Json,
}

/// A format of what is due over all accounts.
#[derive(Clone, Copy, Debug, PartialEq, Eq)]
pub enum Format {
    /// That of a list.
    List(ListFormat),
    /// iCalendar.
    Calendar,
}

impl Format {
    /// The format of a list that is no calendar: text, where a calendar is asked for.
    pub fn of_list(self) -> ListFormat
        ensures { result ≡ list_format self }
    {
        match self {
            Format::List(format) => format,
            Format::Calendar => ListFormat::Text,
        }
    }
}

/// Writes what is due between two days over all accounts, in a format. It takes no memory but what
/// the target takes. Where the target fails, a prefix of the text was written, and it fails nowhere
/// else.
#[tactic(auto, unfolding(crate::specs::Dues::agenda_csv))]
pub fn write_agenda_as<W: Target>(
    format: Format,
    agenda: &Agenda,
    target: &mut W,
) -> Result<(), WriteFault>
    ensures { Writes result (W.taken target.old) (W.taken target.new)
        (W.failed target.new) (agenda_as format agenda.now) }
{
    let rows = agenda.rows.as_slice();
    match format {
        Format::List(ListFormat::Text) => {
            write_agenda(agenda.from, agenda.to, agenda.as_of, rows, target)
        }
        Format::List(ListFormat::Csv) => write_csv("", rows, target),
        Format::List(ListFormat::Json) => write_agenda_json(rows, target),
        Format::Calendar => write_agenda_calendar(agenda.as_of, rows, target),
    }
}

/// Writes what is due until a day over all accounts and not paid, as `write_agenda_as` does.
#[tactic(auto, unfolding(crate::specs::Dues::agenda_csv))]
pub fn write_owed_as<W: Target>(
    format: Format,
    owed: &OwedList,
    target: &mut W,
) -> Result<(), WriteFault>
    ensures { Writes result (W.taken target.old) (W.taken target.new)
        (W.failed target.new) (owed_as format owed.now) }
{
    let rows = owed.rows.as_slice();
    match format {
        Format::List(ListFormat::Text) => write_owed(owed.until, owed.as_of, rows, target),
        Format::List(ListFormat::Csv) => write_csv("", rows, target),
        Format::List(ListFormat::Json) => write_agenda_json(rows, target),
        Format::Calendar => write_agenda_calendar(owed.as_of, rows, target),
    }
}

/// Writes a due list in a format, as `write_agenda_as` does. The amounts are together below
/// 6,000,000,000,000,000 cents.
pub fn write_due_as<W: Target>(
    format: ListFormat,
    list: &DueList,
    target: &mut W,
) -> Result<(), WriteFault>
    requires amounts { sum_by amount_of list.now.rows < AMOUNTS_END }
    ensures { Writes result (W.taken target.old) (W.taken target.new)
        (W.failed target.new) (due_as format list.now) }
{
    let account = list.account.as_str();
    let rows = list.rows.as_slice();
    match format {
        ListFormat::Text => due_list(account, list.quarter, list.as_of, rows, target),
        ListFormat::Csv => write_csv(account, rows, target),
        ListFormat::Json => write_due_json(account, rows, target),
    }
}

/// Writes Schedule B in a format, as `write_agenda_as` does. The amounts are together below
/// 6,000,000,000,000,000 cents.
#[tactic(auto, unfolding(crate::specs::Dues::b_csv))]
pub fn write_b_as<W: Target>(
    format: ListFormat,
    list: &LiabilityByDay,
    target: &mut W,
) -> Result<(), WriteFault>
    requires amounts { sum_by cents_of list.now.sums < AMOUNTS_END }
    ensures { Writes result (W.taken target.old) (W.taken target.new)
        (W.failed target.new) (b_as format list.now) }
{
    let account = list.account.as_str();
    let sums = list.sums.as_slice();
    match format {
        ListFormat::Text => schedule_b(account, list.quarter, sums, target),
        ListFormat::Csv => write_csv(account, sums, target),
        ListFormat::Json => write_b_json(account, sums, target),
    }
}

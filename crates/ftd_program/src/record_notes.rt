//! What is said below the summary of an import of the records that were refused.

ghost use Rattle.std.specs.Prelude.{◌≡◌, ◌++◌, ◌∷◌, [], Err, IfErr, IfOk, length, map, nat_lt};
ghost use Rattle.sqlite.specs.State.{HasCleanDisk};
ghost use Rattle.ftd_machine.specs.Runs.{IsFault};
ghost use Rattle.ftd_machine.specs.State.{State};
ghost use Rattle.ftd_machine.specs.Refusals.{number_of};
ghost use Rattle.ftd_desk.specs.Desks.{KeepsIfOpen, held};
ghost use Rattle.ftd_desk.specs.Telling.{StandsAsBefore};
ghost use Rattle.ftd_ports.specs.Writing.{Writes};
ghost use Rattle.ftd_program.specs.RecordNotes.{entry_difference, entry_text};
ghost use Rattle.ftd_program.specs.RecordNotes.{known_text, line_text};
ghost use Rattle.ftd_program.specs.RecordNotes.{count_text, more_lines, more_of, more_of_kind};
ghost use Rattle.ftd_program.specs.RecordNotes.{more_text, of_kind, told_of};
ghost use Rattle.ftd_program.specs.RecordNotes.{owner_text, record_line, record_lines, record_text};
ghost use Rattle.ftd_program.specs.RecordNotes.{PutsRefusals, records_in};

use crate::differences::{account_difference, payment_difference, run_difference};
use ftd_answers::{RowFormat, quarter_bytes, write_rows};
use ftd_desk::Desk;
use ftd_imports::{Collection, RecordEntry, RefusedRecord};
use ftd_machine::{AccountName, Refusal, ReturnPeriod};
use ftd_ports::{Target, WriteFault, write_all, write_pieces};
use ftd_replies::{Differing, write_difference};
use itoa::Buffer;
use sqlite::Alter;
use std::alloc::{AllocError, Global};

/// So many records of a kind of refusal have a line each.
const MOST_NOTES: usize = 20;

/// What a line says of records that were refused.
#[derive(Drop)]
enum RecordLine {
    /// A record by its number, the employer and the entry, and in what the entry differs from the
    /// one that has its number or its name, if it was refused for that.
    Record {
        number: u32,
        employer: AccountName,
        entry: RecordEntry,
        known: Option<Differing>,
    },
    /// So many more were refused so.
    More {
        count: usize,
        refusal: Refusal,
    },
}

/// In what the entry of the record differs from the one that the desk keeps under its number or its
/// name, if it was refused for that.
fn entry_difference<S: Alter>(
    desk: &mut Desk<S>,
    it: &RefusedRecord,
) -> Result<Option<Differing>, Refusal>
    ensures knows { HasCleanDisk (held S.Store desk.new).db
        → (s : State) → KeepsIfOpen (held S.Store desk.old) s
        → IfOk result (λ known. known ≡ entry_difference s it.now.employer
        (number_of it.now.refusal) it.now.entry) }
    ensures fault { IfErr result (λ fault. IsFault (Err fault)) }
    ensures stands { StandsAsBefore (held S.Store desk.old) (held S.Store desk.new) }
{
    let employer = it.employer.as_str();
    let refused = it.refusal.number();
    match it.entry {
        RecordEntry::Run { number, run } => {
            if refused != Refusal::RunDiffers.number() {
                return Ok(None);
            }
            run_difference(desk, employer, number, run)
        }
        RecordEntry::Payment { number, payment } => {
            if refused != Refusal::PaymentDiffers.number() {
                return Ok(None);
            }
            payment_difference(desk, employer, number, payment)
        }
        RecordEntry::Account(account) => {
            if refused != Refusal::AccountDiffers.number() {
                return Ok(None);
            }
            account_difference(desk, employer, account)
        }
        RecordEntry::Total(_) => Ok(None),
    }
}

/// The name once more.
pub(crate) fn same_name(alloc: Global, name: &AccountName) -> Result<AccountName, Refusal>
    ensures same { IfOk result (λ copy. copy ≡ name.now) }
    ensures fault { IfErr result (λ fault. IsFault (Err fault)) }
{
    match String::from_str(alloc, name.as_str()) {
        Ok(text) => Ok(AccountName::from_string(text)),
        Err(_) => Err(Refusal::Memory),
    }
}

/// The line of a record.
fn record_line<S: Alter>(
    alloc: Global,
    desk: &mut Desk<S>,
    it: &RefusedRecord,
) -> Result<RecordLine, Refusal>
    ensures knows { HasCleanDisk (held S.Store desk.new).db
        → (s : State) → KeepsIfOpen (held S.Store desk.old) s
        → IfOk result (λ line. line ≡ record_line s it.now) }
    ensures fault { IfErr result (λ fault. IsFault (Err fault)) }
    ensures stands { StandsAsBefore (held S.Store desk.old) (held S.Store desk.new) }
{
    let known = entry_difference(desk, it)?;
    Ok(RecordLine::Record {
        number: it.number,
        employer: same_name(alloc, &it.employer)?,
        entry: it.entry,
        known,
    })
}

/// The records whose refusal has this number.
fn of_kind<'a>(
    alloc: Global,
    kind: u8,
    records: &'a [RefusedRecord],
) -> Result<Vec<&'a RefusedRecord>, AllocError>
    ensures { IfOk result (λ those. records_in those.items ≡ of_kind kind records.now) }
{
    let mut those = Vec::new(alloc);
    for it in records {
        if it.refusal.number() == kind {
            those.push(it)?;
        }
    }
    Ok(those)
}

/// Pushes a line behind the others.
fn push_line(line: RecordLine, lines: &mut Vec<RecordLine>) -> Result<(), Refusal>
    ensures pushed { IfOk result (λ _. lines.new.items ≡ lines.old.items ++ line ∷ []) }
    ensures fault { IfErr result (λ fault. IsFault (Err fault)) }
{
    match lines.push(line) {
        Ok(()) => Ok(()),
        Err(_) => Err(Refusal::Memory),
    }
}

/// The lines of these records are pushed behind the others.
fn push_records<S: Alter>(
    alloc: Global,
    desk: &mut Desk<S>,
    records: &[&RefusedRecord],
    lines: &mut Vec<RecordLine>,
) -> Result<(), Refusal>
    ensures knows { HasCleanDisk (held S.Store desk.new).db
        → (s : State) → KeepsIfOpen (held S.Store desk.old) s
        → IfOk result (λ _. lines.new.items
        ≡ lines.old.items ++ map (record_line s) (records_in records.now)) }
    ensures fault { IfErr result (λ fault. IsFault (Err fault)) }
    ensures stands { StandsAsBefore (held S.Store desk.old) (held S.Store desk.new) }
{
    for it in records {
        let line = record_line(alloc, desk, it)?;
        push_line(line, lines)?;
    }
    Ok(())
}

/// Pushes how many more records there are, if there are any.
fn push_more(records: &[&RefusedRecord], lines: &mut Vec<RecordLine>) -> Result<(), Refusal>
    ensures pushed { IfOk result (λ _. lines.new.items
        ≡ lines.old.items ++ more_lines (records_in records.now)) }
    ensures fault { IfErr result (λ fault. IsFault (Err fault)) }
{
    match records {
        [] => Ok(()),
        [first, ..] => {
            let count = records.len();
            let refusal = first.refusal;
            push_line(RecordLine::More { count, refusal }, lines)
        }
    }
}

/// Pushes how many records of this kind of refusal there are beyond those that have a line.
fn push_kind(
    alloc: Global,
    kind: u8,
    records: &[RefusedRecord],
    lines: &mut Vec<RecordLine>,
) -> Result<(), Refusal>
    ensures pushed { IfOk result (λ _. lines.new.items
        ≡ lines.old.items ++ more_of_kind records.now kind) }
    ensures fault { IfErr result (λ fault. IsFault (Err fault)) }
{
    let Ok(those) = of_kind(alloc, kind, records) else {
        return Err(Refusal::Memory);
    };
    if those.len() <= MOST_NOTES {
        return Ok(());
    }
    push_more(&those[MOST_NOTES..], lines)
}

/// Pushes of each kind of refusal how many records there are beyond those that have a line.
fn push_rest(
    alloc: Global,
    records: &[RefusedRecord],
    lines: &mut Vec<RecordLine>,
) -> Result<(), Refusal>
    ensures pushed { IfOk result (λ _. lines.new.items ≡ lines.old.items ++ more_of records.now) }
    ensures fault { IfErr result (λ fault. IsFault (Err fault)) }
{
    for kind in 1..30 {
        push_kind(alloc, kind, records, lines)?;
    }
    Ok(())
}

/// Whether fewer than 20 of the records have a refusal of this number. It looks at the last ones
/// first.
fn are_few(records: &[RefusedRecord], kind: u8) -> bool
    ensures { result ≡ nat_lt (length (of_kind kind records.now)) 20 }
{
    let mut count = 0;
    let mut i = records.len();
    while i > 0 {
        i -= 1;
        if records[i].refusal.number() == kind {
            count += 1;
            if count == MOST_NOTES {
                return false;
            }
        }
    }
    true
}

/// The records that have a line: of each kind of refusal the first 20.
fn told_of(alloc: Global, records: &[RefusedRecord]) -> Result<Vec<&RefusedRecord>, AllocError>
    ensures { IfOk result (λ told. records_in told.items ≡ told_of records.now) }
{
    let mut told = Vec::new(alloc);
    for (i, it) in records.iter().enumerate() {
        if are_few(&records[..i], it.refusal.number()) {
            told.push(it)?;
        }
    }
    Ok(told)
}

/// The lines of the records: of each kind of refusal the first 20, and how many more there are.
fn record_lines<S: Alter>(
    alloc: Global,
    desk: &mut Desk<S>,
    records: &[RefusedRecord],
) -> Result<Vec<RecordLine>, Refusal>
    ensures knows { HasCleanDisk (held S.Store desk.new).db
        → (s : State) → KeepsIfOpen (held S.Store desk.old) s
        → IfOk result (λ lines. lines.items ≡ record_lines s records.now) }
    ensures fault { IfErr result (λ fault. IsFault (Err fault)) }
    ensures stands { StandsAsBefore (held S.Store desk.old) (held S.Store desk.new) }
{
    let Ok(told) = told_of(alloc, records) else {
        return Err(Refusal::Memory);
    };
    let mut lines = Vec::new(alloc);
    push_records(alloc, desk, &told, &mut lines)?;
    push_rest(alloc, records, &mut lines)?;
    Ok(lines)
}

/// Which entry of the employer it is.
fn write_entry<W: Target>(entry: &RecordEntry, target: &mut W) -> Result<(), WriteFault>
    ensures { Writes result (W.taken target.old) (W.taken target.new)
        (W.failed target.new) (entry_text entry.now) }
{
    let mut digits = Buffer::new();
    match entry {
        RecordEntry::Run { number, .. } => {
            write_pieces(target, &[b" run ", digits.format(*number).as_bytes()])
        }
        RecordEntry::Payment { number, .. } => {
            write_pieces(target, &[b" payment ", digits.format(*number).as_bytes()])
        }
        RecordEntry::Account(_) => write_all(target, b""),
        RecordEntry::Total(ReturnPeriod::Quarter(quarter)) => {
            write_pieces(target, &[b" ", &quarter_bytes(*quarter)])
        }
        RecordEntry::Total(ReturnPeriod::Year(year)) => {
            write_pieces(target, &[b" ", digits.format(*year).as_bytes()])
        }
    }
}

/// Writes which record it is, and whose.
#[tactic(auto, unfolding(crate::specs::RecordNotes::owner_text))]
fn write_owner<W: Target>(number: u32, employer: &str, target: &mut W) -> Result<(), WriteFault>
    ensures { Writes result (W.taken target.old) (W.taken target.new)
        (W.failed target.new) (owner_text number employer.now) }
{
    let mut digits = Buffer::new();
    let number = digits.format(number).as_bytes();
    write_pieces(
        target,
        &[b"note: record ", number, b", ", employer.as_bytes()],
    )
}

/// Writes in what it differs, if that is known, and the end of the line.
#[tactic(auto, using(ftd_ports::proofs::WritingFacts::written_in_parts))]
fn write_known<W: Target>(known: &Option<Differing>, target: &mut W) -> Result<(), WriteFault>
    ensures { Writes result (W.taken target.old) (W.taken target.new)
        (W.failed target.new) (known_text known.now) }
{
    match known {
        None => write_all(target, b"\n"),
        Some(differing) => {
            write_all(target, b": ")?;
            write_difference(differing, target)?;
            write_all(target, b"\n")
        }
    }
}

/// Writes the line of a record.
#[tactic(auto, using(ftd_ports::proofs::WritingFacts::written_in_parts), unfolding(crate::specs::RecordNotes::record_text))]
fn write_record<W: Target>(
    number: u32,
    employer: &str,
    entry: &RecordEntry,
    known: &Option<Differing>,
    target: &mut W,
) -> Result<(), WriteFault>
    ensures { Writes result (W.taken target.old) (W.taken target.new)
        (W.failed target.new) (record_text number employer.now entry.now known.now) }
{
    write_owner(number, employer, target)?;
    write_entry(entry, target)?;
    write_known(known, target)
}

/// Writes how many more records were refused so, up to the name of the refusal.
#[tactic(auto, unfolding(crate::specs::RecordNotes::count_text))]
fn write_count<W: Target>(count: usize, number: u8, target: &mut W) -> Result<(), WriteFault>
    ensures { Writes result (W.taken target.old) (W.taken target.new)
        (W.failed target.new) (count_text count number) }
{
    let (mut digits, mut number_digits) = (Buffer::new(), Buffer::new());
    let count = digits.format(count).as_bytes();
    let number = number_digits.format(number).as_bytes();
    write_pieces(
        target,
        &[
            b"note: and ",
            count,
            b" more records: refused ",
            number,
            b" ",
        ],
    )
}

/// Writes how many more records were refused so.
#[tactic(auto, using(ftd_ports::proofs::WritingFacts::written_in_parts), unfolding(crate::specs::RecordNotes::more_text))]
fn write_more<W: Target>(count: usize, refusal: &Refusal, target: &mut W) -> Result<(), WriteFault>
    ensures { Writes result (W.taken target.old) (W.taken target.new)
        (W.failed target.new) (more_text count refusal.now) }
{
    write_count(count, refusal.number(), target)?;
    write_all(target, refusal.name().as_bytes())?;
    write_all(target, b"\n")
}

/// A line of records that were refused.
#[derive(Drop)]
struct RecordLines;

// A record, or how many more there are.
impl RowFormat<RecordLine> for RecordLines {
    ghost row_text = { λ lines line. line_text line };

    fn write_row<W: Target>(&self, line: &RecordLine, target: &mut W) -> Result<(), WriteFault> {
        match line {
            RecordLine::Record {
                number,
                employer,
                entry,
                known,
            } => write_record(*number, employer.as_str(), entry, known, target),
            RecordLine::More { count, refusal } => write_more(*count, refusal, target),
        }
    }
}

/// Puts the lines of the records that were refused on standard error. They are left out where there
/// is no memory or the store fails.
pub(crate) fn put_refusals<S: Alter, E: Target>(
    alloc: Global,
    desk: &mut Desk<S>,
    refusals: &Collection<RefusedRecord>,
    err: &mut E,
)
    ensures { PutsRefusals E.taken err.old err.new (held S.Store desk.old) (held S.Store desk.new)
        refusals.now.entries.items }
{
    if !refusals.are_all || refusals.entries.is_empty() {
        return;
    }
    if let Ok(lines) = record_lines(alloc, desk, &refusals.entries) {
        // Where standard error fails, the status still tells.
        let _ = write_rows(&RecordLines, &lines, err);
    }
}

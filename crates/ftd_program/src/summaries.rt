//! The text of an import's summary.

ghost use Rattle.ftd_ports.specs.Writing.{Writes};
ghost use Rattle.ftd_program.specs.Summaries.{bad_header_text, counts_text, field_text};
ghost use Rattle.ftd_program.specs.Summaries.{finding_text, note_text, record_text, summary_text};

use ftd_csv::{Sheet, write_header_hint};
use ftd_imports::{Finding, Note, Summary};
use ftd_ports::{Target, WriteFault, write_all, write_pieces};
use ftd_replies::write_refusal;
use itoa::Buffer;

/// Writes the summary of an import: its counts, and a line for each note.
pub fn write_summary<W: Target>(summary: &Summary, target: &mut W) -> Result<(), WriteFault>
    ensures { Writes result (W.taken target.old) (W.taken target.new)
        (W.failed target.new) (summary_text summary.now) }
{
    write_counts(summary, target)?;
    for note in &summary.notes {
        write_note(note, target)?;
    }
    Ok(())
}

/// Writes the counts.
fn write_counts<W: Target>(summary: &Summary, target: &mut W) -> Result<(), WriteFault>
    ensures { Writes result (W.taken target.old) (W.taken target.new)
        (W.failed target.new) (counts_text summary.now) }
{
    let (mut posted_digits, mut already_digits) = (Buffer::new(), Buffer::new());
    let (mut refused_digits, mut malformed_digits) = (Buffer::new(), Buffer::new());
    let posted = posted_digits.format(summary.posted).as_bytes();
    let already = already_digits.format(summary.already).as_bytes();
    let refused = refused_digits.format(summary.refused).as_bytes();
    let malformed = malformed_digits.format(summary.malformed).as_bytes();
    write_pieces(
        target,
        &[
            b"posted ",
            posted,
            b" already ",
            already,
            b" refused ",
            refused,
            b" malformed ",
            malformed,
            b"\n",
        ],
    )
}

/// Writes the line of a note.
#[tactic(auto, using(ftd_ports::proofs::WritingFacts::written_in_parts), unfolding(crate::specs::Summaries::note_text))]
fn write_note<W: Target>(note: &Note, target: &mut W) -> Result<(), WriteFault>
    ensures { Writes result (W.taken target.old) (W.taken target.new)
        (W.failed target.new) (note_text note.now) }
{
    write_record(note.number, target)?;
    write_finding(&note.finding, target)
}

/// Writes which record it is.
fn write_record<W: Target>(number: u32, target: &mut W) -> Result<(), WriteFault>
    ensures { Writes result (W.taken target.old) (W.taken target.new)
        (W.failed target.new) (record_text number) }
{
    let mut digits = Buffer::new();
    let number = digits.format(number).as_bytes();
    write_pieces(target, &[b"record ", number, b" "])
}

/// Writes why the record was not posted.
fn write_finding<W: Target>(finding: &Finding, target: &mut W) -> Result<(), WriteFault>
    ensures { Writes result (W.taken target.old) (W.taken target.new)
        (W.failed target.new) (finding_text finding.now) }
{
    match finding {
        Finding::Malformed(field) => write_field(*field, target),
        Finding::Refused(refusal) => write_refusal(refusal, target),
    }
}

/// Writes which field is bad.
fn write_field<W: Target>(field: u8, target: &mut W) -> Result<(), WriteFault>
    ensures { Writes result (W.taken target.old) (W.taken target.new)
        (W.failed target.new) (field_text field) }
{
    let mut digits = Buffer::new();
    let field = digits.format(field).as_bytes();
    write_pieces(target, &[b"malformed field ", field, b"\n"])
}

/// Writes that the first record is not the header of the sheet, and the hint of it.
#[tactic(auto, using(ftd_ports::proofs::WritingFacts::written_in_parts), unfolding(crate::specs::Summaries::bad_header_text))]
pub fn write_bad_header<W: Target>(
    sheet: Sheet,
    input: &[u8],
    target: &mut W,
) -> Result<(), WriteFault>
    ensures { Writes result (W.taken target.old) (W.taken target.new)
        (W.failed target.new) (bad_header_text sheet input.now) }
{
    write_all(target, b"refused header\n")?;
    write_header_hint(sheet, input, target)
}

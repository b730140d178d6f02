//! The lines of refusals.

ghost use Rattle.std.specs.Prelude.{◌≡◌, ◌∷◌, [], codes};
ghost use Rattle.std.specs.Fmt.{decimal};
ghost use Rattle.ftd_days.specs.Text.{quarter_text};
ghost use Rattle.ftd_ports.specs.Writing.{Writes};
ghost use Rattle.ftd_replies.specs.Refusals.{line_of, subject_text, refusal_status};
ghost use Rattle.ftd_replies.specs.Refusals.{refusal_text, verb_text};

use ftd_answers::quarter_bytes;
use ftd_days::Quarter;
use ftd_machine::{Refusal, Subject};
use ftd_ports::{Target, WriteFault, write_pieces};
use itoa::Buffer;

/// The exit status where the desk refuses: 3 where memory or the store failed, else 1.
pub fn status_of(refusal: Refusal) -> u8
    ensures { result ≡ refusal_status refusal }
{
    if refusal.is_failure() { 3 } else { 1 }
}

/// Whether the desk refused, or failed.
fn verb_of(refusal: Refusal) -> &'static [u8]
    ensures { result.now ≡ verb_text refusal }
{
    if refusal.is_failure() {
        b"failed "
    } else {
        b"refused "
    }
}

/// Writes the line of a refusal: its number and name, and what it names.
#[tactic(auto, unfolding(crate::specs::Refusals::refusal_text))]
pub fn write_refusal<W: Target>(refusal: &Refusal, target: &mut W) -> Result<(), WriteFault>
    ensures { Writes result (W.taken target.old) (W.taken target.new)
        (W.failed target.new) (refusal_text refusal.now) }
{
    write_line(
        refusal.subject(),
        verb_of(*refusal),
        refusal.number(),
        refusal.name().as_bytes(),
        target,
    )
}

/// Writes the line of a refusal that names this, with this verb, number and name.
fn write_line<W: Target>(
    named: Subject,
    verb: &[u8],
    number: u8,
    name: &[u8],
    target: &mut W,
) -> Result<(), WriteFault>
    ensures { Writes result (W.taken target.old) (W.taken target.new)
        (W.failed target.new) (line_of verb.now number name.now (subject_text named)) }
{
    match named {
        Subject::Nothing => write_plain(verb, number, name, target),
        Subject::Year(year) => write_number(verb, number, name, year, target),
        Subject::Number(count) => write_number(verb, number, name, count, target),
        Subject::Quarter(quarter) => write_quarter(verb, number, name, quarter, target),
    }
}

/// Writes the line of a refusal that names a year or how many there are.
fn write_number<W: Target>(
    verb: &[u8],
    number: u8,
    name: &[u8],
    what: u32,
    target: &mut W,
) -> Result<(), WriteFault>
    ensures { Writes result (W.taken target.old) (W.taken target.new)
        (W.failed target.new) (line_of verb.now number name.now (codes " " ∷ decimal what ∷ [])) }
{
    let mut digits = Buffer::new();
    let number = digits.format(number).as_bytes();
    let mut what_digits = Buffer::new();
    let what = what_digits.format(what).as_bytes();
    write_pieces(target, &[verb, number, b" ", name, b" ", what, b"\n"])
}

/// Writes the line of a refusal that names a quarter.
fn write_quarter<W: Target>(
    verb: &[u8],
    number: u8,
    name: &[u8],
    quarter: Quarter,
    target: &mut W,
) -> Result<(), WriteFault>
    ensures { Writes result (W.taken target.old) (W.taken target.new)
        (W.failed target.new) (line_of verb.now number name.now (codes " " ∷ quarter_text quarter ∷
        [])) }
{
    let mut digits = Buffer::new();
    let number = digits.format(number).as_bytes();
    let quarter = quarter_bytes(quarter);
    write_pieces(target, &[verb, number, b" ", name, b" ", &quarter, b"\n"])
}

/// Writes the line of a refusal that names nothing.
fn write_plain<W: Target>(
    verb: &[u8],
    number: u8,
    name: &[u8],
    target: &mut W,
) -> Result<(), WriteFault>
    ensures { Writes result (W.taken target.old) (W.taken target.new)
        (W.failed target.new) (line_of verb.now number name.now []) }
{
    let mut digits = Buffer::new();
    let number = digits.format(number).as_bytes();
    write_pieces(target, &[verb, number, b" ", name, b"\n"])
}

//! The hint of a text whose first record is not the header.

ghost use Rattle.std.specs.Prelude.{◌≡◌};
ghost use Rattle.std.specs.List.{position_or_len, prefix_len};
ghost use Rattle.csv.specs.Reading.{strip_bom};
ghost use Rattle.ftd_ports.specs.Writing.{Writes};
ghost use Rattle.ftd_csv.specs.Headers.{first_line, from_line, header_hint, header_text};
ghost use Rattle.ftd_csv.specs.Headers.{is_line_end};

use crate::Sheet;
use crate::shown::{MOST_SHOWN, show};
use ftd_ports::{Target, WriteFault, write_pieces};

/// The header of a sheet, as it is written.
fn header_text(sheet: Sheet) -> &'static [u8]
    ensures { result.now ≡ header_text sheet }
{
    match sheet {
        Sheet::Runs => b"employer,run,payday,fit,ss,medicare",
        Sheet::Accounts => b"employer,first_day,carried,form",
        Sheet::Totals => b"employer,period,amount",
        Sheet::Payments => b"employer,payment,paid,for,amount",
    }
}

/// Writes the hint of a text whose first record is not the header of the sheet: which header is
/// asked for, and the first line of the text that is not empty, or that the text is empty. It takes
/// no memory but what the target takes. Where the target fails, a prefix of the hint was written,
/// and it fails nowhere else.
pub fn write_header_hint<W: Target>(
    sheet: Sheet,
    text: &[u8],
    target: &mut W,
) -> Result<(), WriteFault>
    ensures { Writes result (W.taken target.old) (W.taken target.new)
        (W.failed target.new) (header_hint sheet text.now) }
{
    let header = header_text(sheet);
    let line = first_line(text);
    let (before, after) = (b"hint: the header is ", b"\n");
    if line.is_empty() {
        return write_pieces(target, &[before, header, b", and the text is empty", after]);
    }
    let mut buffer = [0; MOST_SHOWN];
    let shown = show(line, &mut buffer);
    write_pieces(target, &[before, header, b", and not ", shown, after])
}

/// The first line of the text that is not empty, without a byte order mark at the text's start, and
/// without its end.
fn first_line(text: &[u8]) -> &[u8]
    ensures { result.now ≡ first_line text.now }
{
    let text = from_line(without_mark(text));
    &text[..line_length(text)]
}

/// What stands behind the line ends that the text begins with.
fn from_line(text: &[u8]) -> &[u8]
    ensures { result.now ≡ from_line text.now }
{
    &text[line_ends(text)..]
}

/// How many line ends the text begins with.
fn line_ends(text: &[u8]) -> usize
    ensures { result ≡ prefix_len is_line_end text.now }
{
    text.iter().take_while(|byte| is_line_end(**byte)).count()
}

/// The text without a byte order mark at its start.
fn without_mark(text: &[u8]) -> &[u8]
    ensures { result.now ≡ strip_bom text.now }
{
    text.strip_prefix(b"\xEF\xBB\xBF").unwrap_or(text)
}

/// How many bytes of the text stand before its first end of a line.
fn line_length(text: &[u8]) -> usize
    ensures { result ≡ position_or_len is_line_end text.now }
{
    text.iter().take_while(|byte| !is_line_end(**byte)).count()
}

/// Whether the byte ends a line: CR or LF.
fn is_line_end(byte: u8) -> bool
    ensures { result ≡ is_line_end byte }
{
    matches!(byte, b'\r' | b'\n')
}

//! Texts and values inside a page.

ghost use Rattle.ftd_ports.specs.Writing.{Writes};
ghost use Rattle.ftd_answers.specs.Fields.{shown_as};
ghost use Rattle.ftd_pages.specs.Escapes.{IsInert, escaped, escaped_byte};

use ftd_answers::{RowFormat, Value, write_plain, write_rows};
use ftd_ports::{Target, WriteFault, write_all};

/// The bytes of a text, escaped.
#[derive(Drop)]
struct Escapes;

/// Values, one after the other.
#[derive(Drop)]
pub struct Values;

impl RowFormat<u8> for Escapes {
    ghost row_text = { λ escapes byte. escaped_byte byte };

    fn write_row<W: Target>(&self, row: &u8, target: &mut W) -> Result<(), WriteFault> {
        match *row {
            b'&' => write_all(target, b"&amp;"),
            b'<' => write_all(target, b"&lt;"),
            b'>' => write_all(target, b"&gt;"),
            b'"' => write_all(target, b"&quot;"),
            b'\'' => write_all(target, b"&#39;"),
            byte => write_all(target, &[byte]),
        }
    }
}

/// Writes any bytes as they stand in a page, as `write_escaped` writes a text.
#[tactic(auto, unfolding(crate::specs::Escapes::escaped))]
pub fn write_escaped_bytes<W: Target>(bytes: &[u8], target: &mut W) -> Result<(), WriteFault>
    ensures { Writes result (W.taken target.old) (W.taken target.new)
        (W.failed target.new) (escaped bytes.now) }
{
    write_rows(&Escapes, bytes, target)
}

/// Writes any text as it stands in a page, also between quotes: nothing of it ends its place. Where
/// the target fails, a prefix of that was written, and it fails nowhere else.
pub fn write_escaped<W: Target>(text: &str, target: &mut W) -> Result<(), WriteFault>
    ensures writes { Writes result (W.taken target.old) (W.taken target.new)
        (W.failed target.new) (escaped text.now) }
    ensures inert { IsInert (escaped text.now) }
{
    write_escaped_bytes(text.as_bytes(), target)
}

/// Writes a value as it stands in a page: as in a record of CSV, and escaped. Where the target
/// fails, a prefix of that was written, and it fails nowhere else.
pub fn write_shown<W: Target>(value: &Value<'_>, target: &mut W) -> Result<(), WriteFault>
    ensures { Writes result (W.taken target.old) (W.taken target.new)
        (W.failed target.new) (escaped (shown_as value.now).plain) }
{
    match value {
        Value::Text(text) => write_escaped(text, target),
        _ => write_plain(value, target),
    }
}

impl<'b> RowFormat<Value<'b>> for Values {
    ghost row_text = { λ values value. escaped (shown_as value).plain };

    fn write_row<W: Target>(&self, row: &Value<'b>, target: &mut W) -> Result<(), WriteFault> {
        write_shown(row, target)
    }
}

//! What a hint shows of a text.

ghost use Rattle.std.specs.Prelude.{◌≡◌};
ghost use Rattle.ftd_csv.specs.Shown.{is_printable, shown, shown_byte};

/// The most bytes that are shown of a text.
pub const MOST_SHOWN: usize = 60;

/// Whether the byte is printable ASCII.
fn is_printable(byte: u8) -> bool
    ensures { result ≡ is_printable byte }
{
    matches!(byte, b' '..=b'~')
}

/// The byte, or `?` for one that is not printable ASCII.
fn shown_byte(byte: u8) -> u8
    ensures { result ≡ shown_byte byte }
{
    if is_printable(byte) { byte } else { b'?' }
}

/// What is shown of the text: at most its first 60 bytes, with `?` for each that is not printable
/// ASCII, so that nothing in it can steer a terminal. It is written into the buffer.
pub fn show<'a>(text: &[u8], buffer: &'a mut [u8; MOST_SHOWN]) -> &'a [u8]
    ensures { result.now ≡ shown text.now }
{
    let count = text.len().min(MOST_SHOWN);
    for i in 0..count {
        buffer[i] = shown_byte(text[i]);
    }
    &buffer[..count]
}

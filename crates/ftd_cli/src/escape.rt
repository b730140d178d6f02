//! Texts without characters that can steer a terminal, as a word of the command line may have.

ghost use Rattle.std.specs.Prelude.{◌≡◌, ◌<◌, ◌++◌, IfOk, OnOk};
ghost use Rattle.std.specs.Char.{encode_utf8};
ghost use Rattle.std.specs.List.{flat_map};
ghost use Rattle.std.specs.String.{string_bytes};
ghost use Rattle.ftd_cli.specs.Escapes.{escaped, escaped_as, escaped_character, escaped_word};
ghost use Rattle.ftd_cli.specs.Escapes.{hex_byte, hex_digit, is_hidden, steers};

use std::alloc::{AllocError, Global};

/// Whether a character turns or ends lines, or can't be seen.
fn is_hidden(character: char) -> bool
    ensures { result ≡ is_hidden character }
{
    matches!(
        character,
        '\u{61c}'
            | '\u{200b}'..='\u{200f}'
            | '\u{2028}'..='\u{202e}'
            | '\u{2066}'..='\u{2069}'
            | '\u{feff}'
    )
}

/// Whether a character can steer a terminal: a control character, or one that is hidden. In a text
/// of several lines a line end is none.
fn steers(lines: bool, character: char) -> bool
    ensures { result ≡ steers lines character }
{
    let is_control = matches!(character, '\0'..='\u{1f}' | '\u{7f}'..='\u{9f}');
    !(lines && character == '\n') && (is_control || is_hidden(character))
}

/// The digit of a number below 16.
fn hex_digit(number: u8) -> u8
    requires { number < 16 }
    ensures { result ≡ hex_digit number }
{
    if number < 10 {
        b'0' + number
    } else {
        b'a' - 10 + number
    }
}

/// Adds the bytes of a character, each as `\x1b`.
fn add_bytes(text: &mut String, bytes: &[u8]) -> Result<(), AllocError>
    ensures { OnOk result
        (string_bytes text.new ≡ string_bytes text.old ++ flat_map hex_byte bytes.now) }
{
    for byte in bytes {
        text.push_str("\\x")?;
        text.push(char::from(hex_digit(*byte / 16)))?;
        text.push(char::from(hex_digit(*byte % 16)))?;
    }
    Ok(())
}

/// Adds a character, or where it can steer a terminal its bytes, each as `\x1b`.
fn add_character(text: &mut String, lines: bool, character: char) -> Result<(), AllocError>
    ensures { OnOk result (string_bytes text.new
        ≡ string_bytes text.old ++ escaped_character lines character) }
{
    if steers(lines, character) {
        let mut bytes = [0; 4];
        add_bytes(text, character.encode_utf8(&mut bytes).as_bytes())
    } else {
        text.push(character)
    }
}

/// A text, each character that can steer a terminal as its bytes, as `\x1b`.
fn escaped_as(alloc: Global, lines: bool, text: &str) -> Result<String, AllocError>
    ensures { IfOk result (λ said. string_bytes said ≡ escaped_as lines text.now) }
{
    let mut said = String::new(alloc);
    for character in text.chars() {
        add_character(&mut said, lines, character)?;
    }
    Ok(said)
}

/// A text, each character but a line end that can steer a terminal as its bytes, as `\x1b`.
pub fn escape_text(alloc: Global, text: &str) -> Result<String, AllocError>
    ensures { IfOk result (λ said. string_bytes said ≡ escaped text.now) }
{
    escaped_as(alloc, true, text)
}

/// A word, each character that can steer a terminal as its bytes, as `\x1b`, also a line end: what
/// is printed stands in one line.
pub fn escape_word(alloc: Global, word: &str) -> Result<String, AllocError>
    ensures { IfOk result (λ said. string_bytes said ≡ escaped_word word.now) }
{
    escaped_as(alloc, false, word)
}

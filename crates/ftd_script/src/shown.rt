//! What is shown of a line of a script beside its answer.

ghost use Rattle.ftd_ports.specs.Writing.{Writes};
ghost use Rattle.ftd_replies.specs.Putting.{IsPut};
ghost use Rattle.ftd_script.specs.Shown.{command_text, named_text};

use ftd_ports::{Target, WriteFault, write_pieces};
use itoa::Buffer;

/// What a shell shows beside its answers.
#[derive(Clone, Copy, Debug, PartialEq, Eq)]
pub struct Shows {
    /// Each command, before its answer.
    pub commands: bool,
    /// The line, before what is said of it on standard error.
    pub lines: bool,
}

/// Writes the words of a command, as they are shown.
pub fn write_command<O: Target>(shown: &str, out: &mut O) -> Result<(), WriteFault>
    ensures { Writes result (O.taken out.old) (O.taken out.new) (O.failed out.new)
        (command_text shown.now) }
{
    write_pieces(out, &[b"$ ftd ", shown.as_bytes(), b"\n"])
}

/// Puts what was said of a line on standard error, below the line. Nothing is put where nothing was
/// said.
pub fn put_named<E: Target>(number: u64, shown: &str, said: &[u8], err: &mut E)
    ensures { IsPut (E.taken err.old) (E.taken err.new) (E.failed err.new)
        (named_text number shown.now said.now) }
{
    if !said.is_empty() {
        let mut digits = Buffer::new();
        let number = digits.format(number).as_bytes();
        // Where standard error fails, the status still tells.
        let _ = write_pieces(
            err,
            &[b"line ", number, b": ", shown.as_bytes(), b"\n", said],
        );
    }
}

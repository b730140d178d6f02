//! The lines of a script, and of what is asked first by one.

ghost use Rattle.std.specs.Prelude.{ℕ, Bool, List, None, Option};

use ftd_cli::{Line, Piece, Task, command_words, decide_today, next_piece, read_line};
use ftd_files::{ProgramFault, SystemClock, unread_text};
use ftd_local::{Beginning, beginning_of};
use ftd_shell::{Script, Unread};
use std::alloc::AllocError;
use std::io::BufRead;

/// What is told of something that can't be read. Nothing where there is no memory for it.
pub(crate) fn unread(rt: &HostRuntime, fault: ProgramFault, input: &str) -> Unread {
    Unread {
        status: fault.status(),
        said: unread_text(rt.alloc(), fault, input).unwrap_or(Vec::new(rt.alloc())),
    }
}

/// The lines of a script.
#[derive(Drop)]
pub(crate) struct Lines<'a, R> {
    pub(crate) rt: &'a HostRuntime,
    pub(crate) reader: R,
    /// The name of what is read, for a hint.
    pub(crate) name: &'a str,
    /// A prompt is written before each line is read.
    pub(crate) has_prompt: bool,
    /// All of it is there, as in a file: no one waits for an answer before the next line is given.
    pub(crate) is_whole: bool,
    /// The reader has failed.
    pub(crate) has_failed: bool,
}

impl<R: BufRead> Script for Lines<'_, R> {
    ghost left = { λ lines. R.remaining lines.reader };

    ghost failed = { λ lines. lines.has_failed };

    fn next(&mut self) -> Result<Piece, Unread> {
        if self.has_prompt {
            let _ = eprint!(self.rt; "ftd> ");
        }
        let rt = self.rt;
        match next_piece(rt.alloc(), &mut self.reader) {
            Ok(piece) => Ok(piece),
            Err(error) => {
                self.has_failed = true;
                Err(unread(rt, error.into(), self.name))
            }
        }
    }

    fn is_ready(&self) -> bool {
        self.is_whole
    }
}

/// The lines of a script that was read up to the first that asks something.
#[derive(Drop)]
pub(crate) struct ReadAhead<'a, R> {
    /// How many lines ask nothing and come before it.
    skipped: u64,
    /// The first that asks something, until it is given.
    first: Option<Piece>,
    /// The others.
    lines: Lines<'a, R>,
}

impl<R: BufRead> Script for ReadAhead<'_, R> {
    ghost left = { λ _. None };

    ghost failed = { λ ahead. ahead.lines.has_failed };

    fn next(&mut self) -> Result<Piece, Unread> {
        if self.skipped > 0 {
            self.skipped -= 1;
            return Ok(Piece::Line(Vec::new(self.lines.rt.alloc())));
        }
        match self.first.take() {
            Some(piece) => Ok(piece),
            None => self.lines.next(),
        }
    }

    fn is_ready(&self) -> bool {
        self.lines.is_ready()
    }
}

/// What a line that asks something does about a file that is not there. Where it has no job, as one
/// with a bad word, the file is made for the lines that come after it. `None` if it asks nothing.
fn of_line(rt: &HostRuntime, db: &str, line: &[u8]) -> Result<Option<Beginning>, AllocError> {
    let words = match read_line(rt.alloc(), line)? {
        Line::Nothing => return Ok(None),
        Line::NoText => return Ok(Some(Beginning::Tells)),
        Line::Command(words) => command_words(rt.alloc(), db, &words)?,
    };
    match decide_today(rt.alloc(), &mut SystemClock::new(rt), &words) {
        Ok(Task::Local(task)) => Ok(Some(beginning_of(&task.job))),
        _ => Ok(Some(Beginning::Tells)),
    }
}

/// The like of what comes next in a script.
fn of_piece(rt: &HostRuntime, db: &str, piece: &Piece) -> Result<Option<Beginning>, AllocError> {
    match piece {
        Piece::End => Ok(None),
        Piece::Line(line) => of_line(rt, db, line),
        Piece::TooLong => Ok(Some(Beginning::Tells)),
    }
}

/// Reads up to the first line that asks something, and answers what that does about a file that is
/// not there. `None` if the script asks nothing.
pub(crate) fn read_ahead<'a, R: BufRead + Drop>(
    db: &str,
    lines: Lines<'a, R>,
) -> Result<Option<(Beginning, ReadAhead<'a, R>)>, Unread> {
    let (rt, mut lines) = (lines.rt, lines);
    for skipped in 0..u64::MAX {
        let piece = lines.next()?;
        if let Piece::End = piece {
            return Ok(None);
        }
        let beginning = of_piece(rt, db, &piece).map_err(|error| unread(
            rt,
            error.into(),
            lines.name,
        ))?;
        if let Some(beginning) = beginning {
            let ahead = ReadAhead {
                skipped,
                first: Some(piece),
                lines,
            };
            return Ok(Some((beginning, ahead)));
        }
    }
    Ok(None)
}

//! A shell: the lines of a script, each answered as its command is.

ghost use Rattle.std.specs.Prelude.{◌≡◌, ℕ, Bool, List, None, Option, IfOk, OnErr, map, true};
ghost use Rattle.std.specs.String.{string_bytes};
ghost use Rattle.ftd_cli.specs.Lines.{NextOf, line_of, shown_words};
ghost use Rattle.ftd_cli.specs.declared.lines.Piece.{Piece as Pieces};
ghost use Rattle.ftd_ports.specs.Writing.{Writes};
ghost use Rattle.ftd_replies.specs.Putting.{IsPut};
ghost use Rattle.ftd_script.specs.Jobs.{reads_file};
ghost use Rattle.ftd_script.specs.Shown.{echo_text, said_text};
ghost use Rattle.ftd_shell.specs.Scripts.{AnswersScript, EndsUnread};
ghost use Rattle.ftd_shell.specs.Shells.{AnswersNext, AnswersPiece, AnswersWords, DoesAsked};
ghost use Rattle.ftd_shell.specs.Shells.{DoesJob, HasNoMemory, TellsBad, ways_of};
ghost use Rattle.ftd_shell.specs.ListedLines.{AnswersAfter, AnswersAlone, AnswersTaken};
ghost use Rattle.ftd_shell.specs.Understanding.{AsksJob, Understands, UnderstandsLine};
ghost use Rattle.ftd_shell.specs.Understanding.{UnderstandsWords};

use crate::listed::Listed;
use crate::understood::{Understood, Words, of_request, of_words};
use ftd_cli::{
    CliFault, DayClock, Job, Line, Piece, command_words, decide_today, read_line, shown_words,
};
use ftd_desk::Desk;
use ftd_imports::Quiet;
use ftd_ports::{Port, Target, WriteFault};
use ftd_program::{JobEnd, fail_output, perform, print_line};
use ftd_replies::{put, request_in, tell};
use ftd_script::{Shows, greater, is_last, job_asked, put_named, reads_file, write_command};
use ftd_verbs::TEXT;
use sqlite::Alter;
use std::alloc::Global;

/// Why something can't be read.
#[derive(Drop)]
pub struct Unread {
    /// The exit status.
    pub status: u8,
    /// What is told of it.
    pub said: Vec<u8>,
}

/// The files that the imports of a script name.
pub trait Inputs {
    /// The bytes of the file.
    fn read(&mut self, file: &str) -> Result<Vec<u8>, Unread>;
}

/// The lines of a script.
pub trait Script {
    /// The bytes that are left, where it tells them.
    ghost left: { Self → Option (List ℕ) };

    /// Whether its source has failed.
    ghost failed: { Self → Bool };

    /// Reads what comes next.
    fn next(&mut self) -> Result<Piece, Unread>
        ensures known { IfOk result (NextOf (left self.old) (left self.new)) }
        ensures fails { OnErr result (failed self.new ≡ true) };

    /// Whether what comes next is there, with nothing to wait for: lines are then read ahead, to be
    /// answered together.
    fn is_ready(&self) -> bool;
}

/// What became of a line that was read, where it was to be listed.
#[derive(Drop)]
struct Taken {
    number: u64,
    /// What it asks, where it is to be answered alone.
    alone: Option<Understood>,
    /// What comes next is there.
    is_ready: bool,
}

/// A desk that answers the lines of a script, where the files come from that imports name, and what
/// tells the day of today to a line that leaves it out.
pub struct Shell<S: Alter, F> {
    pub alloc: Global,
    /// The file of the desk's database.
    pub db: String,
    pub desk: Desk<S>,
    pub inputs: F,
    /// Whether it does imports.
    pub does_imports: bool,
    pub shows: Shows,
}

/// What is told of a command that is none of a shell.
const NOT_HERE: &[u8] = b"error: this is no command of the shell\n";

/// What is told of a line with a word that is no text.
const NO_TEXT: &[u8] = b"error: a word is no text\n";

/// What is told of a line that is too long.
const TOO_LONG: &[u8] = b"error: the line has more than 65536 bytes\n";

/// Says that there was no memory.
fn fail_memory<O, E: Target>(out: O, err: E) -> JobEnd<O, E>
    ensures { HasNoMemory E.taken E.failed out err result }
{
    print_line(3, b"failed 21 Memory\n", out, err)
}

/// Says why a script can't be read further, after these answers.
pub(crate) fn end_unread<O, E: Target>(unread: &Unread, before: JobEnd<O, E>) -> JobEnd<O, E>
    ensures { EndsUnread E.taken E.failed before result unread.now.status unread.now.said.items }
{
    let JobEnd { status, out, err } = before;
    print_line(greater(status, unread.status), &unread.said, out, err)
}

/// Whether lines that are listed wait for the next: where the last one is not to be answered alone,
/// what comes next is there, and there is room for it.
fn waits(alone: &Option<Understood>, is_ready: bool, is_full: bool) -> bool
    ensures { result ≡ true → alone.now ≡ None }
{
    alone.is_none() && is_ready && !is_full
}

impl<S: Alter, F: Drop> Shell<S, F> {
    /// The desk of a shell that answers no more.
    pub fn into_desk(self) -> Desk<S>
        ensures { result ≡ self.desk }
    {
        let Shell {
            desk,
            alloc: _,
            db: _,
            inputs: _,
            does_imports: _,
            shows: _,
        } = self;
        desk
    }
}

impl<S: Alter, F: Inputs + DayClock> Shell<S, F> {
    /// What the job reads. Empty if it reads nothing.
    fn input_for(&mut self, job: &Job) -> Result<Vec<u8>, Unread>
        ensures file { OnErr result (reads_file job.now ≡ true) }
        ensures desk { self.new.desk ≡ self.old.desk }
        ensures stays { ways_of self.new ≡ ways_of self.old }
    {
        match job {
            Job::Import { file, .. } => self.inputs.read(file),
            _ => Ok(Vec::new(self.alloc)),
        }
    }

    /// Does the job of a line with the desk.
    fn answer_job<O: Target, E: Target>(&mut self, job: Job, out: O, err: E) -> JobEnd<O, E>
        ensures does { DoesJob S.Store O.taken O.failed E.taken E.failed out err result
            self.old.desk self.new.desk (ways_of self.old).db job }
        ensures stays { ways_of self.new ≡ ways_of self.old }
    {
        let input = match self.input_for(&job) {
            Ok(input) => input,
            Err(unread) => return print_line(unread.status, &unread.said, out, err),
        };
        let (alloc, db) = (self.alloc, self.db.as_str());
        perform(alloc, db, job, &mut self.desk, &input, out, err, &mut Quiet)
    }

    /// Does what the words of a command ask with the desk. What only a command line of its own can
    /// ask, as a server, is told to be none of the shell's, and so is an import where it does none.
    fn answer_asked<O: Target, E: Target>(
        &mut self,
        asked: Result<Option<Job>, CliFault>,
        out: O,
        err: E,
    ) -> JobEnd<O, E>
        ensures answers { DoesAsked S.Store O.taken O.failed E.taken E.failed out err result
            self.old.desk self.new.desk (ways_of self.old).db asked }
        ensures stays { ways_of self.new ≡ ways_of self.old }
    {
        let (mut out, mut err) = (out, err);
        match asked {
            Ok(Some(job)) => self.answer_job(job, out, err),
            Ok(None) => print_line(2, NOT_HERE, out, err),
            Err(fault) => {
                let status = tell(&fault, &mut out, &mut err);
                JobEnd { status, out, err }
            }
        }
    }

    /// Writes the words of a command, where commands are shown.
    pub(crate) fn show_command<O: Target>(&self, shown: &str, out: &mut O) -> Result<(), WriteFault>
        ensures { Writes result (O.taken out.old) (O.taken out.new) (O.failed out.new)
            (echo_text (ways_of self.now).shows shown.now) }
    {
        if self.shows.commands {
            write_command(shown, out)
        } else {
            Ok(())
        }
    }

    /// Puts what was said of a line on standard error: below the line, where lines are shown.
    pub(crate) fn put_said<E: Target>(&self, number: u64, shown: &str, said: &[u8], err: &mut E)
        ensures { IsPut (E.taken err.old) (E.taken err.new) (E.failed err.new)
            (said_text (ways_of self.now).shows number shown.now said.now) }
    {
        if self.shows.lines {
            put_named(number, shown, said, err);
        } else {
            put(said, err);
        }
    }

    /// Says what is wrong with a line, which is not shown.
    fn tell_bad<O, E: Target>(&self, number: u64, said: &[u8], out: O, err: E) -> JobEnd<O, E>
        ensures { TellsBad E.taken E.failed out err result (ways_of self.now).shows number
            said.now }
    {
        let mut err = err;
        self.put_said(number, "..", said, &mut err);
        JobEnd {
            status: 2,
            out,
            err,
        }
    }

    /// What the words of a line ask, those of the command for which they stand, as the command line
    /// is read.
    fn decide_words(&mut self, shown: String, words: &[String]) -> Understood
        ensures understands { string_bytes shown ≡ shown_words (map string_bytes words.now)
            → UnderstandsWords (ways_of self.old) (map string_bytes words.now) result }
        ensures desk { self.new.desk ≡ self.old.desk }
        ensures stays { ways_of self.new ≡ ways_of self.old }
    {
        let Ok(command) = command_words(self.alloc, &self.db, words) else {
            return Understood::NoMemory;
        };
        let decided = decide_today(self.alloc, &mut self.inputs, &command);
        of_words(shown, job_asked(decided, self.does_imports))
    }

    /// The same: of words that can be read as they are, with no command line.
    fn understand_words(&mut self, words: &[String]) -> Understood
        ensures understands { UnderstandsWords (ways_of self.old) (map string_bytes words.now)
            result }
        ensures desk { self.new.desk ≡ self.old.desk }
        ensures stays { ways_of self.new ≡ ways_of self.old }
    {
        let Ok(shown) = shown_words(self.alloc, words) else {
            return Understood::NoMemory;
        };
        match request_in(self.alloc, words) {
            Ok(Some(request)) => of_request(shown, TEXT, request),
            Ok(None) => self.decide_words(shown, words),
            Err(_) => Understood::NoMemory,
        }
    }

    /// What a line asks.
    fn understand_line(&mut self, line: &[u8]) -> Understood
        ensures understands { UnderstandsLine (ways_of self.old) (line_of line.now) result }
        ensures desk { self.new.desk ≡ self.old.desk }
        ensures stays { ways_of self.new ≡ ways_of self.old }
    {
        match read_line(self.alloc, line) {
            Ok(Line::Nothing) => Understood::Nothing,
            Ok(Line::Command(words)) => self.understand_words(&words),
            Ok(Line::NoText) => Understood::NoText,
            Err(_) => Understood::NoMemory,
        }
    }

    /// What that asks which comes next in a script.
    pub(crate) fn understand(&mut self, piece: &Piece) -> Understood
        ensures understands { Understands (ways_of self.old) piece.now result }
        ensures desk { self.new.desk ≡ self.old.desk }
        ensures stays { ways_of self.new ≡ ways_of self.old }
    {
        match piece {
            Piece::End => Understood::Nothing,
            Piece::Line(line) => self.understand_line(line),
            Piece::TooLong => Understood::TooLong,
        }
    }

    /// Answers the words of a line, as the command is answered for which they stand.
    fn answer_words<O: Target, E: Target>(
        &mut self,
        number: u64,
        words: Words,
        out: O,
        err: E,
    ) -> JobEnd<O, E>
        ensures answers { (said : List (List ℕ)) → string_bytes words.shown ≡ shown_words said
            → AsksJob (ways_of self.old) said words.asked
            → AnswersWords S.Store O.taken O.failed E.taken E.failed out err result
            self.old.desk self.new.desk (ways_of self.old) number said }
        ensures stays { ways_of self.new ≡ ways_of self.old }
    {
        let Words { shown, asked } = words;
        let (mut out, mut err) = (out, err);
        let Ok(()) = self.show_command(&shown, &mut out) else {
            return fail_output(out, err);
        };
        let said = Port::new(Vec::new(self.alloc));
        let end = self.answer_asked(asked, out, said);
        self.put_said(number, &shown, &end.err.into_inner(), &mut err);
        JobEnd {
            status: end.status,
            out: end.out,
            err,
        }
    }

    /// Answers what comes next in a script, if it is a line, as it was understood.
    fn answer_understood<O: Target, E: Target>(
        &mut self,
        number: u64,
        understood: Understood,
        out: O,
        err: E,
    ) -> JobEnd<O, E>
        ensures answers { (piece : Pieces) → Understands (ways_of self.old) piece understood
            → AnswersPiece S.Store O.taken O.failed E.taken E.failed out err result
            self.old.desk self.new.desk (ways_of self.old) number piece }
        ensures stays { ways_of self.new ≡ ways_of self.old }
    {
        match understood {
            Understood::Nothing => JobEnd {
                status: 0,
                out,
                err,
            },
            Understood::NoText => self.tell_bad(number, NO_TEXT, out, err),
            Understood::TooLong => self.tell_bad(number, TOO_LONG, out, err),
            Understood::NoMemory => fail_memory(out, err),
            Understood::Enters(entry) => self.answer_words(number, entry.into_words(), out, err),
            Understood::Asks(words) => self.answer_words(number, words, out, err),
        }
    }

    /// Answers what comes next in a script, if it is a line, after these answers.
    pub(crate) fn answer_next<O: Target, E: Target>(
        &mut self,
        number: u64,
        understood: Understood,
        before: JobEnd<O, E>,
    ) -> JobEnd<O, E>
        ensures answers { (piece : Pieces) → Understands (ways_of self.old) piece understood
            → AnswersNext S.Store O.taken O.failed E.taken E.failed before result
            self.old.desk self.new.desk (ways_of self.old) number piece }
        ensures stays { ways_of self.new ≡ ways_of self.old }
    {
        let JobEnd { status, out, err } = before;
        let end = self.answer_understood(number, understood, out, err);
        JobEnd {
            status: greater(status, end.status),
            out: end.out,
            err: end.err,
        }
    }

    /// Answers what is to be answered alone, if anything is, after these answers.
    fn answer_alone<O: Target, E: Target>(
        &mut self,
        number: u64,
        alone: Option<Understood>,
        before: JobEnd<O, E>,
    ) -> JobEnd<O, E>
        ensures answers { AnswersAlone S.Store O.taken O.failed E.taken E.failed before result
            self.old.desk self.new.desk (ways_of self.old) number alone }
        ensures stays { ways_of self.new ≡ ways_of self.old }
    {
        match alone {
            Some(understood) => self.answer_next(number, understood, before),
            None => before,
        }
    }

    /// Answers the lines that are listed, and then what is to be answered alone, if anything is and
    /// none of them is the last, after these answers.
    fn answer_after<O: Target, E: Target>(
        &mut self,
        has_stop: bool,
        number: u64,
        alone: Option<Understood>,
        listed: &mut Listed,
        before: JobEnd<O, E>,
    ) -> JobEnd<O, E>
        ensures answers { AnswersAfter S.Store O.taken O.failed E.taken E.failed has_stop before
            result self.old.desk self.new.desk (ways_of self.old) number alone listed.old
            listed.new }
        ensures stays { ways_of self.new ≡ ways_of self.old }
    {
        let end = self.answer_listed(has_stop, listed, before);
        if is_last(has_stop, end.status) {
            return end;
        }
        listed.clear();
        self.answer_alone(number, alone, end)
    }

    /// The same, unless the lines that are listed wait for the next.
    fn answer_taken<O: Target, E: Target>(
        &mut self,
        has_stop: bool,
        taken: Taken,
        listed: &mut Listed,
        before: JobEnd<O, E>,
    ) -> JobEnd<O, E>
        ensures answers { AnswersTaken S.Store O.taken O.failed E.taken E.failed has_stop before
            result self.old.desk self.new.desk (ways_of self.old) taken.number taken.alone
            listed.old listed.new }
        ensures stays { ways_of self.new ≡ ways_of self.old }
    {
        let Taken {
            number,
            alone,
            is_ready,
        } = taken;
        if waits(&alone, is_ready, listed.is_full()) {
            return before;
        }
        self.answer_after(has_stop, number, alone, listed, before)
    }

    /// Answers the lines of a script, one after the other. The status is the greatest of the
    /// lines'. A line of status 3 is the last, since the desk is stopped then; with `has_stop` the
    /// first line that is not answered is the last. Where the script's source fails, the status is
    /// at least the one that it gives.
    ///
    /// A line is answered before the next is read, unless that is there already: then lines that
    /// enter something are read ahead and answered together, in one transaction, if none of them is
    /// refused. What they say is the same.
    pub fn answer_script<L: Script, O: Target, E: Target>(
        &mut self,
        script: &mut L,
        has_stop: bool,
        out: O,
        err: E,
    ) -> JobEnd<O, E>
        ensures answers { AnswersScript S.Store O.taken O.failed E.taken E.failed out err result
            self.old.desk self.new.desk (ways_of self.old) (L.left script.old) (L.failed script.new)
            has_stop }
        ensures stays { ways_of self.new ≡ ways_of self.old }
    {
        let mut end = JobEnd {
            status: 0,
            out,
            err,
        };
        let mut listed = Listed::none(self.alloc);
        for number in 1..u64::MAX {
            let piece = match script.next() {
                Ok(piece) => piece,
                Err(unread) => return self.end_unread(has_stop, &listed, &unread, end),
            };
            if let Piece::End = piece {
                return self.answer_listed(has_stop, &listed, end);
            }
            let understood = self.understand(&piece);
            let alone = listed.take(self.alloc, number, piece, understood);
            let taken = Taken {
                number,
                alone,
                is_ready: script.is_ready(),
            };
            end = self.answer_taken(has_stop, taken, &mut listed, end);
            if is_last(has_stop, end.status) {
                return end;
            }
        }
        self.answer_listed(has_stop, &listed, end)
    }
}

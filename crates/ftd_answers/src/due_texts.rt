//! A due list that is written row by row.

ghost use Rattle.std.specs.Prelude.{◌≡◌, ◌⊎◌, ◌<◌, ◌≤◌, ◌+◌, ◌++◌, [], ℕ, List, Option, None, true};
ghost use Rattle.std.specs.Prelude.{IfOk, IfErr, IfSome, IsErrAnd, OnOk};
ghost use Rattle.std.specs.Io.KnownBytes.{Appends};
ghost use Rattle.ftd_ports.specs.Writing.{Writes, WritesPrefix};
ghost use Rattle.ftd_rules.specs.declared.verdict.DueRow.{DueRow};
ghost use Rattle.ftd_answers.specs.DueLists.{due_line, due_text, total_line};
ghost use Rattle.ftd_rules.specs.Verdicts.{amount_of};
ghost use Rattle.ftd_answers.specs.DueTexts.{HasRows, has_failed, waiting, writer_of};

use crate::due_lists::{write_head, write_row, write_total};
use ftd_days::{Cents, Day, Quarter};
use ftd_ports::{Target, WriteFault};
use ftd_rules::{AMOUNTS_END, DueRow, DueSink, SinkFault};

/// A due list that is written row by row, by first day, to a writer that it holds: the same bytes
/// as those of `due_list`. Its first line waits for the first row, or for the end, so that nothing
/// is written where no list comes. A `DueText` that failed answers the fault from then on, and
/// writes nothing more.
#[derive(Drop)]
pub struct DueText<'a, W> {
    account: &'a str,
    quarter: Quarter,
    as_of: Day,
    writer: W,
    total: u64,
    begun: bool,
    failed: bool,
}

/// A text was not written whole. It hands the writer back, which took a prefix of the text.
#[derive(Drop)]
pub struct UnwrittenText<W> {
    pub writer: W,
}

/// The sum with the amount of the row, where it stays below what no due list reaches.
fn total_with(total: u64, row: &DueRow) -> Option<u64>
    ensures counts { IfSome result
        (λ sum. (sum ≡ total + amount_of row.now) × (sum < AMOUNTS_END)) }
    ensures full { result ≡ None → AMOUNTS_END ≤ total + amount_of row.now }
{
    let total = total.saturating_add(row.obligation.cents.0);
    if total < AMOUNTS_END {
        Some(total)
    } else {
        None
    }
}

impl<'a, W: Target> DueText<'a, W> {
    /// The due list of an account's quarter as of a day, of which nothing is written yet.
    pub fn begin(account: &'a str, quarter: Quarter, as_of: Day, writer: W) -> DueText<'a, W>
        ensures writer { writer_of result ≡ writer }
        ensures rows { HasRows W.taken (W.taken writer) account.now quarter as_of [] result }
    {
        DueText {
            account,
            quarter,
            as_of,
            writer,
            total: 0,
            begun: false,
            failed: false,
        }
    }

    /// The writer, which took what is written so far.
    pub fn into_writer(self) -> W
        ensures { result ≡ writer_of self.entry }
    {
        self.writer
    }

    /// Writes the first line, where it still waits.
    fn write_first(&mut self) -> Result<(), WriteFault>
        ensures writes { Writes result (W.taken (writer_of self.old)) (W.taken (writer_of self.new))
            (W.failed (writer_of self.new)) (waiting self.old) }
        ensures begun { OnOk result
            (self.new ≡ record self.old { writer = self.new.writer; begun = true }) }
    {
        if !self.begun {
            write_head(self.account, self.quarter, self.as_of, &mut self.writer)?;
            self.begun = true;
        }
        Ok(())
    }

    /// Writes the line of the row, after the first line.
    fn write(&mut self, row: &DueRow) -> Result<(), WriteFault>
        ensures writes { Writes result (W.taken (writer_of self.old)) (W.taken (writer_of self.new))
            (W.failed (writer_of self.new)) (waiting self.old ++ due_line row.now) }
        ensures begun { OnOk result
            (self.new ≡ record self.old { writer = self.new.writer; begun = true }) }
    {
        self.write_first()?;
        write_row(row, &mut self.writer)
    }

    /// Writes the last line, after the first line.
    fn finish(&mut self) -> Result<(), WriteFault>
        ensures { Writes result (W.taken (writer_of self.old)) (W.taken (writer_of self.new))
            (W.failed (writer_of self.new)) (waiting self.old ++ total_line self.old.total) }
    {
        let total = Cents(self.total);
        self.write_first()?;
        write_total(total, &mut self.writer)
    }

    /// Writes the last line, with the total of the amounts, and gives the writer back.
    pub fn end(self) -> Result<W, UnwrittenText<W>>
        ensures text { (start : Option (List ℕ)) (account : List ℕ) (quarter as_of : ℕ)
            (rows : List DueRow)
            → HasRows W.taken start account quarter as_of rows self.entry
            → IfOk result (λ writer.
            Appends start (W.taken writer) (due_text account quarter as_of rows)) }
        ensures prefix { (start : Option (List ℕ)) (account : List ℕ) (quarter as_of : ℕ)
            (rows : List DueRow)
            → HasRows W.taken start account quarter as_of rows self.entry
            → IfErr result (λ unwritten.
            WritesPrefix start (W.taken unwritten.writer) (due_text account quarter as_of rows)) }
        ensures fault { IfErr result
            (λ unwritten. (has_failed self.entry ≡ true) ⊎ (W.failed unwritten.writer ≡ true)) }
        ensures failed { has_failed self.entry ≡ true
            → IsErrAnd result (λ unwritten. unwritten.writer ≡ writer_of self.entry) }
    {
        let mut text = self;
        if text.failed {
            return Err(UnwrittenText {
                writer: text.writer,
            });
        }
        match text.finish() {
            Ok(()) => Ok(text.writer),
            Err(_) => Err(UnwrittenText {
                writer: text.writer,
            }),
        }
    }
}

impl<'a, W: Target> DueSink for DueText<'a, W> {
    ghost use Rattle.ftd_answers.specs.DueTexts.{BreaksAt, TakesRow, has_failed};

    ghost took = { λ before row after. TakesRow W.taken before row after };

    ghost broke = { λ before row after. BreaksAt W.taken W.failed before row after };

    ghost failed = { has_failed };

    /// Writes the line of the row, and before the first row the first line. It fails where the
    /// writer fails, and where the row brings the sum of the amounts to 6,000,000,000,000,000 cents
    /// or more; from then on it answers the fault, and writes nothing more.
    fn row(&mut self, row: &DueRow) -> Result<(), SinkFault> {
        if self.failed {
            return Err(SinkFault);
        }
        let Some(total) = total_with(self.total, row) else {
            self.failed = true;
            return Err(SinkFault);
        };
        match self.write(row) {
            Ok(()) => {
                self.total = total;
                Ok(())
            }
            Err(_) => {
                self.failed = true;
                Err(SinkFault)
            }
        }
    }
}

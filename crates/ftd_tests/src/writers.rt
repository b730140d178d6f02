//! The due list and Schedule B written to writers that fail, and readers that do.

ghost use Rattle.std.specs.Prelude.{◌≡◌, ◌<◌, IfOk};
ghost use Rattle.std.specs.List.{sum_by};
ghost use Rattle.ftd_rules.specs.Verdicts.{amount_of};

use ftd_answers::{DueText, UnwrittenText, due_list, schedule_b};
use ftd_days::{Cents, Day, Quarter};
use ftd_ports::{Port, PortFault, Source, Target, WriteFault};
use ftd_rules::{DaySum, DueRow, DueSink, Obligation, Rule, SinkFault, Verdict};
use std::alloc::{AllocError, Global};
use std::io::{Error, ErrorKind, Read, Write};
use std::test::Fail;

const WITH_ONE_ROW: &str = "DUE LIST ash 2024Q1 AS OF 2024-02-20
2024-01-01 2024-01-31 monthly               882.50 2024-02-15 2024-04-30              0.00 with-return
TOTAL                                       882.50
";

const SCHEDULE: &str = "SCHEDULE B elm 2024Q2
2024-04                  0.00
2024-05-08           40000.00
2024-05-10           60000.00
2024-05             100000.00
2024-06                  0.00
2024Q2              100000.00
";

fn day(text: &str) -> Result<Day, Fail> {
    Ok(Day::read(text.as_bytes()).ok_or("a day")?)
}

fn quarter(text: &str) -> Result<Quarter, Fail> {
    Ok(Quarter::read(text.as_bytes()).ok_or("a quarter")?)
}

/// January's obligation of 882.50, which may be paid with the return.
fn january() -> Result<DueRow, Fail>
    ensures { IfOk result (λ row. amount_of row ≡ 88_250) }
{
    Ok(DueRow {
        obligation: Obligation {
            first: day("2024-01-01")?,
            last: day("2024-01-31")?,
            rule: Rule::Monthly,
            cents: Cents(88_250),
            due: day("2024-02-15")?,
        },
        makeup: day("2024-04-30")?,
        paid: Cents(0),
        verdict: Verdict::WithReturn,
    })
}

/// A writer that takes so many bytes, two at a time, and then fails.
#[derive(Drop)]
struct Narrow {
    taken: Vec<u8>,
    room: usize,
}

impl Write for Narrow {
    fn write(&mut self, buf: &[u8]) -> std::io::Result<usize> {
        let count = buf.len().min(2).min(self.room);
        if count == 0 && !buf.is_empty() {
            return Err(Error::from(ErrorKind::Other));
        }
        self.taken.extend_from_slice(&buf[..count])?;
        self.room -= count;
        Ok(count)
    }

    fn flush(&mut self) -> std::io::Result<()> {
        Ok(())
    }
}

/// A port with room for so many bytes, and what it took.
fn port_with(alloc: Global, room: usize) -> Port<Narrow> {
    Port::new(Narrow {
        taken: Vec::new(alloc),
        room,
    })
}

fn taken_by(port: Port<Narrow>) -> Vec<u8> {
    let Narrow { taken, room: _ } = port.into_inner();
    taken
}

/// Writes January's due list to a writer with so much room: what it took, and how it ended.
fn written(alloc: Global, room: usize) -> Result<(Vec<u8>, Result<(), WriteFault>), Fail> {
    let rows = [january()?];
    let mut port = port_with(alloc, room);
    let end = due_list(
        "ash",
        quarter("2024Q1")?,
        day("2024-02-20")?,
        &rows,
        &mut port,
    );
    Ok((taken_by(port), end))
}

/// The same row by row: what the writer took, and whether the row and the end were written.
fn written_by_rows(alloc: Global, room: usize) -> Result<(Vec<u8>, bool, bool), Fail> {
    let row = january()?;
    let port = port_with(alloc, room);
    let mut text = DueText::begin("ash", quarter("2024Q1")?, day("2024-02-20")?, port);
    let took = text.row(&row).is_ok();
    match text.end() {
        Ok(port) => Ok((taken_by(port), took, true)),
        Err(UnwrittenText { writer }) => Ok((taken_by(writer), took, false)),
    }
}

/// Writes the liability of an account's quarter by day to a writer with so much room.
fn schedule(alloc: Global, room: usize) -> Result<(Vec<u8>, Result<(), WriteFault>), Fail> {
    let sums = [
        DaySum {
            day: day("2024-05-08")?,
            cents: Cents(4_000_000),
        },
        DaySum {
            day: day("2024-05-10")?,
            cents: Cents(6_000_000),
        },
    ];
    let mut port = port_with(alloc, room);
    let end = schedule_b("elm", quarter("2024Q2")?, &sums, &mut port);
    Ok((taken_by(port), end))
}

#[test]
fn a_due_list_breaks_off_where_its_writer_fails(rt: HostRuntime) -> Result<(), Fail> {
    let text = WITH_ONE_ROW.as_bytes();
    for room in 0..text.len() {
        let (taken, end) = written(rt.alloc(), room)?;
        assert_eq!(rt; end, Err(WriteFault));
        assert_eq!(rt; taken.as_slice(), &text[..room]);
    }
    Ok(())
}

#[test]
fn a_schedule_b_breaks_off_where_its_writer_fails(rt: HostRuntime) -> Result<(), Fail> {
    let text = SCHEDULE.as_bytes();
    let (whole, end) = schedule(rt.alloc(), 1000)?;
    assert_eq!(rt; end, Ok(()));
    assert_eq!(rt; whole.as_slice(), text);
    for room in 0..text.len() {
        let (taken, end) = schedule(rt.alloc(), room)?;
        assert_eq!(rt; end, Err(WriteFault));
        assert_eq!(rt; taken.as_slice(), &text[..room]);
    }
    Ok(())
}

#[test]
fn rows_break_off_where_their_writer_fails(rt: HostRuntime) -> Result<(), Fail> {
    let text = WITH_ONE_ROW.as_bytes();
    let (whole, took, ended) = written_by_rows(rt.alloc(), text.len())?;
    assert_eq!(rt; whole.as_slice(), text);
    assert!(rt; took && ended);
    // The first two lines end at these bytes.
    for room in 0..text.len() {
        let (taken, took, ended) = written_by_rows(rt.alloc(), room)?;
        assert_eq!(rt; taken.as_slice(), &text[..room]);
        assert_eq!(rt; took, room >= 140);
        assert!(rt; !ended);
    }
    Ok(())
}

/// A row of so many cents.
fn row_of(cents: u64) -> Result<DueRow, Fail> {
    let row = january()?;
    let obligation = Obligation {
        cents: Cents(cents),
        ..row.obligation
    };
    Ok(DueRow { obligation, ..row })
}

#[test]
fn a_total_stays_below_the_bound(rt: HostRuntime) -> Result<(), Fail> {
    let port = port_with(rt.alloc(), 1000);
    let mut text = DueText::begin("ash", quarter("2024Q1")?, day("2024-02-20")?, port);
    assert_eq!(rt; text.row(&row_of(5_999_999_999_999_998)?), Ok(()));
    assert_eq!(rt; text.row(&row_of(1)?), Ok(()));
    assert_eq!(rt; text.row(&row_of(1)?), Err(SinkFault));
    assert_eq!(rt; text.row(&row_of(0)?), Err(SinkFault));
    let Err(UnwrittenText { writer }) = text.end() else {
        return Err("an end")?;
    };
    // The first line and the lines of two rows.
    assert_eq!(rt; taken_by(writer).len(), 37 + 103 + 103);
    Ok(())
}

/// A reader that is interrupted, gives two bytes, fails, and then would give bytes again.
#[derive(Drop)]
struct Flaky {
    calls: u32,
}

impl Read for Flaky {
    fn read(&mut self, buf: &mut [u8]) -> std::io::Result<usize> {
        self.calls = self.calls.saturating_add(1);
        match self.calls {
            1 => Err(Error::from(ErrorKind::Interrupted)),
            3 => Err(Error::from(ErrorKind::Other)),
            _ => Ok(buf.len().min(2)),
        }
    }
}

#[test]
fn a_source_that_failed_stays_failed(rt: HostRuntime) {
    let mut source = Port::new(Flaky { calls: 0 });
    let mut buf = [0u8; 4];
    assert_eq!(rt; source.get(&mut buf), Ok(2));
    assert_eq!(rt; source.get(&mut buf), Err(PortFault));
    assert_eq!(rt; source.get(&mut buf), Err(PortFault));
    assert_eq!(rt; source.into_inner().calls, 3);
}

#[test]
fn a_put_that_takes_nothing_fails(rt: HostRuntime) {
    let mut full = [0u8; 2];
    let mut target = Port::new(full.as_mut_slice());
    assert_eq!(rt; target.put(b""), Ok(0));
    assert_eq!(rt; target.put(b"abc"), Ok(2));
    assert_eq!(rt; target.put(b"c"), Err(PortFault));
    assert_eq!(rt; target.put(b""), Err(PortFault));
}

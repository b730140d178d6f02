//! The deposits of one account out of pay runs, without a desk.

ghost use Rattle.std.specs.Prelude.{◌≡◌};
ghost use Rattle.ftd_ports.specs.Writing.{Writes, WritesPrefix};
ghost use Rattle.ftd_program.specs.Performing.{PrintsOut};
ghost use Rattle.ftd_program.specs.PlainLines.{IsHinted, PerformsPlain, PrintsFault, fault_hints};
ghost use Rattle.ftd_program.specs.PlainLines.{fault_line, fault_status, record_line, run_line};

use crate::performing::{JobEnd, fail_output};
use ftd_cli::PlainTask;
use ftd_csv::{Sheet, write_header_hint, write_record_hints};
use ftd_plain::{PlainFault, plain};
use ftd_ports::{Target, WriteFault, write_all, write_pieces};
use itoa::Buffer;
use std::alloc::Global;

/// Prints the deposits of an account in a year, from the pay runs of the input, CSV with the header
/// `employer,run,payday,fit,ss,medicare`: a line for each obligation on `out`, or on `err` why
/// there are none. The status is 1 where the input is refused, 3 where there was no memory, or
/// where `out` failed after a prefix of the lines.
pub fn print_plain<O: Target, E: Target>(
    alloc: Global,
    task: &PlainTask,
    input: &[u8],
    out: O,
    err: E,
) -> JobEnd<O, E>
    ensures { PerformsPlain O.taken O.failed E.taken E.failed out err result
        input.now task.now }
{
    let account = task.account.as_str();
    match plain(alloc, input, account, task.year, task.holidays.as_slice()) {
        Ok(text) => print_text(&text, out, err),
        Err(fault) => print_fault(alloc, input, fault, out, err),
    }
}

/// Prints the text of the deposits.
fn print_text<O: Target, E: Target>(text: &[u8], out: O, err: E) -> JobEnd<O, E>
    ensures { PrintsOut O.taken O.failed E.taken E.failed out err result 0 text.now }
{
    let mut out = out;
    match write_all(&mut out, text) {
        Ok(()) => JobEnd {
            status: 0,
            out,
            err,
        },
        Err(_) => fail_output(out, err),
    }
}

/// Prints why there are no deposits, and the hints below it.
fn print_fault<O, E: Target>(
    alloc: Global,
    input: &[u8],
    fault: PlainFault,
    out: O,
    err: E,
) -> JobEnd<O, E>
    ensures { PrintsFault E.taken E.failed out err result input.now fault }
{
    let mut err = err;
    put_fault(alloc, input, fault, &mut err);
    JobEnd {
        status: status_of(fault),
        out,
        err,
    }
}

/// Prints the line of the fault, and the hints below it.
fn put_fault<E: Target>(alloc: Global, input: &[u8], fault: PlainFault, err: &mut E)
    ensures { IsHinted (E.taken err.old) (E.taken err.new) (E.failed err.new)
        (fault_line fault) (fault_hints input.now fault) }
{
    // Where standard error fails, the status still tells.
    if let Ok(()) = write_fault(fault, err) {
        put_hints(alloc, input, fault, err);
    }
}

/// Prints the hints of the fault. Some may be left out where there is no memory.
fn put_hints<E: Target>(alloc: Global, input: &[u8], fault: PlainFault, err: &mut E)
    ensures { WritesPrefix (E.taken err.old) (E.taken err.new) (fault_hints input.now fault) }
{
    match fault {
        PlainFault::BadHeader => {
            let _ = write_header_hint(Sheet::Runs, input, err);
        }
        PlainFault::Malformed { .. } => {
            let _ = write_record_hints(alloc, Sheet::Runs, input, 1, err);
        }
        _ => {}
    }
}

/// The exit status where there are no deposits.
fn status_of(fault: PlainFault) -> u8
    ensures { result ≡ fault_status fault }
{
    match fault {
        PlainFault::Memory => 3,
        _ => 1,
    }
}

/// Writes the line of the fault.
fn write_fault<E: Target>(fault: PlainFault, err: &mut E) -> Result<(), WriteFault>
    ensures { Writes result (E.taken err.old) (E.taken err.new)
        (E.failed err.new) (fault_line fault) }
{
    match fault {
        PlainFault::BadHeader => write_all(err, b"refused header\n"),
        PlainFault::TooLong => write_all(err, b"refused length\n"),
        PlainFault::Malformed { number, field } => write_record(number, field, err),
        PlainFault::RunDiffers(number) => write_run(number, err),
        PlainFault::TooManyRuns => write_all(err, b"refused 19 TooManyRuns\n"),
        PlainFault::BadCalendar => write_all(err, b"refused 5 BadCalendar\n"),
        PlainFault::Memory => write_all(err, b"failed 21 Memory\n"),
    }
}

/// Writes which record is malformed, and its least bad field.
fn write_record<E: Target>(number: u32, field: u8, err: &mut E) -> Result<(), WriteFault>
    ensures { Writes result (E.taken err.old) (E.taken err.new)
        (E.failed err.new) (record_line number field) }
{
    let (mut number_digits, mut field_digits) = (Buffer::new(), Buffer::new());
    let number = number_digits.format(number).as_bytes();
    let field = field_digits.format(field).as_bytes();
    let pieces: [&[u8]; 5] = [b"record ", number, b" malformed field ", field, b"\n"];
    write_pieces(err, &pieces)
}

/// Writes the number of which two runs differ.
fn write_run<E: Target>(number: u32, err: &mut E) -> Result<(), WriteFault>
    ensures { Writes result (E.taken err.old) (E.taken err.new)
        (E.failed err.new) (run_line number) }
{
    let mut digits = Buffer::new();
    let number = digits.format(number).as_bytes();
    write_pieces(err, &[b"run ", number, b" differs\n"])
}

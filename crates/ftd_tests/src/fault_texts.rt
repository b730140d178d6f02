//! The texts of faults.

use ftd_csv::RecordFault;
use ftd_days::{CalendarFault, Quarter};
use ftd_ports::{PortFault, WriteFault};
use ftd_rules::{QuarterMissing, SinkFault, YearMissing};
use std::alloc::Global;
use std::fmt::Display;
use std::process::Abort;
use std::test::Fail;

/// The fault prints the text.
fn prints<F: Display>(rt: &impl Abort, alloc: Global, fault: &F, text: &str) -> Result<(), Fail> {
    let printed = format!(in alloc; "{fault}")?;
    assert_eq!(rt; printed.as_str(), text);
    Ok(())
}

#[test]
fn faults_of_days_and_of_records_have_their_texts(rt: HostRuntime) -> Result<(), Fail> {
    let alloc = rt.alloc();
    for (fault, text) in [
        (
            CalendarFault::BadCalendar,
            "the days are no calendar of the year",
        ),
        (CalendarFault::Memory, "out of memory"),
    ] {
        prints(&rt, alloc, &fault, text)?;
    }
    for (fault, text) in [
        (RecordFault::BadHeader, "the first record is not the header"),
        (RecordFault::TooLong, "the text has more than 16 MiB"),
        (RecordFault::Memory, "out of memory"),
    ] {
        prints(&rt, alloc, &fault, text)?;
    }
    Ok(())
}

#[test]
fn a_missing_figure_is_named(rt: HostRuntime) -> Result<(), Fail> {
    let quarter = Quarter::read(b"2024Q1").ok_or("a quarter")?;
    prints(
        &rt,
        rt.alloc(),
        &QuarterMissing(quarter),
        "2024Q1 is not reported",
    )?;
    prints(&rt, rt.alloc(), &YearMissing(2022), "2022 is not reported")
}

#[test]
fn failures_of_readers_and_writers_have_their_texts(rt: HostRuntime) -> Result<(), Fail> {
    let alloc = rt.alloc();
    prints(&rt, alloc, &PortFault, "a reader or a writer failed")?;
    prints(&rt, alloc, &WriteFault, "the text could not be written")?;
    prints(
        &rt,
        alloc,
        &SinkFault,
        "a row of the due list could not be taken",
    )
}

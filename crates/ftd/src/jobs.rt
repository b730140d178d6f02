//! A job over the desk of a file.

use crate::progress::ProgressLine;
use ftd_cli::{Job, LocalTask};
use ftd_files::{
    FileAt, ProgramFault, SupposesNothing, import_input, is_new, tell_fault, tell_made,
};
use ftd_local::{Beginning, FileJob, Streams, beginning_of, do_in_copy, do_in_files};
use ftd_ports::Port;
use std::io::{self, Printer, Stderr};

/// Tells a fault with its hint, and gives the exit status.
pub fn report_fault(rt: &HostRuntime, fault: ProgramFault, db: &str, input: &str) -> u8 {
    tell_fault(rt, fault, db, input);
    fault.status()
}

/// The file that a job reads. The empty text if it reads none.
fn input_of(job: &Job) -> &str {
    match job {
        Job::Import { file, .. } => file,
        _ => "",
    }
}

/// Whether a job only tries an import.
fn is_trial(job: &Job) -> bool {
    match job {
        Job::Import { is_trial, .. } => *is_trial,
        _ => false,
    }
}

/// Where the program prints.
fn streams(rt: &HostRuntime) -> Streams<Port<Printer<'_, HostRuntime>>, Port<Stderr>> {
    Streams {
        out: Port::new(io::writer(rt)),
        err: Port::new(rt.stderr()),
    }
}

/// The file of a command, which opens it once.
pub(crate) fn file_at<'a>(
    rt: &'a HostRuntime,
    db: &'a str,
    wait: u32,
) -> FileAt<'a, SupposesNothing> {
    FileAt {
        rt,
        db,
        wait,
        has_short_log: false,
        start: SupposesNothing,
    }
}

/// Does the job with the desk of its file.
fn with_original(rt: &HostRuntime, wait: u32, asked: FileJob<'_>) -> Result<u8, ProgramFault> {
    let files = file_at(rt, asked.db, wait);
    let mut progress = ProgressLine::new(rt);
    let done = do_in_files(rt.alloc(), &files, asked, streams(rt), &mut progress)?;
    done.files?;
    Ok(done.end.status)
}

/// Does the job with the desk of a copy of its file.
fn with_copy(rt: &HostRuntime, wait: u32, asked: FileJob<'_>) -> Result<u8, ProgramFault> {
    let files = file_at(rt, asked.db, wait);
    let mut progress = ProgressLine::new(rt);
    let done = do_in_copy(rt.alloc(), &files, asked, streams(rt), &mut progress)?;
    Ok(done.end.status)
}

/// Does the job with the desk of this file, and tells that the file was made, below what else is
/// told. A trial is done with a copy. `Missing` if the file is not there, and the job makes none.
fn with_file(rt: &HostRuntime, wait: u32, asked: FileJob<'_>) -> Result<u8, ProgramFault> {
    let db = asked.db;
    let is_new = is_new(rt, db)?;
    let beginning = beginning_of(&asked.job);
    if is_new && beginning == Beginning::Needs {
        return Err(ProgramFault::Missing);
    }
    if is_trial(&asked.job) {
        return with_copy(rt, wait, asked);
    }
    let status = with_original(rt, wait, asked)?;
    if is_new && beginning == Beginning::Tells {
        tell_made(rt, db);
    }
    Ok(status)
}

/// What the job reads. Empty if it reads nothing.
fn read(rt: &HostRuntime, job: &Job) -> Result<Vec<u8>, ProgramFault> {
    match job {
        Job::Import { file, .. } => import_input(rt, file),
        _ => Ok(Vec::new(rt.alloc())),
    }
}

/// Does the job of the task, and gives the exit status.
pub fn local(rt: &HostRuntime, task: LocalTask) -> u8 {
    let LocalTask { db, wait, job } = task;
    let input = match read(rt, &job) {
        Ok(input) => input,
        Err(fault) => return report_fault(rt, fault, &db, input_of(&job)),
    };
    let asked = FileJob {
        db: &db,
        job,
        input: &input,
    };
    match with_file(rt, wait, asked) {
        Ok(status) => status,
        Err(fault) => report_fault(rt, fault, &db, ""),
    }
}

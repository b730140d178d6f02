//! The federal tax deposit desk: what is asked on the command line is done with the desk's file, or
//! over the connections of a server, or asked of a server that runs.
#![tactic(auto)]

mod backup;
mod checking;
mod client;
mod commands;
mod jobs;
mod journal;
mod lines;
mod progress;
mod server;
mod server_lines;
mod shell;
mod watching;

use crate::backup::backup;
use crate::client::{ask, remote_of};
use crate::jobs::{local, report_fault};
use crate::server::serve_file;
use crate::shell::shell;
use ftd_cli::{PlainTask, Task, decide_today, with_file};
use ftd_files::{ProgramFault, SystemClock, named_file, standard_input, words};
use ftd_ports::Port;
use ftd_program::{print_plain, tell};
use std::io;
use std::process::ExitCode;

fn main(rt: HostRuntime) -> ExitCode {
    match run(&rt) {
        Ok(status) => ExitCode::from(status),
        Err(fault) => ExitCode::from(report_fault(&rt, fault, "", "")),
    }
}

/// The words, with the file that the environment names where they name none.
fn given_words(rt: &HostRuntime, words: Vec<String>) -> Result<Vec<String>, ProgramFault> {
    match named_file(rt)? {
        Some(file) => Ok(with_file(rt.alloc(), &file, &words)?),
        None => Ok(words),
    }
}

/// Does what the words ask, and gives the exit status.
fn run(rt: &HostRuntime) -> Result<u8, ProgramFault> {
    let words = words(rt)?;
    if let Some(remote) = remote_of(&words) {
        return ask(rt, &remote);
    }
    let words = given_words(rt, words)?;
    match decide_today(rt.alloc(), &mut SystemClock::new(rt), &words) {
        Ok(task) => Ok(done(rt, task)),
        Err(fault) => {
            let mut out = Port::new(io::writer(rt));
            let mut err = Port::new(rt.stderr());
            Ok(tell(&fault, &mut out, &mut err))
        }
    }
}

/// Does the task, and gives the exit status.
fn done(rt: &HostRuntime, task: Task) -> u8 {
    match task {
        Task::Plain(task) => plain(rt, &task),
        Task::Local(task) => local(rt, task),
        Task::Shell(task) => shell(rt, &task),
        Task::Backup(task) => match backup(rt, &task) {
            Ok(status) => status,
            Err(fault) => report_fault(rt, fault, &task.db, &task.copy),
        },
        Task::Serve(task) => match serve_file(rt, &task) {
            Ok(status) => status,
            Err(fault) => report_fault(rt, fault, &task.db, ""),
        },
    }
}

/// Prints the deposits of an account in a year, from the pay runs of standard input.
fn plain(rt: &HostRuntime, task: &PlainTask) -> u8 {
    let input = match standard_input(rt) {
        Ok(input) => input,
        Err(fault) => return report_fault(rt, fault, "", "standard input"),
    };
    let (out, err) = (Port::new(io::writer(rt)), Port::new(rt.stderr()));
    print_plain(rt.alloc(), task, &input, out, err).status
}

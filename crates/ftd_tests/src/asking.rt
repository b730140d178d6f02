//! Commands of the program asked of a desk, and what is printed of them.

use ftd_cli::{LocalTask, Task, decide};
use ftd_desk::Desk;
use ftd_imports::Quiet;
use ftd_ports::Port;
use ftd_program::perform;
use sqlite::Alter;
use std::alloc::Global;
use std::process::Abort;
use std::test::Fail;

/// What a command asks, which is written as on the command line, without `ftd` and without `--db`.
fn task(alloc: Global, command: &str) -> Result<LocalTask, Fail> {
    let line = format!(in alloc; "ftd {command} --db office.db")?;
    let mut words = Vec::new(alloc);
    for word in line.as_str().split(' ') {
        words.push(String::from_str(alloc, word)?)?;
    }
    match decide(alloc, None, &words) {
        Ok(Task::Local(task)) => Ok(task),
        _ => Err("a command on a desk".into()),
    }
}

/// What is printed of a command on both outputs, without the last line's end.
pub(crate) fn ask<S: Alter>(
    alloc: Global,
    desk: &mut Desk<S>,
    command: &str,
) -> Result<String, Fail> {
    let task = task(alloc, command)?;
    let (out, err) = (Port::new(Vec::new(alloc)), Port::new(Vec::new(alloc)));
    let LocalTask { db, job, .. } = task;
    let done = perform(alloc, &db, job, desk, b"", out, err, &mut Quiet);
    let mut printed = done.out.into_inner();
    printed.extend_from_slice(done.err.into_inner().as_slice())?;
    let text = str::from_utf8(printed.as_slice()).unwrap_or("no text");
    Ok(String::from_str(alloc, text.trim_end())?)
}

/// Asks each command, of which this is printed.
pub(crate) fn answers<S: Alter>(
    rt: &impl Abort,
    alloc: Global,
    desk: &mut Desk<S>,
    commands: &[(&str, &str)],
) -> Result<(), Fail> {
    for (command, text) in commands {
        let printed = ask(alloc, desk, command)?;
        assert_eq!(rt; printed.as_str(), *text, "{command}");
    }
    Ok(())
}

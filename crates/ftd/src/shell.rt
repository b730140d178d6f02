//! A shell over the desk of a file.

ghost use Rattle.std.specs.Prelude.{ℕ, Option};

use crate::jobs::report_fault;
use crate::lines::{Lines, read_ahead, unread};
use ftd_cli::{DayClock, ShellTask};
use ftd_days::Day;
use ftd_files::{
    FileAt, ProgramFault, SupposesNothing, SystemClock, import_input, is_new, tell_made,
};
use ftd_local::{Beginning, FileScript, Streams, answer_in_files};
use ftd_ports::{Port, write_all};
use ftd_shell::{Inputs, Script, Shows, Unread};
use std::alloc::AllocError;
use std::fs::File;
use std::io::{self, BufRead, BufReader, IsTerminal, LineWriter};

/// The name by which standard input is given.
const STANDARD_INPUT: &str = "-";

/// What is told of an import from standard input, where that has the script.
const TAKEN: &[u8] = b"error: standard input has the script\n";

/// The files that the imports of a script name, and the clock of its lines.
#[derive(Drop)]
pub(crate) struct Around<'a> {
    rt: &'a HostRuntime,
    clock: SystemClock<'a>,
    /// Standard input has the script.
    is_taken: bool,
}

impl<'a> Around<'a> {
    /// What is around a shell whose script is standard input, or is not.
    pub(crate) fn new(rt: &'a HostRuntime, is_taken: bool) -> Around<'a> {
        Around {
            rt,
            clock: SystemClock::new(rt),
            is_taken,
        }
    }
}

impl DayClock for Around<'_> {
    ghost told = { λ around. around.clock.told };

    fn today(&mut self) -> Option<Day> {
        self.clock.today()
    }
}

impl Inputs for Around<'_> {
    fn read(&mut self, file: &str) -> Result<Vec<u8>, Unread> {
        if self.is_taken && file == STANDARD_INPUT {
            let mut said = Vec::new(self.rt.alloc());
            let _ = said.extend_from_slice(TAKEN);
            return Err(Unread { status: 2, said });
        }
        import_input(self.rt, file).map_err(|fault| unread(self.rt, fault, file))
    }
}

/// How the lines of a script are answered.
fn script_of<'a>(
    rt: &'a HostRuntime,
    task: &ShellTask,
    names_lines: bool,
) -> Result<FileScript<Around<'a>>, AllocError> {
    Ok(FileScript {
        db: String::from_str(rt.alloc(), &task.db)?,
        inputs: Around::new(rt, task.script.as_str() == STANDARD_INPUT),
        shows: Shows {
            commands: task.has_echo,
            lines: names_lines,
        },
        has_stop: task.has_stop,
    })
}

/// Opens the task's file, which is made if it is not there, answers the lines of the script with
/// its desk, and closes it. What is answered is printed line by line.
fn over_file<L: Script + Drop>(
    rt: &HostRuntime,
    task: &ShellTask,
    names_lines: bool,
    script: L,
) -> Result<u8, ProgramFault> {
    let file = FileAt {
        rt,
        db: task.db.as_str(),
        wait: task.wait,
        has_short_log: true,
        start: SupposesNothing,
    };
    let streams = Streams {
        out: Port::new(LineWriter::new(rt.alloc(), io::writer(rt))?),
        err: Port::new(rt.stderr()),
    };
    let asked = script_of(rt, task, names_lines)?;
    let mut script = script;
    let done = answer_in_files(rt.alloc(), &file, asked, &mut script, streams)?;
    done.files?;
    Ok(done.end.status)
}

/// Answers the lines of a script where the file is not there: the first that asks something says
/// what becomes of it, as it does as a command of its own. `Missing` if it makes none.
fn over_new_file<R: BufRead + Drop>(
    rt: &HostRuntime,
    task: &ShellTask,
    names_lines: bool,
    lines: Lines<'_, R>,
) -> Result<u8, ProgramFault> {
    let (beginning, script) = match read_ahead(&task.db, lines) {
        Ok(Some(ahead)) => ahead,
        Ok(None) => return Ok(0),
        Err(unread) => {
            // Where standard error fails, the status still tells.
            let _ = write_all(&mut Port::new(rt.stderr()), &unread.said);
            return Ok(unread.status);
        }
    };
    if beginning == Beginning::Needs {
        return Err(ProgramFault::Missing);
    }
    let status = over_file(rt, task, names_lines, script)?;
    if beginning == Beginning::Tells {
        tell_made(rt, &task.db);
    }
    Ok(status)
}

/// Answers the lines that the reader gives, with the desk of the task's file.
fn over_lines<R: BufRead + Drop>(
    rt: &HostRuntime,
    task: &ShellTask,
    lines: Lines<'_, R>,
) -> Result<u8, ProgramFault> {
    let names_lines = !lines.has_prompt;
    if is_new(rt, &task.db)? {
        over_new_file(rt, task, names_lines, lines)
    } else {
        over_file(rt, task, names_lines, lines)
    }
}

/// Answers the lines of standard input.
fn over_standard_input(rt: &HostRuntime, task: &ShellTask) -> Result<u8, ProgramFault> {
    let has_prompt = rt.stdin().is_terminal();
    let lines = Lines {
        rt,
        reader: rt.reader(),
        name: "standard input",
        has_prompt,
        is_whole: false,
        has_failed: false,
    };
    let done = over_lines(rt, task, lines);
    if has_prompt {
        // No line follows the last prompt.
        let _ = eprint!(rt; "\n");
    }
    done
}

/// Answers the lines of a file. One that is no regular file, as a pipe, is answered line by line.
fn over_script(rt: &HostRuntime, task: &ShellTask, file: File) -> Result<u8, ProgramFault> {
    let is_whole = file.metadata()?.is_file();
    let lines = Lines {
        rt,
        reader: BufReader::new(rt.alloc(), file)?,
        name: &task.script,
        has_prompt: false,
        is_whole,
        has_failed: false,
    };
    over_lines(rt, task, lines)
}

/// Answers the lines of the task's script, and gives the exit status.
pub fn shell(rt: &HostRuntime, task: &ShellTask) -> u8 {
    let done = if task.script.as_str() == STANDARD_INPUT {
        over_standard_input(rt, task)
    } else {
        match File::open(rt, task.script.as_str()) {
            Ok(file) => over_script(rt, task, file),
            Err(error) => return report_fault(rt, error.into(), &task.db, &task.script),
        }
    };
    match done {
        Ok(status) => status,
        Err(fault) => report_fault(rt, fault, &task.db, ""),
    }
}

//! A script over the desk of files, which are opened and closed.

ghost use Rattle.std.specs.Prelude.{IfOk};
ghost use Rattle.ftd_local.specs.Scripts.{AnswersFrom, AnswersInFiles};

use crate::jobs::{FilesEnd, Streams};
use ftd_cli::DayClock;
use ftd_desk::Desk;
use ftd_files::{DeskFiles, ProgramFault, close_desk};
use ftd_ports::Target;
use ftd_shell::{Inputs, Script, Shell, Shows};
use sqlite::FileStore;
use sqlite_disk::Disk;
use std::alloc::Global;

/// How a script is answered with the desk of a file.
#[derive(Drop)]
pub struct FileScript<N> {
    /// The name of the file, as hints have it.
    pub db: String,
    /// The files that its imports name, and the clock of its lines.
    pub inputs: N,
    /// What is shown beside the answers.
    pub shows: Shows,
    /// Whether the first line that is not answered is the last.
    pub has_stop: bool,
}

/// Answers the lines of a script with the desk of files, which are closed.
fn over_desk<D, N, L, O, E>(
    alloc: Global,
    desk: Desk<FileStore<D>>,
    asked: FileScript<N>,
    script: &mut L,
    streams: Streams<O, E>,
) -> FilesEnd<D, O, E>
where
    D: Disk + Drop,
    N: Inputs + DayClock + Drop,
    L: Script,
    O: Target,
    E: Target,
    ensures { AnswersInFiles O.taken O.failed E.taken E.failed streams asked (L.left script.old)
        (L.failed script.new) D.Disk result desk }
{
    let FileScript {
        db,
        inputs,
        shows,
        has_stop,
    } = asked;
    let Streams { out, err } = streams;
    let mut shell = Shell {
        alloc,
        db,
        desk,
        inputs,
        does_imports: true,
        shows,
    };
    let end = shell.answer_script(script, has_stop, out, err);
    FilesEnd {
        end,
        files: close_desk(shell.into_desk()),
    }
}

/// A script over a file: opens a desk over files, answers the lines of the script with it, each as
/// its command, and closes the files. The desk stands for each state for which the files stood, the
/// lines are answered as by that desk, with what is printed and the exit status, and each state for
/// which the desk stands after them rests in the files, so that the next command finds it, also
/// after a crash. An error says why the files can't be opened; no line was answered then.
pub fn answer_in_files<D, F, N, L, O, E>(
    alloc: Global,
    files: &F,
    asked: FileScript<N>,
    script: &mut L,
    streams: Streams<O, E>,
) -> Result<FilesEnd<D, O, E>, ProgramFault>
where
    D: Disk + Drop,
    F: DeskFiles<D>,
    N: Inputs + DayClock + Drop,
    L: Script,
    O: Target + Drop,
    E: Target + Drop,
    ensures { IfOk result (λ done. AnswersFrom O.taken O.failed E.taken E.failed streams asked
        (L.left script.old) (L.failed script.new) D.Disk done F.DeskFiles.image) }
{
    let desk = files.open_desk()?;
    Ok(over_desk(alloc, desk, asked, script, streams))
}

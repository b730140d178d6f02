//! The server: connections over the desk of a database file.

ghost use Rattle.std.specs.Prelude.{◌≤◌, IfOk};
ghost use Rattle.std.specs.String.{string_bytes};
ghost use Rattle.ftd.specs.Commands.{file_of};
ghost use Rattle.ftd.specs.Serving.{ServesFrom, ServesInFiles};

use crate::checking::tell_checked;
use crate::commands::server_shell;
use crate::server_lines::ServerLines;
use crate::shell::Around;
use crate::watching::FileWatch;
use ftd_cli::{DayClock, ServeTask};
use ftd_connections::{Arrivals, Limits, Watch, Watched, announce, serve_on};
use ftd_desk::Desk;
use ftd_files::{DeskFiles, FileAt, ProgramFault, SupposesNothing, close_desk, is_new, tell_made};
use ftd_local::checked;
use ftd_ports::{Port, Target};
use ftd_shell::{Inputs, Shell};
use ftd_waiting::WaitingRoom;
use sqlite::{Alter, FileStore, Files};
use sqlite_disk::Disk;
use std::alloc::AllocError;
use std::io;
use std::net::TcpListener;
use std::time::Clock;

/// For how many seconds at least a server tries to open its file again.
const REOPENING: u32 = 10;

/// Which connections are served, and how long each may take.
#[derive(Clone, Copy)]
struct Turns {
    limits: Limits,
    /// How many were taken before.
    taken: u32,
}

/// A server over the desk of files.
#[derive(Drop)]
struct FileServer<F, N> {
    files: F,
    /// The name of the file, as hints have it.
    db: String,
    /// The clock of its pages.
    inputs: N,
}

/// What came of serving with the desk of files.
#[derive(Drop)]
struct FilesServed<D: Disk> {
    /// How many connections were taken in all.
    taken: u32,
    /// The files, which are closed.
    files: Result<Files<D>, ProgramFault>,
}

/// Serves connections after so many others with the desk of files, until all are served, the desk
/// does not answer any more, or the watch tells that the files are others. The files that were
/// opened are closed then. What is read of each connection, and what is written to it, is said
/// whatever gives the connections; of a socket `std` says neither.
fn serve_shell<R, D, N, W, A, E>(
    rt: &R,
    room: &mut A,
    turns: Turns,
    watched: Watched<'_, Shell<FileStore<D>, N>, W>,
    err: &mut E,
) -> FilesServed<D>
where
    R: Clock + AllocGlobal,
    D: Disk + Drop,
    N: Inputs + DayClock + Drop,
    W: Watch,
    A: Arrivals,
    E: Target,
    requires { turns.taken ≤ turns.limits.connections }
    ensures { ServesInFiles N.told W.tells A.Stream.remaining A.Stream.contents
        A.Stream.may_be_silent A.Arrivals room.old room.new (E.taken err.old) (E.taken err.new)
        (E.failed err.new) (file_of watched.entry.machine) turns.taken D.Disk result
        watched.entry.machine.desk }
{
    let mut watched = watched;
    let taken = serve_on(rt, room, turns.limits, turns.taken, &mut watched, err);
    let Watched { machine, watch: _ } = watched;
    FilesServed {
        taken,
        files: close_desk(machine.into_desk()),
    }
}

/// Serves connections after so many others with the desk of files, which are opened for it and
/// closed then: the desk stands for each state for which the files stood, its messages are answered
/// as by that desk, one connection after the other, and each state for which it stands at the end
/// rests in the files. An error says why they can't be opened; no connection was taken then.
fn serve_in_files<R, D, F, N, W, A, E>(
    rt: &R,
    room: &mut A,
    turns: Turns,
    server: FileServer<F, N>,
    watch: &W,
    err: &mut E,
) -> Result<FilesServed<D>, ProgramFault>
where
    R: Clock + AllocGlobal,
    D: Disk + Drop,
    F: DeskFiles<D> + Drop,
    N: Inputs + DayClock + Drop,
    W: Watch,
    A: Arrivals,
    E: Target,
    requires { turns.taken ≤ turns.limits.connections }
    ensures { IfOk result (λ done. ServesFrom N.told W.tells A.Stream.remaining A.Stream.contents
        A.Stream.may_be_silent A.Arrivals room.old room.new (E.taken err.old) (E.taken err.new)
        (E.failed err.new) (string_bytes server.db) turns.taken D.Disk done F.DeskFiles.image) }
{
    let FileServer { files, db, inputs } = server;
    let desk = files.open_desk()?;
    let machine = server_shell(rt.alloc(), db, desk, inputs);
    Ok(serve_shell(rt, room, turns, Watched { machine, watch }, err))
}

/// Serves so many connections of this machine, one after the other, unless a check of the file finds
/// that its tables are not as requests made them. If its store fails, the file is closed, and opened
/// again for the next connection; those that wait go on waiting. `Moved` if the file or its log was
/// moved, replaced or cut short meanwhile: what was answered is in the files that were opened.
/// `NotClosed` if they can't be closed at the end.
pub fn serve_file(rt: &HostRuntime, task: &ServeTask) -> Result<u8, ProgramFault> {
    let Ok(listener) = TcpListener::bind(rt, ("127.0.0.1", task.port)) else {
        return Err(ProgramFault::Net);
    };
    let is_new = is_new(rt, &task.db)?;
    let server = server_of(rt, task, task.wait)?;
    let mut desk = server.files.open_desk()?;
    let watch = FileWatch::new(rt, &task.db)?;
    let status = starting_status(rt, task, &mut desk);
    if status != 0 {
        close_desk(desk)?;
        return Ok(status);
    }
    let shell = server_shell(rt.alloc(), server.db, desk, server.inputs);
    let mut room = WaitingRoom::new(rt, &listener);
    if is_new {
        tell_made(rt, &task.db);
    }
    match serve_first(rt, task, &mut room, shell, &watch)? {
        Some(taken) => serve_others(rt, task, &mut room, taken, &watch),
        None => Ok(3),
    }
}

/// The exit status of a server that does not start: what a check of its desk finds is printed then.
/// 0 if it starts, as one does that is asked to start without a check.
fn starting_status<S: Alter>(rt: &HostRuntime, task: &ServeTask, desk: &mut Desk<S>) -> u8 {
    if task.is_unchecked {
        return 0;
    }
    let found = checked(rt.alloc(), &task.db, desk);
    if found.status == 0 {
        return 0;
    }
    tell_checked(rt, found)
}

/// Serves connections after so many others until all are served, or the watch tells that the files
/// are others.
fn serve_others(
    rt: &HostRuntime,
    task: &ServeTask,
    room: &mut WaitingRoom<'_>,
    taken: u32,
    watch: &FileWatch<'_>,
) -> Result<u8, ProgramFault> {
    let mut taken = taken;
    // Each turn takes one connection at least.
    for _ in 0..task.connections {
        if taken >= task.connections || !watch.are_same() {
            break;
        }
        taken = serve_again(rt, task, room, taken, watch)?;
    }
    if watch.are_same() {
        Ok(0)
    } else {
        Err(ProgramFault::Moved)
    }
}

/// A server over the task's file, which is tried for so many seconds.
fn server_of<'a>(
    rt: &'a HostRuntime,
    task: &'a ServeTask,
    wait: u32,
) -> Result<FileServer<FileAt<'a, SupposesNothing>, Around<'a>>, AllocError> {
    let files = FileAt {
        rt,
        db: &task.db,
        wait,
        has_short_log: true,
        start: SupposesNothing,
    };
    Ok(FileServer {
        files,
        db: String::from_str(rt.alloc(), &task.db)?,
        inputs: Around::new(rt, true),
    })
}

/// The connections that the task takes, after so many others.
fn turns_of(task: &ServeTask, taken: u32) -> Turns
    ensures { result.taken ≤ result.limits.connections }
{
    let limits = Limits {
        connections: task.connections,
        idle: task.idle,
        silence: task.silence,
        duration: task.duration,
    };
    Turns {
        limits,
        taken: taken.min(limits.connections),
    }
}

/// Tells at which port the server listens, and serves connections with the desk of files, which are
/// closed; how many were taken. None if the port could not be told.
fn serve_first<D: Disk + Drop>(
    rt: &HostRuntime,
    task: &ServeTask,
    room: &mut WaitingRoom<'_>,
    shell: Shell<FileStore<D>, Around<'_>>,
    watch: &FileWatch<'_>,
) -> Result<Option<u32>, ProgramFault> {
    if !is_announced(rt, task, room.listener()) {
        close_desk(shell.into_desk())?;
        return Ok(None);
    }
    let mut err = ServerLines::new(rt);
    let watched = Watched {
        machine: shell,
        watch,
    };
    let served = serve_shell(rt, room, turns_of(task, 0), watched, &mut err);
    taken_of(task, served, watch).map(Some)
}

/// Serves connections after so many others with the desk of the task's file, which is opened again,
/// and closed; how many were taken in all.
fn serve_again(
    rt: &HostRuntime,
    task: &ServeTask,
    room: &mut WaitingRoom<'_>,
    taken: u32,
    watch: &FileWatch<'_>,
) -> Result<u32, ProgramFault> {
    let server = server_of(rt, task, task.wait.max(REOPENING))?;
    let mut err = ServerLines::new(rt);
    let turns = turns_of(task, taken);
    let served = serve_in_files(rt, room, turns, server, watch, &mut err)?;
    taken_of(task, served, watch)
}

/// How many connections were taken. `NotClosed` if the files could not be closed and are not opened
/// again, by which what is in the log would be found.
fn taken_of<D: Disk + Drop>(
    task: &ServeTask,
    served: FilesServed<D>,
    watch: &FileWatch<'_>,
) -> Result<u32, ProgramFault> {
    match served.files {
        Err(fault) if served.taken >= task.connections || !watch.are_same() => Err(fault),
        Ok(_) | Err(_) => Ok(served.taken),
    }
}

/// Whether it was told at which port the server listens.
fn is_announced(rt: &HostRuntime, task: &ServeTask, listener: &TcpListener) -> bool {
    let (mut out, mut err) = (Port::new(io::writer(rt)), Port::new(rt.stderr()));
    announce(listener, task.port, &mut out, &mut err).is_ok()
}

//! What follows from the definitions and from what the engine says of its files.

ghost use Rattle.sqlite.specs.Closing.{IsCopied};
ghost use Rattle.sqlite.specs.Files.{file_state, IsOpened, Finds};
ghost use Rattle.sqlite_wal.specs.Reads.{AreClean};
ghost use Rattle.ftd_machine.specs.State.{State};
ghost use Rattle.ftd_desk.specs.Desks.{Rests};

use sqlite::{Connection, FileStore, Files};
use sqlite_disk::Disk;

/// The files into which a database was closed, opened again: the state that rested in it rests in
/// them. The premises are what `Connection::close_files` and `Connection::open_files` say of Ok,
/// `copied`, `found` and `opened`.
#[tactic(auto, using(crate::proofs::Refiled::files_rest))]
pub fn closed_files_keep_the_state<D: Disk + Drop>(
    closed: &Connection<FileStore<D>>,
    files: &Files<D>,
    opened: &Connection<FileStore<D>>,
)
    ensures { (AreClean D.Disk files.now.log files.now.db → IsCopied closed.now files.now)
        → Finds files.now opened.now → IsOpened opened.now
        → (s : State) → Rests (file_state closed.now) s → Rests (file_state opened.now) s }
{
    // Of any connection the engine says here that its trees list its schema.
    let _schema = closed.schema();
}

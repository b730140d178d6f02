//! Why the program does not do what was asked.

use ftd_setup::OpenFault;
use ftd_store::StoreFault;
use sqlite::{Error, ErrorCode};
use sqlite_std_file::OpenError;
use std::alloc::{AllocError, AllocFailed};
use std::io::{self, ErrorKind};

/// Why the program does not do what was asked. Its text is what is printed on standard error.
#[derive(Clone, Copy, Debug, PartialEq, Eq, thiserror::Error)]
pub enum ProgramFault {
    /// A word of the command line is not UTF-8.
    #[error("error: a command-line argument is not valid UTF-8")]
    NotText,
    /// The file that the environment names is not UTF-8.
    #[error("error: the file in FTD_DB is not valid UTF-8")]
    BadName,
    /// The database file can't be opened, made or read.
    #[error("failed File")]
    File,
    /// The database file is not there, and is not to be made.
    #[error("failed Missing")]
    Missing,
    /// The log can't be copied into the database file, which is closed without it.
    #[error("failed File")]
    NotClosed,
    /// Another program left a journal beside the database file, which only it can play back.
    #[error("failed File")]
    Journal,
    /// The disk has no room for what the database file is to hold.
    #[error("failed File")]
    Full,
    /// The database file or its log was moved, replaced or cut short while it was served.
    #[error("failed File")]
    Moved,
    /// The copy can't be made, and why.
    #[error("failed File")]
    Copy(ErrorKind),
    /// The input can't be read, and why.
    #[error("failed File")]
    Input(ErrorKind),
    /// Another program has the database file open.
    #[error("failed File\nBusy: another program has the file open")]
    Busy,
    /// The database file is damaged or cut short.
    #[error("failed File\nCorrupt: the file is damaged or cut short")]
    Corrupt,
    /// The file is no database, or not one of the desk's.
    #[error("failed NotOurs")]
    NotOurs,
    /// The database was made by a later version of the desk.
    #[error("failed Newer {0}")]
    Newer(u64),
    /// The port can't be listened on.
    #[error("failed Net")]
    Net,
    /// There was no memory.
    #[error("failed 21 Memory")]
    Memory,
    /// The database failed while it was opened.
    #[error("failed 22 Store")]
    Store,
}

impl ProgramFault {
    /// The exit status: 2 for a fault of usage, and else 3.
    pub fn status(self) -> u8 {
        match self {
            ProgramFault::NotText | ProgramFault::BadName => 2,
            _ => 3,
        }
    }
}

impl From<Error> for ProgramFault {
    fn from(error: Error) -> ProgramFault {
        match error {
            Error::SqliteFailure(ErrorCode::DatabaseBusy) => ProgramFault::Busy,
            Error::SqliteFailure(ErrorCode::DatabaseCorrupt) => ProgramFault::Corrupt,
            Error::SqliteFailure(ErrorCode::NotADatabase) => ProgramFault::NotOurs,
            Error::SqliteFailure(ErrorCode::OutOfMemory) => ProgramFault::Memory,
            Error::SqliteFailure(ErrorCode::DiskFull) => ProgramFault::Full,
            _ => ProgramFault::File,
        }
    }
}

impl From<OpenError> for ProgramFault {
    fn from(error: OpenError) -> ProgramFault {
        match error {
            OpenError::OutOfMemory => ProgramFault::Memory,
            OpenError::Busy => ProgramFault::Busy,
            OpenError::Io(error) if error.kind() == ErrorKind::OutOfMemory => ProgramFault::Memory,
            OpenError::Io(_) => ProgramFault::File,
            OpenError::HotJournal => ProgramFault::Journal,
        }
    }
}

impl From<OpenFault> for ProgramFault {
    fn from(fault: OpenFault) -> ProgramFault {
        match fault {
            OpenFault::NotOurs => ProgramFault::NotOurs,
            OpenFault::Newer(version) => ProgramFault::Newer(version),
            OpenFault::Store(StoreFault::Memory) => ProgramFault::Memory,
            OpenFault::Store(StoreFault::Failed) => ProgramFault::Store,
        }
    }
}

impl From<io::Error> for ProgramFault {
    fn from(error: io::Error) -> ProgramFault {
        match error.kind() {
            ErrorKind::OutOfMemory => ProgramFault::Memory,
            kind => ProgramFault::Input(kind),
        }
    }
}

impl From<AllocError> for ProgramFault {
    fn from(_: AllocError) -> ProgramFault {
        ProgramFault::Memory
    }
}

impl<T: Drop> From<AllocFailed<T>> for ProgramFault {
    fn from(_: AllocFailed<T>) -> ProgramFault {
        ProgramFault::Memory
    }
}

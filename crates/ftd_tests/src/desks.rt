//! Desks over a database in memory, and what is done to them first.

use crate::asking::ask;
use ftd_desk::Desk;
use ftd_setup::OpenFault;
use ftd_store::StoreFault;
use sqlite::{Alter, Connection, MemStore};
use std::alloc::Global;
use std::test::Fail;

/// The calendars of 2024 and 2025, and the account ash, which began with 2024.
pub(crate) const ASH: [&str; 4] = [
    "calendar 2024 2024-01-01 2024-01-15 2024-02-19 2024-04-16 2024-05-27 2024-06-19 \
     2024-07-04 2024-09-02 2024-10-14 2024-11-11 2024-11-28 2024-12-25",
    "calendar 2025 2025-01-01 2025-01-20 2025-02-17 2025-04-16 2025-05-26 2025-06-19 \
     2025-07-04 2025-09-01 2025-10-13 2025-11-11 2025-11-27 2025-12-25",
    "enrol ash 2024-01-01",
    "open-year ash 2024",
];

/// Whether each of these commands is done.
pub(crate) fn are_done<S: Alter>(
    alloc: Global,
    desk: &mut Desk<S>,
    commands: &[&str],
) -> Result<bool, Fail> {
    for command in commands {
        if ask(alloc, desk, command)?.as_str() != "done" {
            return Ok(false);
        }
    }
    Ok(true)
}

/// A desk over tables in memory, to which each of these commands was done.
pub(crate) fn desk(alloc: Global, commands: &[&str]) -> Result<Desk<MemStore>, Fail> {
    let mut desk = new_desk(alloc)?;
    if are_done(alloc, &mut desk, commands)? {
        Ok(desk)
    } else {
        Err("a command that is done".into())
    }
}

/// The desk over the tables of a database, which are made where it is new. A fault where it is not
/// the desk's, or can't be read.
pub(crate) fn desk_over<S: Alter + Drop>(
    alloc: Global,
    conn: Connection<S>,
) -> Result<Desk<S>, OpenFault> {
    Desk::open(alloc, conn).map_err(|refused| refused.fault)
}

/// A new desk in memory. A fault where there is no memory.
pub(crate) fn new_desk(alloc: Global) -> Result<Desk<MemStore>, OpenFault> {
    let conn = Connection::open_in_memory(alloc).map_err(StoreFault::from)?;
    desk_over(alloc, conn)
}

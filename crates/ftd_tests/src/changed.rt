//! Rows that were changed under the desk: a repair reads and writes the rows of its windows alone.
//! A desk that is opened again over rows as they were.

use crate::asking::{answers, ask};
use crate::desks::{ASH, desk, desk_over};
use ftd_desk::Desk;
use sqlite::{Connection, MemStore};
use std::alloc::Global;
use std::test::Fail;

/// The desk again, after the statement changed its rows.
pub(crate) fn changed(
    alloc: Global,
    desk: Desk<MemStore>,
    statement: &str,
) -> Result<Desk<MemStore>, Fail> {
    let mut conn: Connection<MemStore> = desk.close();
    conn.execute(statement, &[])?;
    Ok(desk_over(alloc, conn)?)
}

#[test]
fn a_row_outside_the_windows_stays(rt: HostRuntime) -> Result<(), Fail> {
    let alloc = rt.alloc();
    let mut desk = desk(alloc, &ASH)?;
    let _posted = ask(alloc, &mut desk, "post ash 1 2024-05-08 1000.00 0 0")?;
    let mut desk = changed(alloc, desk, "UPDATE bucket SET cents = 100")?;
    answers(
        &rt,
        alloc,
        &mut desk,
        &[
            (
                "post ash 2 2024-07-05 1.00 0 0",
                "posted 2024-07-01 2024-07-31 removed 0 added 1\n\
note: added 2024-07-01 to 2024-07-31, monthly, 1.00, due 2024-08-15",
            ),
            (
                "due ash 2024Q2 2024-06-01",
                "DUE LIST ash 2024Q2 AS OF 2024-06-01\n\
2024-05-01 2024-05-31 monthly                 1.00 2024-06-17 2024-07-31              0.00 with-return\n\
TOTAL                                         1.00",
            ),
        ],
    )
}

#[test]
fn a_repair_goes_by_the_lines_of_the_years(rt: HostRuntime) -> Result<(), Fail> {
    let alloc = rt.alloc();
    let desk = desk(alloc, &ASH)?;
    let mut desk = changed(alloc, desk, "UPDATE year SET turn = 19790")?;
    answers(
        &rt,
        alloc,
        &mut desk,
        &[
            (
                "post ash 1 2024-05-08 1.00 0 0",
                "posted 2024-05-08 2024-05-10 removed 0 added 1\n\
note: added 2024-05-08 to 2024-05-10, semiweekly, 1.00, due 2024-05-15",
            ),
            (
                "due ash 2024Q2 2024-06-01",
                "DUE LIST ash 2024Q2 AS OF 2024-06-01\n\
2024-05-08 2024-05-10 semiweekly              1.00 2024-05-15 2024-06-20              0.00 with-return\n\
TOTAL                                         1.00",
            ),
        ],
    )
}

#[test]
fn a_desk_that_is_opened_again_stands_for_the_same(rt: HostRuntime) -> Result<(), Fail> {
    let alloc = rt.alloc();
    let mut desk = desk(alloc, &ASH)?;
    let _posted = ask(alloc, &mut desk, "post ash 1 2024-05-08 1000.00 0 0")?;
    let mut desk = desk.reopen().map_err(|refused| refused.fault)?;
    answers(
        &rt,
        alloc,
        &mut desk,
        &[
            ("post ash 1 2024-05-08 1000.00 0 0", "already"),
            (
                "void ash 1",
                "posted 2024-05-01 2024-05-31 removed 1 added 0",
            ),
        ],
    )
}

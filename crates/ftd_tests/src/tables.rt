//! Tables of versions 1 and 2, and rows that are no values of their types.

use crate::asking::{answers, ask};
use crate::changed::changed;
use crate::desks::{ASH, are_done, desk, desk_over};
use ftd_desk::Desk;
use sqlite::{Alter, Connection};
use std::alloc::Global;
use std::process::Abort;
use std::test::Fail;

/// The nine tables of version 1, as its statements made them.
const FIRST_TABLES: &str =
    "CREATE TABLE ftd_meta (tag TEXT NOT NULL PRIMARY KEY, version INTEGER NOT NULL) STRICT;
CREATE TABLE account (name TEXT NOT NULL PRIMARY KEY, start INTEGER NOT NULL, carried INTEGER NOT NULL) STRICT;
CREATE TABLE reported (account TEXT NOT NULL REFERENCES account(name), cal_year INTEGER NOT NULL, quarter INTEGER NOT NULL, cents INTEGER NOT NULL, PRIMARY KEY (account, cal_year, quarter)) STRICT;
CREATE TABLE calendar_year (cal_year INT NOT NULL PRIMARY KEY) STRICT;
CREATE TABLE holiday (day INT NOT NULL PRIMARY KEY, cal_year INTEGER NOT NULL REFERENCES calendar_year(cal_year)) STRICT;
CREATE TABLE year (account TEXT NOT NULL REFERENCES account(name), cal_year INTEGER NOT NULL, lookback INTEGER NOT NULL, opening INTEGER NOT NULL, turn INTEGER, PRIMARY KEY (account, cal_year)) STRICT;
CREATE TABLE run (account TEXT NOT NULL REFERENCES account(name), run INTEGER NOT NULL, payday INTEGER NOT NULL, fit INTEGER NOT NULL, ss INTEGER NOT NULL, medicare INTEGER NOT NULL, voided INTEGER NOT NULL, PRIMARY KEY (account, run)) STRICT;
CREATE TABLE payment (account TEXT NOT NULL REFERENCES account(name), payment INTEGER NOT NULL, paid INTEGER NOT NULL, for_day INTEGER NOT NULL, cents INTEGER NOT NULL, voided INTEGER NOT NULL, PRIMARY KEY (account, payment)) STRICT;
CREATE TABLE bucket (account TEXT NOT NULL REFERENCES account(name), first_day INTEGER NOT NULL, last_day INTEGER NOT NULL, rule INTEGER NOT NULL, cents INTEGER NOT NULL, due INTEGER NOT NULL, PRIMARY KEY (account, first_day)) STRICT";

/// What an office kept in them: elm's run of 806.00 on 2024-05-08, paid for on 2024-06-17.
const FIRST_ROWS: &str = "INSERT INTO ftd_meta VALUES ('ftd', 1);
INSERT INTO account VALUES ('elm', 19723, 0);
INSERT INTO reported VALUES ('elm', 2023, 1, 1250000);
INSERT INTO calendar_year VALUES (2024), (2025);
INSERT INTO holiday VALUES (19723, 2024);
INSERT INTO year VALUES ('elm', 2024, 1250000, 0, NULL);
INSERT INTO run VALUES ('elm', 1, 19851, 50000, 24800, 5800, 0);
INSERT INTO payment VALUES ('elm', 1, 19891, 19851, 80600, 0);
INSERT INTO bucket VALUES ('elm', 19844, 19874, 0, 80600, 19891)";

/// The three tables that came with version 2, as its statements made them.
const SECOND_TABLES: &str =
    "CREATE TABLE account_form (account TEXT NOT NULL PRIMARY KEY REFERENCES account(name), form INTEGER NOT NULL) STRICT;
CREATE TABLE reported_year (account TEXT NOT NULL REFERENCES account(name), cal_year INTEGER NOT NULL, cents INTEGER NOT NULL, PRIMARY KEY (account, cal_year)) STRICT;
CREATE TABLE added_holiday (day INT NOT NULL PRIMARY KEY, cal_year INTEGER NOT NULL REFERENCES calendar_year(cal_year)) STRICT";

/// What an office kept in version 2: the rows above, and a holiday that was added.
const SECOND_ROWS: &str = "UPDATE ftd_meta SET version = 2;
INSERT INTO account_form VALUES ('elm', 0);
INSERT INTO added_holiday VALUES (19919, 2024)";

/// Elm's due list, which each version keeps.
const DUE: &str = "DUE LIST elm 2024Q2 AS OF 2024-07-01\n\
2024-05-01 2024-05-31 monthly               806.00 2024-06-17 2024-07-31            806.00 met\n\
TOTAL                                       806.00";

/// Why no total of a year is taken of elm, or corrected.
const NO_YEARS: &str = "refused 23 WrongForm\n\
                        hint: this account files Form 941: use ftd report";

/// Asks the desk what elm kept, whose due list stays.
fn keeps_elm<S: Alter>(rt: &impl Abort, alloc: Global, desk: &mut Desk<S>) -> Result<(), Fail> {
    answers(
        rt,
        alloc,
        desk,
        &[
            ("report elm 2023Q1 12500.00", "already"),
            ("post elm 1 2024-05-08 500.00 248.00 58.00", "already"),
            ("due elm 2024Q2 2024-07-01", DUE),
            ("report-year elm 2023 1.00", NO_YEARS),
            ("reported elm", "REPORTED elm\n2023Q1          12500.00"),
        ],
    )
}

#[test]
fn version_one_becomes_version_three(rt: HostRuntime) -> Result<(), Fail> {
    let alloc = rt.alloc();
    let mut first = Connection::open_in_memory(alloc)?;
    first.execute_batch(FIRST_TABLES)?;
    first.execute_batch(FIRST_ROWS)?;
    let mut desk = desk_over(alloc, first)?;
    keeps_elm(&rt, alloc, &mut desk)
}

#[test]
fn version_two_becomes_version_three(rt: HostRuntime) -> Result<(), Fail> {
    let alloc = rt.alloc();
    let mut second = Connection::open_in_memory(alloc)?;
    second.execute_batch(FIRST_TABLES)?;
    second.execute_batch(SECOND_TABLES)?;
    second.execute_batch(FIRST_ROWS)?;
    second.execute_batch(SECOND_ROWS)?;
    let mut desk = desk_over(alloc, second)?;
    keeps_elm(&rt, alloc, &mut desk)?;
    answers(
        &rt,
        alloc,
        &mut desk,
        &[(
            "holidays 2024",
            "HOLIDAYS 2024\n2024-01-01\n2024-07-15 added",
        )],
    )
}

/// Statements that make a row no value of its type, and commands that read it. The desk holds ash
/// with a run of 2024-05-08 and a payment for it.
const NO_VALUES: [(&str, &str); 14] = [
    ("UPDATE account SET carried = 2", "status ash 2024-05-08"),
    ("UPDATE account SET start = 84006", "status ash 2024-05-08"),
    ("UPDATE account SET start = -25568", "status ash 2024-05-08"),
    ("UPDATE account_form SET form = 2", "status ash 2024-05-08"),
    ("UPDATE reported SET cents = -1", "report ash 2024Q1 1.00"),
    ("UPDATE run SET voided = 5", "void ash 1"),
    ("UPDATE run SET fit = -1", "void ash 1"),
    ("UPDATE run SET ss = -1", "schedule-b ash 2024Q2"),
    ("UPDATE payment SET paid = 99999", "void-pay ash 1"),
    ("UPDATE payment SET voided = 5", "void-pay ash 1"),
    (
        "UPDATE payment SET paid = 99999",
        "due ash 2024Q2 2024-07-01",
    ),
    ("UPDATE bucket SET rule = 7", "due ash 2024Q2 2024-07-01"),
    ("UPDATE bucket SET cents = -1", "due ash 2024Q2 2024-07-01"),
    ("UPDATE bucket SET due = 84006", "due ash 2024Q2 2024-07-01"),
];

/// The answer of the desk once the statement changed its rows.
fn answer_after(alloc: Global, statement: &str, command: &str) -> Result<String, Fail> {
    let mut desk = desk(alloc, &ASH)?;
    let reported = ["report ash 2024Q1 1.00"];
    if !are_done(alloc, &mut desk, &reported)? {
        return Err("a report that is done".into());
    }
    let _posted = ask(alloc, &mut desk, "post ash 1 2024-05-08 1.00 0 0")?;
    let _paid = ask(alloc, &mut desk, "pay ash 1 2024-06-17 2024-05-08 1.00")?;
    let mut desk = changed(alloc, desk, statement)?;
    ask(alloc, &mut desk, command)
}

#[test]
fn a_row_of_no_value_is_a_fault_of_the_store(rt: HostRuntime) -> Result<(), Fail> {
    for (statement, command) in NO_VALUES {
        let answer = answer_after(rt.alloc(), statement, command)?;
        assert_eq!(rt; answer.as_str(), "failed 22 Store", "{statement}");
    }
    Ok(())
}

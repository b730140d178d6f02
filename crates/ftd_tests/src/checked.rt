//! A check of tables as commands made them, and of tables in which a row was changed, taken out or
//! added otherwise.

use crate::asking::{answers, ask};
use crate::changed::changed;
use crate::desks::{ASH, desk};
use ftd_desk::Desk;
use sqlite::MemStore;
use std::alloc::Global;
use std::process::Abort;
use std::test::Fail;

/// What is said below each part that shows that tables are unsound.
const HINT: &str =
    "hint: something other than ftd changed the file: go back to a copy of it, or make a new file of a journal that you kept";

/// A desk with two accounts and an added holiday. Ash has two runs, one of them void, and a payment.
fn office(alloc: Global) -> Result<Desk<MemStore>, Fail> {
    let mut desk = desk(alloc, &ASH)?;
    for command in [
        "enrol elm 2023-01-01",
        "post ash 1 2024-05-08 1000.00 0 0",
        "post ash 2 2024-05-09 1.00 0 0",
        "void ash 2",
        "pay ash 1 2024-06-17 2024-05-08 1000.00",
        "add-holiday 2024-12-24",
    ] {
        let _answer = ask(alloc, &mut desk, command)?;
    }
    Ok(desk)
}

/// Whether a check prints this, of the tables in which the statement changed a row.
fn prints(rt: &impl Abort, alloc: Global, statement: &str, text: &str) -> Result<(), Fail> {
    let mut desk = changed(alloc, office(alloc)?, statement)?;
    let printed = ask(alloc, &mut desk, "check")?;
    assert_eq!(rt; printed.as_str(), text, "{statement}");
    Ok(())
}

/// Whether a check finds this part, of the tables in which the statement changed a row.
fn finds(rt: &impl Abort, alloc: Global, statement: &str, part: &str) -> Result<(), Fail> {
    let text = format!(in alloc; "unsound {part}\n{HINT}")?;
    prints(rt, alloc, statement, text.as_str())
}

#[test]
fn what_commands_make_is_sound(rt: HostRuntime) -> Result<(), Fail> {
    let alloc = rt.alloc();
    let mut desk = office(alloc)?;
    answers(
        &rt,
        alloc,
        &mut desk,
        &[
            (
                "check",
                "sound accounts 2 years 1 runs 2 payments 1 obligations 1",
            ),
            ("pay ash 1 2024-06-17 2024-05-08 1000.00", "already"),
            (
                "check",
                "sound accounts 2 years 1 runs 2 payments 1 obligations 1",
            ),
        ],
    )
}

#[test]
fn another_entry_is_another_desk(rt: HostRuntime) -> Result<(), Fail> {
    let sound = "sound accounts 2 years 1 runs 2 payments 1 obligations 1";
    prints(&rt, rt.alloc(), "UPDATE payment SET cents = 1", sound)
}

#[test]
fn an_account_is_unsound_where_a_row_does_not_follow(rt: HostRuntime) -> Result<(), Fail> {
    let (alloc, ash) = (rt.alloc(), "account ash");
    finds(&rt, alloc, "UPDATE bucket SET cents = cents + 1", ash)?;
    finds(&rt, alloc, "UPDATE year SET lookback = lookback + 1", ash)?;
    finds(&rt, alloc, "DELETE FROM bucket", ash)?;
    finds(&rt, alloc, "UPDATE run SET voided = 0", ash)
}

#[test]
fn other_parts_are_told(rt: HostRuntime) -> Result<(), Fail> {
    let alloc = rt.alloc();
    let holidays = "UPDATE added_holiday SET day = 19723";
    finds(&rt, alloc, holidays, "holidays")?;
    let name = "INSERT INTO account VALUES ('Elm', 19723, 0)";
    finds(&rt, alloc, name, "accounts")
}

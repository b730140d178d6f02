#![tactic(auto)]
//! The desk as a library: an employer in memory, a pay run, and what has to be paid by when.

mod requests;

use crate::requests::{account, calendar, day, enrol, open_year};
use anyhow::Result;
use ftd_days::Cents;
use ftd_desk::Desk;
use ftd_machine::{Facts, Question, Reply, Request};
use ftd_rules::PayRun;
use sqlite::Connection;

fn main(rt: HostRuntime) -> Result<()> {
    let alloc = rt.alloc();
    let conn = Connection::open_in_memory(alloc)?;
    let mut desk = Desk::open(alloc, conn).map_err(|refused| refused.fault)?;
    desk.handle(&calendar(alloc, 2024)?)?;
    desk.handle(&calendar(alloc, 2025)?)?;
    desk.handle(&enrol(alloc, "ash", "2024-01-01")?)?;
    desk.handle(&open_year(alloc, "ash", 2024)?)?;
    desk.handle(&Request::Post {
        account: account(alloc, "ash")?,
        number: 1,
        run: PayRun {
            payday: day("2024-01-05")?,
            fit: Cents(500_000),
            ss: Cents(310_000),
            medicare: Cents(72_500),
        },
    })?;
    let (until, as_of) = (day("2024-02-29")?, day("2024-02-01")?);
    let question = Request::Question(Question::Owed { until, as_of });
    if let Reply::Told(Facts::Owed(owed)) = desk.handle(&question)? {
        for due in owed.rows.as_slice() {
            println!(rt; "pay {} by {}", due.row.obligation.cents, due.pay_by)?;
        }
    }
    Ok(())
}

//! What is kept, a list each.

ghost use Rattle.ftd_ports.specs.Writing.{Writes};
ghost use Rattle.ftd_pages.specs.Kept.{accounts_at, holidays_at, kept_at, payments_at};
ghost use Rattle.ftd_pages.specs.Kept.{reported_at, runs_at, years_at};

use crate::feet::Foot;
use crate::frames::Place;
use crate::pages::Page;
use crate::sections::write_list_at;
use ftd_answers::Value;
use ftd_days::Quarter;
use ftd_machine::{KeptAccount, KeptHoliday, KeptPayment, KeptRows, KeptRun, KeptTotal, KeptYear};
use ftd_ports::{Target, WriteFault};

/// Writes the accounts.
#[tactic(auto, unfolding(crate::specs::Kept::accounts_at))]
fn write_accounts<W: Target>(
    place: &Place,
    rows: &[KeptAccount],
    target: &mut W,
) -> Result<(), WriteFault>
    ensures { Writes result (W.taken target.old) (W.taken target.new)
        (W.failed target.new) (accounts_at place.now rows.now) }
{
    let page = Page {
        title: &[Value::Text("Accounts")],
        sentence: "No account is enrolled.",
        account: "",
        foot: Foot::Nothing,
    };
    write_list_at(place, &page, rows, target)
}

/// Writes the open years of an account.
#[tactic(auto, unfolding(crate::specs::Kept::years_at))]
fn write_years<W: Target>(
    place: &Place,
    account: &str,
    rows: &[KeptYear],
    target: &mut W,
) -> Result<(), WriteFault>
    ensures { Writes result (W.taken target.old) (W.taken target.new)
        (W.failed target.new) (years_at place.now account.now rows.now) }
{
    let page = Page {
        title: &[Value::Text("Open years of "), Value::Text(account)],
        sentence: "No year is open.",
        account,
        foot: Foot::Nothing,
    };
    write_list_at(place, &page, rows, target)
}

/// Writes the totals that an account reported.
#[tactic(auto, unfolding(crate::specs::Kept::reported_at))]
fn write_reported<W: Target>(
    place: &Place,
    account: &str,
    rows: &[KeptTotal],
    target: &mut W,
) -> Result<(), WriteFault>
    ensures { Writes result (W.taken target.old) (W.taken target.new)
        (W.failed target.new) (reported_at place.now account.now rows.now) }
{
    let page = Page {
        title: &[Value::Text("Reported totals of "), Value::Text(account)],
        sentence: "No total was reported.",
        account,
        foot: Foot::Nothing,
    };
    write_list_at(place, &page, rows, target)
}

/// Writes the holidays of a year.
#[tactic(auto, unfolding(crate::specs::Kept::holidays_at))]
fn write_holidays<W: Target>(
    place: &Place,
    year: u32,
    rows: &[KeptHoliday],
    target: &mut W,
) -> Result<(), WriteFault>
    ensures { Writes result (W.taken target.old) (W.taken target.new)
        (W.failed target.new) (holidays_at place.now year rows.now) }
{
    let page = Page {
        title: &[Value::Text("Holidays of "), Value::Number(year)],
        sentence: "No holiday was given.",
        account: "",
        foot: Foot::Nothing,
    };
    write_list_at(place, &page, rows, target)
}

/// Writes the pay runs of an account's quarter.
#[tactic(auto, unfolding(crate::specs::Kept::runs_at))]
fn write_runs<W: Target>(
    place: &Place,
    account: &str,
    quarter: Quarter,
    rows: &[KeptRun],
    target: &mut W,
) -> Result<(), WriteFault>
    ensures { Writes result (W.taken target.old) (W.taken target.new)
        (W.failed target.new) (runs_at place.now account.now quarter rows.now) }
{
    let page = Page {
        title: &[
            Value::Text("Pay runs of "),
            Value::Text(account),
            Value::Text(", "),
            Value::Quarter(quarter),
        ],
        sentence: "The quarter has no pay runs.",
        account,
        foot: Foot::Nothing,
    };
    write_list_at(place, &page, rows, target)
}

/// Writes the payments of an account for days of a quarter.
#[tactic(auto, unfolding(crate::specs::Kept::payments_at))]
fn write_payments<W: Target>(
    place: &Place,
    account: &str,
    quarter: Quarter,
    rows: &[KeptPayment],
    target: &mut W,
) -> Result<(), WriteFault>
    ensures { Writes result (W.taken target.old) (W.taken target.new)
        (W.failed target.new) (payments_at place.now account.now quarter rows.now) }
{
    let page = Page {
        title: &[
            Value::Text("Payments of "),
            Value::Text(account),
            Value::Text(", "),
            Value::Quarter(quarter),
        ],
        sentence: "The quarter has no payments.",
        account,
        foot: Foot::Nothing,
    };
    write_list_at(place, &page, rows, target)
}

/// Writes what is kept at its place: also what was voided. It takes no memory but what the target
/// takes. Where the target fails, a prefix of that was written, and it fails nowhere else.
pub fn write_kept<W: Target>(
    place: &Place,
    rows: &KeptRows,
    target: &mut W,
) -> Result<(), WriteFault>
    ensures { Writes result (W.taken target.old) (W.taken target.new)
        (W.failed target.new) (kept_at place.now rows.now) }
{
    match rows {
        KeptRows::Accounts { rows } => write_accounts(place, rows.as_slice(), target),
        KeptRows::Years { account, rows } => {
            write_years(place, account.as_str(), rows.as_slice(), target)
        }
        KeptRows::Reported { account, rows } => {
            write_reported(place, account.as_str(), rows.as_slice(), target)
        }
        KeptRows::Holidays { year, rows } => {
            write_holidays(place, *year, rows.as_slice(), target)
        }
        KeptRows::Runs {
            account,
            quarter,
            rows,
        } => write_runs(place, account.as_str(), *quarter, rows.as_slice(), target),
        KeptRows::Payments {
            account,
            quarter,
            rows,
        } => write_payments(place, account.as_str(), *quarter, rows.as_slice(), target),
    }
}

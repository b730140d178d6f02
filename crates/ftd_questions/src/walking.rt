//! Whether a next-day obligation begins in a return period, by walks over its quarters.

ghost use Rattle.std.specs.Prelude.{◌≡◌, ◌<◌, ◌≤◌, ◌↔◌, ℕ, List, [], IfOk};
ghost use Rattle.sqlite.specs.Held.{state};
ghost use Rattle.ftd_days.specs.Calendar.{quarter_of, quarter_year};
ghost use Rattle.ftd_rules.specs.Periods.{return_period_of};
ghost use Rattle.ftd_sql.specs.Standing.{Tables, Stands};
ghost use Rattle.ftd_store.specs.Seen.{seen};
ghost use Rattle.ftd_store.specs.Walking.{walked, HasListed};
ghost use Rattle.ftd_machine.specs.Asking.{return_period};
ghost use Rattle.sqlite.specs.State.{HasCleanDisk};
ghost use Rattle.ftd_questions.specs.Walks.{Stays, StaysIfSettled, StandIfOpen};
ghost use Rattle.ftd_questions.specs.Walks.{KnowsNextDay, KnowsNextDayOfReturn};

use crate::due_rows::is_next_day;
use ftd_days::{LAST_OPEN_YEAR, QUARTERS, Quarter};
use ftd_rules::Form;
use ftd_store::{Store, StoreFault, next_obligation, rows_of};
use sqlite::{Alter, Connection, Rows};

/// Whether one of the rows is a next-day obligation. They are left at the first.
fn meets_next_day<S: Alter>(rows: &mut Rows<'_, S>) -> Result<bool, StoreFault>
    ensures same_reference { rows.new.conn.ghost_name ≡ rows.old.conn.ghost_name }
    ensures knows { HasCleanDisk (walked S.Store rows.new) → (name : List ℕ) (quarter : ℕ)
        → HasListed S.Store name quarter rows.old [] → IfOk result (λ found. (t : Tables)
        → Stands (walked S.Store rows.old).now t → KnowsNextDay name quarter found t) }
    ensures stays { StaysIfSettled (walked S.Store rows.old) (walked S.Store rows.new) }
{
    for _ in 0..u64::MAX {
        match next_obligation(rows)? {
            Some(obligation) => {
                if is_next_day(&obligation) {
                    return Ok(true);
                }
            }
            None => return Ok(false),
        }
    }
    Err(StoreFault::Failed)
}

/// Whether a next-day obligation of the account begins in the quarter.
fn begins_next_day<S: Alter>(
    conn: &mut Connection<S>,
    name: &str,
    quarter: Quarter,
) -> Result<bool, StoreFault>
    ensures knows { HasCleanDisk (state S.Store conn.new) → IfOk result (λ found. (t : Tables)
        → StandIfOpen (state S.Store conn.old) t → KnowsNextDay name.now quarter found t) }
    ensures stays { Stays (state S.Store conn.old) (state S.Store conn.new) }
{
    match rows_of(conn, name, quarter) {
        Ok(mut rows) => meets_next_day(&mut rows),
        Err(error) => Err(StoreFault::from(error)),
    }
}

/// The first of the quarters of the return period of a quarter, and the first after them, by their
/// number after the first of 1900.
fn quarters_of_return(form: Form, quarter: Quarter) -> (u32, u32)
    requires { quarter_year quarter ≤ LAST_OPEN_YEAR }
    ensures some { result.0 < result.1 }
    ensures end { result.1 < QUARTERS }
    ensures same { (day : ℕ) → (return_period_of form day ≡ return_period form quarter)
        ↔ ((result.0 ≤ quarter_of day) × (quarter_of day < result.1)) }
{
    let quarters = quarter.quarters();
    match form {
        Form::F941 => (quarters, quarters + 1),
        Form::F943 => {
            let first = quarters - quarters % 4;
            (first, first + 4)
        }
    }
}

/// Whether a next-day obligation of the account begins in the return period of the quarter: each of
/// the period's quarters is walked over, up to the first that has one. A fault leaves the rows of
/// the tables as they are.
pub(crate) fn return_has_next_day<S: Alter>(
    store: &mut Store<S>,
    name: &str,
    form: Form,
    quarter: Quarter,
) -> Result<bool, StoreFault>
    requires { quarter_year quarter ≤ LAST_OPEN_YEAR }
    ensures knows { HasCleanDisk (seen S.Store store.new) → IfOk result (λ found. (t : Tables)
        → StandIfOpen (seen S.Store store.old) t
        → KnowsNextDayOfReturn name.now form quarter found t) }
    ensures stays { Stays (seen S.Store store.old) (seen S.Store store.new) }
{
    let (first, end) = quarters_of_return(form, quarter);
    for quarters in first..end {
        if begins_next_day(store.lend(), name, Quarter::at(quarters))? {
            return Ok(true);
        }
    }
    Ok(false)
}

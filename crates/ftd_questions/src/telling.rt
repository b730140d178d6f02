//! A due list that is told row by row. No list of obligations is held.

ghost use Rattle.std.specs.Prelude.{◌≡◌, ◌<◌, ℕ, List, [], true, Err, OnOk};
ghost use Rattle.std.specs.List.{sum_by};
ghost use Rattle.sqlite.specs.Held.{state};
ghost use Rattle.sqlite.specs.State.{HasCleanDisk};
ghost use Rattle.ftd_rules.specs.Payments.{payment_cents};
ghost use Rattle.ftd_rules.specs.declared.verdict.DueRow.{DueRow as DueRowValue};
ghost use Rattle.ftd_sql.specs.Standing.{Tables, Stands};
ghost use Rattle.ftd_store.specs.Seen.{seen};
ghost use Rattle.ftd_store.specs.Walking.{walked, HasListed};
ghost use Rattle.ftd_machine.specs.Sound.{IsSound};
ghost use Rattle.ftd_machine.specs.State.{State};
ghost use Rattle.ftd_machine.specs.declared.replies.Refusal.{Refusal as RefusalValue};
ghost use Rattle.ftd_entries.specs.Standing.{StandsFor};
ghost use Rattle.ftd_questions.specs.DueRows.{IsRowBy};
ghost use Rattle.ftd_questions.specs.Telling.{KnowsRows, Tells, TakesShown};
ghost use Rattle.ftd_questions.specs.Walks.{Stays, StaysIfSettled, StandIfOpen, KeptIfOpen};

use crate::asking::{KnownReturn, read_return};
use crate::due_rows::{QuarterReturn, due_row, quarter_return};
use crate::faults::DueFault;
use crate::walking::return_has_next_day;
use ftd_days::{Day, Quarter};
use ftd_machine::Refusal;
use ftd_rules::{AMOUNTS_END, DueSink, Obligation, SinkFault};
use ftd_store::{Store, StoreFault, next_obligation, rows_of};
use sqlite::{Alter, Connection, Rows};
use std::alloc::Global;

/// Gives the sink the row of an obligation. `Store` where the obligation is none that an account
/// has.
fn tell_row<K: DueSink>(
    obligation: Obligation,
    as_of: Day,
    of_return: &QuarterReturn,
    sink: &mut K,
) -> Result<(), DueFault>
    requires { sum_by payment_cents of_return.now.payments.items < AMOUNTS_END }
    ensures took { OnOk result ((row : DueRowValue)
        × IsRowBy of_return.now as_of obligation row × K.took sink.old row sink.new) }
    ensures refused { (refusal : RefusalValue) → result ≡ Err (DueFault.Refused refusal)
        → (refusal ≡ Refusal.Store) × (sink.new ≡ sink.old) }
    ensures broke { result ≡ Err DueFault.Sink → (row : DueRowValue)
        × IsRowBy of_return.now as_of obligation row × K.broke sink.old row sink.new }
    ensures failed { result ≡ Err DueFault.Sink → K.failed sink.new ≡ true }
{
    let Some(row) = due_row(obligation, as_of, of_return) else {
        return Err(DueFault::Refused(Refusal::Store));
    };
    match sink.row(&row) {
        Ok(()) => Ok(()),
        Err(SinkFault) => Err(DueFault::Sink),
    }
}

/// Gives the sink the row of each of the obligations that are read, one after the other.
fn tell_rows<S: Alter, K: DueSink>(
    rows: &mut Rows<'_, S>,
    as_of: Day,
    of_return: &QuarterReturn,
    sink: &mut K,
) -> Result<(), DueFault>
    requires { sum_by payment_cents of_return.now.payments.items < AMOUNTS_END }
    ensures same_reference { rows.new.conn.ghost_name ≡ rows.old.conn.ghost_name }
    ensures tells { HasCleanDisk (walked S.Store rows.new)
        → (name : List ℕ) (quarter : ℕ) → HasListed S.Store name quarter rows.old []
        → (t : Tables) → Stands (walked S.Store rows.old).now t
        → KnowsRows name quarter as_of of_return.now t
        → (s : State) → StandsFor t s → IsSound s
        → Tells K.took K.broke s name quarter as_of sink.old sink.new result }
    ensures shows { HasCleanDisk (walked S.Store rows.new) → OnOk result
        ((name : List ℕ) (quarter : ℕ) → HasListed S.Store name quarter rows.old []
        → (t : Tables) → Stands (walked S.Store rows.old).now t
        → TakesShown K.took name quarter sink.old sink.new t) }
    ensures failed { result ≡ Err DueFault.Sink → K.failed sink.new ≡ true }
    ensures stays { StaysIfSettled (walked S.Store rows.old) (walked S.Store rows.new) }
{
    for _ in 0..u64::MAX {
        let obligation = match next_obligation(rows) {
            Ok(Some(obligation)) => obligation,
            Ok(None) => return Ok(()),
            Err(fault) => return Err(DueFault::from(fault)),
        };
        if let Err(fault) = tell_row(obligation, as_of, of_return, sink) {
            return Err(fault);
        }
    }
    Err(DueFault::from(StoreFault::Failed))
}

/// Gives the sink the rows of the account's due list of the quarter, by what is known of its
/// return.
fn tell_quarter<S: Alter, K: DueSink>(
    conn: &mut Connection<S>,
    name: &str,
    quarter: Quarter,
    as_of: Day,
    of_return: &QuarterReturn,
    sink: &mut K,
) -> Result<(), DueFault>
    requires { sum_by payment_cents of_return.now.payments.items < AMOUNTS_END }
    ensures tells { HasCleanDisk (state S.Store conn.new) → (t : Tables)
        → StandIfOpen (state S.Store conn.old) t
        → KnowsRows name.now quarter as_of of_return.now t
        → (s : State) → StandsFor t s → IsSound s
        → Tells K.took K.broke s name.now quarter as_of sink.old sink.new result }
    ensures shows { HasCleanDisk (state S.Store conn.new) → OnOk result ((t : Tables)
        → StandIfOpen (state S.Store conn.old) t
        → TakesShown K.took name.now quarter sink.old sink.new t) }
    ensures failed { result ≡ Err DueFault.Sink → K.failed sink.new ≡ true }
    ensures stays { Stays (state S.Store conn.old) (state S.Store conn.new) }
{
    match rows_of(conn, name, quarter) {
        Ok(mut rows) => tell_rows(&mut rows, as_of, of_return, sink),
        Err(error) => Err(DueFault::from(StoreFault::from(error))),
    }
}

/// Tells the account's due list of the quarter as of a day, as `due_list` does, row by row: it
/// gives the sink one row after the other, by first day. What they rest on is read in a transaction
/// that is dropped; then the obligations are walked over, first for a next-day one, then for the
/// rows. With `Refused` by the checks no row is told. Want of memory and a fault of the store may
/// come at any row, and a sink that fails stops the telling. With Ok the sink took the rows of the
/// tables as they stand, whatever else these hold. The tables stay as they are, whatever comes of
/// it.
pub fn due_into<S: Alter, K: DueSink>(
    store: &mut Store<S>,
    alloc: Global,
    name: &str,
    quarter: Quarter,
    as_of: Day,
    sink: &mut K,
) -> Result<(), DueFault>
    ensures tells { HasCleanDisk (seen S.Store store.new) → (s : State)
        → KeptIfOpen (seen S.Store store.old) s
        → Tells K.took K.broke s name.now quarter as_of sink.old sink.new result }
    ensures shows { HasCleanDisk (seen S.Store store.new) → OnOk result ((t : Tables)
        → StandIfOpen (seen S.Store store.old) t
        → TakesShown K.took name.now quarter sink.old sink.new t) }
    ensures failed { result ≡ Err DueFault.Sink → K.failed sink.new ≡ true }
    ensures stays { Stays (seen S.Store store.old) (seen S.Store store.new) }
{
    let KnownReturn {
        form,
        holidays,
        period,
    } = match read_return(store, alloc, name, quarter, as_of) {
        Ok(known) => known,
        Err(refusal) => return Err(DueFault::Refused(refusal)),
    };
    let next_day = match return_has_next_day(store, name, form, quarter) {
        Ok(found) => found,
        Err(fault) => return Err(DueFault::from(fault)),
    };
    let of_return = quarter_return(form, quarter, next_day, period, holidays);
    tell_quarter(store.lend(), name, quarter, as_of, &of_return, sink)
}

//! The obligations of an account's quarter, one at a time.

ghost use Rattle.std.specs.Prelude.{◌≡◌, ℕ, List, [], IfOk, OnOk, OnErr};
ghost use Rattle.std.specs.Borrow.{sem};
ghost use Rattle.sqlite.specs.State.{HasCleanDisk, IsUnchanged};
ghost use Rattle.sqlite.specs.Held.{state};
ghost use Rattle.ftd_sql.specs.States.{CrashKeeps};
ghost use Rattle.ftd_rules.specs.declared.Obligation.{Obligation as ObligationValue};
ghost use Rattle.ftd_store.specs.Ends.{IsSettled, LeavesRows};
ghost use Rattle.ftd_store.specs.RowsLending.{rows_rest};
ghost use Rattle.ftd_store.specs.Walking.{walked, HasListed, Continues};

use crate::store::Store;
use crate::{FromRow, StoreFault, StoredDay};
use ftd_days::Quarter;
use ftd_rules::Obligation;
use ftd_sql::texts;
use sqlite::{Alter, Connection, Error, ErrorCode, Rows, params};

impl<S: Alter> Store<S> {
    ghost use Rattle.ftd_store.specs.RowsLending.{lends_connection};

    /// Lends the connection, for `rows_of`.
    pub fn lend(&mut self) -> &mut Connection<S>
        ensures* lends { sem 𝓛 (lends_connection S.row S.Store self.entry result) }
        ensures same { result.now ≡ self.old.conn }
    {
        &mut self.conn
    }
}

/// The rows of the account's obligations with a first day in the quarter, by first day;
/// `next_obligation` reads them, and they may be left at any one. An error, also where a
/// transaction is under way, leaves the rows of the tables as they are, and what a crash would
/// leave.
pub fn rows_of<'store, S: Alter>(
    conn: &'store mut Connection<S>,
    account: &str,
    quarter: Quarter,
) -> Result<Rows<'store, S>, Error>
    ensures* rests { sem 𝓛 (rows_rest S.row S.Store conn.entry result) }
    ensures same_reference { IfOk result (λ rows. rows.conn.ghost_name ≡ conn.entry.ghost_name) }
    ensures begun { IfOk result (λ rows. HasCleanDisk (walked S.Store rows)
        → HasListed S.Store account.now quarter rows [] × IsUnchanged
        (state S.Store conn.old) (walked S.Store rows)) }
    ensures settled { IfOk result (λ rows. HasCleanDisk (walked S.Store rows)
        → IsSettled (walked S.Store rows)) }
    ensures crash { IfOk result (λ rows. CrashKeeps (state S.Store conn.old)
        (walked S.Store rows)) }
{
    if !conn.is_autocommit() {
        return Err(Error::SqliteFailure(ErrorCode::TransactionState));
    }
    let first = StoredDay(quarter.first());
    let last = StoredDay(quarter.last());
    conn.query(texts::LIST_OBLIGATIONS, params![account, first, last])
}

/// The next obligation of `rows_of`, or None where these were all. `Failed` where a row is no
/// obligation. A fault leaves the rows of the tables as they are, and what a crash would leave.
pub fn next_obligation<S: Alter>(rows: &mut Rows<'_, S>) -> Result<Option<Obligation>, StoreFault>
    ensures same_reference { rows.new.conn.ghost_name ≡ rows.old.conn.ghost_name }
    ensures next { HasCleanDisk (walked S.Store rows.new)
        → (account : List ℕ) (quarter : ℕ) (listed : List ObligationValue)
        → HasListed S.Store account quarter rows.old listed
        → IfOk result (Continues S.Store account quarter rows.new listed) }
    ensures same { HasCleanDisk (walked S.Store rows.new)
        → OnOk result (IsUnchanged (walked S.Store rows.old) (walked S.Store rows.new)) }
    ensures kept { HasCleanDisk (walked S.Store rows.new)
        → IsSettled (walked S.Store rows.old)
        → OnErr result (LeavesRows (walked S.Store rows.old) (walked S.Store rows.new)) }
    ensures crash { CrashKeeps (walked S.Store rows.old) (walked S.Store rows.new) }
{
    rows.advance()?;
    match rows.get() {
        Some(row) => Ok(Some(Obligation::from_row(row)?)),
        None => Ok(None),
    }
}

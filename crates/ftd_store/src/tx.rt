//! A transaction over the desk's tables.

ghost use Rattle.std.specs.Prelude.{◌≡◌, ◌<◌, ◌^◌, true, false, is_err, if◌then◌else◌, map, []};
ghost use Rattle.std.specs.Prelude.{◌∷◌, IsTrue, IfOk, OnOk, OnErr, Err, Ok};
ghost use Rattle.sqlite.specs.State.{HasCleanDisk, Survives, Shows, Executes};
ghost use Rattle.sqlite.specs.Values.{bound};
ghost use Rattle.ftd_sql.specs.TextKinds.{IsRowText};
ghost use Rattle.ftd_sql.specs.Rows.{RowOf, cells_of};
ghost use Rattle.ftd_sql.specs.States.{CrashKeeps};
ghost use Rattle.ftd_store.specs.Cells.{count_cells};
ghost use Rattle.ftd_store.specs.Reading.{rows_of};
ghost use Rattle.ftd_store.specs.Seen.{seen, shown};
ghost use Rattle.ftd_store.specs.Frame.{Frame, Queries, Writes, HasFailed};
ghost use Rattle.ftd_store.specs.Ends.{EndsAs, CrashLeaves};
ghost use Rattle.ftd_store.specs.Changes.{adding};
ghost use Rattle.ftd_store.specs.Readings.{text_of};

use crate::readings::Reading;
use crate::store::Store;
use crate::{FromRow, StoreFault, all, only};
use ftd_sql::TableName;
use sqlite::types::ValueRef;
use sqlite::{Alter, Row};
use std::alloc::Global;

/// A transaction. Dropped before `commit`, it changes nothing. A transaction of which a call failed
/// has failed for good: each further call, and `commit`, answers `Failed`.
pub struct Tx<'store, S: Alter> {
    pub(crate) store: &'store mut Store<S>,
    pub(crate) failed: bool,
}

impl<S: Alter> Drop for Tx<'_, S> {
    fn drop(self)
        ensures undone { HasCleanDisk (seen S.Store self.exit.0.now)
            → IsTrue (seen S.Store self.exit.0.now).is_open
            → EndsAs (seen S.Store self.exit.0.now) (shown S.Store self.entry).committed }
        ensures rests { (shown S.Store self.entry).in_transaction ≡ false
            → self.exit.0.now ≡ self.entry.store.now }
        ensures crash { CrashKeeps (shown S.Store self.entry) (seen S.Store self.exit.0.now) }
        ensures opens { HasCleanDisk (seen S.Store self.exit.0.now)
            → IsTrue (seen S.Store self.exit.0.now).is_open
            → IsTrue (shown S.Store self.entry).is_open }
    {
        let Tx { store, failed: _ } = self;
        store.undo();
    }
}

impl<'store, S: Alter> Tx<'store, S> {
    /// Makes the transaction's rows the store's. With Ok a crash leaves these rows alone. A fault
    /// leaves the rows from before `begin`, and a crash then leaves those or, where the fault came
    /// as the rows were written, the new ones.
    pub fn commit(self) -> Result<(), StoreFault>
        ensures ok { HasCleanDisk (seen S.Store self.exit.0.now)
            → OnOk result (Shows (shown S.Store self.entry)
            (seen S.Store self.exit.0.now) (shown S.Store self.entry).now
            (shown S.Store self.entry).now false) }
        ensures lasts { HasCleanDisk (seen S.Store self.exit.0.now)
            → OnOk result (CrashLeaves (seen S.Store self.exit.0.now)
            (shown S.Store self.entry).now) }
        ensures stopped { HasFailed self.entry → result ≡ Err StoreFault.Failed }
        ensures kept { HasCleanDisk (seen S.Store self.exit.0.now)
            → IsTrue (seen S.Store self.exit.0.now).is_open
            → OnErr result (EndsAs (seen S.Store self.exit.0.now)
            (shown S.Store self.entry).committed) }
        ensures crash { Survives (shown S.Store self.entry) (seen S.Store self.exit.0.now)
            (λ left. left ≡ (shown S.Store self.entry).now.trees) }
    {
        if self.failed {
            return Err(StoreFault::Failed);
        }
        self.store.finish()
    }

    // a call that gives up
    pub(crate) fn stop<A>(&mut self, fault: StoreFault) -> Result<A, StoreFault>
        ensures err { result ≡ Err fault }
        ensures touched { (self.new.store ≡ self.old.store) × HasFailed self.new }
    {
        self.failed = true;
        Err(fault)
    }

    /// Gives up with this fault, or with `Failed` where a call has failed before. The transaction
    /// has failed then, and no row has changed.
    pub fn give_up<A>(&mut self, fault: StoreFault) -> Result<A, StoreFault>
        ensures frame { Frame S.Store self.old self.new result }
        ensures fails { is_err result ≡ true }
        ensures fault { (HasFailed self.old → ⊥) → result ≡ Err fault }
    {
        if self.failed {
            return Err(StoreFault::Failed);
        }
        self.stop(fault)
    }

    // runs a statement that changes rows
    pub(crate) fn change(&mut self, sql: &str, params: &[ValueRef<'_>]) -> Result<usize, StoreFault>
        requires of_rows { IsRowText sql.now }
        ensures frame { Frame S.Store self.old self.new result }
        ensures ran { HasCleanDisk (shown S.Store self.new) → IfOk result (λ count.
            Executes sql.now (bound params.now) (shown S.Store self.old) (shown S.Store self.new)
            (Ok count)) }
    {
        if self.failed || self.store.conn.is_autocommit() {
            return self.stop(StoreFault::Failed);
        }
        match self.store.conn.execute(sql, params) {
            Ok(count) => Ok(count),
            Err(error) => self.stop(StoreFault::from(error)),
        }
    }

    // runs a statement that changes one row or none, and answers whether it did; gives up where it
    // changed more
    pub(crate) fn change_any(
        &mut self,
        sql: &str,
        params: &[ValueRef<'_>],
    ) -> Result<bool, StoreFault>
        requires of_rows { IsRowText sql.now }
        ensures frame { Frame S.Store self.old self.new result }
        ensures ran { HasCleanDisk (shown S.Store self.new) → IfOk result (λ changed.
            Executes sql.now (bound params.now) (shown S.Store self.old) (shown S.Store self.new)
            (Ok (if changed then 1 else 0))) }
    {
        match self.change(sql, params)? {
            0 => Ok(false),
            1 => Ok(true),
            _ => self.stop(StoreFault::Failed),
        }
    }

    // runs a statement that changes exactly one row, or else gives up
    pub(crate) fn change_one(
        &mut self,
        sql: &str,
        params: &[ValueRef<'_>],
    ) -> Result<(), StoreFault>
        requires of_rows { IsRowText sql.now }
        ensures frame { Frame S.Store self.old self.new result }
        ensures ran { HasCleanDisk (shown S.Store self.new) → OnOk result
            (Executes sql.now (bound params.now) (shown S.Store self.old) (shown S.Store self.new)
            (Ok 1)) }
    {
        if self.change_any(sql, params)? {
            Ok(())
        } else {
            self.stop(StoreFault::Failed)
        }
    }

    // adds the row whose cells are given to the table
    pub(crate) fn add(
        &mut self,
        table: TableName,
        params: &[ValueRef<'_>],
    ) -> Result<(), StoreFault>
        ensures call { (row : RowOf table) → bound params.now ≡ cells_of table row
            → Writes S.Store self.old self.new result (adding table row) }
    {
        self.change(table.adding(), params)?;
        Ok(())
    }

    // runs a query
    pub(crate) fn read(
        &mut self,
        reading: Reading,
        params: &[ValueRef<'_>],
    ) -> Result<Vec<Row>, StoreFault>
        ensures call { Queries S.Store self.old self.new result (text_of reading)
            (bound params.now) (λ read rows. rows ≡ read.items) }
    {
        if self.failed {
            return Err(StoreFault::Failed);
        }
        match self.store.conn.query_all(reading.text(), params) {
            Ok(rows) => Ok(rows),
            Err(error) => self.stop(StoreFault::from(error)),
        }
    }

    // runs a query that shows one row or none
    pub(crate) fn read_only<T: FromRow>(
        &mut self,
        reading: Reading,
        params: &[ValueRef<'_>],
    ) -> Result<Option<T>, StoreFault>
        ensures call { Queries S.Store self.old self.new result (text_of reading)
            (bound params.now) (λ found rows. rows ≡ rows_of T.shown found) }
    {
        let rows = self.read(reading, params)?;
        match only(&rows) {
            Ok(found) => Ok(found),
            Err(fault) => self.stop(fault),
        }
    }

    // runs a query that shows rows in an order
    pub(crate) fn read_all<T: FromRow + Drop>(
        &mut self,
        alloc: Global,
        reading: Reading,
        params: &[ValueRef<'_>],
    ) -> Result<Vec<T>, StoreFault>
        ensures call { Queries S.Store self.old self.new result (text_of reading)
            (bound params.now) (λ listed rows. rows ≡ map T.shown listed.items) }
    {
        let rows = self.read(reading, params)?;
        match all(alloc, &rows) {
            Ok(listed) => Ok(listed),
            Err(fault) => self.stop(fault),
        }
    }

    // runs a query that counts rows
    pub(crate) fn count(
        &mut self,
        reading: Reading,
        params: &[ValueRef<'_>],
    ) -> Result<u32, StoreFault>
        ensures call { Queries S.Store self.old self.new result (text_of reading)
            (bound params.now)
            (λ count rows. (rows ≡ count_cells count ∷ []) × (count < 2 ^ 32)) }
    {
        match self.read_only(reading, params)? {
            Some(count) => Ok(count),
            None => self.stop(StoreFault::Failed),
        }
    }
}

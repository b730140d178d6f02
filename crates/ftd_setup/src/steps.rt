//! Statements inside a transaction of the engine.

ghost use Rattle.std.specs.Prelude.{Ok, []};
ghost use Rattle.sqlite.specs.State.{Executes, Shown, IsUnchanged};
ghost use Rattle.sqlite.specs.Values.{bound};
ghost use Rattle.ftd_sql.specs.TextKinds.{IsReadText};
ghost use Rattle.ftd_setup.specs.Steps.{Steps};

use ftd_store::StoreFault;
use sqlite::types::ValueRef;
use sqlite::{Alter, Row, Transaction};

/// Runs a statement, and tells how many rows it changed.
pub(crate) fn run<S: Alter>(
    tx: &mut Transaction<'_, S>,
    sql: &str,
    params: &[ValueRef<'_>],
) -> Result<usize, StoreFault>
    ensures step { Steps S.Store tx.old tx.new result
        (λ count old new. Executes sql.now (bound params.now) old new (Ok count)) }
{
    Ok(tx.execute(sql, params)?)
}

/// Runs a query.
pub(crate) fn read<S: Alter>(tx: &mut Transaction<'_, S>, sql: &str) -> Result<Vec<Row>, StoreFault>
    requires of_reading { IsReadText sql.now }
    ensures step { Steps S.Store tx.old tx.new result
        (λ rows old new. Shown sql.now [] old new rows.items × IsUnchanged old new) }
{
    match tx.query_all(sql, &[]) {
        Ok(rows) => Ok(rows),
        Err(error) => Err(StoreFault::from(error)),
    }
}

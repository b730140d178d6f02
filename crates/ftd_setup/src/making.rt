//! Making the tables and their indexes.

ghost use Rattle.std.specs.Prelude.{◌≡◌};
ghost use Rattle.ftd_sql.specs.Making.{create_of, AreFree, IsFree};
ghost use Rattle.ftd_sql.proofs.Making.{AreMade};
ghost use Rattle.ftd_setup.specs.Steps.{Steps};
ghost use Rattle.ftd_sql.specs.Beginnings.{IsMade};
ghost use Rattle.ftd_setup.specs.Versions.{IsNew, KeepsRows};

use crate::steps::run;
use ftd_sql::{ALL, TableName, is_taken, texts};
use ftd_store::StoreFault;
use sqlite::{Alter, Transaction, params};
use sqlite_schema::schema::Schema;

/// The version of the tables that this desk makes and opens.
pub(crate) const VERSION: i64 = 3;

// the text that makes a table
fn create(name: TableName) -> &'static str
    ensures { result.now ≡ create_of name }
{
    match name {
        TableName::Metas => texts::CREATE_METAS,
        TableName::Accounts => texts::CREATE_ACCOUNTS,
        TableName::ReportedQuarters => texts::CREATE_REPORTED_QUARTERS,
        TableName::CalendarYears => texts::CREATE_CALENDAR_YEARS,
        TableName::Holidays => texts::CREATE_HOLIDAYS,
        TableName::Years => texts::CREATE_YEARS,
        TableName::Runs => texts::CREATE_RUNS,
        TableName::Payments => texts::CREATE_PAYMENTS,
        TableName::Obligations => texts::CREATE_OBLIGATIONS,
        TableName::Forms => texts::CREATE_FORMS,
        TableName::ReportedYears => texts::CREATE_REPORTED_YEARS,
        TableName::AddedHolidays => texts::CREATE_ADDED_HOLIDAYS,
        TableName::CorrectedQuarters => texts::CREATE_CORRECTED_QUARTERS,
        TableName::CorrectedYears => texts::CREATE_CORRECTED_YEARS,
        TableName::ChangedHolidays => texts::CREATE_CHANGED_HOLIDAYS,
        TableName::CorrectedAccounts => texts::CREATE_CORRECTED_ACCOUNTS,
    }
}

/// Makes these tables.
pub(crate) fn make_tables<S: Alter>(
    tx: &mut Transaction<'_, S>,
    names: &[TableName],
) -> Result<(), StoreFault>
    ensures step { Steps S.Store tx.old tx.new result
        (λ _ old new. AreFree names.now old.now.schema → AreMade names.now old.now new.now) }
{
    for name in names {
        run(tx, create(*name), &[])?;
    }
    Ok(())
}

/// The indexes by day that can be made, since nothing has their names.
#[derive(Clone, Copy)]
pub(crate) struct Indexes {
    pub runs: bool,
    pub payments: bool,
}

impl Indexes {
    /// Those whose names are not taken in the schema.
    pub(crate) fn free_in(schema: &Schema) -> Indexes {
        Indexes {
            runs: !is_taken(schema, b"ftd_run_by_payday"),
            payments: !is_taken(schema, b"ftd_payment_by_day"),
        }
    }
}

// makes the index by which the runs of a few days are found
fn index_runs<S: Alter>(tx: &mut Transaction<'_, S>, is_free: bool) -> Result<(), StoreFault>
    ensures step { Steps S.Store tx.old tx.new result (λ _ old new. KeepsRows old.now new.now) }
{
    if is_free {
        run(tx, texts::INDEX_RUNS, &[])?;
    }
    Ok(())
}

// makes the index by which the payments for a few days are found
fn index_payments<S: Alter>(tx: &mut Transaction<'_, S>, is_free: bool) -> Result<(), StoreFault>
    ensures step { Steps S.Store tx.old tx.new result (λ _ old new. KeepsRows old.now new.now) }
{
    if is_free {
        run(tx, texts::INDEX_PAYMENTS, &[])?;
    }
    Ok(())
}

/// Makes the indexes by day whose names are free.
pub(crate) fn make_indexes<S: Alter>(
    tx: &mut Transaction<'_, S>,
    indexes: Indexes,
) -> Result<(), StoreFault>
    ensures step { Steps S.Store tx.old tx.new result (λ _ old new. KeepsRows old.now new.now) }
{
    index_runs(tx, indexes.runs)?;
    index_payments(tx, indexes.payments)
}

/// Makes the sixteen tables, the indexes and the tag of version 3.
pub(crate) fn make<S: Alter>(
    tx: &mut Transaction<'_, S>,
    indexes: Indexes,
) -> Result<(), StoreFault>
    ensures step { Steps S.Store tx.old tx.new result
        (λ _ old new. IsNew old.now.schema → IsFree old.now.schema → IsMade old.now new.now) }
{
    let names = ALL;
    make_tables(tx, names.as_slice())?;
    make_indexes(tx, indexes)?;
    run(tx, texts::ADD_META, params!["ftd", VERSION])?;
    Ok(())
}

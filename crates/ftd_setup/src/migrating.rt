//! From version 1 or 2 to version 3.

ghost use Rattle.std.specs.Prelude.{◌≡◌, ◌++◌, ◌∷◌, [], pos, codes, map, List};
ghost use Rattle.std.specs.List.Sorted.{IsPermutation};
ghost use Rattle.ftd_sql.specs.Kept.{changed};
ghost use Rattle.ftd_sql.specs.declared.TableName.TheVariants.{Metas, Accounts, Forms};
ghost use Rattle.ftd_sql.specs.Rows.{AccountRow};
ghost use Rattle.ftd_sql.specs.Standing.{Tables, with_rows, Stands, Becomes};
ghost use Rattle.ftd_sql.specs.Answers.{name_shown};
ghost use Rattle.ftd_sql.specs.Tests.{is_tag, with_version};
ghost use Rattle.ftd_setup.specs.Steps.{Steps};
ghost use Rattle.ftd_sql.specs.Beginnings.{on_form_941, IsMigratedFrom};

use crate::making::{Indexes, VERSION, make_indexes, make_tables};
use crate::steps::{read, run};
use ftd_sql::{AFTER_FIRST, AFTER_SECOND, texts};
use ftd_store::StoreFault;
use sqlite::types::ValueRef;
use sqlite::{Alter, Row, Transaction, params};

// Form 941, as it is stored
const FORM_941: i64 = 0;

// puts the account of this name on Form 941
fn add_form<S: Alter>(tx: &mut Transaction<'_, S>, name: &Row) -> Result<(), StoreFault>
    ensures step { Steps S.Store tx.old tx.new result
        (λ _ old new. (account : AccountRow) (t : Tables)
        → name.now ≡ name_shown account → Stands old.now t
        → Becomes old.now new.now (with_rows Forms (t Forms ++ (on_form_941 account ∷ [])) t)) }
{
    let form = ValueRef::Int(FORM_941);
    run(tx, texts::ADD_FORM, &[name.get_ref(0)?, form])?;
    Ok(())
}

// puts the accounts of these names on Form 941
fn add_forms<S: Alter>(tx: &mut Transaction<'_, S>, names: &[Row]) -> Result<(), StoreFault>
    ensures step { Steps S.Store tx.old tx.new result
        (λ _ old new. (accounts : List AccountRow) (t : Tables)
        → names.now ≡ map name_shown accounts → Stands old.now t
        → Becomes old.now new.now (with_rows Forms (t Forms ++ map on_form_941 accounts) t)) }
{
    for name in names {
        add_form(tx, name)?;
    }
    Ok(())
}

// puts every account on Form 941
fn give_forms<S: Alter>(tx: &mut Transaction<'_, S>) -> Result<(), StoreFault>
    ensures step { Steps S.Store tx.old tx.new result (λ _ old new. (t : Tables) → Stands old.now t
        → (accounts : List AccountRow) × IsPermutation (t Accounts) accounts
        × Becomes old.now new.now (with_rows Forms (t Forms ++ map on_form_941 accounts) t)) }
{
    let names = read(tx, texts::LIST_ACCOUNTS)?;
    add_forms(tx, &names)
}

// gives the tag version 3
fn set_version<S: Alter>(tx: &mut Transaction<'_, S>) -> Result<(), StoreFault>
    ensures step { Steps S.Store tx.old tx.new result (λ _ old new. (t : Tables) → Stands old.now t
        → Becomes old.now new.now (with_rows Metas
        (map (changed (is_tag (codes "ftd")) (with_version (pos 3))) (t Metas)) t)) }
{
    if run(tx, texts::SET_VERSION, params!["ftd", VERSION])? != 1 {
        return Err(StoreFault::Failed);
    }
    Ok(())
}

/// Makes the seven tables that came after version 1, puts every account on Form 941, and gives the
/// tag version 3.
pub(crate) fn migrate_first<S: Alter>(
    tx: &mut Transaction<'_, S>,
    indexes: Indexes,
) -> Result<(), StoreFault>
    ensures step { Steps S.Store tx.old tx.new result
        (λ _ old new. IsMigratedFrom 1 old.now new.now) }
{
    let names = AFTER_FIRST;
    make_tables(tx, names.as_slice())?;
    make_indexes(tx, indexes)?;
    give_forms(tx)?;
    set_version(tx)
}

/// Makes the four tables that came after version 2, and gives the tag version 3.
pub(crate) fn migrate_second<S: Alter>(
    tx: &mut Transaction<'_, S>,
    indexes: Indexes,
) -> Result<(), StoreFault>
    ensures step { Steps S.Store tx.old tx.new result
        (λ _ old new. IsMigratedFrom 2 old.now new.now) }
{
    let names = AFTER_SECOND;
    make_tables(tx, names.as_slice())?;
    make_indexes(tx, indexes)?;
    set_version(tx)
}

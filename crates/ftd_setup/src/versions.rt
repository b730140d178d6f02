//! Whether a database is the desk's.

ghost use Rattle.std.specs.Prelude.{◌≡◌, ◌≤◌, ℕ, codes, pos, [], ◌∷◌, IfSome, None};
ghost use Rattle.sqlite.specs.declared.types.Value.TheVariants.{Int, Text};
ghost use Rattle.ftd_setup.specs.Versions.{is_tagged, ReadsVersion};

use sqlite::Row;
use sqlite::types::ValueRef;
use sqlite_schema::schema::Schema;

/// Whether ftd_meta is a table with columns `tag` and `version`, so that it can be read.
pub(crate) fn is_tagged(schema: &Schema) -> bool
    ensures { result ≡ is_tagged schema.now }
{
    let Some(at) = schema.table_named(b"ftd_meta") else {
        return false;
    };
    match schema.tables.as_slice().get(at) {
        Some(table) => {
            table.column_named(b"tag").is_some() && table.column_named(b"version").is_some()
        }
        None => false,
    }
}

// the version in a row of ftd_meta
fn version_of(row: &Row) -> Option<u64>
    ensures read { IfSome result
        (λ version. row.now ≡ Text (codes "ftd") ∷ Int (pos version) ∷ []) }
    ensures none { result ≡ None → (version : ℕ)
        → ¬ (row.now ≡ Text (codes "ftd") ∷ Int (pos version) ∷ []) }
{
    if row.column_count() != 2 {
        return None;
    }
    let Ok(ValueRef::Text(tag)) = row.get_ref(0) else {
        return None;
    };
    let Ok(ValueRef::Int(version)) = row.get_ref(1) else {
        return None;
    };
    if tag != b"ftd".as_slice() {
        return None;
    }
    match u64::try_from(version) {
        Ok(version) => Some(version),
        Err(_) => None,
    }
}

/// The version that the rows of ftd_meta tell, from 1 on, or None.
pub(crate) fn told(rows: &[Row]) -> Option<u64>
    ensures read { IfSome result (λ version. (1 ≤ version) × ReadsVersion rows.now version) }
    ensures none { result ≡ None → (version : ℕ) → 1 ≤ version → ¬ ReadsVersion rows.now version }
{
    match rows {
        [row] => match version_of(row) {
            Some(0) => None,
            version => version,
        },
        _ => None,
    }
}

//! A table of SQL as a list of typed rows: where it stands in a schema, and the lemmas on reading,
//! writing and making it.
//! The desk's sixteen tables: their names, for code and for contracts; the typed rows of each, and
//! the rows for which a database stands; the SQL statements, each text once, and what each means in
//! typed rows.
#![tactic(auto)]

pub mod texts;

ghost use Rattle.std.specs.Prelude.{◌≡◌};
ghost use Rattle.ftd_sql.specs.Making.{add_of};
ghost use Rattle.ftd_sql.specs.Names.{name_of, is_taken, has_any};

use sqlite_schema::schema::Schema;

/// One of the desk's tables.
#[derive(Clone, Copy)]
pub enum TableName {
    Metas,
    Accounts,
    ReportedQuarters,
    CalendarYears,
    Holidays,
    Years,
    Runs,
    Payments,
    Obligations,
    Forms,
    ReportedYears,
    AddedHolidays,
    CorrectedQuarters,
    CorrectedYears,
    ChangedHolidays,
    CorrectedAccounts,
}

impl TableName {
    /// As it is written in SQL.
    pub fn text(self) -> &'static [u8]
        ensures { result.now ≡ name_of self }
    {
        match self {
            TableName::Metas => b"ftd_meta",
            TableName::Accounts => b"account",
            TableName::ReportedQuarters => b"reported",
            TableName::CalendarYears => b"calendar_year",
            TableName::Holidays => b"holiday",
            TableName::Years => b"year",
            TableName::Runs => b"run",
            TableName::Payments => b"payment",
            TableName::Obligations => b"bucket",
            TableName::Forms => b"account_form",
            TableName::ReportedYears => b"reported_year",
            TableName::AddedHolidays => b"added_holiday",
            TableName::CorrectedQuarters => b"corrected",
            TableName::CorrectedYears => b"corrected_year",
            TableName::ChangedHolidays => b"changed_holiday",
            TableName::CorrectedAccounts => b"corrected_account",
        }
    }

    /// The statement that adds a row to it.
    pub fn adding(self) -> &'static str
        ensures { result.now ≡ add_of self }
    {
        match self {
            TableName::Metas => texts::ADD_META,
            TableName::Accounts => texts::ADD_ACCOUNT,
            TableName::ReportedQuarters => texts::ADD_REPORTED,
            TableName::CalendarYears => texts::ADD_CALENDAR_YEAR,
            TableName::Holidays => texts::ADD_HOLIDAY,
            TableName::Years => texts::ADD_YEAR,
            TableName::Runs => texts::ADD_RUN,
            TableName::Payments => texts::ADD_PAYMENT,
            TableName::Obligations => texts::ADD_OBLIGATION,
            TableName::Forms => texts::ADD_FORM,
            TableName::ReportedYears => texts::ADD_REPORTED_YEAR,
            TableName::AddedHolidays => texts::ADD_ADDED_HOLIDAY,
            TableName::CorrectedQuarters => texts::ADD_CORRECTED,
            TableName::CorrectedYears => texts::ADD_CORRECTED_YEAR,
            TableName::ChangedHolidays => texts::ADD_CHANGED_HOLIDAY,
            TableName::CorrectedAccounts => texts::ADD_CORRECTED_ACCOUNT,
        }
    }
}

/// All of them, in the order in which they are made.
pub const ALL: [TableName; 16] = [
    TableName::Metas,
    TableName::Accounts,
    TableName::ReportedQuarters,
    TableName::CalendarYears,
    TableName::Holidays,
    TableName::Years,
    TableName::Runs,
    TableName::Payments,
    TableName::Obligations,
    TableName::Forms,
    TableName::ReportedYears,
    TableName::AddedHolidays,
    TableName::CorrectedQuarters,
    TableName::CorrectedYears,
    TableName::ChangedHolidays,
    TableName::CorrectedAccounts,
];

/// Those that came after version 1, in the order in which they are made.
pub const AFTER_FIRST: [TableName; 7] = [
    TableName::Forms,
    TableName::ReportedYears,
    TableName::AddedHolidays,
    TableName::CorrectedQuarters,
    TableName::CorrectedYears,
    TableName::ChangedHolidays,
    TableName::CorrectedAccounts,
];

/// Those that came after version 2, in the order in which they are made.
pub const AFTER_SECOND: [TableName; 4] = [
    TableName::CorrectedQuarters,
    TableName::CorrectedYears,
    TableName::ChangedHolidays,
    TableName::CorrectedAccounts,
];

/// Whether a table, a view or an index has the name. Small and capital letters are not told apart.
pub fn is_taken(schema: &Schema, name: &[u8]) -> bool
    ensures { result ≡ is_taken schema.now name.now }
{
    schema.table_named(name).is_some()
        || (schema.view_named(name).is_some() || schema.index_named(name).is_some())
}

/// Whether one of the names is taken.
pub fn has_any(schema: &Schema, names: &[TableName]) -> bool
    ensures { result ≡ has_any names.now schema.now }
{
    names.iter().any(|name| is_taken(schema, name.text()))
}

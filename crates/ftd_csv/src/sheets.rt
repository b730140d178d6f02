//! What a text of CSV lists.

ghost use Rattle.std.specs.Prelude.{◌≡◌, ◌↔◌, IsTrue, Some, map, option_map};
ghost use Rattle.csv.specs.Records.{field_at, fields_of};
ghost use Rattle.ftd_csv.specs.Fields.{numbered_field};
ghost use Rattle.ftd_csv.specs.Sheets.{column_of, header_row, width_of};

use csv::ByteRecord;
use ftd_verbs::Field;

/// What the records of a text are. The first record of a text, its header, names their fields.
#[derive(Clone, Copy, Debug, PartialEq, Eq)]
pub enum Sheet {
    /// Pay runs, under `employer,run,payday,fit,ss,medicare`.
    Runs,
    /// Accounts, under `employer,first_day,carried,form`.
    Accounts,
    /// Reported totals, of quarters on Form 941 and of years on Form 943, under
    /// `employer,period,amount`.
    Totals,
    /// Payments, under `employer,payment,paid,for,amount`.
    Payments,
}

impl Sheet {
    /// The fields of its header, which name those of its records.
    pub fn columns(self) -> &'static [&'static [u8]]
        ensures { map (λ name. name.now) result.now ≡ header_row self }
    {
        match self {
            Sheet::Runs => &[b"employer", b"run", b"payday", b"fit", b"ss", b"medicare"],
            Sheet::Accounts => &[b"employer", b"first_day", b"carried", b"form"],
            Sheet::Totals => &[b"employer", b"period", b"amount"],
            Sheet::Payments => &[b"employer", b"payment", b"paid", b"for", b"amount"],
        }
    }

    /// How many fields its records have.
    pub fn width(self) -> usize
        ensures { result ≡ width_of self }
    {
        self.columns().len()
    }

    /// The name of a field of its records, by the field's number, which counts from 1. None where
    /// they have no such field.
    pub fn column(self, number: u8) -> Option<&'static [u8]>
        ensures { option_map (λ name. name.now) result
            ≡ numbered_field (header_row self) number }
    {
        let place = number.checked_sub(1)?;
        self.columns().get(usize::from(place)).copied()
    }

    /// The number of the column that gives a field of what its records ask for, which counts from
    /// 1. It is 0 where no column does. The period of a total is its quarter or its year.
    #[tactic(auto, unfolding(crate::specs::Sheets::column_of))]
    pub fn column_of(self, field: Field) -> u8
        ensures { result ≡ column_of self field }
    {
        match (self, field) {
            (_, Field::Account) => 1,
            (Sheet::Runs, Field::Run) => 2,
            (Sheet::Runs, Field::Payday) => 3,
            (Sheet::Runs, Field::Fit) => 4,
            (Sheet::Runs, Field::Ss) => 5,
            (Sheet::Runs, Field::Medicare) => 6,
            (Sheet::Accounts, Field::Start) => 2,
            (Sheet::Accounts, Field::Carried) => 3,
            (Sheet::Accounts, Field::Form) => 4,
            (Sheet::Totals, Field::Quarter | Field::Year) => 2,
            (Sheet::Totals, Field::Amount) => 3,
            (Sheet::Payments, Field::Payment) => 2,
            (Sheet::Payments, Field::Paid) => 3,
            (Sheet::Payments, Field::For) => 4,
            (Sheet::Payments, Field::Amount) => 5,
            _ => 0,
        }
    }
}

/// Whether the field of the row at a place, which counts from 0, is this text.
fn is_field(row: &ByteRecord, place: usize, text: &[u8]) -> bool
    ensures { IsTrue result ↔ (field_at (fields_of row.now) place ≡ Some text.now) }
{
    match row.get(place) {
        Some(field) => field == text,
        None => false,
    }
}

/// Whether the row is the header of the sheet.
pub fn is_header(sheet: Sheet, row: &ByteRecord) -> bool
    ensures { IsTrue result ↔ (fields_of row.now ≡ header_row sheet) }
{
    let columns = sheet.columns();
    if row.len() != columns.len() {
        return false;
    }
    for (place, name) in columns.iter().enumerate() {
        if !is_field(row, place, name) {
            return false;
        }
    }
    true
}

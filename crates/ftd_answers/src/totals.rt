//! Sums of the amounts of rows.

ghost use Rattle.std.specs.Prelude.{◌≡◌, ℕ};
ghost use Rattle.std.specs.List.{sum_by};
ghost use Rattle.ftd_machine.specs.Agenda.{left_of};
ghost use Rattle.ftd_rules.specs.Liability.{cents_of};
ghost use Rattle.ftd_rules.specs.Verdicts.{amount_of};
ghost use Rattle.ftd_answers.specs.Agendas.{left_cents};

use ftd_days::Cents;
use ftd_machine::AgendaRow;
use ftd_rules::{DaySum, DueRow};

/// Which amount of a row counts.
pub trait RowAmount<T> {
    /// The amount of a row that counts, in cents.
    ghost counted: { Self → T → ℕ };

    /// The amount of a row that counts.
    fn cents(&self, row: &T) -> Cents
        ensures { result.0 ≡ counted self.now row.now };
}

/// The amount of an obligation, or of a day.
#[derive(Drop)]
pub struct Amount;

/// What is left to pay: the amount less what was paid, or nothing.
#[derive(Drop)]
pub struct AmountLeft;

impl RowAmount<DueRow> for Amount {
    ghost counted = { λ counts row. amount_of row };

    fn cents(&self, row: &DueRow) -> Cents {
        row.obligation.cents
    }
}

impl RowAmount<DaySum> for Amount {
    ghost counted = { λ counts sum. cents_of sum };

    fn cents(&self, row: &DaySum) -> Cents {
        row.cents
    }
}

impl RowAmount<DueRow> for AmountLeft {
    ghost counted = { λ counts row. left_of row };

    fn cents(&self, row: &DueRow) -> Cents {
        left_of(row)
    }
}

impl RowAmount<AgendaRow> for AmountLeft {
    ghost counted = { λ counts row. left_cents row };

    fn cents(&self, row: &AgendaRow) -> Cents {
        left_of(&row.row)
    }
}

/// What is left to pay of a row: its amount less what was paid, or nothing.
pub fn left_of(row: &DueRow) -> Cents
    ensures { result.0 ≡ left_of row.now }
{
    Cents(row.obligation.cents.0.saturating_sub(row.paid.0))
}

/// The amounts of the rows that count together, in cents.
pub fn total<T, A: RowAmount<T>>(counts: &A, rows: &[T]) -> u128
    ensures { result ≡ sum_by (A.counted counts.now) rows.now }
{
    let mut total = 0;
    for row in rows {
        total += u128::from(counts.cents(row).0);
    }
    total
}

//! Texts and lists inside requests and replies. Contracts see each as a list.

ghost use Rattle.std.specs.Prelude.{◌≡◌, IfOk};
ghost use Rattle.std.specs.String.{string_bytes};
ghost use Rattle.ftd_machine.specs.Agenda.{depends_on_total};

use ftd_days::{Cents, Day};
use ftd_rules::{DaySum, DueRow, Form, ListOf, Verdict};
use std::alloc::{AllocError, Global};
use std::marker::Model;

/// The name of an account, as it was given.
#[derive(Drop)]
pub struct AccountName {
    name: String,
}

impl Model for AccountName {
    ghost use Rattle.std.specs.Prelude.{List, ℕ};
    ghost use Rattle.std.specs.String.{string_bytes};

    ghost Value = { List ℕ };

    ghost view = { λ a. string_bytes a.name };
}

impl AccountName {
    /// The text as a name.
    pub fn from_string(name: String) -> AccountName
        ensures { result ≡ string_bytes name }
    {
        AccountName { name }
    }

    /// A copy of the text as a name. An error if there is no memory.
    pub fn copy_of(alloc: Global, name: &str) -> Result<AccountName, AllocError>
        ensures { IfOk result (λ copy. copy ≡ name.now) }
    {
        Ok(AccountName {
            name: String::from_str(alloc, name)?,
        })
    }

    /// The name as a text.
    pub fn as_str(&self) -> &str
        ensures { result.now ≡ self.now }
    {
        &self.name
    }
}

/// Days.
pub type Days = ListOf<Day>;

/// The liability of some days.
pub type DaySums = ListOf<DaySum>;

/// The rows of a due list.
pub type DueRows = ListOf<DueRow>;

/// What is due over all accounts.
pub type AgendaRows = ListOf<AgendaRow>;

/// Money that counts for nothing, over all accounts.
pub type UnappliedRows = ListOf<UnappliedRow>;

/// Money of an account that counts for nothing: a payment for a day of no obligation, or what was
/// paid for an obligation, which is more than its amount. Amounts are in cents.
#[derive(Drop)]
pub struct UnappliedRow {
    /// The account.
    pub account: AccountName,
    /// The number of the payment. None where it is an obligation.
    pub payment: Option<u32>,
    /// The first day of the obligation, or the day that the payment is for.
    pub first: Day,
    /// The last day of the obligation, or the day that the payment is for.
    pub last: Day,
    /// The amount of the obligation; 0.00 where the payment counts for none.
    pub amount: Cents,
    /// What was paid for the obligation, by all its payments, or the amount of the payment.
    pub paid: Cents,
}

/// A row of what is due over all accounts.
#[derive(Drop)]
pub struct AgendaRow {
    /// The account that owes it.
    pub account: AccountName,
    /// The form that the account files.
    pub form: Form,
    /// The row of the account's due list of the quarter in which the obligation begins.
    pub row: DueRow,
    /// The day by which to pay what is left: the makeup date if the verdict is short; if it is
    /// with-return and the return period is over, the due date of the return; otherwise the
    /// obligation's due date.
    pub pay_by: Day,
}

impl AgendaRow {
    /// Whether the deposit may be paid with its return only if the total for the return stays below
    /// 2,500.00: the return period is not over, so that the day to pay by is the due date (Pub. 15
    /// section 11, "Payment with return").
    pub fn depends_on_total(&self) -> bool
        ensures { result ≡ depends_on_total self.now }
    {
        matches!(self.row.verdict, Verdict::WithReturn) && self.pay_by == self.row.obligation.due
    }
}

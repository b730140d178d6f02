//! What is due: over all accounts, and in an account's due list.

ghost use Rattle.ftd_ports.specs.Writing.{Writes};
ghost use Rattle.ftd_machine.specs.Agenda.{left_of};
ghost use Rattle.ftd_rules.specs.Verdicts.{amount_of};
ghost use Rattle.ftd_answers.specs.Agendas.{left_cents};
ghost use Rattle.ftd_pages.specs.Dues.{agenda_at, agenda_shape, due_at, due_shape, owed_at};

use crate::columns::{
    ACCOUNT, AMOUNT, DUE, FIRST, FORM, LAST, LEFT, MAKEUP, PAID, PAY_BY, RULE, VERDICT,
};
use crate::feet::Foot;
use crate::frames::Place;
use crate::links::Way::{Nowhere, Obligation};
use crate::links::{to_account, to_payment, to_reason};
use crate::pages::Page;
use crate::rows::{Class, PageRow, Part, write_linked_fields};
use crate::sections::write_list_at;
use ftd_answers::{RowAmount, Value, left_of, total};
use ftd_days::Cents;
use ftd_machine::{Agenda, AgendaRow, DueList, OwedList};
use ftd_ports::{Target, WriteFault};
use ftd_rules::DueRow;

/// The amount of an obligation.
#[derive(Drop)]
struct Amount;

/// What is left to pay of an obligation.
#[derive(Drop)]
struct AmountLeft;

impl RowAmount<DueRow> for Amount {
    ghost counted = { λ counts row. amount_of row };

    fn cents(&self, row: &DueRow) -> Cents {
        row.obligation.cents
    }
}

impl RowAmount<DueRow> for AmountLeft {
    ghost counted = { λ counts row. left_of row };

    fn cents(&self, row: &DueRow) -> Cents {
        left_of(row)
    }
}

impl RowAmount<AgendaRow> for AmountLeft {
    ghost counted = { λ counts row. left_cents row };

    fn cents(&self, row: &AgendaRow) -> Cents {
        left_of(&row.row)
    }
}

impl PageRow for AgendaRow {
    ghost shape = { λ account. agenda_shape };

    fn write_part<W: Target>(
        &self,
        account: &str,
        part: Part,
        target: &mut W,
    ) -> Result<(), WriteFault> {
        let name = self.account.as_str();
        let obligation = self.row.obligation;
        let left = left_of(&self.row);
        let fields = [
            (DUE, Value::Day(obligation.due), Nowhere),
            (ACCOUNT, Value::Text(name), to_account(name)),
            (FORM, Value::Form(self.form), Nowhere),
            (
                FIRST,
                Value::Day(obligation.first),
                to_reason(name, obligation.first),
            ),
            (LAST, Value::Day(obligation.last), Nowhere),
            (RULE, Value::Rule(obligation.rule), Nowhere),
            (AMOUNT, Value::Amount(obligation.cents), Nowhere),
            (PAID, Value::Amount(self.row.paid), Nowhere),
            (
                LEFT,
                Value::Amount(left),
                to_payment(name, obligation.first, left),
            ),
            (PAY_BY, Value::Day(self.pay_by), Nowhere),
            (VERDICT, Value::Verdict(self.row.verdict), Nowhere),
        ];
        write_linked_fields(part, Class::Stands(self.row.verdict), &fields, target)
    }
}

impl PageRow for DueRow {
    ghost shape = { due_shape };

    fn write_part<W: Target>(
        &self,
        account: &str,
        part: Part,
        target: &mut W,
    ) -> Result<(), WriteFault> {
        let obligation = self.obligation;
        let left = left_of(self);
        let fields = [
            (DUE, Value::Day(obligation.due), Nowhere),
            (ACCOUNT, Value::Text(account), Nowhere),
            (
                FIRST,
                Value::Day(obligation.first),
                Obligation(account, obligation.first),
            ),
            (LAST, Value::Day(obligation.last), Nowhere),
            (RULE, Value::Rule(obligation.rule), Nowhere),
            (AMOUNT, Value::Amount(obligation.cents), Nowhere),
            (PAID, Value::Amount(self.paid), Nowhere),
            (
                LEFT,
                Value::Amount(left),
                to_payment(account, obligation.first, left),
            ),
            (MAKEUP, Value::Day(self.makeup), Nowhere),
            (VERDICT, Value::Verdict(self.verdict), Nowhere),
        ];
        write_linked_fields(part, Class::Stands(self.verdict), &fields, target)
    }
}

/// Writes what is due until a day over all accounts and not paid as of a day, at its place. It
/// takes no memory but what the target takes. Where the target fails, a prefix of that was written,
/// and it fails nowhere else.
pub fn write_owed<W: Target>(
    place: &Place,
    owed: &OwedList,
    target: &mut W,
) -> Result<(), WriteFault>
    ensures { Writes result (W.taken target.old) (W.taken target.new)
        (W.failed target.new) (owed_at place.now owed.now) }
{
    let rows = owed.rows.as_slice();
    let page = Page {
        title: &[
            Value::Text("Deposits owed until "),
            Value::Day(owed.until),
            Value::Text(", as of "),
            Value::Day(owed.as_of),
        ],
        sentence: "Nothing is owed.",
        account: "",
        foot: Foot::Left(total(&AmountLeft, rows)),
    };
    write_list_at(place, &page, rows, target)
}

/// Writes what is due between two days over all accounts, as of a day, at its place. It takes no
/// memory but what the target takes. Where the target fails, a prefix of that was written, and it
/// fails nowhere else.
pub fn write_agenda<W: Target>(
    place: &Place,
    agenda: &Agenda,
    target: &mut W,
) -> Result<(), WriteFault>
    ensures { Writes result (W.taken target.old) (W.taken target.new)
        (W.failed target.new) (agenda_at place.now agenda.now) }
{
    let rows = agenda.rows.as_slice();
    let page = Page {
        title: &[
            Value::Text("Deposits due from "),
            Value::Day(agenda.from),
            Value::Text(" to "),
            Value::Day(agenda.to),
            Value::Text(", as of "),
            Value::Day(agenda.as_of),
        ],
        sentence: "Nothing is due.",
        account: "",
        foot: Foot::Left(total(&AmountLeft, rows)),
    };
    write_list_at(place, &page, rows, target)
}

/// Writes the due list of an account's quarter as of a day, at its place. It takes no memory but
/// what the target takes. Where the target fails, a prefix of that was written, and it fails
/// nowhere else.
pub fn write_due<W: Target>(place: &Place, list: &DueList, target: &mut W) -> Result<(), WriteFault>
    ensures { Writes result (W.taken target.old) (W.taken target.new)
        (W.failed target.new) (due_at place.now list.now) }
{
    let account = list.account.as_str();
    let rows = list.rows.as_slice();
    let page = Page {
        title: &[
            Value::Text("Due list of "),
            Value::Text(account),
            Value::Text(", "),
            Value::Quarter(list.quarter),
            Value::Text(", as of "),
            Value::Day(list.as_of),
        ],
        sentence: "The quarter has no deposits.",
        account,
        foot: Foot::Due(total(&Amount, rows), total(&AmountLeft, rows)),
    };
    write_list_at(place, &page, rows, target)
}

//! The rows of what is due, over all accounts, in an account's due list, and by day, as CSV and as
//! JSON.

ghost use Rattle.ftd_ports.specs.Writing.{Writes};
ghost use Rattle.ftd_answers.specs.Dues.{agenda_fields, agenda_json, b_json, day_fields};
ghost use Rattle.ftd_answers.specs.Dues.{due_fields, due_json};

use crate::forms::FieldName::Both;
use crate::forms::{FieldName, Row, RowForm, write_fields, write_json};
use crate::totals::{Amount, AmountLeft};
use crate::{Value, left_of, total};
use ftd_machine::AgendaRow;
use ftd_ports::{Target, WriteFault};
use ftd_rules::{DaySum, DueRow};

static AGENDA: [FieldName; 11] = [
    Both("due"),
    Both("account"),
    Both("form"),
    Both("first"),
    Both("last"),
    Both("rule"),
    Both("amount"),
    Both("paid"),
    Both("left"),
    Both("pay_by"),
    Both("verdict"),
];

impl Row for AgendaRow {
    ghost fields = { λ account. agenda_fields };

    fn names() -> &'static [FieldName] {
        &AGENDA
    }

    fn write<W: Target>(
        &self,
        account: &str,
        form: RowForm,
        target: &mut W,
    ) -> Result<(), WriteFault> {
        let obligation = self.row.obligation;
        let fields = [
            (AGENDA[0], Value::Day(obligation.due)),
            (AGENDA[1], Value::Text(self.account.as_str())),
            (AGENDA[2], Value::Form(self.form)),
            (AGENDA[3], Value::Day(obligation.first)),
            (AGENDA[4], Value::Day(obligation.last)),
            (AGENDA[5], Value::Rule(obligation.rule)),
            (AGENDA[6], Value::Amount(obligation.cents)),
            (AGENDA[7], Value::Amount(self.row.paid)),
            (AGENDA[8], Value::Amount(left_of(&self.row))),
            (AGENDA[9], Value::Day(self.pay_by)),
            (AGENDA[10], Value::Verdict(self.row.verdict)),
        ];
        write_fields(form, false, &fields, target)
    }
}

static DUE: [FieldName; 10] = [
    Both("due"),
    Both("account"),
    Both("first"),
    Both("last"),
    Both("rule"),
    Both("amount"),
    Both("paid"),
    Both("left"),
    Both("makeup"),
    Both("verdict"),
];

impl Row for DueRow {
    ghost fields = { due_fields };

    fn names() -> &'static [FieldName] {
        &DUE
    }

    fn write<W: Target>(
        &self,
        account: &str,
        form: RowForm,
        target: &mut W,
    ) -> Result<(), WriteFault> {
        let obligation = self.obligation;
        let fields = [
            (DUE[0], Value::Day(obligation.due)),
            (DUE[1], Value::Text(account)),
            (DUE[2], Value::Day(obligation.first)),
            (DUE[3], Value::Day(obligation.last)),
            (DUE[4], Value::Rule(obligation.rule)),
            (DUE[5], Value::Amount(obligation.cents)),
            (DUE[6], Value::Amount(self.paid)),
            (DUE[7], Value::Amount(left_of(self))),
            (DUE[8], Value::Day(self.makeup)),
            (DUE[9], Value::Verdict(self.verdict)),
        ];
        write_fields(form, false, &fields, target)
    }
}

static DAY: [FieldName; 3] = [Both("account"), Both("day"), Both("amount")];

impl Row for DaySum {
    ghost fields = { day_fields };

    fn names() -> &'static [FieldName] {
        &DAY
    }

    fn write<W: Target>(
        &self,
        account: &str,
        form: RowForm,
        target: &mut W,
    ) -> Result<(), WriteFault> {
        let fields = [
            (DAY[0], Value::Text(account)),
            (DAY[1], Value::Day(self.day)),
            (DAY[2], Value::Amount(self.cents)),
        ];
        write_fields(form, false, &fields, target)
    }
}

/// Writes what is due over all accounts as JSON: a list with the rows, and with the sum of what is
/// left to pay of each. It takes no memory but what the target takes. Where the target fails, a
/// prefix of the text was written, and it fails nowhere else.
#[tactic(auto, unfolding(crate::specs::Dues::agenda_json))]
pub fn write_agenda_json<W: Target>(rows: &[AgendaRow], target: &mut W) -> Result<(), WriteFault>
    ensures { Writes result (W.taken target.old) (W.taken target.new)
        (W.failed target.new) (agenda_json rows.now) }
{
    let sums = [("left", Value::Sum(total(&AmountLeft, rows)))];
    write_json("", rows, &sums, target)
}

/// Writes an account's due list as JSON: a list with the rows, with the sum of their amounts, and
/// with the sum of what is left to pay of each. It takes no memory but what the target takes. Where
/// the target fails, a prefix of the text was written, and it fails nowhere else.
pub fn write_due_json<W: Target>(
    account: &str,
    rows: &[DueRow],
    target: &mut W,
) -> Result<(), WriteFault>
    ensures { Writes result (W.taken target.old) (W.taken target.new)
        (W.failed target.new) (due_json account.now rows.now) }
{
    let sums = [
        ("amount", Value::Sum(total(&Amount, rows))),
        ("left", Value::Sum(total(&AmountLeft, rows))),
    ];
    write_json(account, rows, &sums, target)
}

/// Writes Schedule B of an account's quarter as JSON: a list with the days, and with the sum of
/// their amounts. It takes no memory but what the target takes. Where the target fails, a prefix of
/// the text was written, and it fails nowhere else.
#[tactic(auto, unfolding(crate::specs::Dues::b_json))]
pub fn write_b_json<W: Target>(
    account: &str,
    sums: &[DaySum],
    target: &mut W,
) -> Result<(), WriteFault>
    ensures { Writes result (W.taken target.old) (W.taken target.new)
        (W.failed target.new) (b_json account.now sums.now) }
{
    let total = [("amount", Value::Sum(total(&Amount, sums)))];
    write_json(account, sums, &total, target)
}

//! Why an obligation is so as JSON.

ghost use Rattle.std.specs.Prelude.{◌≡◌, ◌++◌, map};
ghost use Rattle.std.specs.List.{join_with_byte};
ghost use Rattle.ftd_ports.specs.Writing.{Writes};
ghost use Rattle.ftd_answers.specs.Fields.{array_of, comma, member_of, members_of, object_of};
ghost use Rattle.ftd_answers.specs.ExplanationForms.{asked_head, counted_fields};
ghost use Rattle.ftd_answers.specs.ExplanationForms.{explained_members, explanation_json};
ghost use Rattle.ftd_answers.specs.ExplanationForms.{explanation_members, obligation_fields};
ghost use Rattle.ftd_answers.specs.ExplanationForms.{payday_fields, return_member, status_fields};

use crate::explanations::{day_kind_name, reason_name, turn_of};
use crate::fields::write_array;
use crate::forms::FieldName::Both;
use crate::forms::{AccountRows, FieldName, Row, RowForm, write_fields};
use crate::{RowFormat, Value, day_bytes, write_object};
use ftd_days::Day;
use ftd_machine::{CountedDay, Explanation, Reason, RunningSum};
use ftd_ports::{Target, WriteFault, write_all, write_pieces};
use ftd_rules::{Kind, Obligation};

/// The fields of an obligation.
fn obligation_members<'a>(o: &Obligation) -> [(&'a str, Value<'a>); 5]
    ensures { map member_of result ≡ members_of (obligation_fields o.now) }
{
    [
        ("first", Value::Day(o.first)),
        ("last", Value::Day(o.last)),
        ("rule", Value::Rule(o.rule)),
        ("amount", Value::Amount(o.cents)),
        ("due", Value::Day(o.due)),
    ]
}

/// The fields of the deposit schedule of a day.
fn status_members<'a>(day: Day, kind: Kind, reason: &Reason) -> [(&'a str, Value<'a>); 4]
    ensures { map member_of result ≡ members_of (status_fields day kind reason.now) }
{
    let why = reason_name(reason);
    [
        ("day", Value::Day(day)),
        ("kind", Value::Kind(kind)),
        ("reason", Value::Text(why)),
        ("turn", Value::DayOrNone(turn_of(reason))),
    ]
}

static PAYDAY: [FieldName; 3] = [Both("day"), Both("amount"), Both("total")];

impl Row for RunningSum {
    ghost fields = { λ account. payday_fields };

    fn names() -> &'static [FieldName] {
        &PAYDAY
    }

    fn write<W: Target>(
        &self,
        account: &str,
        form: RowForm,
        target: &mut W,
    ) -> Result<(), WriteFault> {
        let fields = [
            (PAYDAY[0], Value::Day(self.day)),
            (PAYDAY[1], Value::Amount(self.cents)),
            (PAYDAY[2], Value::Amount(self.total)),
        ];
        write_fields(form, false, &fields, target)
    }
}

static COUNTED_DAY: [FieldName; 2] = [Both("day"), Both("is")];

impl Row for CountedDay {
    ghost fields = { λ account. counted_fields };

    fn names() -> &'static [FieldName] {
        &COUNTED_DAY
    }

    fn write<W: Target>(
        &self,
        account: &str,
        form: RowForm,
        target: &mut W,
    ) -> Result<(), WriteFault> {
        let fields = [
            (COUNTED_DAY[0], Value::Day(self.day)),
            (COUNTED_DAY[1], Value::Text(day_kind_name(&self.kind))),
        ];
        write_fields(form, false, &fields, target)
    }
}

/// Writes a member whose value is an object: what stands before it, and the object.
#[tactic(auto, using(ftd_ports::proofs::WritingFacts::written_in_parts))]
fn write_object_member<W: Target>(
    head: &[u8],
    fields: &[(&str, Value<'_>)],
    target: &mut W,
) -> Result<(), WriteFault>
    ensures { Writes result (W.taken target.old) (W.taken target.new)
        (W.failed target.new) (head.now ++ object_of (map member_of fields.now)) }
{
    write_all(target, head)?;
    write_object(fields, target)
}

/// Writes a member whose value is an array: what stands before it, and the array of the rows.
#[tactic(auto, using(ftd_ports::proofs::WritingFacts::written_in_parts))]
fn write_array_member<T, F: RowFormat<T>, W: Target>(
    head: &[u8],
    format: &F,
    rows: &[T],
    target: &mut W,
) -> Result<(), WriteFault>
    ensures { Writes result (W.taken target.old) (W.taken target.new)
        (W.failed target.new) (head.now ++ array_of (map (F.row_text format.now) rows.now)) }
{
    write_all(target, head)?;
    write_array(format, rows, target)
}

/// Writes when the return is due, as a member after others.
fn write_return_due<W: Target>(day: Day, target: &mut W) -> Result<(), WriteFault>
    ensures { Writes result (W.taken target.old) (W.taken target.new)
        (W.failed target.new) (return_member day) }
{
    let day = day_bytes(day);
    write_pieces(target, &[b",\"return_due\":\"", &day, b"\""])
}

/// Writes what explains an obligation of the account: its members, with one comma between.
fn write_members<W: Target>(
    account: &str,
    e: &Explanation,
    target: &mut W,
) -> Result<(), WriteFault>
    ensures { Writes result (W.taken target.old) (W.taken target.new)
        (W.failed target.new) (join_with_byte comma (explanation_members account.now e.now)) }
{
    let objects = AccountRows {
        account,
        form: RowForm::Object,
    };
    let obligation = obligation_members(&e.obligation);
    let status = status_members(e.obligation.first, e.kind, &e.reason);
    write_object_member(b"\"obligation\":", &obligation, target)?;
    write_object_member(b",\"status\":", &status, target)?;
    write_array_member(b",\"paydays\":", &objects, e.paydays.as_slice(), target)?;
    write_array_member(b",\"days\":", &objects, e.days.as_slice(), target)?;
    write_return_due(e.return_due, target)?;
    write_array_member(b",\"payments\":", &objects, e.payments.as_slice(), target)
}

/// Writes what explains the obligation of the account, or that there is none.
fn write_explained<W: Target>(
    account: &str,
    found: &Option<Explanation>,
    target: &mut W,
) -> Result<(), WriteFault>
    ensures { Writes result (W.taken target.old) (W.taken target.new)
        (W.failed target.new) (join_with_byte comma (explained_members account.now found.now)) }
{
    match found {
        Some(e) => write_members(account, e, target),
        None => write_all(target, b"\"obligation\":null"),
    }
}

/// Writes how the object begins: the account and the day that were asked for.
fn write_asked<W: Target>(account: &str, day: Day, target: &mut W) -> Result<(), WriteFault>
    ensures { Writes result (W.taken target.old) (W.taken target.new)
        (W.failed target.new) (asked_head account.now day) }
{
    let day = day_bytes(day);
    write_pieces(
        target,
        &[
            b"{\"account\":\"",
            account.as_bytes(),
            b"\",\"day\":\"",
            &day,
            b"\",",
        ],
    )
}

/// Writes why the obligation of an account is so whose deposit period holds a day, as JSON: an
/// object with what was asked for, the obligation, the deposit schedule of its first day, its
/// paydays, the days that are counted to its due date, when the return is due, and its payments.
/// Where no obligation's deposit period holds the day, the obligation is `null`, and no member
/// stands behind it. It takes no memory but what the target takes. Where the target fails, a prefix
/// of the text was written, and it fails nowhere else.
pub fn write_explanation_json<W: Target>(
    account: &str,
    day: Day,
    found: &Option<Explanation>,
    target: &mut W,
) -> Result<(), WriteFault>
    ensures { Writes result (W.taken target.old) (W.taken target.new)
        (W.failed target.new) (explanation_json account.now day found.now) }
{
    write_asked(account, day, target)?;
    write_explained(account, found, target)?;
    write_all(target, b"}\n")
}

//! Why an obligation is so.

ghost use Rattle.std.specs.List.{flat_map};
ghost use Rattle.ftd_ports.specs.Writing.{Writes};
ghost use Rattle.ftd_pages.specs.Explanations.{counted_shape, days_part, explained_part};
ghost use Rattle.ftd_pages.specs.Explanations.{explained_section, explanation_at};
ghost use Rattle.ftd_pages.specs.Explanations.{explanation_parts, found_part, found_section};
ghost use Rattle.ftd_pages.specs.Explanations.{obligation_part, obligation_shape, payday_shape};
ghost use Rattle.ftd_pages.specs.Explanations.{paydays_part, payments_part, return_part};
ghost use Rattle.ftd_pages.specs.Pages.{page_of};
ghost use Rattle.ftd_pages.specs.Escapes.{shown};

use crate::columns::{
    AMOUNT, DAY, DUE, FIRST, KIND_OF_DAY, LAST, LIABILITY, OF_PAYDAY, RULE, TOTAL,
};
use crate::feet::Foot;
use crate::frames::{Frame, Place, Ways};
use crate::pages::{Page, write_end, write_none, write_start};
use crate::rows::{Class, PageRow, Part, write_fields};
use crate::schedules::write_schedule_part;
use crate::sections::{
    write_none_in_section, write_page_heading, write_section, write_section_heading,
};
use crate::statements::{
    BUSINESS_DAY_RULE, PAYDAY_RULE, RETURN_RULE, rule_statement, write_statement,
};
use ftd_answers::{Value, day_bytes, day_kind_name};
use ftd_days::Day;
use ftd_machine::{CountedDay, DaySchedule, ExplainedDay, Explanation, KeptPayment, RunningSum};
use ftd_ports::{Target, WriteFault, write_all};
use ftd_rules::Obligation;

impl PageRow for Obligation {
    ghost shape = { λ account. obligation_shape };

    fn write_part<W: Target>(
        &self,
        account: &str,
        part: Part,
        target: &mut W,
    ) -> Result<(), WriteFault> {
        let fields = [
            (FIRST, Value::Day(self.first)),
            (LAST, Value::Day(self.last)),
            (RULE, Value::Rule(self.rule)),
            (AMOUNT, Value::Amount(self.cents)),
            (DUE, Value::Day(self.due)),
        ];
        write_fields(part, Class::Plain, &fields, target)
    }
}

impl PageRow for RunningSum {
    ghost shape = { λ account. payday_shape };

    fn write_part<W: Target>(
        &self,
        account: &str,
        part: Part,
        target: &mut W,
    ) -> Result<(), WriteFault> {
        let fields = [
            (OF_PAYDAY, Value::Day(self.day)),
            (LIABILITY, Value::Amount(self.cents)),
            (TOTAL, Value::Amount(self.total)),
        ];
        write_fields(part, Class::Plain, &fields, target)
    }
}

impl PageRow for CountedDay {
    ghost shape = { λ account. counted_shape };

    fn write_part<W: Target>(
        &self,
        account: &str,
        part: Part,
        target: &mut W,
    ) -> Result<(), WriteFault> {
        let fields = [
            (DAY, Value::Day(self.day)),
            (KIND_OF_DAY, Value::Text(day_kind_name(&self.kind))),
        ];
        write_fields(part, Class::Plain, &fields, target)
    }
}

/// Writes the obligation, and its rule in words.
#[tactic(auto, using(ftd_ports::proofs::WritingFacts::written_in_parts), unfolding(crate::specs::Explanations::obligation_part))]
fn write_obligation<W: Target>(o: &Obligation, target: &mut W) -> Result<(), WriteFault>
    ensures { Writes result (W.taken target.old) (W.taken target.new)
        (W.failed target.new) (obligation_part o.now) }
{
    let list = Page {
        title: &[Value::Text("Deposit")],
        sentence: "",
        account: "",
        foot: Foot::Nothing,
    };
    write_section(Ways::Nowhere, &list, &[*o], target)?;
    write_statement(&rule_statement(o.rule), target)
}

/// Writes the paydays, and in words when a liability arises.
fn write_paydays<W: Target>(paydays: &[RunningSum], target: &mut W) -> Result<(), WriteFault>
    ensures { Writes result (W.taken target.old) (W.taken target.new)
        (W.failed target.new) (paydays_part paydays.now) }
{
    let list = Page {
        title: &[Value::Text("Paydays")],
        sentence: "There are none.",
        account: "",
        foot: Foot::Nothing,
    };
    write_section(Ways::Nowhere, &list, paydays, target)?;
    write_statement(&PAYDAY_RULE, target)
}

/// Writes the days that are counted, and in words what a business day is.
fn write_days<W: Target>(days: &[CountedDay], target: &mut W) -> Result<(), WriteFault>
    ensures { Writes result (W.taken target.old) (W.taken target.new)
        (W.failed target.new) (days_part days.now) }
{
    let list = Page {
        title: &[Value::Text("Days counted to the due date")],
        sentence: "There are none.",
        account: "",
        foot: Foot::Nothing,
    };
    write_section(Ways::Nowhere, &list, days, target)?;
    write_statement(&BUSINESS_DAY_RULE, target)
}

/// Writes when the return is due, and the rule of that in words.
fn write_return<W: Target>(day: Day, target: &mut W) -> Result<(), WriteFault>
    ensures { Writes result (W.taken target.old) (W.taken target.new)
        (W.failed target.new) (return_part day) }
{
    write_all(
        target,
        b"<h2>Return</h2>\n<p>The return that reports this deposit is due on ",
    )?;
    write_all(target, &day_bytes(day))?;
    write_all(target, b".</p>\n")?;
    write_statement(&RETURN_RULE, target)
}

/// Writes the payments.
#[tactic(auto, unfolding(crate::specs::Explanations::payments_part))]
fn write_payments<W: Target>(
    account: &str,
    payments: &[KeptPayment],
    target: &mut W,
) -> Result<(), WriteFault>
    ensures { Writes result (W.taken target.old) (W.taken target.new)
        (W.failed target.new) (payments_part account.now payments.now) }
{
    let list = Page {
        title: &[Value::Text("Payments")],
        sentence: "There are none.",
        account,
        foot: Foot::Nothing,
    };
    write_section(Ways::Nowhere, &list, payments, target)
}

/// Writes what explains an obligation of the account, part after part.
fn write_parts<W: Target>(account: &str, e: &Explanation, target: &mut W) -> Result<(), WriteFault>
    ensures { Writes result (W.taken target.old) (W.taken target.new)
        (W.failed target.new) (explanation_parts account.now e.now) }
{
    let first = DaySchedule {
        day: e.obligation.first,
        kind: e.kind,
        reason: e.reason,
    };
    let paydays = e.paydays.as_slice();
    let days = e.days.as_slice();
    let payments = e.payments.as_slice();
    write_obligation(&e.obligation, target)?;
    write_schedule_part(&[Value::Text("Deposit schedule")], &first, target)?;
    write_paydays(paydays, target)?;
    write_days(days, target)?;
    write_return(e.return_due, target)?;
    write_payments(account, payments, target)
}

/// Writes the heading of the page, and what explains the obligation.
#[tactic(auto, using(ftd_ports::proofs::WritingFacts::written_in_parts), unfolding(crate::specs::Explanations::found_part))]
fn write_found<W: Target>(
    account: &str,
    title: &[Value<'_>],
    e: &Explanation,
    target: &mut W,
) -> Result<(), WriteFault>
    ensures { Writes result (W.taken target.old) (W.taken target.new) (W.failed target.new)
        (found_part account.now (flat_map shown title.now) e.now) }
{
    write_page_heading(title, target)?;
    write_parts(account, e, target)
}

/// Writes what explains the obligation, or the sentence where there is none.
fn write_explained<W: Target>(
    account: &str,
    title: &[Value<'_>],
    found: &Option<Explanation>,
    target: &mut W,
) -> Result<(), WriteFault>
    ensures { Writes result (W.taken target.old) (W.taken target.new) (W.failed target.new)
        (explained_part account.now (flat_map shown title.now) found.now) }
{
    match found {
        None => write_none(title, "There is no deposit for this day.", target),
        Some(e) => write_found(account, title, e, target),
    }
}

/// Writes it as a page of its own.
fn write_explanation_page<W: Target>(
    frame: &Frame,
    title: &[Value<'_>],
    explained: &ExplainedDay,
    target: &mut W,
) -> Result<(), WriteFault>
    ensures { Writes result (W.taken target.old) (W.taken target.new) (W.failed target.new)
        (page_of frame.now explained.now.account (flat_map shown title.now)
        (explained_part explained.now.account (flat_map shown title.now) explained.now.found)) }
{
    let account = explained.account.as_str();
    write_start(frame, account, title, target)?;
    write_explained(account, title, &explained.found, target)?;
    write_end(target)
}

/// Writes the heading of a section, and what explains the obligation.
#[tactic(auto, using(ftd_ports::proofs::WritingFacts::written_in_parts), unfolding(crate::specs::Explanations::found_section))]
fn write_found_section<W: Target>(
    account: &str,
    title: &[Value<'_>],
    e: &Explanation,
    target: &mut W,
) -> Result<(), WriteFault>
    ensures { Writes result (W.taken target.old) (W.taken target.new) (W.failed target.new)
        (found_section account.now (flat_map shown title.now) e.now) }
{
    write_section_heading(title, target)?;
    write_parts(account, e, target)
}

/// Writes it as a section.
fn write_explained_section<W: Target>(
    account: &str,
    title: &[Value<'_>],
    found: &Option<Explanation>,
    target: &mut W,
) -> Result<(), WriteFault>
    ensures { Writes result (W.taken target.old) (W.taken target.new) (W.failed target.new)
        (explained_section account.now (flat_map shown title.now) found.now) }
{
    match found {
        None => write_none_in_section(title, "There is no deposit for this day.", target),
        Some(e) => write_found_section(account, title, e, target),
    }
}

/// Writes why the obligation of an account is so whose deposit period holds a day, at its place:
/// the obligation, the deposit schedule of its first day, its paydays, the days that are counted to
/// its due date, when the return is due, and its payments, with the rules in words. It takes no
/// memory but what the target takes. Where the target fails, a prefix of that was written, and it
/// fails nowhere else.
pub fn write_explanation<W: Target>(
    place: &Place,
    explained: &ExplainedDay,
    target: &mut W,
) -> Result<(), WriteFault>
    ensures { Writes result (W.taken target.old) (W.taken target.new)
        (W.failed target.new) (explanation_at place.now explained.now) }
{
    let account = explained.account.as_str();
    let title = [
        Value::Text("Deposit of "),
        Value::Text(account),
        Value::Text(" for "),
        Value::Day(explained.day),
    ];
    match place {
        Place::Alone(frame) => write_explanation_page(frame, &title, explained, target),
        Place::Section(_) => write_explained_section(account, &title, &explained.found, target),
    }
}

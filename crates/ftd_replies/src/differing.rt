//! In which field a pay run or a payment differs from the one that has its number, and an account
//! from the one that has its name.

ghost use Rattle.std.specs.Prelude.{◌≡◌};
ghost use Rattle.ftd_ports.specs.Writing.{Writes};
ghost use Rattle.ftd_machine.specs.Requests.{is_form};
ghost use Rattle.ftd_replies.specs.Differing.{account_difference, amounts_text, carried_text};
ghost use Rattle.ftd_replies.specs.Differing.{days_text, difference_text, enrolled_text};
ghost use Rattle.ftd_replies.specs.Differing.{payment_difference, run_amounts, run_difference};

use ftd_answers::{amount_text, day_bytes, form_bytes};
use ftd_days::{Cents, Day};
use ftd_machine::Account;
use ftd_ports::{Target, WriteFault, write_all, write_pieces};
use ftd_rules::{Form, PayRun, Payment};
use itoa::Buffer;

/// A pay run or a payment that differs from the one that has its number, or an account that differs
/// from the one that has its name.
#[derive(Clone, Copy, Debug, PartialEq, Eq)]
pub enum Differing {
    /// The account that was asked for, and the one that is enrolled.
    Accounts { asked: Account, kept: Account },
    /// The run that was asked for, and the one that is kept.
    Runs { asked: PayRun, kept: PayRun },
    /// The payment that was asked for, and the one that is kept.
    Payments { asked: Payment, kept: Payment },
}

/// Writes which amount it is, and with which it was posted.
#[tactic(auto, unfolding(crate::specs::Differing::amounts_text))]
fn write_amounts<W: Target>(
    field: &[u8],
    amount: Cents,
    kept: Cents,
    target: &mut W,
) -> Result<(), WriteFault>
    ensures { Writes result (W.taken target.old) (W.taken target.new)
        (W.failed target.new) (amounts_text field.now amount.0 kept.0) }
{
    let (mut digits, mut kept_digits) = (Buffer::new(), Buffer::new());
    let amount = amount_text(u128::from(amount.0), &mut digits);
    let kept = amount_text(u128::from(kept.0), &mut kept_digits);
    write_pieces(
        target,
        &[
            field,
            b" is ",
            amount.dollars,
            &amount.cents,
            b", posted with ",
            kept.dollars,
            &kept.cents,
        ],
    )
}

/// Writes which day it is, and with which it was posted.
fn write_days<W: Target>(
    field: &[u8],
    day: Day,
    kept: Day,
    target: &mut W,
) -> Result<(), WriteFault>
    ensures { Writes result (W.taken target.old) (W.taken target.new)
        (W.failed target.new) (days_text field.now day kept) }
{
    let (day, kept) = (day_bytes(day), day_bytes(kept));
    write_pieces(target, &[field, b" is ", &day, b", posted with ", &kept])
}

/// Writes the first amount in which the run differs from the one that has its number.
#[tactic(auto, unfolding(crate::specs::Differing::run_amounts))]
fn write_run_amounts<W: Target>(
    run: &PayRun,
    kept: &PayRun,
    target: &mut W,
) -> Result<(), WriteFault>
    ensures { Writes result (W.taken target.old) (W.taken target.new)
        (W.failed target.new) (run_amounts run.now kept.now) }
{
    if run.fit.0 != kept.fit.0 {
        return write_amounts(b"fit", run.fit, kept.fit, target);
    }
    if run.ss.0 != kept.ss.0 {
        return write_amounts(b"ss", run.ss, kept.ss, target);
    }
    write_amounts(b"medicare", run.medicare, kept.medicare, target)
}

/// Writes the first field in which the run differs from the one that has its number.
#[tactic(auto, unfolding(crate::specs::Differing::run_difference))]
fn write_run_difference<W: Target>(
    run: &PayRun,
    kept: &PayRun,
    target: &mut W,
) -> Result<(), WriteFault>
    ensures { Writes result (W.taken target.old) (W.taken target.new)
        (W.failed target.new) (run_difference run.now kept.now) }
{
    if run.payday != kept.payday {
        return write_days(b"payday", run.payday, kept.payday, target);
    }
    write_run_amounts(run, kept, target)
}

/// Writes the first field in which the payment differs from the one that has its number.
#[tactic(auto, unfolding(crate::specs::Differing::payment_difference))]
fn write_payment_difference<W: Target>(
    payment: &Payment,
    kept: &Payment,
    target: &mut W,
) -> Result<(), WriteFault>
    ensures { Writes result (W.taken target.old) (W.taken target.new)
        (W.failed target.new) (payment_difference payment.now kept.now) }
{
    if payment.paid != kept.paid {
        write_days(b"paid", payment.paid, kept.paid, target)
    } else if payment.for_day != kept.for_day {
        write_days(b"for", payment.for_day, kept.for_day, target)
    } else {
        write_amounts(b"amount", payment.cents, kept.cents, target)
    }
}

/// Writes which it is, and with which the account was enrolled.
#[tactic(auto, unfolding(crate::specs::Differing::enrolled_text))]
fn write_enrolled<W: Target>(
    field: &[u8],
    text: &[u8],
    kept: &[u8],
    target: &mut W,
) -> Result<(), WriteFault>
    ensures { Writes result (W.taken target.old) (W.taken target.new)
        (W.failed target.new) (enrolled_text field.now text.now kept.now) }
{
    write_pieces(target, &[field, b" is ", text, b", enrolled with ", kept])
}

/// Whether they are the same form.
pub(crate) fn is_form(form: Form, other: Form) -> bool
    ensures { result ≡ is_form form other }
{
    form == other
}

/// Whether the account comes in as semiweekly, where it was enrolled otherwise.
fn carried_text(is_carried: bool) -> &'static [u8]
    ensures { result.now ≡ carried_text is_carried }
{
    if is_carried {
        b"it is carried, enrolled as not carried"
    } else {
        b"it is not carried, enrolled as carried"
    }
}

/// Writes the first field in which the account differs from the one that is enrolled: its form, its
/// first day, or whether it is carried.
#[tactic(auto, unfolding(crate::specs::Differing::account_difference))]
fn write_account_difference<W: Target>(
    account: &Account,
    kept: &Account,
    target: &mut W,
) -> Result<(), WriteFault>
    ensures { Writes result (W.taken target.old) (W.taken target.new)
        (W.failed target.new) (account_difference account.now kept.now) }
{
    if !is_form(account.form, kept.form) {
        let (form, kept) = (form_bytes(account.form), form_bytes(kept.form));
        return write_enrolled(b"form", &form, &kept, target);
    }
    if account.start != kept.start {
        let (start, kept) = (day_bytes(account.start), day_bytes(kept.start));
        return write_enrolled(b"first day", &start, &kept, target);
    }
    write_all(target, carried_text(account.carried))
}

/// Writes the first field that differs.
pub fn write_difference<W: Target>(differing: &Differing, target: &mut W) -> Result<(), WriteFault>
    ensures { Writes result (W.taken target.old) (W.taken target.new)
        (W.failed target.new) (difference_text differing.now) }
{
    match differing {
        Differing::Accounts { asked, kept } => write_account_difference(asked, kept, target),
        Differing::Runs { asked, kept } => write_run_difference(asked, kept, target),
        Differing::Payments { asked, kept } => write_payment_difference(asked, kept, target),
    }
}

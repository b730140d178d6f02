//! What can be done about an account that is enrolled with another first day or form, or carried
//! otherwise.

ghost use Rattle.std.specs.Prelude.{◌≡◌};
ghost use Rattle.ftd_ports.specs.Writing.{Writes};
ghost use Rattle.ftd_replies.specs.Enrolment.{advice_text, carried_end, correction_text};
ghost use Rattle.ftd_replies.specs.Enrolment.{enrolment_text};
ghost use Rattle.ftd_replies.specs.Differing.{difference_text};

use crate::differing::{Differing, is_form, write_difference};
use crate::hints::write_of;
use ftd_answers::day_bytes;
use ftd_machine::Account;
use ftd_ports::{Target, WriteFault, write_all};

/// An account that was asked for, and the other one that is enrolled under its name.
#[derive(Clone, Copy, Debug, PartialEq, Eq)]
pub struct Enrolment {
    /// The account that was asked for.
    pub asked: Account,
    /// As what the account was enrolled.
    pub kept: Account,
    /// Whether nothing rests on it: no total was reported, and no year is open.
    pub is_unused: bool,
}

/// The option of an account that is carried, and the end of the line.
fn carried_end(is_carried: bool) -> &'static [u8]
    ensures { result.now ≡ carried_end is_carried }
{
    if is_carried { b" --carried\n" } else { b"\n" }
}

/// Writes the command that corrects the account of this name.
fn write_correction<W: Target>(
    db: &str,
    name: &str,
    account: &Account,
    target: &mut W,
) -> Result<(), WriteFault>
    ensures { Writes result (W.taken target.old) (W.taken target.new)
        (W.failed target.new) (correction_text db.now name.now account.now) }
{
    let start = day_bytes(account.start);
    let before = b"hint: to correct it, ftd correct-account --db ";
    let end = carried_end(account.carried);
    write_of(before, db, name, &start, end, target)
}

/// Writes what can be done: the account is corrected while nothing rests on it, but its form is
/// not.
#[tactic(auto, unfolding(crate::specs::Enrolment::advice_text))]
fn write_advice<W: Target>(
    db: &str,
    name: &str,
    enrolment: &Enrolment,
    target: &mut W,
) -> Result<(), WriteFault>
    ensures { Writes result (W.taken target.old) (W.taken target.new)
        (W.failed target.new) (advice_text db.now name.now enrolment.now) }
{
    if !is_form(enrolment.asked.form, enrolment.kept.form) {
        let text = b"hint: a form can't be corrected; enrol a new account by another name\n";
        return write_all(target, text);
    }
    if !enrolment.is_unused {
        return write_all(
            target,
            b"hint: it can't be corrected, since a total is reported, or a year is open; \
            enrol a new account by another name\n",
        );
    }
    write_correction(db, name, &enrolment.asked, target)
}

/// Writes in what the account of this name differs from the one that is enrolled, and what can be
/// done about it.
#[tactic(auto, using(ftd_ports::proofs::WritingFacts::written_in_parts), unfolding(crate::specs::Enrolment::enrolment_text))]
pub(crate) fn write_enrolment<W: Target>(
    db: &str,
    name: &str,
    enrolment: &Enrolment,
    target: &mut W,
) -> Result<(), WriteFault>
    ensures { Writes result (W.taken target.old) (W.taken target.new)
        (W.failed target.new) (enrolment_text db.now name.now enrolment.now) }
{
    let (asked, kept) = (enrolment.asked, enrolment.kept);
    write_all(target, b"hint: ")?;
    write_difference(&Differing::Accounts { asked, kept }, target)?;
    write_all(target, b"\n")?;
    write_advice(db, name, enrolment, target)
}

//! The page that answers a form that was sent.

ghost use Rattle.std.specs.Prelude.{◌≡◌, ◌++◌};
ghost use Rattle.ftd_ports.specs.Writing.{Writes};
ghost use Rattle.ftd_verbs.specs.FieldRows.{key_of};
ghost use Rattle.ftd_site.specs.FormWords.{help_of, label_of};
ghost use Rattle.ftd_site.specs.SentForms.{account_after, after_part, again_text, bad_name};
ghost use Rattle.ftd_site.specs.SentForms.{bad_text, came_of, changed_part, done_part};
ghost use Rattle.ftd_site.specs.SentForms.{holidays_text, holidays_way, outcome_part, pre_text};
ghost use Rattle.ftd_site.specs.SentForms.{printed_part};
ghost use Rattle.ftd_site.specs.SentForms.{sent_page, sent_part, year_changed};

use crate::controls::{Filled, filled_in};
use crate::form_lists::write_form_way;
use crate::form_words::{help, label, title};
use crate::forms::write_form_of;
use ftd_answers::Value;
use ftd_days::Day;
use ftd_days::digits::whole_number;
use ftd_pages::{
    Frame, write_end, write_escaped_bytes, write_link, write_page_heading, write_start,
};
use ftd_ports::{Target, WriteFault, write_all, write_pieces};
use ftd_verbs::{Field, Verb};

/// What came of a form that was sent.
#[derive(Clone, Copy, Debug)]
pub enum Outcome<'a> {
    /// Nothing was asked of the desk: this field has no value of its kind.
    Bad(Field),
    /// It was not done. What was said of that.
    Refused(&'a [u8]),
    /// It was done. What was answered, and what is said below that.
    Done { answer: &'a [u8], below: &'a [u8] },
}

/// Writes the sentence that says which field has no value of its kind, with a link to its control.
fn write_bad<W: Target>(field: Field, target: &mut W) -> Result<(), WriteFault>
    ensures { Writes result (W.taken target.old) (W.taken target.new)
        (W.failed target.new) (bad_text (key_of field) (label_of field) (help_of field)) }
{
    let name = field.key().as_bytes();
    let (word, words) = (label(field).as_bytes(), help(field).as_bytes());
    let pieces: [&[u8]; 7] = [
        b"<p class=\"bad\">Correct the field <a href=\"#",
        name,
        b"\">",
        word,
        b"</a>. ",
        words,
        b"</p>\n",
    ];
    write_pieces(target, &pieces)
}

/// Writes what was printed, as it is.
fn write_pre<W: Target>(text: &[u8], target: &mut W) -> Result<(), WriteFault>
    ensures { Writes result (W.taken target.old) (W.taken target.new)
        (W.failed target.new) (pre_text text.now) }
{
    write_all(target, b"<pre>")?;
    write_escaped_bytes(text, target)?;
    write_all(target, b"</pre>\n")
}

/// Writes what was printed, if something was.
fn write_printed<W: Target>(text: &[u8], target: &mut W) -> Result<(), WriteFault>
    ensures { Writes result (W.taken target.old) (W.taken target.new)
        (W.failed target.new) (printed_part text.now) }
{
    if text.is_empty() {
        Ok(())
    } else {
        write_pre(text, target)
    }
}

/// Writes both what was answered and what is said below it.
fn write_both<W: Target>(answer: &[u8], below: &[u8], target: &mut W) -> Result<(), WriteFault>
    ensures { Writes result (W.taken target.old) (W.taken target.new)
        (W.failed target.new) (printed_part answer.now ++ printed_part below.now) }
{
    write_printed(answer, target)?;
    write_printed(below, target)
}

/// Writes what came of a form.
fn write_outcome<W: Target>(outcome: &Outcome<'_>, target: &mut W) -> Result<(), WriteFault>
    ensures { Writes result (W.taken target.old) (W.taken target.new)
        (W.failed target.new) (outcome_part outcome.now) }
{
    match outcome {
        Outcome::Bad(field) => write_bad(*field, target),
        Outcome::Refused(said) => write_printed(said, target),
        Outcome::Done { answer, below } => write_both(answer, below, target),
    }
}

/// Whether it was done, in words, before what the form does.
fn came_of(outcome: &Outcome<'_>) -> &'static str
    ensures { result.now ≡ came_of outcome.now }
{
    match outcome {
        Outcome::Done { .. } => "Done: ",
        Outcome::Bad(_) | Outcome::Refused(_) => "Not done: ",
    }
}

/// The account that the page is of: the one that is filled in, unless a field has no value of its
/// kind. Empty where there is none.
fn account_after<'a>(filled: &[Filled<'a>], outcome: &Outcome<'_>) -> &'a str
    ensures { result.now ≡ account_after filled.now outcome.now }
{
    match outcome {
        Outcome::Bad(_) => "",
        Outcome::Done { .. } | Outcome::Refused(_) => filled_in(filled, Field::Account),
    }
}

/// The name of the field that has no value of its kind. Empty where there is none.
fn bad_name(outcome: &Outcome<'_>) -> &'static str
    ensures { result.now ≡ bad_name outcome.now }
{
    match outcome {
        Outcome::Bad(field) => field.key(),
        Outcome::Done { .. } | Outcome::Refused(_) => "",
    }
}

/// Writes the way to another form of the verb, with the account filled in, if the form names one.
#[tactic(auto, using(ftd_ports::proofs::WritingFacts::written_in_parts), unfolding(crate::specs::SentForms::again_text))]
fn write_again<W: Target>(account: &str, verb: Verb, target: &mut W) -> Result<(), WriteFault>
    ensures { Writes result (W.taken target.old) (W.taken target.new)
        (W.failed target.new) (again_text account.now verb) }
{
    write_all(target, b"<p>")?;
    write_form_way(account, verb, target)?;
    write_all(target, b"</p>\n")
}

/// The year whose holidays a form of the verb changes, filled in so: that of a calendar, or that of
/// a day. None where it changes no holidays, or where no year or day is filled in.
fn year_changed(verb: Verb, filled: &[Filled<'_>]) -> Option<u32>
    ensures { result ≡ year_changed verb filled.now }
{
    match verb {
        Verb::Calendar => whole_number(filled_in(filled, Field::Year)),
        Verb::AddHoliday | Verb::ChangeHoliday => {
            Some(Day::read(filled_in(filled, Field::Day).as_bytes())?.year())
        }
        _ => None,
    }
}

/// Writes the link to the list of the holidays of a year.
#[tactic(auto, unfolding(crate::specs::SentForms::holidays_way))]
fn write_holidays_way<W: Target>(year: u32, target: &mut W) -> Result<(), WriteFault>
    ensures { Writes result (W.taken target.old) (W.taken target.new)
        (W.failed target.new) (holidays_way year) }
{
    let address = [
        Value::Text("/lists/holidays/"),
        Value::Number(year),
        Value::Text("/html"),
    ];
    write_link(&address, &Value::Number(year), target)
}

/// Writes the line with that link.
#[tactic(auto, using(ftd_ports::proofs::WritingFacts::written_in_parts), unfolding(crate::specs::SentForms::holidays_text))]
fn write_holidays<W: Target>(year: u32, target: &mut W) -> Result<(), WriteFault>
    ensures { Writes result (W.taken target.old) (W.taken target.new)
        (W.failed target.new) (holidays_text year) }
{
    write_all(target, b"<p>Legal holidays of ")?;
    write_holidays_way(year, target)?;
    write_all(target, b"</p>\n")
}

/// Writes the way to the list of holidays that a form of the verb changed, if it changed those of a
/// year.
fn write_changed<W: Target>(
    verb: Verb,
    filled: &[Filled<'_>],
    target: &mut W,
) -> Result<(), WriteFault>
    ensures { Writes result (W.taken target.old) (W.taken target.new)
        (W.failed target.new) (changed_part (year_changed verb filled.now)) }
{
    match year_changed(verb, filled) {
        Some(year) => write_holidays(year, target),
        None => Ok(()),
    }
}

/// Writes what is below what was done: the ways to the list that it changed and to another form.
#[tactic(auto, using(ftd_ports::proofs::WritingFacts::written_in_parts))]
fn write_done<W: Target>(
    verb: Verb,
    filled: &[Filled<'_>],
    target: &mut W,
) -> Result<(), WriteFault>
    ensures { Writes result (W.taken target.old) (W.taken target.new)
        (W.failed target.new) (done_part verb filled.now) }
{
    write_changed(verb, filled, target)?;
    write_again(filled_in(filled, Field::Account), verb, target)
}

/// Writes what is below what came of a form: the form as it was filled in, or where it was done the
/// ways to what changed and to another form.
fn write_after<W: Target>(
    verb: Verb,
    filled: &[Filled<'_>],
    outcome: &Outcome<'_>,
    target: &mut W,
) -> Result<(), WriteFault>
    ensures { Writes result (W.taken target.old) (W.taken target.new)
        (W.failed target.new) (after_part verb filled.now outcome.now) }
{
    match outcome {
        Outcome::Done { .. } => write_done(verb, filled, target),
        Outcome::Bad(_) | Outcome::Refused(_) => {
            write_form_of(verb, bad_name(outcome), filled, target)
        }
    }
}

/// Writes the heading, what came of the form, and what is below that.
#[tactic(auto, using(ftd_ports::proofs::WritingFacts::written_in_parts), unfolding(crate::specs::SentForms::sent_part))]
fn write_sent_part<W: Target>(
    verb: Verb,
    filled: &[Filled<'_>],
    outcome: &Outcome<'_>,
    target: &mut W,
) -> Result<(), WriteFault>
    ensures { Writes result (W.taken target.old) (W.taken target.new)
        (W.failed target.new) (sent_part verb filled.now outcome.now) }
{
    let title = [Value::Text(came_of(outcome)), Value::Text(title(verb))];
    write_page_heading(&title, target)?;
    write_outcome(outcome, target)?;
    write_after(verb, filled, outcome, target)
}

/// Writes the page that answers a form of a verb that was sent, filled in so: what came of it, and
/// the same form again where it was not done, so that it can be corrected. The page is of the
/// account that is filled in, unless a field has no value of its kind. It takes no memory but what
/// the target takes. Where the target fails, a prefix of the page was written, and it fails nowhere
/// else.
pub fn write_sent_form<W: Target>(
    frame: &Frame,
    verb: Verb,
    filled: &[Filled<'_>],
    outcome: &Outcome<'_>,
    target: &mut W,
) -> Result<(), WriteFault>
    ensures { Writes result (W.taken target.old) (W.taken target.new)
        (W.failed target.new) (sent_page frame.now verb filled.now outcome.now) }
{
    let title = [Value::Text(came_of(outcome)), Value::Text(title(verb))];
    write_start(frame, account_after(filled, outcome), &title, target)?;
    write_sent_part(verb, filled, outcome, target)?;
    write_end(target)
}

//! The page that says why a question is not answered.

ghost use Rattle.std.specs.Prelude.{◌≡◌};
ghost use Rattle.std.specs.List.{flat_map};
ghost use Rattle.ftd_ports.specs.Writing.{Writes};
ghost use Rattle.ftd_pages.specs.Escapes.{shown};
ghost use Rattle.ftd_site.specs.FormLists.{account_form_line, form_line};
ghost use Rattle.ftd_site.specs.Refusals.{account_of, linked_paragraph, refused_page, refused_part};
ghost use Rattle.ftd_site.specs.Refusals.{refused_under, remedy_of, remedy_part, remedy_text};
ghost use Rattle.ftd_site.specs.Refusals.{words_of};

use crate::form_lists::{write_account_form_line, write_form_line};
use ftd_answers::Value;
use ftd_machine::{Refusal, Subject};
use ftd_pages::{Frame, Ways, write_end, write_page_heading, write_start};
use ftd_ports::{Target, WriteFault, write_all};
use ftd_verbs::Verb;

/// The form that helps where a question is refused.
#[derive(Clone, Copy, Debug)]
pub enum Remedy {
    /// There is none.
    Nothing,
    /// The form of a verb.
    Form(Verb),
    /// The form of a verb, with the account filled in.
    AccountForm(Verb),
}

/// The sentence that says why a question is refused: the words before what the refusal names, and
/// those after it.
fn words(refusal: &Refusal) -> (&'static str, &'static str)
    ensures { (result.0.now, result.1.now) ≡ words_of refusal.now }
{
    match refusal {
        Refusal::BadName => (
            "An account name is a lower-case letter, then letters, digits or hyphens.",
            "",
        ),
        Refusal::BadYear => ("That year is out of range.", ""),
        Refusal::BadDay => ("That day is out of range.", ""),
        Refusal::BadCents => ("That amount is out of range.", ""),
        Refusal::BadCalendar => (
            "A year has at most 60 holidays, all in that year, in ascending order.",
            "",
        ),
        Refusal::BadNumber => ("A number is 1 to 999,999,999.", ""),
        Refusal::UnknownAccount => ("There is no account of that name.", ""),
        Refusal::AccountDiffers => ("The account is enrolled otherwise.", ""),
        Refusal::CalendarDiffers => (
            "The holidays of that year were entered, and are others.",
            "",
        ),
        Refusal::QuarterDiffers => ("The quarter is reported with another amount.", ""),
        Refusal::RunDiffers => ("Another pay run has that number.", ""),
        Refusal::PaymentDiffers => ("Another payment has that number.", ""),
        Refusal::UnknownRun => ("There is no pay run of that number.", ""),
        Refusal::UnknownPayment => ("There is no payment of that number.", ""),
        Refusal::BeforeStart => ("That is before the employer's first day.", ""),
        Refusal::CalendarMissing(_) => ("The holidays of ", " were not entered."),
        Refusal::QuarterMissing(_) => ("The tax of ", " was not reported."),
        Refusal::YearNotOpen(_) => ("The year ", " is not open for this account."),
        Refusal::TooManyRuns => ("The account has 20,000 pay runs, and takes no more.", ""),
        Refusal::TooManyPayments => ("The account has 20,000 payments, and takes no more.", ""),
        Refusal::Memory => ("There was not enough memory.", ""),
        Refusal::Store => ("The desk's file can't be read or written.", ""),
        Refusal::WrongForm => ("That is not for the form that this account files.", ""),
        Refusal::YearDiffers => ("The year is reported with another amount.", ""),
        Refusal::YearMissing(_) => ("The tax of ", " was not reported."),
        Refusal::CorrectionDiffers => ("Another correction has that number.", ""),
        Refusal::NumberSkipped(_) => ("The number is not the next one. Corrections so far: ", "."),
        Refusal::NoHoliday => ("That day was not entered as a holiday.", ""),
        Refusal::AccountInUse => (
            "A total of the account is reported, or a year of it is open.",
            "",
        ),
    }
}

/// The form that helps.
fn remedy_for(refusal: &Refusal) -> Remedy
    ensures { result ≡ remedy_of refusal.now }
{
    match refusal {
        Refusal::UnknownAccount => Remedy::AccountForm(Verb::Enrol),
        Refusal::CalendarMissing(_) => Remedy::Form(Verb::Calendar),
        Refusal::QuarterMissing(_) => Remedy::AccountForm(Verb::Report),
        Refusal::YearMissing(_) => Remedy::AccountForm(Verb::ReportYear),
        Refusal::YearNotOpen(_) => Remedy::AccountForm(Verb::OpenYear),
        _ => Remedy::Nothing,
    }
}

/// The account that the page is of: the one that is named, where there is one of that name. Empty
/// where there is none.
fn account_of<'a>(account: &'a str, refusal: &Refusal) -> &'a str
    ensures { result.now ≡ account_of account.now refusal.now }
{
    match refusal {
        Refusal::BadName | Refusal::UnknownAccount => "",
        _ => account,
    }
}

/// Writes a paragraph with the link to the form of a verb.
#[tactic(auto, using(ftd_ports::proofs::WritingFacts::written_in_parts), unfolding(crate::specs::Refusals::linked_paragraph))]
fn write_form_paragraph<W: Target>(verb: Verb, target: &mut W) -> Result<(), WriteFault>
    ensures { Writes result (W.taken target.old) (W.taken target.new)
        (W.failed target.new) (linked_paragraph (form_line verb)) }
{
    write_all(target, b"<p>")?;
    write_form_line(verb, target)?;
    write_all(target, b"</p>\n")
}

/// Writes a paragraph with the link to the form of a verb with the account filled in.
#[tactic(auto, using(ftd_ports::proofs::WritingFacts::written_in_parts), unfolding(crate::specs::Refusals::linked_paragraph))]
fn write_account_form_paragraph<W: Target>(
    account: &str,
    verb: Verb,
    target: &mut W,
) -> Result<(), WriteFault>
    ensures { Writes result (W.taken target.old) (W.taken target.new)
        (W.failed target.new) (linked_paragraph (account_form_line account.now verb)) }
{
    write_all(target, b"<p>")?;
    write_account_form_line(account, verb, target)?;
    write_all(target, b"</p>\n")
}

/// Writes the link to the form that helps.
fn write_remedy<W: Target>(account: &str, remedy: Remedy, target: &mut W) -> Result<(), WriteFault>
    ensures { Writes result (W.taken target.old) (W.taken target.new)
        (W.failed target.new) (remedy_text account.now remedy) }
{
    match remedy {
        Remedy::Nothing => Ok(()),
        Remedy::Form(verb) => write_form_paragraph(verb, target),
        Remedy::AccountForm(verb) => write_account_form_paragraph(account, verb, target),
    }
}

/// Writes the link to the form that helps, if the page has ways.
fn write_remedy_part<W: Target>(
    ways: Ways,
    account: &str,
    refusal: &Refusal,
    target: &mut W,
) -> Result<(), WriteFault>
    ensures { Writes result (W.taken target.old) (W.taken target.new)
        (W.failed target.new) (remedy_part ways account.now refusal.now) }
{
    match ways {
        Ways::Nowhere => Ok(()),
        Ways::From { .. } => write_remedy(account, remedy_for(refusal), target),
    }
}

/// Writes the heading of the page, and the link to the form that helps.
#[tactic(auto, using(ftd_ports::proofs::WritingFacts::written_in_parts), unfolding(crate::specs::Refusals::refused_part))]
fn write_refused_part<W: Target>(
    title: &[Value<'_>],
    ways: Ways,
    account: &str,
    refusal: &Refusal,
    target: &mut W,
) -> Result<(), WriteFault>
    ensures { Writes result (W.taken target.old) (W.taken target.new) (W.failed target.new)
        (refused_part (flat_map shown title.now) ways account.now refusal.now) }
{
    write_page_heading(title, target)?;
    write_remedy_part(ways, account, refusal, target)
}

/// Writes the page with this heading, which is its title too.
fn write_titled<W: Target>(
    frame: &Frame,
    title: &[Value<'_>],
    account: &str,
    refusal: &Refusal,
    target: &mut W,
) -> Result<(), WriteFault>
    ensures { Writes result (W.taken target.old) (W.taken target.new) (W.failed target.new)
        (refused_under (flat_map shown title.now) frame.now account.now refusal.now) }
{
    write_start(frame, account_of(account, refusal), title, target)?;
    write_refused_part(title, frame.ways, account, refusal, target)?;
    write_end(target)
}

/// Writes the page that says why a question is not answered: a sentence, and a link to the form
/// that helps, if there is one and the page has ways. The account is the one that the question
/// names; empty where it names none. It takes no memory but what the target takes. Where the target
/// fails, a prefix of the page was written, and it fails nowhere else.
pub fn write_refused_page<W: Target>(
    frame: &Frame,
    account: &str,
    refusal: &Refusal,
    target: &mut W,
) -> Result<(), WriteFault>
    ensures { Writes result (W.taken target.old) (W.taken target.new)
        (W.failed target.new) (refused_page frame.now account.now refusal.now) }
{
    let (before, after) = words(refusal);
    match refusal.subject() {
        Subject::Nothing => {
            let title = [Value::Text(before), Value::Text(""), Value::Text(after)];
            write_titled(frame, &title, account, refusal, target)
        }
        Subject::Year(number) | Subject::Number(number) => {
            let title = [
                Value::Text(before),
                Value::Number(number),
                Value::Text(after),
            ];
            write_titled(frame, &title, account, refusal, target)
        }
        Subject::Quarter(quarter) => {
            let title = [
                Value::Text(before),
                Value::Quarter(quarter),
                Value::Text(after),
            ];
            write_titled(frame, &title, account, refusal, target)
        }
    }
}

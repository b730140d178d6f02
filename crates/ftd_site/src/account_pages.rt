//! The page of an account: several answers, one after the other.

ghost use Rattle.std.specs.Prelude.{◌≡◌};
ghost use Rattle.std.specs.List.{flat_map, list_any};
ghost use Rattle.ftd_ports.specs.Writing.{Writes};
ghost use Rattle.ftd_pages.specs.Escapes.{shown};
ghost use Rattle.ftd_site.specs.AccountPages.{account_page, answers_of, form_shown, is_wrong_form};
ghost use Rattle.ftd_site.specs.AccountPages.{section_of, section_of_answer};

use crate::accounts::write_account_ways;
use crate::year_ways::write_ways_below;
use ftd_answers::{RowFormat, Value, write_rows};
use ftd_machine::{Answer, Facts, Refusal, Reply};
use ftd_pages::{Frame, Place, Ways, write_end, write_facts_at, write_page_heading, write_start};
use ftd_ports::{Target, WriteFault};
use ftd_rules::Form;

/// Answers: a section for each that tells something, but for the liability by day.
#[derive(Drop)]
struct Sections {
    /// The ways of the page.
    ways: Ways,
}

impl Sections {
    /// Writes the section of what is told: what its own page shows, and below that links, if there
    /// are some.
    fn write_section<W: Target>(&self, facts: &Facts, target: &mut W) -> Result<(), WriteFault>
        ensures { Writes result (W.taken target.old) (W.taken target.new)
            (W.failed target.new) (section_of self.now.ways facts.now) }
    {
        write_facts_at(&Place::Section(self.ways), facts, target)?;
        write_ways_below(self.ways, facts, target)
    }
}

impl RowFormat<Answer> for Sections {
    ghost row_text = { λ sections answer. section_of_answer sections.ways answer };

    fn write_row<W: Target>(&self, row: &Answer, target: &mut W) -> Result<(), WriteFault> {
        match row {
            Ok(Reply::Told(Facts::Days(_))) => Ok(()),
            Ok(Reply::Told(facts)) => self.write_section(facts, target),
            Ok(Reply::Done | Reply::Already | Reply::Posted(_)) | Err(_) => Ok(()),
        }
    }
}

/// Whether the answer says that the question is not one for the account's form.
fn is_wrong_form(answer: &Answer) -> bool
    ensures { result ≡ is_wrong_form answer.now }
{
    matches!(answer, Err(Refusal::WrongForm))
}

/// Whether one of the answers says so.
fn is_one_wrong_form(answers: &[Answer]) -> bool
    ensures { result ≡ list_any is_wrong_form answers.now }
{
    answers.iter().any(|answer| is_wrong_form(answer))
}

/// The form that the account files, as the answers show: one that files Form 943 has no Schedule B.
fn form_shown(answers: &[Answer]) -> Form
    ensures { result ≡ form_shown answers.now }
{
    if is_one_wrong_form(answers) {
        Form::F943
    } else {
        Form::F941
    }
}

/// Writes the heading of the page of an account, the links to its lists and forms, and answers, one
/// after the other.
#[tactic(auto, using(ftd_ports::proofs::WritingFacts::written_in_parts), unfolding(crate::specs::AccountPages::answers_of))]
fn write_answers<W: Target>(
    frame: &Frame,
    account: &str,
    title: &[Value<'_>],
    answers: &[Answer],
    target: &mut W,
) -> Result<(), WriteFault>
    ensures { Writes result (W.taken target.old) (W.taken target.new)
        (W.failed target.new)
        (answers_of frame.now.ways account.now (flat_map shown title.now) answers.now) }
{
    write_page_heading(title, target)?;
    write_account_ways(frame.ways, account, form_shown(answers), target)?;
    write_rows(&Sections { ways: frame.ways }, answers, target)
}

/// Writes the page of an account: what is told of it, one answer after the other, each as a section
/// that shows what its own page shows. An answer that tells nothing has no section, and the
/// liability by day has none either: the page links it. Where an answer says that the question is
/// not one for the account's form, the page links the lists and forms of one that files Form 943.
/// It takes no memory but what the target takes. Where the target fails, a prefix of the page was
/// written, and it fails nowhere else.
pub fn write_account_page<W: Target>(
    frame: &Frame,
    account: &str,
    answers: &[Answer],
    target: &mut W,
) -> Result<(), WriteFault>
    ensures { Writes result (W.taken target.old) (W.taken target.new)
        (W.failed target.new) (account_page frame.now account.now answers.now) }
{
    let title = [Value::Text("Account "), Value::Text(account)];
    write_start(frame, "", &title, target)?;
    write_answers(frame, account, &title, answers, target)?;
    write_end(target)
}

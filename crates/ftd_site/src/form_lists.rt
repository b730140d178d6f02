//! Links to forms: those of the page that lists them, and of the page of an account.

ghost use Rattle.ftd_ports.specs.Writing.{Writes};
ghost use Rattle.ftd_site.specs.FormLists.{account_form_line, account_form_lines, account_forms};
ghost use Rattle.ftd_site.specs.FormLists.{form_line, form_list, form_way, office_forms};

use crate::form_words::title;
use ftd_answers::{RowFormat, Value, write_rows};
use ftd_pages::{Frame, write_end, write_link, write_start};
use ftd_ports::{Target, WriteFault, write_all};
use ftd_rules::Form;
use ftd_verbs::Verb;

/// The forms that name no account, or a new one.
const OFFICE_FORMS: [Verb; 4] = [
    Verb::Enrol,
    Verb::Calendar,
    Verb::AddHoliday,
    Verb::ChangeHoliday,
];

/// The forms that name an account that files Form 941.
const FORMS_941: [Verb; 8] = [
    Verb::Post,
    Verb::Pay,
    Verb::OpenYear,
    Verb::Report,
    Verb::Void,
    Verb::VoidPay,
    Verb::CorrectReport,
    Verb::CorrectAccount,
];

/// The forms that name an account that files Form 943: a total is that of a year.
const FORMS_943: [Verb; 8] = [
    Verb::Post,
    Verb::Pay,
    Verb::OpenYear,
    Verb::ReportYear,
    Verb::Void,
    Verb::VoidPay,
    Verb::CorrectReportYear,
    Verb::CorrectAccount,
];

/// Links to forms.
#[derive(Drop)]
struct FormLinks;

/// Links to forms with an account filled in.
#[derive(Drop)]
struct AccountFormLinks<'a> {
    /// The account.
    account: &'a str,
}

/// Writes a link to the form of a verb, on a line of its own.
pub fn write_form_line<W: Target>(verb: Verb, target: &mut W) -> Result<(), WriteFault>
    ensures { Writes result (W.taken target.old) (W.taken target.new)
        (W.failed target.new) (form_line verb) }
{
    let address = [Value::Text("/forms/"), Value::Text(verb.row().command)];
    write_link(&address, &Value::Text(title(verb)), target)?;
    write_all(target, b"\n")
}

/// Writes a link to the form of a verb with an account filled in, on a line of its own.
pub fn write_account_form_line<W: Target>(
    account: &str,
    verb: Verb,
    target: &mut W,
) -> Result<(), WriteFault>
    ensures { Writes result (W.taken target.old) (W.taken target.new)
        (W.failed target.new) (account_form_line account.now verb) }
{
    let address = [
        Value::Text("/forms/"),
        Value::Text(verb.row().command),
        Value::Text("/"),
        Value::Text(account),
    ];
    write_link(&address, &Value::Text(title(verb)), target)?;
    write_all(target, b"\n")
}

impl RowFormat<Verb> for FormLinks {
    ghost row_text = { λ links verb. form_line verb };

    fn write_row<W: Target>(&self, row: &Verb, target: &mut W) -> Result<(), WriteFault> {
        write_form_line(*row, target)
    }
}

impl<'a> RowFormat<Verb> for AccountFormLinks<'a> {
    ghost row_text = { λ links verb. account_form_line links.account.now verb };

    fn write_row<W: Target>(&self, row: &Verb, target: &mut W) -> Result<(), WriteFault> {
        write_account_form_line(self.account, *row, target)
    }
}

/// Writes a link to the form of a verb, with the account filled in, if one is named.
pub fn write_form_way<W: Target>(
    account: &str,
    verb: Verb,
    target: &mut W,
) -> Result<(), WriteFault>
    ensures { Writes result (W.taken target.old) (W.taken target.new)
        (W.failed target.new) (form_way account.now verb) }
{
    if account.is_empty() {
        write_form_line(verb, target)
    } else {
        write_account_form_line(account, verb, target)
    }
}

/// Writes the links to the forms that name an account that files this form, with the account filled
/// in, a line each.
fn write_account_form_lines<W: Target>(
    account: &str,
    form: Form,
    target: &mut W,
) -> Result<(), WriteFault>
    ensures { Writes result (W.taken target.old) (W.taken target.new)
        (W.failed target.new) (account_form_lines account.now form) }
{
    let links = AccountFormLinks { account };
    match form {
        Form::F941 => write_rows(&links, &FORMS_941, target),
        Form::F943 => write_rows(&links, &FORMS_943, target),
    }
}

/// Writes the links to the forms that name an account that files this form, with the account filled
/// in.
#[tactic(auto, using(ftd_ports::proofs::WritingFacts::written_in_parts), unfolding(crate::specs::FormLists::account_forms))]
pub fn write_account_forms<W: Target>(
    account: &str,
    form: Form,
    target: &mut W,
) -> Result<(), WriteFault>
    ensures { Writes result (W.taken target.old) (W.taken target.new)
        (W.failed target.new) (account_forms account.now form) }
{
    write_all(target, b"<nav aria-label=\"Enter\">\n")?;
    write_account_form_lines(account, form, target)?;
    write_all(target, b"</nav>\n")
}

/// Writes the heading of the list, a sentence and the links.
#[tactic(auto, using(ftd_ports::proofs::WritingFacts::written_in_parts), unfolding(crate::specs::FormLists::office_forms))]
fn write_office_forms<W: Target>(target: &mut W) -> Result<(), WriteFault>
    ensures { Writes result (W.taken target.old) (W.taken target.new)
        (W.failed target.new) office_forms }
{
    write_all(
        target,
        b"<h1>Enter</h1>\n<p>Pay runs, payments and totals are entered from the page of \
          their account, under Accounts.</p>\n<nav aria-label=\"Enter\">\n",
    )?;
    write_rows(&FormLinks, &OFFICE_FORMS, target)?;
    write_all(target, b"</nav>\n")
}

/// Writes the page that links the forms that name no account, or a new one. It takes no memory but
/// what the target takes. Where the target fails, a prefix of the page was written, and it fails
/// nowhere else.
pub fn write_form_list<W: Target>(frame: &Frame, target: &mut W) -> Result<(), WriteFault>
    ensures { Writes result (W.taken target.old) (W.taken target.new)
        (W.failed target.new) (form_list frame.now) }
{
    write_start(frame, "", &[Value::Text("Enter")], target)?;
    write_office_forms(target)?;
    write_end(target)
}

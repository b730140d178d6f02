//! The page with the form of a verb, made of its row.

ghost use Rattle.std.specs.Prelude.{◌≡◌, [], true};
ghost use Rattle.ftd_ports.specs.Writing.{Writes};
ghost use Rattle.ftd_verbs.specs.FieldRows.{key_of};
ghost use Rattle.std.specs.Str.{bytes_eq};
ghost use Rattle.ftd_site.specs.Controls.{filled_in};
ghost use Rattle.ftd_site.specs.FormWords.{help_of, label_of};
ghost use Rattle.ftd_site.specs.Forms.{field_part, fields_of, form_end, form_of, form_page};
ghost use Rattle.ftd_site.specs.Forms.{form_part, form_start, has_form, help_text};
ghost use Rattle.ftd_site.specs.Forms.{label_text, sentence_text};

use crate::controls::{Control, Filled, filled_in, write_control};
use crate::form_words::{help, label, sentence, title};
use ftd_answers::{RowFormat, Value, write_rows};
use ftd_pages::{Frame, write_end, write_page_heading, write_start};
use ftd_ports::{Target, WriteFault, write_pieces};
use ftd_verbs::{Field, Method, Verb};

/// The fields of a form, with what is filled in.
#[derive(Drop)]
struct Controls<'a> {
    /// The name of the field whose text has no value of its kind; empty where there is none.
    bad: &'a str,
    /// What is filled in.
    filled: &'a [Filled<'a>],
}

impl<'a> RowFormat<Field> for Controls<'a> {
    ghost row_text = { λ controls field. field_part field
        (bytes_eq controls.bad.now (key_of field)) (filled_in controls.filled.now field) };

    fn write_row<W: Target>(&self, row: &Field, target: &mut W) -> Result<(), WriteFault> {
        let control = Control {
            field: *row,
            text: filled_in(self.filled, *row),
            is_bad: self.bad == row.key(),
        };
        write_field(&control, target)
    }
}

/// Writes the label of a field's control.
fn write_label<W: Target>(field: Field, target: &mut W) -> Result<(), WriteFault>
    ensures { Writes result (W.taken target.old) (W.taken target.new)
        (W.failed target.new) (label_text (key_of field) (label_of field)) }
{
    let (name, word) = (field.key().as_bytes(), label(field).as_bytes());
    write_pieces(
        target,
        &[b"<p>\n<label for=\"", name, b"\">", word, b"</label>\n"],
    )
}

/// Writes the help of a field's control.
fn write_help<W: Target>(field: Field, target: &mut W) -> Result<(), WriteFault>
    ensures { Writes result (W.taken target.old) (W.taken target.new)
        (W.failed target.new) (help_text (key_of field) (help_of field)) }
{
    let (name, words) = (field.key().as_bytes(), help(field).as_bytes());
    write_pieces(
        target,
        &[
            b"<small id=\"",
            name,
            b"-help\">",
            words,
            b"</small>\n</p>\n",
        ],
    )
}

/// Writes a field of a form, with what is filled in.
#[tactic(auto, using(ftd_ports::proofs::WritingFacts::written_in_parts), unfolding(crate::specs::Forms::field_part))]
fn write_field<W: Target>(control: &Control<'_>, target: &mut W) -> Result<(), WriteFault>
    ensures { Writes result (W.taken target.old) (W.taken target.new) (W.failed target.new)
        (field_part control.now.field control.now.is_bad control.now.text.now) }
{
    write_label(control.field, target)?;
    write_control(control, target)?;
    write_help(control.field, target)
}

/// Writes the sentence that says what a form is for.
fn write_sentence<W: Target>(words: &str, target: &mut W) -> Result<(), WriteFault>
    ensures { Writes result (W.taken target.old) (W.taken target.new)
        (W.failed target.new) (sentence_text words.now) }
{
    write_pieces(target, &[b"<p>", words.as_bytes(), b"</p>\n"])
}

/// Writes the start of a form that is sent to the route of a command.
fn write_form_start<W: Target>(command: &str, target: &mut W) -> Result<(), WriteFault>
    ensures { Writes result (W.taken target.old) (W.taken target.new)
        (W.failed target.new) (form_start command.now) }
{
    write_pieces(
        target,
        &[
            b"<form method=\"post\" action=\"/forms/",
            command.as_bytes(),
            b"\">\n",
        ],
    )
}

/// Writes the end of a form, with the button that sends it.
fn write_form_end<W: Target>(button: &str, target: &mut W) -> Result<(), WriteFault>
    ensures { Writes result (W.taken target.old) (W.taken target.new)
        (W.failed target.new) (form_end button.now) }
{
    write_pieces(
        target,
        &[
            b"<p><button type=\"submit\">",
            button.as_bytes(),
            b"</button></p>\n</form>\n",
        ],
    )
}

/// Writes the fields of a verb's form.
fn write_form_fields<W: Target>(
    verb: Verb,
    bad: &str,
    filled: &[Filled<'_>],
    target: &mut W,
) -> Result<(), WriteFault>
    ensures { Writes result (W.taken target.old) (W.taken target.new)
        (W.failed target.new) (fields_of verb bad.now filled.now) }
{
    write_rows(&Controls { bad, filled }, verb.row().fields, target)
}

/// Writes the form of a verb, and of the field of this name, if it has one, that what is filled in
/// has no value of its kind.
pub(crate) fn write_form_of<W: Target>(
    verb: Verb,
    bad: &str,
    filled: &[Filled<'_>],
    target: &mut W,
) -> Result<(), WriteFault>
    ensures { Writes result (W.taken target.old) (W.taken target.new)
        (W.failed target.new) (form_of verb bad.now filled.now) }
{
    write_form_start(verb.row().command, target)?;
    write_form_fields(verb, bad, filled, target)?;
    write_form_end(title(verb), target)
}

/// Writes the heading, the sentence and the form of a verb.
fn write_form_part<W: Target>(
    verb: Verb,
    filled: &[Filled<'_>],
    target: &mut W,
) -> Result<(), WriteFault>
    ensures { Writes result (W.taken target.old) (W.taken target.new)
        (W.failed target.new) (form_part verb filled.now) }
{
    write_page_heading(&[Value::Text(title(verb))], target)?;
    write_sentence(sentence(verb), target)?;
    write_form_of(verb, "", filled, target)
}

/// Whether a verb has a form: each that changes something has one.
pub fn has_form(verb: Verb) -> bool
    ensures { result ≡ has_form verb }
{
    match verb.row().method {
        Method::Get => false,
        Method::Post | Method::Put | Method::Delete => true,
    }
}

/// Writes the page with the form of a verb: a control for each field of its row, in their order,
/// with what is filled in. The page is of the account that is filled in. The form is sent to
/// `/forms/` and the verb's command, and the names of its fields are those of the verb's fields. It
/// takes no memory but what the target takes. Where the target fails, a prefix of the page was
/// written, and it fails nowhere else.
pub fn write_form<W: Target>(
    frame: &Frame,
    verb: Verb,
    filled: &[Filled<'_>],
    target: &mut W,
) -> Result<(), WriteFault>
    requires { has_form verb ≡ true }
    ensures { Writes result (W.taken target.old) (W.taken target.new)
        (W.failed target.new) (form_page frame.now verb filled.now) }
{
    let account = filled_in(filled, Field::Account);
    write_start(frame, account, &[Value::Text(title(verb))], target)?;
    write_form_part(verb, filled, target)?;
    write_end(target)
}

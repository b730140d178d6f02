//! The controls of a form.

ghost use Rattle.std.specs.Prelude.{◌≡◌};
ghost use Rattle.ftd_ports.specs.Writing.{Writes};
ghost use Rattle.ftd_site.specs.Controls.{attributes_of, box, box_end, choice, control_of};
ghost use Rattle.ftd_site.specs.Controls.{filled_in, if_same, invalid_text, is_required, lines};
ghost use Rattle.ftd_site.specs.Controls.{option, options_text, required_text, typed};
ghost use Rattle.ftd_site.specs.Controls.{typed_start};
ghost use Rattle.ftd_site.specs.declared.controls.Options.TheVariants.{Answers, Forms};

use ftd_pages::write_escaped;
use ftd_ports::{Target, WriteFault, write_all, write_pieces};
use ftd_verbs::{Field, Kind};

/// What is filled in for a field.
#[derive(Clone, Copy, Debug)]
pub struct Filled<'a> {
    /// The name of the field.
    pub name: &'a str,
    /// The text that its control has.
    pub text: &'a str,
}

/// A control of a form.
#[derive(Clone, Copy, Debug)]
pub struct Control<'a> {
    /// Its field.
    pub field: Field,
    /// What is filled in.
    pub text: &'a str,
    /// Whether that has no value of the field's kind.
    pub is_bad: bool,
}

/// What may be chosen.
#[derive(Clone, Copy, Debug)]
pub enum Options {
    /// Yes or no.
    Answers,
    /// The forms that an employer files.
    Forms,
}

/// What is filled in for a field: the first text that is given for a field of its name. Empty where
/// none is.
pub fn filled_in<'a>(filled: &[Filled<'a>], field: Field) -> &'a str
    ensures { result.now ≡ filled_in filled.now field }
{
    match filled.iter().find(|one| one.name == field.key()) {
        Some(one) => one.text,
        None => "",
    }
}

/// Whether a field of this kind must have a value.
fn is_required(kind: Kind) -> bool
    ensures { result ≡ is_required kind }
{
    match kind {
        Kind::NumberOrNext
        | Kind::DayOrOther
        | Kind::DayOrToday
        | Kind::Days
        | Kind::Mark
        | Kind::Form => false,
        Kind::Account
        | Kind::Number
        | Kind::NewNumber
        | Kind::Year
        | Kind::Day
        | Kind::Quarter
        | Kind::Amount
        | Kind::Answer => true,
    }
}

/// The attribute of a control that must have a value.
fn required_text(needed: bool) -> &'static str
    ensures { result.now ≡ required_text needed }
{
    if needed { " required" } else { "" }
}

/// The attribute of a control whose text has no value of its field's kind.
fn invalid_text(is_bad: bool) -> &'static str
    ensures { result.now ≡ invalid_text is_bad }
{
    if is_bad { " aria-invalid=\"true\"" } else { "" }
}

/// A word where a value is filled in.
fn if_same<'a>(value: &str, text: &str, word: &'a str) -> &'a str
    ensures { result.now ≡ if_same value.now text.now word.now }
{
    if value == text { word } else { "" }
}

/// Writes what a control says of itself.
fn write_attributes<W: Target>(field: Field, is_bad: bool, target: &mut W) -> Result<(), WriteFault>
    ensures { Writes result (W.taken target.old) (W.taken target.new)
        (W.failed target.new) (attributes_of field is_bad) }
{
    let name = field.key().as_bytes();
    let required = required_text(is_required(field.kind())).as_bytes();
    let invalid = invalid_text(is_bad).as_bytes();
    let pieces: [&[u8]; 9] = [
        b" id=\"",
        name,
        b"\" name=\"",
        name,
        b"\" aria-describedby=\"",
        name,
        b"-help\"",
        required,
        invalid,
    ];
    write_pieces(target, &pieces)
}

/// Writes a control of this type up to what it says of itself.
fn write_typed_start<W: Target>(type_name: &str, target: &mut W) -> Result<(), WriteFault>
    ensures { Writes result (W.taken target.old) (W.taken target.new)
        (W.failed target.new) (typed_start type_name.now) }
{
    write_pieces(target, &[b"<input type=\"", type_name.as_bytes(), b"\""])
}

/// Writes a control of this type, in which a line is typed.
fn write_typed<W: Target>(
    type_name: &str,
    control: &Control<'_>,
    target: &mut W,
) -> Result<(), WriteFault>
    ensures { Writes result (W.taken target.old) (W.taken target.new) (W.failed target.new)
        (typed type_name.now control.now.field control.now.is_bad control.now.text.now) }
{
    write_typed_start(type_name, target)?;
    write_attributes(control.field, control.is_bad, target)?;
    write_all(target, b" value=\"")?;
    write_escaped(control.text, target)?;
    write_all(target, b"\">\n")
}

/// Writes a control in which lines are typed.
fn write_lines<W: Target>(control: &Control<'_>, target: &mut W) -> Result<(), WriteFault>
    ensures { Writes result (W.taken target.old) (W.taken target.new) (W.failed target.new)
        (lines control.now.field control.now.is_bad control.now.text.now) }
{
    write_all(target, b"<textarea rows=\"12\"")?;
    write_attributes(control.field, control.is_bad, target)?;
    write_all(target, b">\n")?;
    write_escaped(control.text, target)?;
    write_all(target, b"</textarea>\n")
}

/// Writes a box from behind what it says of itself.
fn write_box_end<W: Target>(text: &str, target: &mut W) -> Result<(), WriteFault>
    ensures { Writes result (W.taken target.old) (W.taken target.new)
        (W.failed target.new) (box_end text.now) }
{
    let checked = if_same("yes", text, " checked").as_bytes();
    write_pieces(target, &[checked, b">\n"])
}

/// Writes a box that is checked where its value is filled in.
fn write_box<W: Target>(control: &Control<'_>, target: &mut W) -> Result<(), WriteFault>
    ensures { Writes result (W.taken target.old) (W.taken target.new) (W.failed target.new)
        (box control.now.field control.now.is_bad control.now.text.now) }
{
    write_all(target, b"<input type=\"checkbox\" value=\"yes\"")?;
    write_attributes(control.field, control.is_bad, target)?;
    write_box_end(control.text, target)
}

/// Writes one of several to choose, selected where its value is filled in.
fn write_option<W: Target>(
    value: &str,
    word: &str,
    text: &str,
    target: &mut W,
) -> Result<(), WriteFault>
    ensures { Writes result (W.taken target.old) (W.taken target.new)
        (W.failed target.new) (option value.now word.now text.now) }
{
    let selected = if_same(value, text, " selected").as_bytes();
    let (value, word) = (value.as_bytes(), word.as_bytes());
    let pieces: [&[u8]; 7] = [
        b"<option value=\"",
        value,
        b"\"",
        selected,
        b">",
        word,
        b"</option>\n",
    ];
    write_pieces(target, &pieces)
}

/// Writes yes and no to choose.
fn write_answers<W: Target>(text: &str, target: &mut W) -> Result<(), WriteFault>
    ensures { Writes result (W.taken target.old) (W.taken target.new)
        (W.failed target.new) (options_text Answers text.now) }
{
    write_option("", "Choose", text, target)?;
    write_option("yes", "Yes", text, target)?;
    write_option("no", "No", text, target)
}

/// Writes the forms to choose.
fn write_forms<W: Target>(text: &str, target: &mut W) -> Result<(), WriteFault>
    ensures { Writes result (W.taken target.old) (W.taken target.new)
        (W.failed target.new) (options_text Forms text.now) }
{
    write_option("941", "Form 941", text, target)?;
    write_option("943", "Form 943", text, target)
}

/// Writes the options of a control.
fn write_options<W: Target>(options: Options, text: &str, target: &mut W) -> Result<(), WriteFault>
    ensures { Writes result (W.taken target.old) (W.taken target.new)
        (W.failed target.new) (options_text options text.now) }
{
    match options {
        Options::Answers => write_answers(text, target),
        Options::Forms => write_forms(text, target),
    }
}

/// Writes a control with one of several to choose.
fn write_choice<W: Target>(
    control: &Control<'_>,
    options: Options,
    target: &mut W,
) -> Result<(), WriteFault>
    ensures { Writes result (W.taken target.old) (W.taken target.new) (W.failed target.new)
        (choice control.now.field control.now.is_bad options control.now.text.now) }
{
    write_all(target, b"<select")?;
    write_attributes(control.field, control.is_bad, target)?;
    write_all(target, b">\n")?;
    write_options(options, control.text, target)?;
    write_all(target, b"</select>\n")
}

/// Writes a control, by the kind of its field's values, with what is filled in.
pub fn write_control<W: Target>(control: &Control<'_>, target: &mut W) -> Result<(), WriteFault>
    ensures { Writes result (W.taken target.old) (W.taken target.new) (W.failed target.new)
        (control_of control.now.field control.now.is_bad control.now.text.now) }
{
    match control.field.kind() {
        Kind::Account | Kind::Quarter | Kind::Amount => write_typed("text", control, target),
        Kind::Number | Kind::NewNumber | Kind::NumberOrNext | Kind::Year => {
            write_typed("number", control, target)
        }
        Kind::Day | Kind::DayOrOther | Kind::DayOrToday => write_typed("date", control, target),
        Kind::Days => write_lines(control, target),
        Kind::Mark => write_box(control, target),
        Kind::Answer => write_choice(control, Options::Answers, target),
        Kind::Form => write_choice(control, Options::Forms, target),
    }
}

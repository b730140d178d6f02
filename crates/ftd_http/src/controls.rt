//! The controls of a form, as a browser sends them.

ghost use Rattle.std.specs.Prelude.{◌≡◌, IfOk, map, option_map};
ghost use Rattle.std.specs.List.{find, list_all, list_any};
ghost use Rattle.std.specs.String.{string_bytes};
ghost use Rattle.form_urlencoded.specs.Form.{pair_text, raw_pairs};
ghost use Rattle.ftd_http.specs.Controls.{are_of_form, control_in, controls_in, has_name};
ghost use Rattle.ftd_http.specs.Controls.{have_one_name, if_typed, is_field, name_comes_twice};
ghost use Rattle.ftd_http.specs.Controls.{seen, text_at, text_in};

use form_urlencoded::{decode, raw_pairs};
use ftd_verbs::{Field, Verb};
use std::alloc::{AllocError, Global};

/// A control of a form, as it was filled in.
#[derive(Drop)]
pub struct Control {
    /// Its name.
    pub name: String,
    /// What was filled in. Empty where nothing was.
    pub text: String,
}

/// The pairs of a name and a text, each of them coded.
fn coded_pairs(alloc: Global, sent: &[u8]) -> Result<Vec<(&[u8], &[u8])>, AllocError>
    ensures { IfOk result (λ pairs. map pair_text pairs.items ≡ raw_pairs sent.now) }
{
    raw_pairs(sent).collect(alloc)
}

/// The text that is coded so.
fn text_in(alloc: Global, coded: &[u8]) -> Result<String, AllocError>
    ensures { IfOk result (λ text. string_bytes text ≡ text_in coded.now) }
{
    decode(alloc, coded)?.into_owned(alloc)
}

/// The control that is coded so.
fn control_in(alloc: Global, name: &[u8], text: &[u8]) -> Result<Control, AllocError>
    ensures { IfOk result (λ control. seen control ≡ control_in (name.now, text.now)) }
{
    let name = text_in(alloc, name)?;
    let text = text_in(alloc, text)?;
    Ok(Control { name, text })
}

/// The controls of a form, in the order in which they are sent, as
/// `application/x-www-form-urlencoded`. What is no UTF-8 becomes U+FFFD, which is part of no value.
pub fn read_controls(alloc: Global, sent: &[u8]) -> Result<Vec<Control>, AllocError>
    ensures { IfOk result (λ controls. map seen controls.items ≡ controls_in sent.now) }
{
    let pairs = coded_pairs(alloc, sent)?;
    let mut controls = Vec::new(alloc);
    for (name, text) in &pairs {
        controls.push(control_in(alloc, name, text)?)?;
    }
    Ok(controls)
}

/// Whether a control has the name of this field.
fn has_name(field: Field, control: &Control) -> bool
    ensures { result ≡ has_name field (seen control.now) }
{
    control.name.as_str() == field.key()
}

/// Whether the name of a control is that of a field of the verb.
fn is_field(verb: Verb, control: &Control) -> bool
    ensures { result ≡ is_field verb (seen control.now) }
{
    verb.row()
        .fields
        .iter()
        .any(|field| has_name(*field, control))
}

/// Whether two controls have one name.
fn have_one_name(control: &Control, other: &Control) -> bool
    ensures { result ≡ have_one_name (seen control.now) (seen other.now) }
{
    control.name.as_str() == other.name.as_str()
}

/// Whether one of these controls has the name of another.
fn one_has_name_of(control: &Control, others: &[Control]) -> bool
    ensures { result ≡ list_any (have_one_name (seen control.now)) (map seen others.now) }
{
    others.iter().any(|other| have_one_name(control, other))
}

/// Whether two of the controls have one name.
fn name_comes_twice(controls: &[Control]) -> bool
    ensures { result ≡ name_comes_twice (map seen controls.now) }
{
    let mut rest = controls;
    while let Some((first, others)) = rest.split_first() {
        if one_has_name_of(first, others) {
            return true;
        }
        rest = others;
    }
    false
}

/// Whether the name of each of the controls is that of a field of the verb.
fn are_all_fields(verb: Verb, controls: &[Control]) -> bool
    ensures { result ≡ list_all (is_field verb) (map seen controls.now) }
{
    controls.iter().all(|control| is_field(verb, control))
}

/// Whether the controls are those of the verb's form: the name of each is that of a field of the
/// verb, and no name comes twice.
pub fn are_of_form(verb: Verb, controls: &[Control]) -> bool
    ensures { result ≡ are_of_form verb (map seen controls.now) }
{
    are_all_fields(verb, controls) && !name_comes_twice(controls)
}

/// The first control that has the name of a field.
fn control_of(controls: &[Control], field: Field) -> Option<&Control>
    ensures { option_map (λ control. seen control.now) result
        ≡ find (has_name field) (map seen controls.now) }
{
    controls.iter().find(|control| has_name(field, control))
}

/// What was filled in, if something was.
fn if_typed(control: &Control) -> Option<&str>
    ensures { option_map (λ text. text.now) result ≡ if_typed (seen control.now).text }
{
    if control.text.is_empty() {
        None
    } else {
        Some(control.text.as_str())
    }
}

/// What was filled in for a field, if something was: the text of the first control that has its
/// name, unless that is empty.
pub fn text_at(controls: &[Control], field: Field) -> Option<&str>
    ensures { option_map (λ text. text.now) result ≡ text_at (map seen controls.now) field }
{
    match control_of(controls, field) {
        Some(control) => if_typed(control),
        None => None,
    }
}

//! Sources of fields.

ghost use Rattle.std.specs.Prelude.{◌≡◌, IfOk};
ghost use Rattle.ftd_verbs.specs.Fields.{Said};

use crate::Field;
use ftd_days::{Cents, Day, Quarter};
use ftd_machine::{AccountName, Days};
use ftd_rules::Form;
use std::alloc::{AllocError, Global};

/// A source of fields: the words of a command, a message, a record. Each method answers the value
/// of its kind that a field has, if it has one.
pub trait Fields {
    /// What the fields say.
    ghost said: { Self → Said };

    /// Whether the field is left out.
    fn is_left_out(&self, field: Field) -> bool
        ensures { result ≡ (said self.now).is_left_out field };

    /// A text, as the name of an account.
    fn account(&self, alloc: Global, field: Field) -> Result<Option<AccountName>, AllocError>
        ensures { IfOk result (λ name. name ≡ (said self.now).text field) };

    /// A whole number below 2 ^ 32.
    fn whole(&self, field: Field) -> Option<u32>
        ensures { result ≡ (said self.now).whole field };

    /// A day.
    fn day(&self, field: Field) -> Option<Day>
        ensures { result ≡ (said self.now).day field };

    /// A quarter.
    fn quarter(&self, field: Field) -> Option<Quarter>
        ensures { result ≡ (said self.now).quarter field };

    /// An amount.
    fn amount(&self, field: Field) -> Option<Cents>
        ensures { result ≡ (said self.now).amount field };

    /// Whether it is marked: no where it is left out.
    fn mark(&self, field: Field) -> Option<bool>
        ensures { result ≡ (said self.now).mark field };

    /// Yes or no.
    fn answer(&self, field: Field) -> Option<bool>
        ensures { result ≡ (said self.now).answer field };

    /// A form.
    fn form(&self, field: Field) -> Option<Form>
        ensures { result ≡ (said self.now).form field };

    /// Any number of days.
    fn days(&self, alloc: Global, field: Field) -> Result<Option<Days>, AllocError>
        ensures { IfOk result (λ days. days ≡ (said self.now).days field) };
}

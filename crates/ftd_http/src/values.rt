//! Values in paths.

ghost use Rattle.std.specs.Prelude.{◌≡◌, IfOk};
ghost use Rattle.ftd_http.specs.Values.{path_number};

use crate::number_in;
use ftd_machine::AccountName;
use std::alloc::{AllocError, Global};

/// The whole number up to 4,294,967,295 that a part of a path spells in 1 to 10 digits.
#[tactic(auto, unfolding(crate::specs::Values::path_number))]
pub fn path_number(text: &str) -> Option<u32>
    ensures { result ≡ path_number text.now }
{
    let number = number_in(text.as_bytes())?;
    u32::try_from(number).ok()
}

/// The text as the name of an account, of whatever form it is.
pub fn name(alloc: Global, text: &str) -> Result<AccountName, AllocError>
    ensures { IfOk result (λ name. name ≡ text.now) }
{
    Ok(AccountName::from_string(String::from_str(alloc, text)?))
}

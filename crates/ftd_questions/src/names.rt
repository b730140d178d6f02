//! The name that is nearest to a mistyped one.

ghost use Rattle.std.specs.Prelude.{◌≡◌, length, IfOk, MatchOption};
ghost use Rattle.ftd_questions.specs.Nearest.{IsNearest, NoneIsNear, most_edits, texts_of};

use std::alloc::{AllocError, Global};
use strsim::levenshtein;

/// How many edits away from what was typed a name may be that is meant.
const MOST_EDITS: usize = 2;

/// Of that many bytes that were typed one may be wrong.
const BYTES_PER_EDIT: usize = 3;

/// The place of the first of the names to which the fewest edits lead: a character that is put in,
/// taken out or changed. None if none of them is near: at most two edits away, and at most one for
/// every three bytes that were typed.
pub fn nearest(alloc: Global, typed: &str, names: &[&str]) -> Result<Option<usize>, AllocError>
    ensures { IfOk result (λ found. MatchOption found
        (NoneIsNear typed.now (texts_of names.now))
        (IsNearest typed.now (texts_of names.now))) }
{
    let mut fewest = most_edits(typed) + 1;
    let mut found = None;
    for (place, name) in names.iter().enumerate() {
        let edits = levenshtein(alloc, typed, name)?;
        if edits < fewest {
            fewest = edits;
            found = Some(place);
        }
    }
    Ok(found)
}

/// How many edits away from what was typed a name may be that is meant.
fn most_edits(typed: &str) -> usize
    ensures { result ≡ most_edits typed.now }
{
    MOST_EDITS.min(typed.len() / BYTES_PER_EDIT)
}

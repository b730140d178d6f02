//! The entries of a text.

ghost use Rattle.std.specs.Prelude.{◌≡◌, true, IfErr, MatchResult};
ghost use Rattle.ftd_desk.specs.Desks.{IsStopped, held};
ghost use Rattle.ftd_imports.specs.Imports.{Imports, Stops, is_of_text};

use crate::lists::post_lists;
use crate::progress::Progress;
use crate::summary::{ImportStop, Summary, cause_of};
use ftd_csv::{Sheet, count_records};
use ftd_desk::Desk;
use sqlite::Alter;
use std::alloc::Global;

/// Posts the entries of a text, and says what became of its records, as if they were posted one
/// after the other. The text is CSV with the header of the sheet, of at most 16 MiB. A malformed
/// record is counted, noted and left out. The records go to the desk in
/// lists of 16,384, each in one transaction; a list that meets a fault goes again, one record after
/// the other.
///
/// It stops with `TooLong` or `BadHeader` where the text is too long or has another header, and
/// nothing was posted then. It stops with `Memory` or `Store` at any record; those before it are
/// posted and counted, and that one changed nothing, unless the store is a file and a commit
/// failed: then a crash may find the whole list. The same text imported again goes on where it
/// stopped.
///
/// `progress` is told after each list how many records are done.
pub fn import<S: Alter, P: Progress>(
    alloc: Global,
    desk: &mut Desk<S>,
    sheet: Sheet,
    text: &[u8],
    progress: &mut P,
) -> Result<Summary, ImportStop>
    ensures imports { MatchResult result
        (λ summary. Imports (held S.Store desk.old) (held S.Store desk.new) sheet text.now
        summary)
        (λ stopped. Stops (IsStopped desk.new) (held S.Store desk.old) (held S.Store desk.new)
        sheet text.now stopped) }
    ensures untouched { IfErr result
        (λ stopped. is_of_text stopped.cause ≡ true → desk.new ≡ desk.old) }
{
    let mut done = Summary::none(alloc);
    let (mut records, all) = match count_records(alloc, sheet, text) {
        Ok(counted) => counted,
        Err(fault) => {
            let cause = cause_of(fault);
            return Err(ImportStop { done, cause });
        }
    };
    let posted = post_lists(alloc, desk, &mut records, all, &mut done, progress);
    progress.end();
    match posted {
        Ok(()) => Ok(done),
        Err(cause) => Err(ImportStop { done, cause }),
    }
}

//! What an import would say.

ghost use Rattle.std.specs.Prelude.{◌≡◌, ◌⊎◌, ◌+◌, ◌≤◌, ℕ, List, IfErr, OnOk, OnErr, MatchResult};
ghost use Rattle.std.specs.Prelude.{length};
ghost use Rattle.ftd_csv.specs.declared.entries.Content.{Content};
ghost use Rattle.ftd_desk.specs.Desks.{held};
ghost use Rattle.ftd_desk.specs.Telling.{StandsAsBefore};
ghost use Rattle.ftd_csv.specs.Lists.{IsList, IsListOf};
ghost use Rattle.ftd_imports.specs.Outcomes.{IsSame, most_counted, tally};
ghost use Rattle.ftd_imports.specs.Trials.{FailsTrial, WouldImport, WouldPost};
ghost use Rattle.ftd_imports.specs.declared.summary.StopCause.TheVariants as cause;

use crate::lists::count_all;
use crate::summary::{ImportStop, StopCause, Summary, cause_of};
use ftd_csv::{RecordList, Sheet, count_records, read_list};
use ftd_desk::Desk;
use ftd_machine::Refusal;
use sqlite::Alter;
use std::alloc::Global;

/// What an import of a text would say of its records, were they posted now, one after the other.
/// Nothing is posted: the desk stands for the state as it was. All records of the text are held at
/// once, and answered in one transaction, which is dropped.
///
/// It stops with `TooLong` or `BadHeader` where an import would, and with `Memory` or `Store` where
/// there is a fault; it says nothing of the records then.
pub fn import_trial<S: Alter>(
    alloc: Global,
    desk: &mut Desk<S>,
    sheet: Sheet,
    text: &[u8],
) -> Result<Summary, ImportStop>
    ensures tells { MatchResult result
        (λ summary. WouldImport (held S.Store desk.old) (held S.Store desk.new) sheet text.now
        summary)
        (λ stopped. FailsTrial sheet text.now stopped) }
    ensures stands { StandsAsBefore (held S.Store desk.old) (held S.Store desk.new) }
{
    let mut done = Summary::none(alloc);
    let (mut records, all) = match count_records(alloc, sheet, text) {
        Ok(counted) => counted,
        Err(fault) => {
            let cause = cause_of(fault);
            return Err(ImportStop { done, cause });
        }
    };
    let Ok(list) = read_list(alloc, &mut records, all) else {
        let cause = StopCause::Memory;
        return Err(ImportStop { done, cause });
    };
    match try_list(desk, &list, &mut done) {
        Ok(()) => Ok(done),
        Err(cause) => Err(ImportStop { done, cause }),
    }
}

/// Counts the records of a list as they would be answered.
fn try_list<S: Alter>(
    desk: &mut Desk<S>,
    list: &RecordList,
    done: &mut Summary,
) -> Result<(), StopCause>
    requires list { IsList list.now }
    requires fits { tally done.old + length list.now.places.items ≤ most_counted }
    ensures tells { (records : List (ℕ × Content)) → IsListOf records list.now → OnOk result
        (WouldPost (held S.Store desk.old) (held S.Store desk.new) records done.old done.new) }
    ensures fault { IfErr result (λ why. (why ≡ cause.Memory) ⊎ (why ≡ cause.Store)) }
    ensures same { OnErr result (IsSame done.old done.new) }
    ensures stands { StandsAsBefore (held S.Store desk.old) (held S.Store desk.new) }
{
    let Ok(()) = done.notes.reserve(list.places.len()) else {
        return Err(StopCause::Memory);
    };
    match desk.trial(&list.posts) {
        Ok(answers) => {
            count_all(list, &answers, done);
            Ok(())
        }
        Err(refusal) => Err(cause_by(refusal)),
    }
}

/// Why a trial stops that was refused so.
fn cause_by(refusal: Refusal) -> StopCause
    ensures { (result ≡ cause.Memory) ⊎ (result ≡ cause.Store) }
{
    if refusal == Refusal::Memory {
        StopCause::Memory
    } else {
        StopCause::Store
    }
}

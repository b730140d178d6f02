//! Records are posted one after the other.

ghost use Rattle.std.specs.Prelude.{◌≡◌, ◌<◌, ◌≤◌, ◌+◌, ◌∷◌, [], ℕ, List, None, IfErr, IfOk, OnOk};
ghost use Rattle.std.specs.Prelude.{OnErr, MatchResult, length, vec_len, vec_capacity};
ghost use Rattle.ftd_csv.specs.declared.entries.Content.{Content};
ghost use Rattle.ftd_csv.specs.declared.entries.Content.TheVariants as content;
ghost use Rattle.ftd_desk.specs.Desks.{IsStopped, held};
ghost use Rattle.ftd_csv.specs.Lists.{IsList, IsListOf, kept_of};
ghost use Rattle.ftd_imports.specs.Outcomes.{IsSame, most_counted, tally};
ghost use Rattle.ftd_csv.specs.Lists.{posts_of};
ghost use Rattle.ftd_imports.specs.Imports.{Posts, StopsAt, StopsIn};

use crate::summary::{StopCause, Summary, fault_of};
use ftd_csv::{Place, RecordList};
use ftd_desk::Desk;
use ftd_machine::Request;
use sqlite::Alter;

/// Posts the entry of the record of this number. There is room for its note.
fn post_entry<S: Alter>(
    desk: &mut Desk<S>,
    number: u32,
    post: &Request,
    done: &mut Summary,
) -> Result<(), StopCause>
    requires room { vec_len done.old.notes < vec_capacity done.old.notes }
    requires fits { tally done.old < most_counted }
    ensures posts { OnOk result (Posts (held S.Store desk.old) (held S.Store desk.new)
        ((number, content.Entry post.now) ∷ []) done.old done.new) }
    ensures stops { IfErr result
        (λ cause. StopsAt (IsStopped desk.new) (held S.Store desk.old) (held S.Store desk.new)
        (number, content.Entry post.now) cause) }
    ensures same { OnErr result (done.new ≡ done.old) }
    ensures grows { OnOk result (tally done.new ≤ tally done.old + 1) }
    ensures stopped { IsStopped desk.old → IsStopped desk.new }
{
    let answer = desk.handle(post);
    match fault_of(&answer) {
        Some(cause) => Err(cause),
        None => {
            done.count(number, post, &answer);
            Ok(())
        }
    }
}

/// Posts a record, or notes that it is malformed, and gives the posts of those after it. The room
/// of its note is taken first.
fn post_record<'p, S: Alter>(
    desk: &mut Desk<S>,
    place: &Place,
    posts: &'p [Request],
    done: &mut Summary,
) -> Result<&'p [Request], StopCause>
    requires there { place.now.malformed ≡ None → 0 < length posts.now }
    requires fits { tally done.old < most_counted }
    ensures left { (at : ℕ × Content) (later : List (ℕ × Content)) → place.now ≡ kept_of at
        → posts.now ≡ posts_of (at ∷ later) → IfOk result (λ left. left.now ≡ posts_of later) }
    ensures posts { (at : ℕ × Content) (later : List (ℕ × Content)) → place.now ≡ kept_of at
        → posts.now ≡ posts_of (at ∷ later) → OnOk result
        (Posts (held S.Store desk.old) (held S.Store desk.new) (at ∷ []) done.old done.new) }
    ensures stops { (at : ℕ × Content) (later : List (ℕ × Content)) → place.now ≡ kept_of at
        → posts.now ≡ posts_of (at ∷ later) → IfErr result
        (λ cause. StopsAt (IsStopped desk.new) (held S.Store desk.old) (held S.Store desk.new)
        at cause) }
    ensures same { OnErr result (IsSame done.old done.new) }
    ensures grows { OnOk result (tally done.new ≤ tally done.old + 1) }
    ensures stopped { IsStopped desk.old → IsStopped desk.new }
{
    let Ok(()) = done.notes.reserve(1) else {
        return Err(StopCause::Memory);
    };
    match place.malformed {
        Some(field) => {
            done.skip(place.number, field);
            Ok(posts)
        }
        None => {
            let (post, later) = posts.split_first().unwrap();
            match post_entry(desk, place.number, post, done) {
                Ok(()) => Ok(later),
                Err(cause) => Err(cause),
            }
        }
    }
}

/// Posts the records of a list one after the other.
pub(crate) fn post_all<S: Alter>(
    desk: &mut Desk<S>,
    list: &RecordList,
    done: &mut Summary,
) -> Result<(), StopCause>
    requires list { IsList list.now }
    requires fits { tally done.old + length list.now.places.items ≤ most_counted }
    ensures posts { (records : List (ℕ × Content)) → IsListOf records list.now
        → MatchResult result
        (λ _. Posts (held S.Store desk.old) (held S.Store desk.new) records done.old done.new)
        (λ cause. StopsIn (IsStopped desk.new) (held S.Store desk.old) (held S.Store desk.new)
        records done.old done.new cause) }
    ensures grows { OnOk result
        (tally done.new ≤ tally done.old + length list.now.places.items) }
    ensures stopped { IsStopped desk.old → IsStopped desk.new }
{
    let places = list.places.as_slice();
    let mut left = list.posts.as_slice();
    for place in places {
        match post_record(desk, place, left, done) {
            Ok(later) => left = later,
            Err(cause) => return Err(cause),
        }
    }
    Ok(())
}

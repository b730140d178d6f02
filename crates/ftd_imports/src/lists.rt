//! Records are posted many at a time.

ghost use Rattle.std.specs.Prelude.{◌≡◌, ◌<◌, ◌≤◌, ◌+◌, ℕ, List, OnOk, OnErr, MatchResult, length};
ghost use Rattle.std.specs.Prelude.{map, vec_len, vec_capacity};
ghost use Rattle.std.specs.List.{filter};
ghost use Rattle.ftd_csv.specs.Places.{CanAdvance, records_left, rows_after};
ghost use Rattle.ftd_csv.specs.declared.entries.Content.{Content};
ghost use Rattle.ftd_desk.specs.Desks.{IsStopped, held};
ghost use Rattle.ftd_csv.specs.Lists.{IsList, IsListOf, has_post, kept_of};
ghost use Rattle.ftd_imports.specs.Outcomes.{Counts, CountsAnswers, IsSame, most_counted};
ghost use Rattle.ftd_csv.specs.Lists.{posts_of};
ghost use Rattle.ftd_imports.specs.Outcomes.{tally};
ghost use Rattle.ftd_imports.specs.Imports.{Posts, PostsNone, StopsWithin, most_together};

use crate::posting::post_all;
use crate::progress::Progress;
use crate::summary::{StopCause, Summary};
use ftd_csv::{RecordList, Records, read_list};
use ftd_desk::Desk;
use ftd_machine::{Answer, Refusal};
use sqlite::Alter;
use std::alloc::Global;

/// So many records at most go to the desk together.
const TOGETHER: usize = 16_384;

/// Counts the records of a list, whose posts were answered so. There is room for their notes.
pub(crate) fn count_all(list: &RecordList, answers: &[Answer], done: &mut Summary)
    requires list { IsList list.now }
    requires room { vec_len done.old.notes + length list.now.places.items
        ≤ vec_capacity done.old.notes }
    requires fits { tally done.old + length list.now.places.items ≤ most_counted }
    requires answers { length answers.now ≡ length (filter has_post list.now.places.items) }
    ensures counts { (records : List (ℕ × Content)) → IsListOf records list.now
        → CountsAnswers done.old records answers.now done.new }
    ensures grows { tally done.new ≤ tally done.old + length list.now.places.items }
{
    let places = list.places.as_slice();
    let mut posts = list.posts.as_slice();
    let mut left = answers;
    for place in places {
        match place.malformed {
            Some(field) => done.skip(place.number, field),
            None => {
                let (post, later_posts) = posts.split_first().unwrap();
                let (answer, later) = left.split_first().unwrap();
                done.count(place.number, post, answer);
                posts = later_posts;
                left = later;
            }
        }
    }
}

/// Posts the records of a list together, and counts them. Where there is no memory for that, or a
/// fault, none of them is posted; where their commit failed, a crash may find them all.
fn post_together<S: Alter>(
    desk: &mut Desk<S>,
    list: &RecordList,
    done: &mut Summary,
) -> Result<(), Refusal>
    requires list { IsList list.now }
    requires fits { tally done.old + length list.now.places.items ≤ most_counted }
    ensures posts { (records : List (ℕ × Content)) → IsListOf records list.now → OnOk result
        (Posts (held S.Store desk.old) (held S.Store desk.new) records done.old done.new) }
    ensures grows { OnOk result
        (tally done.new ≤ tally done.old + length list.now.places.items) }
    ensures none { OnErr result (PostsNone (IsStopped desk.new) (held S.Store desk.old)
        (held S.Store desk.new) list.now.posts.items) }
    ensures same { OnErr result (IsSame done.old done.new) }
{
    let Ok(()) = done.notes.reserve(list.places.len()) else {
        return Err(Refusal::Memory);
    };
    let answers = desk.together(&list.posts)?;
    count_all(list, &answers, done);
    Ok(())
}

/// Posts the records of a list together, or, where that can't be, one after the other.
fn post_list<S: Alter>(
    desk: &mut Desk<S>,
    list: &RecordList,
    done: &mut Summary,
) -> Result<(), StopCause>
    requires list { IsList list.now }
    requires short { length list.now.places.items ≤ most_together }
    requires fits { tally done.old + length list.now.places.items ≤ most_counted }
    ensures posts { (records : List (ℕ × Content)) → IsListOf records list.now
        → MatchResult result
        (λ _. Posts (held S.Store desk.old) (held S.Store desk.new) records done.old done.new)
        (λ cause. StopsWithin (IsStopped desk.new) (held S.Store desk.old)
        (held S.Store desk.new) records (λ outcomes. Counts done.old outcomes done.new) cause) }
    ensures grows { OnOk result
        (tally done.new ≤ tally done.old + length list.now.places.items) }
{
    match post_together(desk, list, done) {
        Ok(()) => Ok(()),
        Err(_) => post_all(desk, list, done),
    }
}

/// Posts the records that are left, so many, in lists, one list after the other, and tells after
/// each how many are done. No more than one list is held at a time.
pub(crate) fn post_lists<S: Alter, P: Progress>(
    alloc: Global,
    desk: &mut Desk<S>,
    records: &mut Records<'_>,
    all: usize,
    done: &mut Summary,
    progress: &mut P,
) -> Result<(), StopCause>
    requires can { CanAdvance records.old }
    requires all { all ≡ length (rows_after records.old) }
    requires fits { tally done.old + all ≤ most_counted }
    ensures { MatchResult result
        (λ _. Posts (held S.Store desk.old) (held S.Store desk.new)
        (records_left records.old) done.old done.new)
        (λ cause. StopsWithin (IsStopped desk.new) (held S.Store desk.old)
        (held S.Store desk.new) (records_left records.old)
        (λ outcomes. Counts done.old outcomes done.new) cause) }
{
    let mut told = 0;
    while told < all {
        let count = TOGETHER.min(all - told);
        let Ok(list) = read_list(alloc, records, count) else {
            return Err(StopCause::Memory);
        };
        match post_list(desk, &list, done) {
            Ok(()) => {
                told += count;
                progress.tell(told, all);
            }
            Err(cause) => return Err(cause),
        }
    }
    Ok(())
}

//! Records are read into lists, which go on together.

ghost use Rattle.std.specs.Prelude.{◌≡◌, ◌≤◌, ◌++◌, ◌∷◌, [], ℕ, List, IfOk, MatchResult, length};
ghost use Rattle.ftd_csv.specs.Answers.{RecordsFail};
ghost use Rattle.ftd_csv.specs.Places.{CanAdvance, Opens, place_of, rows_after};
ghost use Rattle.ftd_csv.specs.declared.entries.Content.{Content};
ghost use Rattle.ftd_csv.specs.Lists.{IsListOf, TakesList};

use crate::entries::Content;
use crate::reading::{RecordFault, Records};
use crate::sheets::Sheet;
use ftd_machine::Request;
use std::alloc::{AllocError, Global};

/// The number of a record, and its least field that is bad, if it has one.
#[derive(Clone, Copy, Debug)]
pub struct Place {
    /// The number of the record; the header has number 1.
    pub number: u32,
    /// Its least field that is bad, counted from 1; 0 where it has more fields than the header, or
    /// fewer. `None` if its entry is among the posts.
    pub malformed: Option<u8>,
}

/// Some records: the place of each, and the posts of those that enter something.
#[derive(Drop)]
pub struct RecordList {
    /// The place of each, in their order.
    pub places: Vec<Place>,
    /// The posts of those that enter something, in their order.
    pub posts: Vec<Request>,
}

impl RecordList {
    /// Takes the record at which the records stand.
    fn take(&mut self, alloc: Global, records: &Records<'_>) -> Result<(), AllocError>
        ensures { (before : List (ℕ × Content)) → IsListOf before self.old → IfOk result
            (λ _. IsListOf (before ++ place_of records.now ∷ []) self.new) }
    {
        let number = records.number();
        match records.entry(alloc)? {
            Content::Entry(post) => {
                self.posts.push(post)?;
                let malformed = None;
                self.places.push(Place { number, malformed })?;
            }
            Content::Malformed(field) => {
                let malformed = Some(field);
                self.places.push(Place { number, malformed })?;
            }
        }
        Ok(())
    }
}

/// So many of the next records. There are as many. An error if there is no memory.
pub fn read_list(
    alloc: Global,
    records: &mut Records<'_>,
    count: usize,
) -> Result<RecordList, AllocError>
    requires can { CanAdvance records.old }
    requires there { count ≤ length (rows_after records.old) }
    ensures { IfOk result (λ list. TakesList records.old records.new count list) }
{
    let mut list = RecordList {
        places: Vec::new(alloc),
        posts: Vec::new(alloc),
    };
    for _ in 0..count {
        let found = records.advance()?;
        prove!(found);
        list.take(alloc, records)?;
    }
    Ok(list)
}

/// The records of a text of the sheet, and how many it has. The faults are those of
/// `Records::open`.
pub fn count_records(
    alloc: Global,
    sheet: Sheet,
    text: &[u8],
) -> Result<(Records<'_>, usize), RecordFault>
    ensures { MatchResult result
        (λ counted. Opens sheet text.now counted.0
        × (counted.1 ≡ length (rows_after counted.0)))
        (λ fault. RecordsFail sheet text.now fault) }
{
    let all = Records::open(alloc, sheet, text)?.count()?;
    let records = Records::open(alloc, sheet, text)?;
    Ok((records, all))
}

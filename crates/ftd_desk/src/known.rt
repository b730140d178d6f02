//! What a desk keeps from request to request.

ghost use Rattle.std.specs.Prelude.{◌≡◌, []};

use crate::counts::Counts;
use crate::kept::Kept;
use ftd_posting::Book;
use std::alloc::Global;

/// What a desk keeps from request to request: how many runs and payments some accounts have, and
/// what is known of those of which runs were posted last.
#[derive(Drop)]
pub(crate) struct Known {
    pub counts: Counts,
    pub books: Kept<Book>,
}

impl Known {
    /// Nothing is known. What is known later takes its memory from the allocator.
    pub fn none(alloc: Global) -> Known
        ensures runs { result.counts.runs.entries.items ≡ [] }
        ensures payments { result.counts.payments.entries.items ≡ [] }
        ensures books { result.books.entries.items ≡ [] }
    {
        Known {
            counts: Counts::none(alloc),
            books: Kept::none(alloc),
        }
    }
}

//! What is known of accounts while a list of requests is answered.

ghost use Rattle.std.specs.Prelude.{◌≡◌, [], if◌then◌else◌, IfSome};
ghost use Rattle.ftd_machine.specs.Laws.{is_change};
ghost use Rattle.ftd_desk.specs.Books.{IsReady};

use crate::counts::is_change;
use crate::kept::Kept;
use ftd_machine::Answer;
use ftd_posting::Book;

impl Kept<Book> {
    /// The place of the account's book, if one is kept that is for runs of the year.
    pub fn ready(&self, name: &str, year: u32) -> Option<usize>
        ensures { IfSome result (IsReady self.now name.now year) }
    {
        let place = self.place(name)?;
        if self.entries[place].content.first_year() > year {
            return None;
        }
        Some(place)
    }

    /// Forgets all books where a request that was answered so, by none of them, changed something.
    pub fn pass(&mut self, answer: &Answer)
        ensures { self.new.entries.items
            ≡ (if is_change answer.now then [] else self.old.entries.items) }
    {
        if is_change(answer) {
            self.entries.clear();
        }
    }
}

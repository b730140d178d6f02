//! A machine that answers as long as its files are those that it opened.

ghost use Rattle.std.specs.Prelude.{Bool};

use crate::machine::Machine;
use crate::response::{Response, bare_response};
use ftd_http::{Inquiry, Status};
use std::alloc::{AllocError, Global};

/// What looks after the files of a machine.
pub trait Watch {
    /// What it may tell.
    ghost tells: { Self → Bool → Type 0 };

    /// Whether the files are those that the machine opened, as far as can be seen: nobody has
    /// moved, replaced or emptied one.
    fn are_same(&self) -> bool
        ensures { tells self.now result };
}

/// A machine over files. Once its watch tells that they are not those that it opened, messages are
/// not answered: a response says so by its status, and the machine does not answer any more.
pub struct Watched<'w, M, W> {
    /// The machine.
    pub machine: M,
    /// What looks after its files.
    pub watch: &'w W,
}

impl<By, M: Machine<By>, W: Watch> Machine<By> for Watched<'_, M, W> {
    ghost use Rattle.ftd_connections.specs.Watched.{AnswersWatched, StaysWatched};

    ghost goes = { AnswersWatched W.tells M.goes };

    ghost stays = { StaysWatched W.tells M.stays };

    fn respond(
        &mut self,
        alloc: Global,
        asked: &Inquiry,
        body: &[u8],
    ) -> Result<Response, AllocError> {
        if !self.watch.are_same() {
            return Ok(bare_response(alloc, Status::InternalServerError));
        }
        self.machine.respond(alloc, asked, body)
    }

    fn still_answers(&mut self, alloc: Global) -> bool {
        self.watch.are_same() && self.machine.still_answers(alloc)
    }
}

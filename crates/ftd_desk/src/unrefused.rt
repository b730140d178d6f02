//! What becomes of requests of which none is to be refused.

ghost use Rattle.std.specs.Prelude.{◌↔◌, All, IsTrue};
ghost use Rattle.ftd_desk.specs.Unrefused.{IsReply};

use ftd_machine::{Answer, is_bounded};

/// What became of requests that were asked together, to be kept all or none.
#[derive(Drop)]
pub enum AllOrNone {
    /// Each has this reply, and what they change is kept.
    Kept(Vec<Answer>),
    /// One of them is refused, or there was a fault. Nothing is changed.
    Dropped,
    /// The desk is stopped: a commit has failed, theirs or one before.
    Stopped,
}

/// Whether the answer is a reply, and one within the bound of an account's amounts.
fn is_reply(answer: &Answer) -> bool
    ensures { IsTrue result ↔ IsReply answer.now }
{
    match answer {
        Ok(reply) => is_bounded(reply),
        Err(_) => false,
    }
}

/// Whether each of the answers is a reply, and one within the bound of an account's amounts.
pub(crate) fn are_replies(answers: &[Answer]) -> bool
    ensures { IsTrue result ↔ All IsReply answers.now }
{
    for answer in answers {
        if !is_reply(answer) {
            return false;
        }
    }
    true
}

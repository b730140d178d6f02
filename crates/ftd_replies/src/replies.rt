//! The texts of replies.

ghost use Rattle.ftd_ports.specs.Writing.{Writes};
ghost use Rattle.ftd_machine.specs.Laws.{IsBounded};
ghost use Rattle.ftd_replies.specs.Replies.{posted_text, reply_text};

use ftd_answers::day_bytes;
use ftd_machine::{Difference, Reply};
use ftd_pages::{Frame, Style, Ways, write_facts_as};
use ftd_ports::{Target, WriteFault, write_pieces};
use ftd_verbs::AnswerFormat;
use itoa::Buffer;

/// The frame of a command's page: it has the style within, so that it needs no server, and no ways.
const FRAME: Frame = Frame {
    style: Style::Within,
    ways: Ways::Nowhere,
};

/// Writes the text of a reply, in a format where it has several.
pub fn write_reply<W: Target>(
    format: AnswerFormat,
    reply: &Reply,
    target: &mut W,
) -> Result<(), WriteFault>
    requires bounded { IsBounded reply.now }
    ensures { Writes result (W.taken target.old) (W.taken target.new)
        (W.failed target.new) (reply_text format reply.now) }
{
    match reply {
        Reply::Done => write_pieces(target, &[b"done", b"\n"]),
        Reply::Already => write_pieces(target, &[b"already", b"\n"]),
        Reply::Posted(difference) => write_posted(difference, target),
        Reply::Told(facts) => write_facts_as(&FRAME, format, facts, target),
    }
}

/// Writes how many obligations were removed and added, and the days that they cover.
fn write_posted<W: Target>(difference: &Difference, target: &mut W) -> Result<(), WriteFault>
    ensures { Writes result (W.taken target.old) (W.taken target.new)
        (W.failed target.new) (posted_text difference.now) }
{
    let (mut removed, mut added) = (Buffer::new(), Buffer::new());
    write_pieces(
        target,
        &[
            b"posted ",
            &day_bytes(difference.from),
            b" ",
            &day_bytes(difference.to),
            b" removed ",
            removed
                .format(difference.removed.as_slice().len())
                .as_bytes(),
            b" added ",
            added.format(difference.added.as_slice().len()).as_bytes(),
            b"\n",
        ],
    )
}

//! What is told, in a format that may be a page.

ghost use Rattle.ftd_ports.specs.Writing.{Writes};
ghost use Rattle.ftd_machine.specs.Questions.{AreBounded};
ghost use Rattle.ftd_pages.specs.Formats.{facts_as};

use crate::facts::write_facts_page;
use crate::frames::Frame;
use ftd_answers::write_facts;
use ftd_machine::Facts;
use ftd_ports::{Target, WriteFault};
use ftd_verbs::AnswerFormat;

/// Writes what is told, in a format; a page stands in the frame. It takes no memory but what the
/// target takes. Where the target fails, a prefix of the text was written, and it fails nowhere
/// else.
pub fn write_facts_as<W: Target>(
    frame: &Frame,
    format: AnswerFormat,
    facts: &Facts,
    target: &mut W,
) -> Result<(), WriteFault>
    requires bounded { AreBounded facts.now }
    ensures { Writes result (W.taken target.old) (W.taken target.new)
        (W.failed target.new) (facts_as frame.now format facts.now) }
{
    match format {
        AnswerFormat::Plain(format) => write_facts(format, facts, target),
        AnswerFormat::Page => write_facts_page(frame, facts, target),
    }
}

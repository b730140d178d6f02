//! Lists, each at its place: on a page of its own, or in a section of a page that tells several
//! things.

ghost use Rattle.std.specs.List.{flat_map};
ghost use Rattle.ftd_ports.specs.Writing.{Writes};
ghost use Rattle.ftd_pages.specs.Pages.{foot_text};
ghost use Rattle.ftd_pages.specs.Escapes.{shown};
ghost use Rattle.ftd_pages.specs.Sections.{list_at, none_in_section, page_heading};
ghost use Rattle.ftd_pages.specs.Sections.{section_heading, section_of};

use crate::escapes::write_escaped;
use crate::frames::{Place, Ways};
use crate::pages::{Page, write_page, write_table, write_title};
use crate::rows::PageRow;
use ftd_answers::Value;
use ftd_ports::{Target, WriteFault, write_all};

/// Writes the heading of the page.
#[tactic(auto, using(ftd_ports::proofs::WritingFacts::written_in_parts), unfolding(crate::specs::Sections::page_heading))]
pub fn write_page_heading<W: Target>(title: &[Value<'_>], target: &mut W) -> Result<(), WriteFault>
    ensures { Writes result (W.taken target.old) (W.taken target.new)
        (W.failed target.new) (page_heading (flat_map shown title.now)) }
{
    write_all(target, b"<h1>")?;
    write_title(title, target)?;
    write_all(target, b"</h1>\n")
}

/// Writes the heading of a section.
#[tactic(auto, using(ftd_ports::proofs::WritingFacts::written_in_parts), unfolding(crate::specs::Sections::section_heading))]
pub fn write_section_heading<W: Target>(
    title: &[Value<'_>],
    target: &mut W,
) -> Result<(), WriteFault>
    ensures { Writes result (W.taken target.old) (W.taken target.new)
        (W.failed target.new) (section_heading (flat_map shown title.now)) }
{
    write_all(target, b"<h2>")?;
    write_title(title, target)?;
    write_all(target, b"</h2>\n")
}

/// Writes a title and the sentence in place of a list that has no rows.
#[tactic(auto, using(ftd_ports::proofs::WritingFacts::written_in_parts), unfolding(crate::specs::Sections::none_in_section))]
pub fn write_none_in_section<W: Target>(
    title: &[Value<'_>],
    sentence: &str,
    target: &mut W,
) -> Result<(), WriteFault>
    ensures { Writes result (W.taken target.old) (W.taken target.new) (W.failed target.new)
        (none_in_section (flat_map shown title.now) sentence.now) }
{
    write_section_heading(title, target)?;
    write_all(target, b"<p>")?;
    write_escaped(sentence, target)?;
    write_all(target, b"</p>\n")
}

/// Writes a list as a section of a page that has these ways: the table of its rows, or the sentence
/// where it has none. Where the target fails, a prefix of that was written, and it fails nowhere
/// else.
pub fn write_section<T: PageRow, W: Target>(
    ways: Ways,
    list: &Page<'_>,
    rows: &[T],
    target: &mut W,
) -> Result<(), WriteFault>
    ensures { Writes result (W.taken target.old) (W.taken target.new) (W.failed target.new)
        (section_of ways (T.shape list.now.account.now) (flat_map shown list.now.title.now)
        list.now.sentence.now (foot_text list.now.foot) rows.now) }
{
    match rows.split_first() {
        None => write_none_in_section(list.title, list.sentence, target),
        Some((first, _)) => write_table(ways, list, first, rows, target),
    }
}

/// Writes a list at its place: as a page of its own, or as a section. It takes no memory but what
/// the target takes. Where the target fails, a prefix of that was written, and it fails nowhere
/// else.
pub fn write_list_at<T: PageRow, W: Target>(
    place: &Place,
    list: &Page<'_>,
    rows: &[T],
    target: &mut W,
) -> Result<(), WriteFault>
    ensures { Writes result (W.taken target.old) (W.taken target.new) (W.failed target.new)
        (list_at place.now list.now.account.now (T.shape list.now.account.now)
        (flat_map shown list.now.title.now) list.now.sentence.now (foot_text list.now.foot)
        rows.now) }
{
    match place {
        Place::Alone(frame) => write_page(frame, list, rows, target),
        Place::Section(ways) => write_section(*ways, list, rows, target),
    }
}

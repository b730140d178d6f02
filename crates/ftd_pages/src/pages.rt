//! A page, and a list in it.

ghost use Rattle.std.specs.List.{flat_map};
ghost use Rattle.ftd_ports.specs.Writing.{Writes};
ghost use Rattle.ftd_pages.specs.Pages.{foot_text, list_of, none_of, page_end, page_of};
ghost use Rattle.ftd_pages.specs.Pages.{page_start, table_of};
ghost use Rattle.ftd_pages.specs.Escapes.{shown};
ghost use Rattle.ftd_pages.specs.Rows.{body_for, header_for};

use crate::escapes::{Values, write_escaped};
use crate::feet::{Foot, write_foot};
use crate::frames::{Frame, Ways, write_style, write_ways};
use crate::rows::{BodyRows, PageRow, Part};
use ftd_answers::{Value, write_rows};
use ftd_ports::{Target, WriteFault, write_all};

/// What a page tells of a list besides its rows.
#[derive(Clone, Copy, Debug)]
pub struct Page<'a> {
    /// Its title, which is the caption of its list: words and values, one after the other.
    pub title: &'a [Value<'a>],
    /// The sentence in place of a list that has no rows.
    pub sentence: &'a str,
    /// The account that the rows are of; empty where they are of all accounts.
    pub account: &'a str,
    /// The sums below the rows.
    pub foot: Foot,
}

/// Writes a title.
pub fn write_title<W: Target>(title: &[Value<'_>], target: &mut W) -> Result<(), WriteFault>
    ensures { Writes result (W.taken target.old) (W.taken target.new)
        (W.failed target.new) (flat_map shown title.now) }
{
    write_rows(&Values, title, target)
}

/// Writes a page up to what it tells. It is of an account, or of none, which is the empty text.
/// Where the target fails, a prefix of that was written, and it fails nowhere else.
pub fn write_start<W: Target>(
    frame: &Frame,
    account: &str,
    title: &[Value<'_>],
    target: &mut W,
) -> Result<(), WriteFault>
    ensures { Writes result (W.taken target.old) (W.taken target.new) (W.failed target.new)
        (page_start frame.now account.now (flat_map shown title.now)) }
{
    write_all(
        target,
        b"<!DOCTYPE html>\n<html lang=\"en\">\n<head>\n<meta charset=\"utf-8\">\n\
          <meta name=\"viewport\" content=\"width=device-width, initial-scale=1\">\n<title>",
    )?;
    write_title(title, target)?;
    write_all(target, b"</title>\n")?;
    write_style(frame.style, target)?;
    write_all(target, b"</head>\n<body>\n")?;
    write_ways(frame.ways, account, target)?;
    write_all(target, b"<main>\n")
}

/// Writes a table of rows on a page that has these ways, with the heads of the columns as the first
/// row names them.
pub fn write_table<T: PageRow, W: Target>(
    ways: Ways,
    page: &Page<'_>,
    first: &T,
    rows: &[T],
    target: &mut W,
) -> Result<(), WriteFault>
    ensures { Writes result (W.taken target.old) (W.taken target.new) (W.failed target.new)
        (table_of (flat_map shown page.now.title.now)
        (header_for (T.shape page.now.account.now) first.now)
        (flat_map (body_for ways (T.shape page.now.account.now)) rows.now)
        (foot_text page.now.foot)) }
{
    let body = BodyRows {
        account: page.account,
        ways,
    };
    write_all(target, b"<table>\n<caption>")?;
    write_title(page.title, target)?;
    write_all(target, b"</caption>\n")?;
    first.write_part(page.account, Part::Header, target)?;
    write_all(target, b"<tbody>\n")?;
    write_rows(&body, rows, target)?;
    write_all(target, b"</tbody>\n")?;
    write_foot(page.foot, target)?;
    write_all(target, b"</table>\n")
}

/// Writes the sentence in place of what a page tells, where there is nothing to tell.
pub fn write_none<W: Target>(
    title: &[Value<'_>],
    sentence: &str,
    target: &mut W,
) -> Result<(), WriteFault>
    ensures { Writes result (W.taken target.old) (W.taken target.new) (W.failed target.new)
        (none_of (flat_map shown title.now) sentence.now) }
{
    write_all(target, b"<h1>")?;
    write_title(title, target)?;
    write_all(target, b"</h1>\n<p>")?;
    write_escaped(sentence, target)?;
    write_all(target, b"</p>\n")
}

/// Writes a list on a page that has these ways: the table of its rows, or the sentence where it has
/// none.
fn write_list<T: PageRow, W: Target>(
    ways: Ways,
    page: &Page<'_>,
    rows: &[T],
    target: &mut W,
) -> Result<(), WriteFault>
    ensures { Writes result (W.taken target.old) (W.taken target.new) (W.failed target.new)
        (list_of ways (T.shape page.now.account.now) (flat_map shown page.now.title.now)
        page.now.sentence.now (foot_text page.now.foot) rows.now) }
{
    match rows.split_first() {
        None => write_none(page.title, page.sentence, target),
        Some((first, _)) => write_table(ways, page, first, rows, target),
    }
}

/// Writes a page from behind what it tells. Where the target fails, a prefix of that was written,
/// and it fails nowhere else.
pub fn write_end<W: Target>(target: &mut W) -> Result<(), WriteFault>
    ensures { Writes result (W.taken target.old) (W.taken target.new)
        (W.failed target.new) page_end }
{
    write_all(target, b"</main>\n</body>\n</html>\n")
}

/// Writes a list as a page. It takes no memory but what the target takes. Where the target fails, a
/// prefix of the page was written, and it fails nowhere else.
pub fn write_page<T: PageRow, W: Target>(
    frame: &Frame,
    page: &Page<'_>,
    rows: &[T],
    target: &mut W,
) -> Result<(), WriteFault>
    ensures { Writes result (W.taken target.old) (W.taken target.new) (W.failed target.new)
        (page_of frame.now page.now.account.now (flat_map shown page.now.title.now)
        (list_of frame.now.ways (T.shape page.now.account.now) (flat_map shown page.now.title.now)
        page.now.sentence.now (foot_text page.now.foot) rows.now)) }
{
    write_start(frame, page.account, page.title, target)?;
    write_list(frame.ways, page, rows, target)?;
    write_end(target)
}

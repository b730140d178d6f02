//! What stands around the list of a page.

ghost use Rattle.ftd_ports.specs.Writing.{Writes};
ghost use Rattle.ftd_pages.specs.Pages.{sheet_within, style_text, ways_from, ways_start};
ghost use Rattle.ftd_pages.specs.Pages.{ways_text};

use crate::links::write_account_way_if;
use crate::style::STYLE;
use ftd_answers::day_bytes;
use ftd_days::Day;
use ftd_ports::{Target, WriteFault, write_all, write_pieces};

/// What stands around the list of a page.
#[derive(Clone, Copy, Debug)]
pub struct Frame {
    /// Where its style comes from.
    pub style: Style,
    /// Which ways lead to other pages.
    pub ways: Ways,
}

/// Where the style of a page comes from.
#[derive(Clone, Copy, Debug)]
pub enum Style {
    /// The page has the style sheet within, so that it needs nothing else.
    Within,
    /// The page links the style sheet of a server.
    Linked,
}

/// The ways from a page to others.
#[derive(Clone, Copy, Debug)]
pub enum Ways {
    /// There are none.
    Nowhere,
    /// To what is owed as of today until a day, to what is due from today to that day, to the
    /// accounts, and to the forms; from the page that is of an account also to the account's.
    From {
        /// The day as of which the pages tell.
        today: Day,
        /// The last day on which what they tell is due.
        until: Day,
    },
}

/// Where what is told stands.
#[derive(Clone, Copy, Debug)]
pub enum Place {
    /// On a page of its own.
    Alone(Frame),
    /// In a section of a page that tells several things and has these ways.
    Section(Ways),
}

/// Writes a style sheet within a page.
fn write_sheet<W: Target>(sheet: &str, target: &mut W) -> Result<(), WriteFault>
    ensures { Writes result (W.taken target.old) (W.taken target.new)
        (W.failed target.new) (sheet_within sheet.now) }
{
    write_pieces(target, &[b"<style>\n", sheet.as_bytes(), b"</style>\n"])
}

/// Writes the style of a page.
pub fn write_style<W: Target>(style: Style, target: &mut W) -> Result<(), WriteFault>
    ensures { Writes result (W.taken target.old) (W.taken target.new)
        (W.failed target.new) (style_text style) }
{
    match style {
        Style::Within => write_sheet(STYLE, target),
        Style::Linked => write_all(target, b"<link rel=\"stylesheet\" href=\"/style.css\">\n"),
    }
}

/// Writes the start of the ways from a page to others: those that each page has.
fn write_ways_start<W: Target>(today: Day, until: Day, target: &mut W) -> Result<(), WriteFault>
    ensures { Writes result (W.taken target.old) (W.taken target.new)
        (W.failed target.new) (ways_start today until) }
{
    let (now, last) = (day_bytes(today), day_bytes(until));
    let pieces: [&[u8]; 11] = [
        b"<nav aria-label=\"Pages\"><a href=\"/owed/",
        &now,
        b"/",
        &last,
        b"/html\">Owed</a> <a href=\"/agenda/",
        &now,
        b"/",
        &last,
        b"/",
        &now,
        b"/html\">Due</a> <a href=\"/lists/accounts/html\">Accounts</a> \
          <a href=\"/forms\">Enter</a>",
    ];
    write_pieces(target, &pieces)
}

/// Writes the ways from a page to others: those that each page has, and from the page that is of an
/// account the way to the account's.
#[tactic(auto, using(ftd_ports::proofs::WritingFacts::written_in_parts), unfolding(crate::specs::Pages::ways_from))]
fn write_ways_from<W: Target>(
    today: Day,
    until: Day,
    account: &str,
    target: &mut W,
) -> Result<(), WriteFault>
    ensures { Writes result (W.taken target.old) (W.taken target.new)
        (W.failed target.new) (ways_from today until account.now) }
{
    write_ways_start(today, until, target)?;
    write_account_way_if(account, target)?;
    write_all(target, b"</nav>\n")
}

/// Writes the ways from a page to others, if it has any: also to the page of the account that it is
/// of, if it is of one.
pub fn write_ways<W: Target>(ways: Ways, account: &str, target: &mut W) -> Result<(), WriteFault>
    ensures { Writes result (W.taken target.old) (W.taken target.new)
        (W.failed target.new) (ways_text ways account.now) }
{
    match ways {
        Ways::Nowhere => Ok(()),
        Ways::From { today, until } => write_ways_from(today, until, account, target),
    }
}

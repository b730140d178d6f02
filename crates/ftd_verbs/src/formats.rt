//! The formats in which an answer may be asked for.

ghost use Rattle.std.specs.Prelude.{◌≡◌};
ghost use Rattle.ftd_verbs.specs.Formats.{format_named, named, takes};

use ftd_answers::{Format, ListFormat};

/// The format in which an answer is told.
#[derive(Clone, Copy, Debug, PartialEq, Eq)]
pub enum AnswerFormat {
    /// That of a list or of a calendar, with no page around it.
    Plain(Format),
    /// A page of HTML.
    Page,
}

/// Text, in which each answer can be told.
pub const TEXT: AnswerFormat = AnswerFormat::Plain(Format::List(ListFormat::Text));

/// JSON.
pub const JSON: AnswerFormat = AnswerFormat::Plain(Format::List(ListFormat::Json));

/// The formats in which an answer may be asked for.
#[derive(Clone, Copy, Debug, PartialEq, Eq)]
pub enum Formats {
    /// None is asked for: it is told in one way.
    Fixed,
    /// Text, JSON or a page, as why an obligation is so.
    Explanation,
    /// Text, CSV, JSON or a page, as a list.
    List,
    /// Those of a list, or a calendar, as what is due over all accounts.
    Calendar,
}

impl Formats {
    /// Whether a format is one of these.
    pub fn takes(self, format: AnswerFormat) -> bool
        ensures { result ≡ takes self format }
    {
        match (self, format) {
            (Formats::Fixed, _) => false,
            (Formats::Explanation, AnswerFormat::Plain(Format::List(ListFormat::Csv))) => false,
            (Formats::Explanation | Formats::List, AnswerFormat::Plain(Format::Calendar)) => false,
            (Formats::Explanation | Formats::List | Formats::Calendar, _) => true,
        }
    }

    /// The one of these formats that is named so, if one is.
    pub fn by_name(self, text: &str) -> Option<AnswerFormat>
        ensures { result ≡ named self text.now }
    {
        let format = format_named(text)?;
        if self.takes(format) {
            Some(format)
        } else {
            None
        }
    }
}

/// The format that is named so.
fn format_named(text: &str) -> Option<AnswerFormat>
    ensures { result ≡ format_named text.now }
{
    match text {
        "text" => Some(TEXT),
        "csv" => Some(AnswerFormat::Plain(Format::List(ListFormat::Csv))),
        "json" => Some(JSON),
        "ics" => Some(AnswerFormat::Plain(Format::Calendar)),
        "html" => Some(AnswerFormat::Page),
        _ => None,
    }
}

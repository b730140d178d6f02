//! Lines of a script that are listed, to be asked of the desk together.

ghost use Rattle.std.specs.Prelude.{◌≡◌, ◌<◌, ◌++◌, [], IfErr, IfOk, vec_capacity, vec_len};
ghost use Rattle.ftd_replies.specs.Notes.{asked_when_done};
ghost use Rattle.ftd_shell.specs.Listed.{in_list};
ghost use Rattle.ftd_shell.specs.Understanding.{Adds, StaysListed, Takes};

use crate::understood::{Entry, Understood};
use ftd_cli::Piece;
use ftd_machine::{AccountName, Question, Request};
use ftd_verbs::AnswerFormat;
use std::alloc::{AllocError, Global};

/// How many lines are listed at most.
const MOST_LINES: usize = 1_024;

/// From how many bytes of their words on no more lines are listed.
const MOST_BYTES: usize = 262_144;

/// A line that is listed.
#[derive(Drop)]
pub(crate) struct ListedLine {
    pub number: u64,
    /// The line, to be answered alone if need be.
    pub piece: Piece,
    /// Its words, as they are shown.
    pub shown: String,
    /// The format in which a reply is told.
    pub format: AnswerFormat,
    /// Whether the desk is asked something after its request.
    pub has_note: bool,
}

/// Lines that are listed, and what the desk is asked for them, one after the other.
#[derive(Drop)]
pub(crate) struct Listed {
    pub lines: Vec<ListedLine>,
    pub requests: Vec<Request>,
    bytes: usize,
}

/// What the desk is asked after the request was done.
fn note_question(alloc: Global, request: &Request) -> Result<Option<Request>, AllocError>
    ensures { IfOk result (λ question. question ≡ asked_when_done request.now) }
{
    let Request::Pay {
        account,
        payment,
        ..
    } = request
    else {
        return Ok(None);
    };
    let account = AccountName::copy_of(alloc, account.as_str())?;
    let day = payment.for_day;
    Ok(Some(Request::Question(Question::Explain { account, day })))
}

/// Adds the question, if there is one, where there is room for it.
fn push_question(requests: &mut Vec<Request>, question: Option<Request>)
    requires room { vec_len requests.old < vec_capacity requests.old }
    ensures { requests.new.items ≡ requests.old.items ++ in_list question }
{
    if let Some(question) = question {
        requests.push_reserved(question);
    }
}

impl Listed {
    /// No line is listed.
    pub fn none(alloc: Global) -> Listed
        ensures lines { result.lines.items ≡ [] }
        ensures requests { result.requests.items ≡ [] }
    {
        Listed {
            lines: Vec::new(alloc),
            requests: Vec::new(alloc),
            bytes: 0,
        }
    }

    /// Forgets the lines that are listed.
    pub fn clear(&mut self)
        ensures lines { self.new.lines.items ≡ [] }
        ensures requests { self.new.requests.items ≡ [] }
    {
        self.lines.clear();
        self.requests.clear();
        self.bytes = 0;
    }

    /// Whether no more lines are listed.
    pub fn is_full(&self) -> bool {
        self.lines.len() >= MOST_LINES || self.bytes >= MOST_BYTES
    }

    /// Lists a line that asks this. What it asks is given back where there is no memory for it.
    fn push(&mut self, alloc: Global, number: u64, piece: Piece, entry: Entry) -> Result<(), Entry>
        ensures ok { IfOk result (λ _. Adds number piece entry self.old self.new) }
        ensures err { IfErr result (λ given. given ≡ entry) }
        ensures stays { IfErr result (λ _. StaysListed self.old self.new) }
    {
        let Ok(question) = note_question(alloc, &entry.request) else {
            return Err(entry);
        };
        let Ok(()) = self.requests.reserve(2) else {
            return Err(entry);
        };
        let Ok(()) = self.lines.reserve(1) else {
            return Err(entry);
        };
        let Entry {
            shown,
            format,
            request,
        } = entry;
        self.bytes = self.bytes.saturating_add(shown.len());
        self.lines.push_reserved(ListedLine {
            number,
            piece,
            shown,
            format,
            has_note: question.is_some(),
        });
        self.requests.push_reserved(request);
        push_question(&mut self.requests, question);
        Ok(())
    }

    /// Lists the line if it may be asked together with others. Gives back one that is to be
    /// answered alone.
    pub fn take(
        &mut self,
        alloc: Global,
        number: u64,
        piece: Piece,
        understood: Understood,
    ) -> Option<Understood>
        ensures { Takes number piece understood self.old self.new result }
    {
        match understood {
            Understood::Enters(entry) => match self.push(alloc, number, piece, entry) {
                Ok(()) => None,
                Err(entry) => Some(Understood::Enters(entry)),
            },
            understood => Some(understood),
        }
    }
}

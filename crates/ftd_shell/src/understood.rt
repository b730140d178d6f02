//! What lines of a script ask, once their words are read.

ghost use Rattle.std.specs.Prelude.{◌≡◌, Ok, Some, is_some};
ghost use Rattle.ftd_cli.specs.declared.tasks.Job.TheVariants.{Ask};
ghost use Rattle.ftd_machine.specs.Questions.{question_of};
ghost use Rattle.ftd_shell.specs.Understanding.{UnderstoodAs, words_of};

use ftd_cli::{CliFault, Job};
use ftd_machine::Request;
use ftd_verbs::AnswerFormat;

/// What a line asks of the desk, a request that is no question.
#[derive(Drop)]
pub(crate) struct Entry {
    /// The words of the line, as they are shown.
    pub shown: String,
    /// The format in which a reply is told.
    pub format: AnswerFormat,
    pub request: Request,
}

/// The words of a line, as they are shown, and what they ask: a job, if it is one that a shell
/// does.
#[derive(Drop)]
pub(crate) struct Words {
    pub shown: String,
    pub asked: Result<Option<Job>, CliFault>,
}

/// A line that was read.
#[derive(Drop)]
pub(crate) enum Understood {
    /// It asks nothing, or is the script's end.
    Nothing,
    /// It has a word that is no text.
    NoText,
    /// It is too long.
    TooLong,
    /// There was no memory for it.
    NoMemory,
    /// It asks this of the desk, which may be asked together with what others ask.
    Enters(Entry),
    /// It asks something else, which is answered alone.
    Asks(Words),
}

impl Entry {
    /// The same, to be answered alone.
    pub fn into_words(self) -> Words
        ensures { result ≡ words_of self }
    {
        let Entry {
            shown,
            format,
            request,
        } = self;
        Words {
            shown,
            asked: Ok(Some(Job::Ask { format, request })),
        }
    }
}

/// Whether the request is a question.
fn is_question(request: &Request) -> bool
    ensures { result ≡ is_some (question_of request.now) }
{
    request.question().is_some()
}

/// The line of these words, as they are shown, that ask this request.
pub(crate) fn of_request(shown: String, format: AnswerFormat, request: Request) -> Understood
    ensures { UnderstoodAs (record { shown = shown; asked = Ok (Some (Ask format request)) })
        result }
{
    let entry = Entry {
        shown,
        format,
        request,
    };
    if is_question(&entry.request) {
        Understood::Asks(entry.into_words())
    } else {
        Understood::Enters(entry)
    }
}

/// The line of these words, as they are shown, that ask this.
pub(crate) fn of_words(shown: String, asked: Result<Option<Job>, CliFault>) -> Understood
    ensures { UnderstoodAs (record { shown = shown; asked = asked }) result }
{
    match asked {
        Ok(Some(Job::Ask { format, request })) => of_request(shown, format, request),
        asked => Understood::Asks(Words { shown, asked }),
    }
}

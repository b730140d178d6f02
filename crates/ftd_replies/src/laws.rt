//! What follows from the definitions alone: each function's contract is a law, and its body is
//! empty.

ghost use Rattle.std.specs.Prelude.{◌≤◌, ℕ, List, Option, length};
ghost use Rattle.ftd_rules.specs.Lists.{Has};
ghost use Rattle.ftd_machine.specs.Journal.{journal};
ghost use Rattle.ftd_machine.specs.Sound.{IsSound};
ghost use Rattle.ftd_machine.specs.State.{State};
ghost use Rattle.ftd_machine.specs.declared.requests.Request.{Request};
ghost use Rattle.ftd_cli.specs.Lines.{first_line};
ghost use Rattle.ftd_cli.specs.declared.lines.TheConstants.{MOST_LINE};
ghost use Rattle.ftd_replies.specs.LineLaws.{AsksInTurn, AsksIt, IsCommandLine, IsOneLine, IsShort};
ghost use Rattle.ftd_replies.specs.LineLaws.{IsWritable, words_of_line};
ghost use Rattle.ftd_replies.specs.RequestLines.{lines_of, request_line};

/// The line of a request is the command that asks it. For each request that enters, posts, pays,
/// voids or corrects something, and whose values are such as requests have:
pub fn a_line_asks_its_request()
    // The words of its line, with the desk's file put among them as a shell puts it, ask exactly
    // this request of the desk in that file, whatever day it is.
    ensures asks { (request : Request) (db : List ℕ) (today : Option ℕ) → IsWritable request
        → AsksIt today db request }

    // Its line is one line of a script, whatever comes behind it.
    ensures one_line { (request : Request) (rest : List ℕ) → IsWritable request
        → IsOneLine (request_line request) rest }

    // It is not too long for a shell, if it gives no calendar of more than 60 days.
    ensures short { (request : Request) → IsWritable request → IsShort request
        → length (first_line (request_line request)) ≤ MOST_LINE }

    // A shell takes it for a command: it is no comment, and its words are texts.
    ensures command { (request : Request) → IsWritable request
        → IsCommandLine (words_of_line request) }
{}

/// The lines of a journal are the commands that ask its requests. In the journal of a sound state,
/// which each state is that requests lead to:
pub fn a_journal_asks_its_requests()
    // Each request has values that can be written, and gives no calendar of more than 60 days.
    ensures writable { (s : State) (request : Request) → IsSound s → Has (journal s) request
        → IsWritable request }
    ensures short { (s : State) (request : Request) → IsSound s → Has (journal s) request
        → IsShort request }

    // A shell that takes its lines one after the other asks its requests of the desk in a file, in
    // their order, and nothing else.
    ensures asks { (s : State) (db : List ℕ) (today : Option ℕ) → IsSound s
        → AsksInTurn today db (lines_of (journal s)) (journal s) }
{}

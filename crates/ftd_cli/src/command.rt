//! The command line of a table, as `clap` reads it.

ghost use Rattle.std.specs.Prelude.{◌≡◌, IfOk, false};
ghost use Rattle.clap.specs.Words.{app_of, rule_of, shape_of, with_rule, with_subcommand};
ghost use Rattle.clap.specs.declared.builder.command.Command.TheViews.{out-Command};
ghost use Rattle.ftd_cli.specs.Apps.{app_for, ftd_app, program, rule_for, seconds_or};
ghost use Rattle.ftd_cli.specs.Apps.{single, with_fields, with_names, with_words};

use crate::{NAMES, Name, Takes, Word};
use clap::builder::ValueParser;
use clap::{Arg, ArgAction, Command};
use ftd_verbs::Field;
use std::alloc::{AllocError, Global};

/// What the desk is for, and how its commands are told. The whole help has 46 lines.
const ABOUT: &str =
    "Federal tax deposits by Pub. 15, section 11. ftd COMMAND --help has an example.";

/// How many seconds a word may give.
const MOST_SECONDS: i64 = 3_600;

/// An argument that takes a whole number of seconds, at least so many and at most 3,600; so many if
/// it is not there.
fn seconds_or<'a>(arg: Arg<'a>, least: i64, default: &'a str) -> Arg<'a>
    ensures rule { rule_of result ≡ seconds_or least default.now (rule_of arg.entry) }
    ensures local { result.global ≡ arg.entry.global }
{
    arg.default_value(default)
        .value_parser(ValueParser::Signed(least, MOST_SECONDS))
}

/// A word as an argument.
fn arg_of<'a>(alloc: Global, word: Word) -> Arg<'a>
    ensures rule { rule_of result ≡ rule_for word }
    ensures local { result.global ≡ false }
{
    let arg = Arg::new(alloc, word.text())
        .value_name(word.value())
        .help(word.help());
    let arg = if word.is_option() {
        arg.long(word.text())
    } else {
        arg
    };
    match word.takes() {
        Takes::Text => arg.required(true),
        Takes::Optional => arg,
        Takes::Number(low, high) => arg
            .required(true)
            .value_parser(ValueParser::Signed(low, high)),
        Takes::OptionalNumber(low, high) => arg.value_parser(ValueParser::Signed(low, high)),
        Takes::Texts => arg.action(ArgAction::Append),
        Takes::Nothing => arg.action(ArgAction::SetTrue),
        Takes::Form => arg.default_value("941"),
        Takes::Format => arg.default_value("text"),
        Takes::Script => arg.default_value("-"),
        Takes::Wait => seconds_or(arg, 0, "0"),
        Takes::Idle => seconds_or(arg, 1, "1"),
        Takes::Silence => seconds_or(arg, 1, "10"),
        Takes::Duration => seconds_or(arg, 1, "60"),
    }
}

/// A command with no global argument, with one more argument.
fn with_arg<'a>(command: Command<'a>, arg: Arg<'a>) -> Result<Command<'a>, AllocError>
    requires plain { arg.global ≡ false }
    requires local { (out-Command command).has_globals ≡ false }
    ensures app { IfOk result
        (λ c. app_of c ≡ with_rule (app_of command.entry) (rule_of arg.entry)) }
    ensures local { IfOk result (λ c. (out-Command c).has_globals ≡ false) }
{
    command.arg(arg)
}

/// A command with one more subcommand.
fn with_command<'a>(command: Command<'a>, sub: Command<'a>) -> Result<Command<'a>, AllocError>
    requires plain { (out-Command sub).has_globals ≡ false }
    requires local { (out-Command command).has_globals ≡ false }
    ensures app { IfOk result
        (λ c. app_of c ≡ with_subcommand (app_of command.entry) (shape_of sub.entry)) }
    ensures local { IfOk result (λ c. (out-Command c).has_globals ≡ false) }
{
    command.subcommand(sub)
}

/// A command with these words more.
fn with_words<'a>(
    alloc: Global,
    command: Command<'a>,
    words: &[Word],
) -> Result<Command<'a>, AllocError>
    requires local { (out-Command command).has_globals ≡ false }
    ensures app { IfOk result (λ c. app_of c ≡ with_words (app_of command.entry) words.now) }
    ensures local { IfOk result (λ c. (out-Command c).has_globals ≡ false) }
{
    let mut command = command;
    for word in words {
        command = with_arg(command, arg_of(alloc, *word))?;
    }
    Ok(command)
}

/// A command with the words of these fields more.
fn with_fields<'a>(
    alloc: Global,
    command: Command<'a>,
    fields: &[Field],
) -> Result<Command<'a>, AllocError>
    requires local { (out-Command command).has_globals ≡ false }
    ensures app { IfOk result (λ c. app_of c ≡ with_fields (app_of command.entry) fields.now) }
    ensures local { IfOk result (λ c. (out-Command c).has_globals ≡ false) }
{
    let mut command = command;
    for field in fields {
        command = with_arg(command, arg_of(alloc, Word::Field(*field)))?;
    }
    Ok(command)
}

/// A subcommand.
fn command_of<'a>(alloc: Global, name: Name) -> Result<Command<'a>, AllocError>
    ensures app { IfOk result (λ c. app_of c ≡ app_for name) }
    ensures local { IfOk result (λ c. (out-Command c).has_globals ≡ false) }
{
    let command = Command::new(alloc, name.text())
        .about(name.about())
        .after_help(name.example());
    let command = with_words(alloc, command, name.words())?;
    with_fields(alloc, command, name.fields())
}

/// The program with no subcommand yet.
fn top_command<'a>(alloc: Global) -> Command<'a>
    ensures app { app_of result ≡ program }
    ensures local { (out-Command result).has_globals ≡ false }
{
    Command::new(alloc, "ftd")
        .about(ABOUT)
        .version("1")
        .subcommand_required(true)
}

/// A command with these subcommands more.
#[tactic(auto, unfolding(crate::specs::Apps::with_names))]
fn with_all<'a>(
    alloc: Global,
    command: Command<'a>,
    names: &[Name],
) -> Result<Command<'a>, AllocError>
    requires local { (out-Command command).has_globals ≡ false }
    ensures app { IfOk result (λ c. app_of c ≡ with_names (app_of command.entry) names.now) }
    ensures local { IfOk result (λ c. (out-Command c).has_globals ≡ false) }
{
    let mut command = command;
    for name in names {
        command = with_command(command, command_of(alloc, *name)?)?;
    }
    Ok(command)
}

/// The command line with this subcommand alone.
pub fn single_command<'a>(alloc: Global, name: Name) -> Result<Command<'a>, AllocError>
    ensures app { IfOk result (λ c. app_of c ≡ single name) }
    ensures local { IfOk result (λ c. (out-Command c).has_globals ≡ false) }
{
    with_command(top_command(alloc), command_of(alloc, name)?)
}

/// The whole command line.
pub fn ftd_command<'a>(alloc: Global) -> Result<Command<'a>, AllocError>
    ensures app { IfOk result (λ c. app_of c ≡ ftd_app) }
    ensures local { IfOk result (λ c. (out-Command c).has_globals ≡ false) }
{
    with_all(alloc, top_command(alloc), &NAMES)
}

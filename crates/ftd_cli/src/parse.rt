//! The words, as `clap` gives them to the arguments.

ghost use Rattle.std.specs.Prelude.{◌≡◌, IfOk, false, map};
ghost use Rattle.std.specs.String.{string_bytes};
ghost use Rattle.clap.specs.Words.{HasKind, Kinds, app_of};
ghost use Rattle.clap.specs.declared.builder.command.Command.TheViews.{out-Command};
ghost use Rattle.ftd_cli.specs.Parses.{FaultIn, ParseGives, ReadsAsWhole};

use crate::command::{ftd_command, single_command};
use crate::deciding::named_command;
use clap::error::ErrorKind;
use clap::{ArgMatches, Command, Error};
use std::alloc::{AllocError, Global};

/// Why words ask nothing.
#[derive(Drop)]
pub enum ParseFault {
    /// `clap` refuses them, or they ask for help or the version: its text tells.
    Refused(Error),
    /// Out of memory.
    Memory,
}

/// What an error of `clap` says.
fn fault_from(e: Error) -> ParseFault
    ensures { (kinds : Kinds) → HasKind kinds e → FaultIn result kinds }
{
    if matches!(e.kind(), ErrorKind::OutOfMemory) {
        ParseFault::Memory
    } else {
        ParseFault::Refused(e)
    }
}

/// The command line that reads the words: with the subcommand alone that they name, since the whole
/// one is 36 times as long to make, and reads them alike. The whole one if they name none.
fn command_for<'a>(alloc: Global, words: &[String]) -> Result<Command<'a>, AllocError>
    ensures app { IfOk result (λ c. ReadsAsWhole (app_of c) (map string_bytes words.now)) }
    ensures local { IfOk result (λ c. (out-Command c).has_globals ≡ false) }
{
    match named_command(words) {
        Some(name) => single_command(alloc, name),
        None => ftd_command(alloc),
    }
}

/// The words of a command line, of which the first is the program's name, by subcommand and
/// argument.
pub fn parse(alloc: Global, words: &[String]) -> Result<ArgMatches<'_>, ParseFault>
    ensures { ParseGives result (map string_bytes words.entry.now) }
{
    let Ok(command) = command_for(alloc, words) else {
        return Err(ParseFault::Memory);
    };
    match command.try_get_matches_from(words) {
        Ok(matches) => Ok(matches),
        Err(e) => Err(fault_from(e)),
    }
}

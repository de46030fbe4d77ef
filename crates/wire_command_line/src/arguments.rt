//! Commands and their arguments as a table says them, and what `clap` takes for them.

ghost use Rattle.std.specs.Prelude.{◌≡◌, false, IfOk};
ghost use Rattle.clap.specs.Words.{rule_of};
ghost use Rattle.wire_command_line.specs.CommandLine.{IsLine};
ghost use Rattle.wire_command_line.specs.Tables.{line_said, rule_said};

use clap::{Arg, ArgAction, Command};
use std::alloc::{AllocError, Global};

/// How an argument is given.
#[derive(Clone, Copy)]
pub(crate) enum Kind {
    /// As a word of the command's own, which may be left out.
    Word,
    /// As a word of the command's own that has to be given.
    NeededWord,
    /// As an option without a word of its own.
    Flag,
    /// As an option with a number for its word.
    Number,
    /// As an option with a list of groups, each with a number, for its word.
    Groups,
    /// As an option with the name of a way for its word.
    Way,
}

/// An argument of a command.
#[derive(Clone, Copy)]
pub(crate) struct Argument<'a> {
    pub name: &'a str,
    pub kind: Kind,
    pub help: &'a str,
}

/// A command of the program.
#[derive(Clone, Copy)]
pub(crate) struct Subcommand<'a> {
    pub name: &'a str,
    pub about: &'a str,
    /// The arguments in the order in which help lists them.
    pub arguments: &'a [Argument<'a>],
}

/// Makes an argument.
fn make_argument<'a>(alloc: Global, argument: Argument<'a>) -> Arg<'a>
    ensures rule { rule_of result ≡ rule_said argument.entry }
    ensures local { result.global ≡ false }
{
    let made = Arg::new(alloc, argument.name).help(argument.help);
    match argument.kind {
        Kind::Word => made,
        Kind::NeededWord => made.required(true),
        Kind::Flag => made.long(argument.name).action(ArgAction::SetTrue),
        Kind::Number => made.long(argument.name).value_name("COUNT"),
        Kind::Groups => made.long(argument.name).value_name("GROUPS"),
        Kind::Way => made.long(argument.name).value_name("WAY"),
    }
}

/// Makes a command.
pub(crate) fn make_command<'a>(
    alloc: Global,
    command: Subcommand<'a>,
) -> Result<Command<'a>, AllocError>
    ensures { IfOk result (IsLine (line_said command.entry)) }
{
    let mut line = Command::new(alloc, command.name).about(command.about);
    for argument in command.arguments {
        line = line.arg(make_argument(alloc, *argument))?;
    }
    Ok(line)
}

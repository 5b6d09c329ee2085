// The words behind a command, as clap reads them.
ghost use Rattle.std.specs.Prelude.{◌≡◌, IfOk, map, drop, true, false, string_bytes};
ghost use Rattle.std.specs.List.{fold};
ghost use Rattle.clap.specs.Words.{app_of, is_simple_and_free};
ghost use Rattle.cli_words.specs.Line.{uses_of};
ghost use Rattle.cli_words.specs.Commands.{has_dashes};
ghost use Rattle.cli_words.specs.Shapes.{Matched, Finds, with_operand, with_option, app_for};
ghost use Rattle.cli_words.specs.Subcommands.{operands_of, options_of};

use crate::subcommand::Subcommand;
use base_types::Memory;
use clap::error::ErrorKind;
use clap::{Arg, ArgMatches, Command};
use std::alloc::{AllocError, Global};

/// The command with one more operand. The argument is made where it is added: one that was made before would have to
/// be let go, part by part, wherever memory is wanting.
fn with_operand<'a>(
    alloc: Global,
    command: Command<'a>,
    name: &'a str,
) -> Result<Command<'a>, AllocError>
    ensures { IfOk result (λ c. app_of c ≡ with_operand (app_of command.entry) name.now) }
{
    command.arg(Arg::new(alloc, name))
}

/// The command with one more option, which takes a value.
fn with_option<'a>(
    alloc: Global,
    command: Command<'a>,
    name: &'a str,
) -> Result<Command<'a>, AllocError>
    ensures { IfOk result (λ c. app_of c ≡ with_option (app_of command.entry) name.now) }
{
    command.arg(Arg::new(alloc, name).long(name))
}

fn with_operands<'a>(
    alloc: Global,
    command: Command<'a>,
    names: &[&'a str],
) -> Result<Command<'a>, AllocError>
    ensures { IfOk result (λ c. app_of c
        ≡ fold (λ a name. with_operand a name.now) (app_of command.entry) names.entry.now) }
{
    let mut command = command;
    for name in names {
        command = with_operand(alloc, command, name)?;
    }
    Ok(command)
}

fn with_options<'a>(
    alloc: Global,
    command: Command<'a>,
    names: &[&'a str],
) -> Result<Command<'a>, AllocError>
    ensures { IfOk result (λ c. app_of c
        ≡ fold (λ a name. with_option a name.now) (app_of command.entry) names.entry.now) }
{
    let mut command = command;
    for name in names {
        command = with_option(alloc, command, name)?;
    }
    Ok(command)
}

/// The command that clap reads. Help is none of its words, so that it never prints.
fn command_for<'a>(alloc: Global, which: Subcommand) -> Result<Command<'a>, AllocError>
    ensures app { IfOk result (λ c. app_of c ≡ app_for which) }
    ensures simple { IfOk result (λ c. is_simple_and_free (app_of c) ≡ true) }
{
    let command = Command::new(alloc, which.name()).disable_help_flag(true);
    let command = with_operands(alloc, command, which.operands())?;
    with_options(alloc, command, which.options())
}

/// What clap makes of the words, of which it takes the first as the program's name; none exactly where it
/// refuses them.
fn matched<'a>(command: Command<'a>, words: &'a [String]) -> Result<Option<ArgMatches<'a>>, Memory>
    requires { is_simple_and_free (app_of command) ≡ true }
    ensures { IfOk result (Matched (app_of command.entry) (map string_bytes words.entry.now)) }
{
    match command.try_get_matches_from(words) {
        Ok(matches) => Ok(Some(matches)),
        Err(error) => {
            let lacks_memory = error.kind() == ErrorKind::OutOfMemory;
            // `drop` lets each type go by a function of its own, which is proved once
            drop(error);
            if lacks_memory { Err(Memory) } else { Ok(None) }
        }
    }
}

/// What the words give under each name, the first of them left out; none where they lack the form.
pub(crate) fn read_line<'a>(
    alloc: Global,
    which: Subcommand,
    words: &'a [String],
) -> Result<Option<ArgMatches<'a>>, Memory>
    requires { has_dashes (drop 1 (map string_bytes words.now)) ≡ false }
    ensures { IfOk result (Finds
        (uses_of (options_of which) (operands_of which) (drop 1 (map string_bytes words.entry.now)))) }
{
    let command = command_for(alloc, which)?;
    matched(command, words)
}

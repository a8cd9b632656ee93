// The arguments of commands, as `clap` is told them. Each is added by a function of its own: what a function owns is proved at each of
// its ways out, and an argument and a command have many fields.
ghost use Rattle.std.specs.Prelude.{◌≡◌, true, IfOk};
ghost use Rattle.clap.specs.Words.{app_of, is_simple_and_free, with_rule};
ghost use Rattle.command_words.specs.Commands.{file_command, flag, optional, problem_command, wanted};

use clap::{Arg, ArgAction, Command};
use inst_logic::Memory;
use std::alloc::Global;

// The command with one more word that has to be there.
pub(crate) fn with_word<'a>(
    alloc: Global,
    command: Command<'a>,
    id: &'a str,
) -> Result<Command<'a>, Memory>
    ensures { IfOk result (λ c. app_of c ≡ with_rule (app_of command.entry) (wanted id.now)) }
{
    let word = Arg::new(alloc, id).required(true);
    let command = command.arg(word)?;
    Ok(command)
}

// The command with one more option, which has a value and is named as it.
pub(crate) fn with_option<'a>(
    alloc: Global,
    command: Command<'a>,
    id: &'a str,
) -> Result<Command<'a>, Memory>
    ensures { IfOk result (λ c. app_of c ≡ with_rule (app_of command.entry) (optional id.now)) }
{
    let option = Arg::new(alloc, id).long(id);
    let command = command.arg(option)?;
    Ok(command)
}

// The command with one more option, which has no value.
pub(crate) fn with_flag<'a>(
    alloc: Global,
    command: Command<'a>,
    id: &'a str,
) -> Result<Command<'a>, Memory>
    ensures { IfOk result (λ c. app_of c ≡ with_rule (app_of command.entry) (flag id.now)) }
{
    let option = Arg::new(alloc, id).long(id).action(ArgAction::SetTrue);
    let command = command.arg(option)?;
    Ok(command)
}

pub(crate) fn make_of_file<'a>(alloc: Global, word: &'a str) -> Result<Command<'a>, Memory>
    ensures told { IfOk result (λ c. app_of c ≡ file_command word.now) }
    ensures simple { IfOk result (λ c. is_simple_and_free (app_of c) ≡ true) }
{
    with_word(alloc, Command::new(alloc, word), "file")
}

pub(crate) fn make_of_problem<'a>(alloc: Global, word: &'a str) -> Result<Command<'a>, Memory>
    ensures told { IfOk result (λ c. app_of c ≡ problem_command word.now) }
    ensures simple { IfOk result (λ c. is_simple_and_free (app_of c) ≡ true) }
{
    let command = make_of_file(alloc, word)?;
    with_option(alloc, command, "root")
}

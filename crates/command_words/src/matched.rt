// The one call of `clap`.
ghost use Rattle.std.specs.Prelude.{◌≡◌, true, map, string_bytes, IfOk, MatchOption};
ghost use Rattle.clap.specs.Words.{app_of, first_value, found_of, is_simple_and_free};
ghost use Rattle.command_words.specs.Commands.{IsTaken, value_of};

use clap::error::ErrorKind;
use clap::{ArgMatches, Command};
use inst_logic::Memory;

// What the words give under the command's names, or `None` where `clap` refuses them.
pub(crate) fn matches_of<'a>(
    command: Command<'a>,
    words: &'a [String],
) -> Result<Option<ArgMatches<'a>>, Memory>
    requires { is_simple_and_free (app_of command) ≡ true }
    ensures taken { IfOk result (λ r. MatchOption r (¬ IsTaken (app_of command.entry) (map string_bytes words.now))
        (λ m. IsTaken (app_of command.entry) (map string_bytes words.now))) }
    ensures values { IfOk result (λ r. MatchOption r (Unit {0})
        (λ m. (id : _) → first_value (found_of m) id ≡ value_of (app_of command.entry) (map string_bytes words.now) id)) }
{
    match command.try_get_matches_from(words) {
        Ok(matches) => Ok(Some(matches)),
        Err(error) => match error.kind() {
            ErrorKind::OutOfMemory => Err(Memory),
            _ => Ok(None),
        },
    }
}

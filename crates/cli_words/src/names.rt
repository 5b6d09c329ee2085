// The names of the files that a command reads.
ghost use Rattle.std.specs.Prelude.{◌≡◌, option_copied};
ghost use Rattle.cli_words.specs.Names.{name_read};
ghost use Rattle.cli_words.specs.Views.{command_view};

use crate::command::Command;

/// The name with this number, from 1, among those of the files that a command reads.
pub fn name_read<'a>(command: Command<'a>, number: u8) -> Option<&'a str>
    ensures { option_copied result ≡ name_read (command_view command.entry) number }
{
    match (command, number) {
        (Command::Step { from, .. }, 1) => from,
        (Command::Run { from, .. }, 1) => from,
        (Command::Verify { image, .. }, 1) => Some(image),
        (Command::Verify { digests, .. }, 2) => digests,
        (Command::Extract { honest, .. }, 1) => Some(honest),
        (Command::Extract { suspect, .. }, 2) => Some(suspect),
        (Command::Extract { digests, .. }, 3) => Some(digests),
        (Command::Replay { journal, .. }, 1) => Some(journal),
        (Command::Upgrade { image, .. }, 1) => Some(image),
        (Command::Receipt { image, .. }, 1) => Some(image),
        (Command::Receipt { digests, .. }, 2) => Some(digests),
        (Command::Join { image, .. }, 1) => Some(image),
        (Command::Join { digests, .. }, 2) => Some(digests),
        (Command::Check { receipt, .. }, 1) => Some(receipt),
        (Command::Check { digests, .. }, 2) => Some(digests),
        (Command::AsOf { image, .. }, 1) => Some(image),
        (Command::AsOf { digests, .. }, 2) => digests,
        _ => None,
    }
}

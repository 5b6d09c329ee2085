// Which words are accepted, in spelled form.
ghost use Rattle.std.specs.Prelude.{◌≡◌, List, Some, true};
ghost use Rattle.cli_words.specs.Arguments.{Says};
ghost use Rattle.cli_words.specs.Commands.{Command, IsInRange, arguments_of, command_of};
ghost use Rattle.cli_words.specs.Forms.{is_save_name, IsReadable};
ghost use Rattle.cli_words.specs.Line.{Text};
ghost use Rattle.cli_words.specs.declared.subcommand.Subcommand.{Subcommand};

/// The words behind a command say a command with its values exactly where they spell it.
pub fn words_law()
    ensures accepted { (which : Subcommand) (words : List Text) (command : Command)
        → Says which words command → arguments_of which words ≡ Some command }
    ensures spelled { (which : Subcommand) (words : List Text) (command : Command)
        → arguments_of which words ≡ Some command → Says which words command }
{}

/// The values of a command that words say have their ranges, and the settings of a run their form.
pub fn settings_are_in_range()
    ensures { (words : List Text) (command : Command) → command_of words ≡ Some command → IsInRange command }
{}

/// What is saved under a name that may be given stands under names that may be given to read it.
pub fn saved_files_can_be_read()
    ensures { (name : Text) → is_save_name name ≡ true → IsReadable name }
{}

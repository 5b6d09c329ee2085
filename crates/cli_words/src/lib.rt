//! The words after the program's name: the command that they say, and the texts of help.
#![tactic(auto)]

mod build;
mod command;
mod forms;
mod help;
mod law;
mod line;
mod names;
mod part;
mod refused;
mod subcommand;

pub use build::BUILD;
pub use command::{Command, read_command};
pub use help::{HELP, LOGIC, OVERVIEW, VERSION, help_text, usage_of, version_text};
pub use law::{saved_files_can_be_read, settings_are_in_range, words_law};
pub use names::name_read;
pub use part::Part;
pub use refused::{Refused, refused_word};
pub use subcommand::Subcommand;

// The command that the words say.
ghost use Rattle.std.specs.Prelude.{◌≡◌, IfOk, IfSome, map, drop, codes, string_bytes, option_map, option_copied};
ghost use Rattle.std.specs.List.{list_any};
ghost use Rattle.std.specs.Str.{bytes_eq};
ghost use Rattle.clap.specs.Words.{found_of, first_value};
ghost use Rattle.cli_words.specs.Commands as spec;
ghost use Rattle.cli_words.specs.Views.{settings_view, command_view};

use crate::forms::{
    MAX_EVENT, MAX_TABLE, MAX_TX, database_or_default, file_name, file_name_if_given,
    number_if_given, number_in, number_or, save_name, small_number_if_given, small_number_in,
};
use crate::line::read_line;
use crate::part::Part;
use crate::subcommand::Subcommand;
use base_types::{MAX_TICKS, Memory};
use clap::ArgMatches;
use server_result::Settings;
use std::alloc::Global;

/// A command, and what it is given.
#[derive(Clone, Copy)]
pub enum Command<'a> {
    /// Runs an input on one thread and saves its files.
    Step {
        /// The name that the files are saved under.
        save: &'a str,
        /// The name of the journal that the database goes on from, where one is given.
        from: Option<&'a str>,
        settings: Settings<'a>,
    },
    /// Runs an input with a thread for each session and saves its files.
    Run {
        /// The name that the files are saved under.
        save: &'a str,
        /// The name of the journal that the database goes on from, where one is given.
        from: Option<&'a str>,
        settings: Settings<'a>,
    },
    /// Says the verdict on an image.
    Verify {
        /// The name of the image.
        image: &'a str,
        /// The name of the digests that it is held against, where it is given.
        digests: Option<&'a str>,
        /// How many threads look at it at most, 1 to 16.
        workers: u32,
        /// Whether it is said what the digests cover.
        covers: bool,
    },
    /// Says what two images are to each other.
    Extract {
        /// The name of the honest image.
        honest: &'a str,
        /// The name of the image that is suspected.
        suspect: &'a str,
        /// The name of the digests that both are held against.
        digests: &'a str,
    },
    /// Runs a journal again and saves its image.
    Replay {
        /// The name of the journal.
        journal: &'a str,
        /// The name that the files are saved under.
        save: &'a str,
    },
    /// Saves an image in the newest version.
    Upgrade {
        /// The name of the image.
        image: &'a str,
        /// The name that it is saved under.
        save: &'a str,
    },
    /// Runs and verifies a workload.
    Gen {
        /// How many rows each of its tables has, 1 to 10,000.
        count: u32,
    },
    /// Makes the receipt of a transaction and saves it.
    Receipt {
        /// The name of the image that has it.
        image: &'a str,
        /// The name of the digests that the image is held against.
        digests: &'a str,
        /// The transaction's id, 1 to 2^63 - 1.
        tx: u64,
        /// What of it the receipt shows.
        part: Part,
        /// The name that the receipt is saved under.
        save: &'a str,
    },
    /// Joins digests by the records of an image and saves the chain.
    Join {
        /// The name of the image.
        image: &'a str,
        /// The name of the digests that it is held against, and that are joined.
        digests: &'a str,
        /// The name that the chain is saved under.
        save: &'a str,
    },
    /// Says whether a receipt holds with digests.
    Check {
        /// The name of the receipt.
        receipt: &'a str,
        /// The name of the digests that it is held against.
        digests: &'a str,
    },
    /// Answers SELECTs over an image behind its first transactions.
    AsOf {
        /// The name of the image.
        image: &'a str,
        /// How many of its transactions count, in ledger order, 0 to 2^63 - 1.
        n: u64,
        /// The name of the digests that it is held against, where some are given.
        digests: Option<&'a str>,
    },
    /// Prints help on one command, or on all.
    Help(Option<Subcommand>),
    /// Prints the program's name and version.
    Version,
}

#[tactic(auto, unfolding(crate::specs::Commands::settings))]
fn settings_of<'a>(matches: &ArgMatches<'a>) -> Option<Settings<'a>>
    ensures { option_map settings_view result ≡ spec.settings (first_value (found_of matches.now)) }
{
    let block_size = number_or(100_000, 1, 100_000, matches.get_str("block-size"))?;
    let clock = number_if_given(0, MAX_TICKS, matches.get_str("clock"))?;
    let database = database_or_default(matches.get_str("database"))?;
    Some(Settings {
        block_size,
        clock,
        database,
    })
}

/// The name of the journal that the database goes on from, where one is given; none where the name of the database
/// stands beside it, which the journal says.
#[tactic(auto, unfolding(crate::specs::Commands::past_journal))]
fn from_of<'a>(matches: &ArgMatches<'a>) -> Option<Option<&'a str>>
    ensures { option_map option_copied result ≡ spec.past_journal (first_value (found_of matches.now)) }
{
    let journal = file_name_if_given(matches.get_str("from"))?;
    match (journal, matches.get_str("database")) {
        (Some(_), Some(_)) => None,
        (journal, _) => Some(journal),
    }
}

#[tactic(auto, unfolding(crate::specs::Commands::meaning_of))]
fn step_of<'a>(matches: &ArgMatches<'a>) -> Option<Command<'a>>
    ensures { option_map command_view result
        ≡ spec.meaning_of Subcommand.Step (first_value (found_of matches.now)) }
{
    let save = save_name(matches.get_str("save")?)?;
    let from = from_of(matches)?;
    let settings = settings_of(matches)?;
    Some(Command::Step {
        save,
        from,
        settings,
    })
}

#[tactic(auto, unfolding(crate::specs::Commands::meaning_of))]
fn run_of<'a>(matches: &ArgMatches<'a>) -> Option<Command<'a>>
    ensures { option_map command_view result
        ≡ spec.meaning_of Subcommand.Run (first_value (found_of matches.now)) }
{
    let save = save_name(matches.get_str("save")?)?;
    let from = from_of(matches)?;
    let settings = settings_of(matches)?;
    Some(Command::Run {
        save,
        from,
        settings,
    })
}

#[tactic(auto, unfolding(crate::specs::Commands::meaning_of))]
fn verify_of<'a>(matches: &ArgMatches<'a>) -> Option<Command<'a>>
    ensures { option_map command_view result
        ≡ spec.meaning_of Subcommand.Verify (first_value (found_of matches.now)) }
{
    let image = file_name(matches.get_str("IMAGE")?)?;
    let digests = file_name_if_given(matches.get_str("DIGESTS"))?;
    let workers = number_or(1, 1, 16, matches.get_str("workers"))?;
    Some(Command::Verify {
        image,
        digests,
        workers,
        covers: false,
    })
}

#[tactic(auto, unfolding(crate::specs::Commands::meaning_of))]
fn extract_of<'a>(matches: &ArgMatches<'a>) -> Option<Command<'a>>
    ensures { option_map command_view result
        ≡ spec.meaning_of Subcommand.Extract (first_value (found_of matches.now)) }
{
    let honest = file_name(matches.get_str("HONEST")?)?;
    let suspect = file_name(matches.get_str("SUSPECT")?)?;
    let digests = file_name(matches.get_str("DIGESTS")?)?;
    Some(Command::Extract {
        honest,
        suspect,
        digests,
    })
}

#[tactic(auto, unfolding(crate::specs::Commands::meaning_of))]
fn replay_of<'a>(matches: &ArgMatches<'a>) -> Option<Command<'a>>
    ensures { option_map command_view result
        ≡ spec.meaning_of Subcommand.Replay (first_value (found_of matches.now)) }
{
    let journal = file_name(matches.get_str("JOURNAL")?)?;
    let save = save_name(matches.get_str("save")?)?;
    Some(Command::Replay { journal, save })
}

#[tactic(auto, unfolding(crate::specs::Commands::meaning_of))]
fn upgrade_of<'a>(matches: &ArgMatches<'a>) -> Option<Command<'a>>
    ensures { option_map command_view result
        ≡ spec.meaning_of Subcommand.Upgrade (first_value (found_of matches.now)) }
{
    let image = file_name(matches.get_str("IMAGE")?)?;
    let save = save_name(matches.get_str("save")?)?;
    Some(Command::Upgrade { image, save })
}

#[tactic(auto, unfolding(crate::specs::Commands::meaning_of))]
fn gen_of<'a>(matches: &ArgMatches<'a>) -> Option<Command<'a>>
    ensures { option_map command_view result
        ≡ spec.meaning_of Subcommand.Gen (first_value (found_of matches.now)) }
{
    let count = small_number_in(1, 10_000, matches.get_str("COUNT")?)?;
    Some(Command::Gen { count })
}

fn part_from(table: Option<u32>, event: Option<u64>) -> Option<Part>
    ensures { result ≡ spec.part_from table event }
{
    match (table, event) {
        (None, None) => Some(Part::Entry),
        (Some(table), None) => Some(Part::Table(table)),
        (Some(table), Some(event)) => Some(Part::Event(table, event)),
        (None, Some(_)) => None,
    }
}

#[tactic(auto, unfolding(crate::specs::Commands::part))]
fn part_of(matches: &ArgMatches<'_>) -> Option<Part>
    ensures { result ≡ spec.part (first_value (found_of matches.now)) }
{
    let table = small_number_if_given(1, MAX_TABLE, matches.get_str("table"))?;
    let event = number_if_given(0, MAX_EVENT, matches.get_str("event"))?;
    part_from(table, event)
}

#[tactic(auto, unfolding(crate::specs::Commands::meaning_of))]
fn receipt_of<'a>(matches: &ArgMatches<'a>) -> Option<Command<'a>>
    ensures { option_map command_view result
        ≡ spec.meaning_of Subcommand.Receipt (first_value (found_of matches.now)) }
{
    let image = file_name(matches.get_str("IMAGE")?)?;
    let digests = file_name(matches.get_str("DIGESTS")?)?;
    let tx = number_in(1, MAX_TX, matches.get_str("TX")?)?;
    let part = part_of(matches)?;
    let save = save_name(matches.get_str("save")?)?;
    Some(Command::Receipt {
        image,
        digests,
        tx,
        part,
        save,
    })
}

#[tactic(auto, unfolding(crate::specs::Commands::meaning_of))]
fn join_of<'a>(matches: &ArgMatches<'a>) -> Option<Command<'a>>
    ensures { option_map command_view result
        ≡ spec.meaning_of Subcommand.Join (first_value (found_of matches.now)) }
{
    let image = file_name(matches.get_str("IMAGE")?)?;
    let digests = file_name(matches.get_str("DIGESTS")?)?;
    let save = save_name(matches.get_str("save")?)?;
    Some(Command::Join {
        image,
        digests,
        save,
    })
}

#[tactic(auto, unfolding(crate::specs::Commands::meaning_of))]
fn check_of<'a>(matches: &ArgMatches<'a>) -> Option<Command<'a>>
    ensures { option_map command_view result
        ≡ spec.meaning_of Subcommand.Check (first_value (found_of matches.now)) }
{
    let receipt = file_name(matches.get_str("RECEIPT")?)?;
    let digests = file_name(matches.get_str("DIGESTS")?)?;
    Some(Command::Check { receipt, digests })
}

#[tactic(auto, unfolding(crate::specs::Commands::meaning_of))]
fn as_of<'a>(matches: &ArgMatches<'a>) -> Option<Command<'a>>
    ensures { option_map command_view result
        ≡ spec.meaning_of Subcommand.AsOf (first_value (found_of matches.now)) }
{
    let image = file_name(matches.get_str("IMAGE")?)?;
    let n = number_in(0, MAX_TX, matches.get_str("N")?)?;
    let digests = file_name_if_given(matches.get_str("digests"))?;
    Some(Command::AsOf { image, n, digests })
}

/// What the values say; none where one of them lacks its form, or isn't there and has to be.
fn meaning_of<'a>(which: Subcommand, matches: &ArgMatches<'a>) -> Option<Command<'a>>
    ensures { option_map command_view result
        ≡ spec.meaning_of which (first_value (found_of matches.now)) }
{
    match which {
        Subcommand::Step => step_of(matches),
        Subcommand::Run => run_of(matches),
        Subcommand::Verify => verify_of(matches),
        Subcommand::Extract => extract_of(matches),
        Subcommand::Replay => replay_of(matches),
        Subcommand::Upgrade => upgrade_of(matches),
        Subcommand::Gen => gen_of(matches),
        Subcommand::Receipt => receipt_of(matches),
        Subcommand::Join => join_of(matches),
        Subcommand::Check => check_of(matches),
        Subcommand::AsOf => as_of(matches),
    }
}

fn has_dashes(words: &[String]) -> bool
    ensures { result ≡ list_any (λ w. bytes_eq (string_bytes w) (codes "--")) (drop 1 words.now) }
{
    words.iter().skip(1).any(|w| w.as_str() == "--")
}

/// What the words say, the first of which is left out; none where they lack the form.
fn read_plain<'a>(
    alloc: Global,
    which: Subcommand,
    words: &'a [String],
) -> Result<Option<Command<'a>>, Memory>
    ensures { IfOk result (λ c. option_map command_view c
        ≡ spec.plain_of which (drop 1 (map string_bytes words.entry.now))) }
{
    if has_dashes(words) {
        return Ok(None);
    }
    match read_line(alloc, which, words)? {
        Some(matches) => {
            let meaning = meaning_of(which, &matches);
            // `drop` lets each type go by a function of its own, which is proved once
            drop(matches);
            Ok(meaning)
        }
        None => Ok(None),
    }
}

fn asks_coverage(words: &[String]) -> bool
    ensures { result ≡ spec.asks_coverage (map string_bytes words.now) }
{
    match words {
        [word, ..] => word.as_str() == "--coverage",
        [] => false,
    }
}

/// The command that says what the digests cover besides; none where it is no `verify`.
fn covering<'a>(command: Command<'a>) -> Option<Command<'a>>
    ensures { option_map command_view result ≡ spec.covering (command_view command.entry) }
{
    match command {
        Command::Verify {
            image,
            digests,
            workers,
            covers: _,
        } => Some(Command::Verify {
            image,
            digests,
            workers,
            covers: true,
        }),
        _ => None,
    }
}

/// What the words say, the first of which is left out, and `--coverage` where it stands behind that; none where they
/// lack the form.
#[tactic(auto, unfolding(crate::specs::Commands::arguments_of))]
fn read_arguments<'a>(
    alloc: Global,
    which: Subcommand,
    words: &'a [String],
) -> Result<Option<Command<'a>>, Memory>
    ensures { IfOk result (λ c. option_map command_view c
        ≡ spec.arguments_of which (drop 1 (map string_bytes words.entry.now))) }
{
    let [_, rest @ ..] = words else {
        return read_plain(alloc, which, words);
    };
    if !asks_coverage(rest) {
        return read_plain(alloc, which, words);
    }
    match read_plain(alloc, which, rest)? {
        Some(command) => Ok(covering(command)),
        None => Ok(None),
    }
}

fn asks_help(words: &[String]) -> bool
    ensures { result ≡ spec.asks_help (map string_bytes words.now) }
{
    match words {
        [word] => word.as_str() == "--help" || word.as_str() == "-h",
        _ => false,
    }
}

#[tactic(auto, unfolding(crate::specs::Commands::alone))]
fn alone<'a>(word: &str) -> Option<Command<'a>>
    ensures { option_map command_view result ≡ spec.alone word.now }
{
    if word == "--help" || word == "-h" || word == "help" {
        Some(Command::Help(None))
    } else if word == "--version" || word == "-V" {
        Some(Command::Version)
    } else {
        None
    }
}

fn help_on<'a>(word: &str, name: &str) -> Option<Command<'a>>
    ensures { option_map command_view result ≡ spec.help_on word.now name.now }
{
    if word != "help" {
        return None;
    }
    let which = Subcommand::named(name)?;
    Some(Command::Help(Some(which)))
}

/// What words say the first of which names no command.
fn others<'a>(word: &str, rest: &[String]) -> Option<Command<'a>>
    ensures { option_map command_view result ≡ spec.others word.now (map string_bytes rest.now) }
{
    match rest {
        [] => alone(word),
        [name] => help_on(word, name.as_str()),
        _ => None,
    }
}

/// The command that the words say.
#[tactic(auto, unfolding(crate::specs::Commands::command_of))]
fn command_of<'a>(alloc: Global, words: &'a [String]) -> Result<Option<Command<'a>>, Memory>
    ensures { IfOk result (λ c. option_map command_view c
        ≡ spec.command_of (map string_bytes words.entry.now)) }
{
    let [word, rest @ ..] = words else {
        return Ok(None);
    };
    match Subcommand::named(word.as_str()) {
        Some(which) => {
            if asks_help(rest) {
                Ok(Some(Command::Help(Some(which))))
            } else {
                read_arguments(alloc, which, words)
            }
        }
        None => Ok(others(word.as_str(), rest)),
    }
}

/// The command that the words say, whose values have their ranges; none exactly where they have no command's
/// form.
pub fn read_command<'a>(alloc: Global, words: &'a [String]) -> Result<Option<Command<'a>>, Memory>
    ensures said { IfOk result (λ c. option_map command_view c
        ≡ spec.command_of (map string_bytes words.entry.now)) }
    ensures in_range { IfOk result (λ c. IfSome c (λ command. spec.IsInRange (command_view command))) }
{
    command_of(alloc, words)
}

// The words that name a command.
ghost use Rattle.std.specs.Prelude.{◌≡◌, map};
ghost use Rattle.cli_words.specs.Subcommands.{name_of, operands_of, options_of, named};

/// A word that names a command.
#[derive(Clone, Copy)]
pub enum Subcommand {
    /// Runs an input on one thread.
    Step,
    /// Runs an input with a thread for each session.
    Run,
    /// Says the verdict on an image.
    Verify,
    /// Says what two images are to each other.
    Extract,
    /// Runs a journal again.
    Replay,
    /// Saves an image in the newest version.
    Upgrade,
    /// Runs and verifies a workload.
    Gen,
    /// Makes the receipt of a transaction.
    Receipt,
    /// Joins the digests of a list by the records between them.
    Join,
    /// Says whether a receipt holds with digests.
    Check,
    /// Answers SELECTs over an image behind its first transactions.
    AsOf,
}

impl Subcommand {
    /// The one that the word names.
    #[tactic(auto, unfolding(crate::specs::Subcommands::named))]
    pub(crate) fn named(word: &str) -> Option<Subcommand>
        ensures { result ≡ named word.now }
    {
        match word {
            "step" => Some(Subcommand::Step),
            "run" => Some(Subcommand::Run),
            "verify" => Some(Subcommand::Verify),
            "extract" => Some(Subcommand::Extract),
            "replay" => Some(Subcommand::Replay),
            "upgrade" => Some(Subcommand::Upgrade),
            "gen" => Some(Subcommand::Gen),
            "receipt" => Some(Subcommand::Receipt),
            "join" => Some(Subcommand::Join),
            "check" => Some(Subcommand::Check),
            "asof" => Some(Subcommand::AsOf),
            _ => None,
        }
    }

    /// The word that names it.
    pub(crate) fn name<'a>(self) -> &'a str
        ensures { result.now ≡ name_of self }
    {
        match self {
            Subcommand::Step => "step",
            Subcommand::Run => "run",
            Subcommand::Verify => "verify",
            Subcommand::Extract => "extract",
            Subcommand::Replay => "replay",
            Subcommand::Upgrade => "upgrade",
            Subcommand::Gen => "gen",
            Subcommand::Receipt => "receipt",
            Subcommand::Join => "join",
            Subcommand::Check => "check",
            Subcommand::AsOf => "asof",
        }
    }

    /// The names of its operands, in their order.
    pub(crate) fn operands<'a>(self) -> &'a [&'a str]
        ensures { map (λ name. name.now) result.now ≡ operands_of self }
    {
        match self {
            Subcommand::Step | Subcommand::Run => &[],
            Subcommand::Verify | Subcommand::Join => &["IMAGE", "DIGESTS"],
            Subcommand::Extract => &["HONEST", "SUSPECT", "DIGESTS"],
            Subcommand::Replay => &["JOURNAL"],
            Subcommand::Upgrade => &["IMAGE"],
            Subcommand::Gen => &["COUNT"],
            Subcommand::Receipt => &["IMAGE", "DIGESTS", "TX"],
            Subcommand::Check => &["RECEIPT", "DIGESTS"],
            Subcommand::AsOf => &["IMAGE", "N"],
        }
    }

    /// The names of its options, each of which takes a value.
    pub(crate) fn options<'a>(self) -> &'a [&'a str]
        ensures { map (λ name. name.now) result.now ≡ options_of self }
    {
        match self {
            Subcommand::Step | Subcommand::Run => {
                &["save", "from", "block-size", "clock", "database"]
            }
            Subcommand::Verify => &["workers"],
            Subcommand::Replay | Subcommand::Upgrade | Subcommand::Join => &["save"],
            Subcommand::Receipt => &["save", "table", "event"],
            Subcommand::AsOf => &["digests"],
            Subcommand::Extract | Subcommand::Gen | Subcommand::Check => &[],
        }
    }
}

//! How a call of the server ends.

ghost use Rattle.std.specs.Prelude.{◌≡◌};
ghost use Rattle.cli_audit.specs.Status.{code_of, text_of};

use std::fmt;

/// How a call of the server ends. Each but `Done` and `Memory` has its cause in the contract of the top call.
#[derive(Clone, Copy, Debug, PartialEq, Eq)]
pub enum Status {
    /// The command did its work, and `verify` said Yes.
    Done,
    /// The verdict is No.
    No,
    /// The words have none of the commands' forms.
    Words,
    /// A limit was exceeded: more than 4 MiB came as input, or statements of more than 64 sessions; or more
    /// than 256 MiB stand under the name of an image or of a journal, 32 MiB under that of digests, or 16 MiB
    /// under that of a receipt.
    Limit,
    /// Reading the input failed.
    SourceFault,
    /// Writing the output failed, or the sink took nothing of a piece.
    SinkFault,
    /// Putting or getting a file failed.
    VaultFault,
    /// Nothing stands under the name with this number, counted from 1 among the names of the command.
    Missing { which: u8 },
    /// The digests can't be read, or the item with this index, counted from 0, is the first that is no
    /// digest.
    Digests { index: Option<u64> },
    /// The bytes are no journal's, or the journal isn't legal: this statement of this item, both counted from
    /// 0, is the first that is answered otherwise when it is run again. Where all replies of the item agree
    /// and it leaves no event, its number of statements stands in the place of the statement. Or a database is
    /// to go on from the journal, and this is the first COMMIT or ROLLBACK of all in a transaction that BEGIN
    /// opened.
    Journal { at: Option<(u64, u64)> },
    /// This line of the input has no session, or isn't UTF-8. It is the first such line, counted from 1.
    Form { line: u64 },
    /// The bytes are no image's, neither in version 2 nor in version 1.
    NotImage,
    /// There was no more memory.
    Memory,
    /// The digests are none, or no entry of the blocks up to their greatest is of the transaction, or it has no such
    /// event.
    NoEntry,
    /// The bytes are no receipt's, of whatever kind.
    Receipt,
    /// The image has only so many transactions.
    TooFar { entries: u64 },
    /// The command did its work, and `verify` said Yes, but over a list without a digest: it shows nothing of what was
    /// there before.
    NoDigestHeld,
}

impl Status {
    /// The status that the program ends with.
    pub fn code(self) -> u8
        ensures { result ≡ code_of self }
    {
        match self {
            Status::Done => 0,
            Status::No => 1,
            Status::Words => 2,
            Status::Limit => 3,
            Status::SourceFault => 4,
            Status::SinkFault => 5,
            Status::VaultFault => 6,
            Status::Missing { .. } => 7,
            Status::Digests { .. } => 8,
            Status::Journal { .. } => 9,
            Status::Form { .. } => 10,
            Status::NotImage => 11,
            Status::Memory => 12,
            Status::NoEntry => 14,
            Status::Receipt => 15,
            Status::TooFar { .. } => 16,
            Status::NoDigestHeld => 17,
        }
    }

    /// What it says, without its place. It is empty where the command did its work, or said No.
    pub fn text(self) -> &'static str
        ensures { result.now ≡ text_of self }
    {
        match self {
            Status::Done => "",
            Status::No => "",
            Status::Words => "usage error",
            Status::Limit => "a limit was exceeded",
            Status::SourceFault => "reading the input failed",
            Status::SinkFault => "writing the output failed",
            Status::VaultFault => "a file can't be read or written",
            Status::Missing { .. } => "no such file",
            Status::Digests { .. } => "bad digests",
            Status::Journal { .. } => "bad journal",
            Status::Form { .. } => "bad input",
            Status::NotImage => "not an image",
            Status::Memory => "out of memory",
            Status::NoEntry => "no such entry",
            Status::Receipt => "bad receipt",
            Status::TooFar { .. } => "not so many transactions",
            Status::NoDigestHeld => "no digest is held",
        }
    }
}

/// The text of a status, and its place where it has one, as `bad input (line 3)`.
impl fmt::Display for Status {
    ghost use Rattle.std.specs.Prelude.{Some};
    ghost use Rattle.cli_audit.specs.Status.{message_of};

    ghost output = { λ s. Some (message_of s) };

    fn fmt<W: fmt::Write>(&self, f: &mut fmt::Formatter<W>) -> fmt::Result {
        let text = self.text();
        match self {
            Status::Missing { which } => write!(f, "{text} (name {which})"),
            Status::Digests { index: Some(index) } => write!(f, "{text} (digest {index})"),
            Status::Journal { at: Some(at) } => {
                write!(f, "{text} (item {}, statement {})", at.0, at.1)
            }
            Status::Form { line } => write!(f, "{text} (line {line})"),
            Status::TooFar { entries } => write!(f, "{text} (entries {entries})"),
            _ => f.write_str(text),
        }
    }
}

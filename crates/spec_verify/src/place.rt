//! What a verifier answers: whether an image holds, and else what fails and where.

ghost use Rattle.std.specs.Prelude.{Some};
ghost use Rattle.spec_verify.specs.Line.{invariant_name, place_text, verdict_line};

use base_types::{TableId, TxId};
use std::fmt;

/// What must hold of an image, in the order in which it is tried.
#[derive(Clone, Copy, Debug, PartialEq, Eq)]
pub enum Invariant {
    /// The bytes are those of an image.
    V0,
    /// Each digest is of a block of the image.
    V1,
    /// The blocks are a chain.
    V2,
    /// Each block has the size and the root of its entries.
    V3,
    /// The ids of the entries differ, and each start and end is of one of them.
    V4,
    /// Each entry has the roots of its events, which are numbered without a gap.
    V5,
    /// Each version fits its table and follows the one before it.
    V6,
    /// The rows of the system's tables spell the definitions.
    V7,
    /// The rows of each index are those of the base, sorted.
    V8,
}

/// Where an invariant fails.
#[derive(Clone, Copy, Debug, PartialEq, Eq)]
pub enum Place {
    /// The bytes as a whole.
    Whole,
    /// A digest, counted from 0 in the list that was given.
    Digest(u64),
    /// A block, counted from 0.
    Block(u64),
    /// An entry, counted from 0 in ledger order.
    Entry(u64),
    /// A start or an end of a version of this table.
    Event { table: TableId, tx: TxId, seq: u64 },
    /// The numbers of a transaction's events.
    Numbers { tx: TxId },
    /// The root of a transaction in a table.
    Root { tx: TxId, table: TableId },
    /// The definition of a table, by the number that its rows have.
    Table(i64),
    /// An index, counted from 1 in its table.
    Index { table: TableId, index: u8 },
}

/// What is said of an image: that it holds, or the first invariant that fails, with its least place.
#[derive(Clone, Copy, Debug, PartialEq, Eq)]
pub enum Verdict {
    Yes,
    No(Invariant, Place),
}

/// V and the digit of the invariant, as `V0`.
impl fmt::Display for Invariant {
    ghost output = { λ invariant. Some (invariant_name invariant) };

    fn fmt<W: fmt::Write>(&self, f: &mut fmt::Formatter<W>) -> fmt::Result {
        f.write_str(match self {
            Invariant::V0 => "V0",
            Invariant::V1 => "V1",
            Invariant::V2 => "V2",
            Invariant::V3 => "V3",
            Invariant::V4 => "V4",
            Invariant::V5 => "V5",
            Invariant::V6 => "V6",
            Invariant::V7 => "V7",
            Invariant::V8 => "V8",
        })
    }
}

/// The words and numbers of a place, each behind a blank, as ` table 3 event 99 0`; nothing where it is the
/// whole.
impl fmt::Display for Place {
    ghost output = { λ place. Some (place_text place) };

    fn fmt<W: fmt::Write>(&self, f: &mut fmt::Formatter<W>) -> fmt::Result {
        match self {
            Place::Whole => Ok(()),
            Place::Digest(i) => write!(f, " digest {i}"),
            Place::Block(b) => write!(f, " block {b}"),
            Place::Entry(i) => write!(f, " entry {i}"),
            Place::Event { table, tx, seq } => write!(f, " table {table} event {tx} {seq}"),
            Place::Numbers { tx } => write!(f, " transaction {tx} numbers"),
            Place::Root { tx, table } => write!(f, " transaction {tx} table {table}"),
            Place::Table(id) => write!(f, " table {id}"),
            Place::Index { table, index } => write!(f, " table {table} index {index}"),
        }
    }
}

/// The line of a verdict without its end: `Yes`, or `No` with the invariant and the place, as
/// `No V8 table 3 index 1`.
impl fmt::Display for Verdict {
    ghost output = { λ verdict. Some (verdict_line verdict) };

    fn fmt<W: fmt::Write>(&self, f: &mut fmt::Formatter<W>) -> fmt::Result {
        match self {
            Verdict::Yes => f.write_str("Yes"),
            Verdict::No(invariant, place) => write!(f, "No {invariant}{place}"),
        }
    }
}

//! Why the bytes of a file were refused, by the first of them.

use cli_commands::Status;
use std::fmt;

/// As many first bytes of a file are looked at.
pub const HEAD: u64 = 5;

/// What a file is.
#[derive(Clone, Copy, PartialEq, Eq)]
enum Kind {
    Digests,
    Image,
    Journal,
    Receipt,
    Chain,
}

/// What the first bytes of a file say.
#[derive(Clone, Copy)]
enum Head {
    Empty,
    ByteOrderMark,
    /// Only images and journals have a version.
    Kind(Kind, Option<u8>),
    Other,
}

/// A file whose bytes were refused.
#[derive(Clone, Copy)]
pub struct BadFile<'a> {
    name: &'a str,
    head: Head,
    status: Status,
}

fn head_of(bytes: &[u8]) -> Head {
    match bytes {
        [] => Head::Empty,
        [0xef, 0xbb, 0xbf, ..] => Head::ByteOrderMark,
        [b'L', b'G', b'I', b'M', rest @ ..] => Head::Kind(Kind::Image, rest.first().copied()),
        [b'L', b'G', b'J', b'N', rest @ ..] => Head::Kind(Kind::Journal, rest.first().copied()),
        [b'L', b'G', b'R', b'C' | b'A' | b'R', ..] => Head::Kind(Kind::Receipt, None),
        [b'L', b'G', b'C', b'C', ..] => Head::Kind(Kind::Chain, None),
        [b'[', ..] => Head::Kind(Kind::Digests, None),
        _ => Head::Other,
    }
}

/// A file that was refused by this status, whose first bytes are these.
pub fn explain_file<'a>(name: &'a str, bytes: &[u8], status: Status) -> BadFile<'a> {
    BadFile {
        name,
        head: head_of(bytes),
        status,
    }
}

/// Whether a file of this kind is what was wanted.
fn is_wanted(kind: Kind, status: Status) -> bool {
    match status {
        Status::Digests { .. } => kind == Kind::Digests,
        Status::Journal { .. } => kind == Kind::Journal,
        Status::NotImage => kind == Kind::Image,
        Status::Receipt => matches!(kind, Kind::Receipt | Kind::Chain),
        _ => false,
    }
}

impl fmt::Display for Kind {
    fn fmt<W: fmt::Write>(&self, f: &mut fmt::Formatter<W>) -> fmt::Result {
        f.write_str(match self {
            Kind::Digests => "a list of digests",
            Kind::Image => "an image",
            Kind::Journal => "a journal",
            Kind::Receipt => "a receipt",
            Kind::Chain => "a chain of blocks",
        })
    }
}

/// What is wrong with a file that begins as it should, or as no file that is known.
fn fmt_place<W: fmt::Write>(status: Status, f: &mut fmt::Formatter<W>) -> fmt::Result {
    match status {
        Status::Digests { index: Some(index) } => write!(f, " has no digest at index {index}"),
        Status::Digests { index: None } => f.write_str(" isn't a list of digests in JSON"),
        Status::Journal { at: Some(at) } => {
            write!(f, " isn't legal at item {}, statement {}", at.0, at.1)
        }
        Status::Journal { at: None } => f.write_str(" doesn't have the form of a journal"),
        Status::NotImage => f.write_str(" doesn't have the form of an image"),
        _ => f.write_str(" doesn't have the form of a receipt"),
    }
}

/// The file and why it was refused, as `x.digests is an image`.
impl fmt::Display for BadFile<'_> {
    fn fmt<W: fmt::Write>(&self, f: &mut fmt::Formatter<W>) -> fmt::Result {
        f.write_str(self.name)?;
        match self.head {
            Head::Empty => f.write_str(" is empty"),
            Head::ByteOrderMark => f.write_str(" begins with a byte order mark"),
            Head::Kind(kind, _) if !is_wanted(kind, self.status) => write!(f, " is {kind}"),
            Head::Kind(_, Some(version)) if version != 1 && version != 2 => {
                write!(f, ": version {version}, this program reads 1 and 2")
            }
            _ => fmt_place(self.status, f),
        }
    }
}

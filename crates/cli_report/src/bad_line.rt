//! Why a line of an input can't be read.

use base_types::is_session_name;
use std::fmt;

/// How the lines of an input are read.
#[derive(Clone, Copy, PartialEq, Eq)]
pub enum InputForm {
    /// Statements of sessions, as `alice: COMMIT`.
    Statements,
    /// Sections of statements.
    Sections,
    /// Texts.
    Texts,
}

/// What is wrong with a line.
#[derive(Clone, Copy)]
enum LineFault<'a> {
    ByteOrderMark,
    /// The first byte that belongs to no character of UTF-8, counted from 1.
    NotUtf8(usize),
    NoColon,
    NoName,
    /// A character that no session's name has.
    Character(char),
    LongName,
    /// A statement before the first section.
    NoSection,
    /// The setup behind other sections.
    LateSetup,
    SetupName,
    /// Another section has the name.
    SameName(&'a str),
}

/// A line of an input that can't be read, and why.
#[derive(Clone, Copy)]
pub struct BadLine<'a> {
    number: u64,
    fault: LineFault<'a>,
}

fn fault_of_bytes<'a>(line: &[u8]) -> Option<LineFault<'a>> {
    if line.starts_with(b"\xef\xbb\xbf") {
        return Some(LineFault::ByteOrderMark);
    }
    match std::str::from_utf8(line) {
        Ok(_) => None,
        Err(error) => Some(LineFault::NotUtf8(error.valid_up_to().saturating_add(1))),
    }
}

fn fault_of_name<'a>(name: &str) -> Option<LineFault<'a>> {
    if name.is_empty() {
        return Some(LineFault::NoName);
    }
    if is_session_name(name.as_bytes()) {
        return None;
    }
    let other = name
        .chars()
        .find(|c| !(c.is_ascii_alphanumeric() || *c == '_'));
    Some(match other {
        Some(other) => LineFault::Character(other),
        None => LineFault::LongName,
    })
}

fn fault_of_statement<'a>(text: &str) -> Option<LineFault<'a>> {
    match text.split_once(':') {
        Some((name, _)) => fault_of_name(name),
        None => Some(LineFault::NoColon),
    }
}

/// What a line has for the name of its section.
pub(crate) fn name_of_section(text: &str) -> Option<&str> {
    let rest = match text.strip_prefix("-- session") {
        Some(rest) => rest,
        None => text.strip_prefix("-- snapshot")?,
    };
    if rest.is_empty() || rest.starts_with(' ') || rest.starts_with('\t') {
        Some(rest.trim_ascii_start())
    } else {
        None
    }
}

fn fault_in_sections(text: &str) -> LineFault<'_> {
    if text == "-- setup" {
        return LineFault::LateSetup;
    }
    let Some(name) = name_of_section(text) else {
        return LineFault::NoSection;
    };
    match fault_of_name(name) {
        Some(fault) => fault,
        None if name == "setup" => LineFault::SetupName,
        None => LineFault::SameName(name),
    }
}

/// The line with this number, from 1, without its line feed.
fn line_at(input: &[u8], number: u64) -> Option<&[u8]> {
    let before = usize::try_from(number).ok()?.checked_sub(1)?;
    input.split(|byte| *byte == b'\n').nth(before)
}

/// Why the line with this number can't be read, of an input that is read so; none where nothing is found.
pub fn explain_line<'a>(form: InputForm, input: &'a [u8], number: u64) -> Option<BadLine<'a>> {
    let line = line_at(input, number)?;
    let fault = match fault_of_bytes(line) {
        Some(fault) => fault,
        None => {
            let text = std::str::from_utf8(line).ok()?.trim_ascii();
            match form {
                InputForm::Statements => fault_of_statement(text)?,
                InputForm::Sections => fault_in_sections(text),
                InputForm::Texts => return None,
            }
        }
    };
    Some(BadLine { number, fault })
}

impl fmt::Display for LineFault<'_> {
    fn fmt<W: fmt::Write>(&self, f: &mut fmt::Formatter<W>) -> fmt::Result {
        match self {
            LineFault::ByteOrderMark => f.write_str("begins with a byte order mark"),
            LineFault::NotUtf8(at) => write!(f, "isn't UTF-8 at byte {at}"),
            LineFault::NoColon => f.write_str("has no colon after the name of a session"),
            LineFault::NoName => f.write_str("has an empty name of a session"),
            LineFault::Character(c) => write!(f, "has `{c}`, which no name of a session has"),
            LineFault::LongName => {
                f.write_str("has a name of a session with more than 32 characters")
            }
            LineFault::NoSection => f.write_str("stands before the first section"),
            LineFault::LateSetup => f.write_str("begins the setup, which is the first section"),
            LineFault::SetupName => f.write_str("has `setup` as the name of a session"),
            LineFault::SameName(name) => write!(f, "has `{name}`, as a section before it"),
        }
    }
}

/// The line and what is wrong with it, as `line 2 has no colon after the name of a session`.
impl fmt::Display for BadLine<'_> {
    fn fmt<W: fmt::Write>(&self, f: &mut fmt::Formatter<W>) -> fmt::Result {
        write!(f, "line {} {}", self.number, self.fault)
    }
}

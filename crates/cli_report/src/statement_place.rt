//! Where the statement of an entry stands in an input.

use crate::bad_line::{InputForm, name_of_section};
use std::fmt;

/// The place of a statement in an input.
#[derive(Clone, Copy)]
pub struct StatementPlace<'a> {
    line: u64,
    session: &'a str,
    /// The statement itself.
    pub text: &'a str,
}

fn is_skipped(text: &str) -> bool {
    text.is_empty() || text.starts_with("--")
}

/// The name of the section that a line begins.
fn head_of(line: &str) -> Option<&str> {
    let text = line.trim_ascii();
    if text == "-- setup" {
        Some("setup")
    } else {
        name_of_section(text)
    }
}

/// How many entries a line of sections has: a statement has one, and the line that begins a snapshot that of SAVE IMAGE.
fn entries_of(line: &str) -> u64 {
    let text = line.trim_ascii();
    let has_entry = match name_of_section(text) {
        Some(_) => text.starts_with("-- snapshot"),
        None => !is_skipped(text),
    };
    if has_entry { 1 } else { 0 }
}

/// How many lines there are up to that of the entry with this number, from 1.
fn lines_to(input: &str, entry: u64) -> Option<usize> {
    let mut lines = 0usize;
    let mut entries = 0u64;
    for line in input.split('\n') {
        lines = lines.saturating_add(1);
        entries = entries.saturating_add(entries_of(line));
        if entries >= entry {
            return Some(lines);
        }
    }
    None
}

/// The place of the statement of the entry with this number, from 1, among the lines of sections.
fn place_in_sections<'a>(input: &'a str, entry: u64) -> Option<StatementPlace<'a>> {
    let lines = lines_to(input, entry)?;
    let session = input.split('\n').take(lines).filter_map(head_of).last()?;
    let text = input.split('\n').nth(lines.saturating_sub(1))?;
    Some(StatementPlace {
        line: lines as u64,
        session,
        text: text.trim_ascii(),
    })
}

/// The same among lines that each have their session.
fn place_in_lines<'a>(input: &'a str, entry: u64) -> Option<StatementPlace<'a>> {
    let mut line = 0u64;
    let mut entries = 0u64;
    for text in input.split('\n') {
        line = line.saturating_add(1);
        let text = text.trim_ascii();
        if is_skipped(text) {
            continue;
        }
        entries = entries.saturating_add(1);
        if entries >= entry {
            let (session, text) = text.split_once(':')?;
            return Some(StatementPlace {
                line,
                session,
                text: text.trim_ascii_start(),
            });
        }
    }
    None
}

/// The place of the statement of the entry with this number, from 1, in an input of this form that was read; none where
/// it isn't found.
pub fn place_of_statement<'a>(
    form: InputForm,
    input: &'a [u8],
    entry: u64,
) -> Option<StatementPlace<'a>> {
    let input = std::str::from_utf8(input).ok()?;
    match form {
        InputForm::Statements => place_in_lines(input, entry),
        InputForm::Sections => place_in_sections(input, entry),
        InputForm::Texts => None,
    }
}

/// As `line 12, alice`.
impl fmt::Display for StatementPlace<'_> {
    fn fmt<W: fmt::Write>(&self, f: &mut fmt::Formatter<W>) -> fmt::Result {
        write!(f, "line {}, {}", self.line, self.session)
    }
}

//! What one line of the input is.

ghost use Rattle.std.specs.Prelude.{◌≡◌, ◌∷◌, ◌+◌, ◌<◌, ◌≤◌, ◌^◌, length, option_map, if◌then◌else◌, Some, None};
ghost use Rattle.format_sections.specs.Kind as spec;
ghost use Rattle.format_sections.specs.Kind.{kind_view, kinds_of, kind_of};

use format_lines::{before_blanks, behind_blanks, first_line, is_blank, is_skipped};

/// What a section is of.
#[derive(Clone, Copy, Debug, PartialEq, Eq)]
pub enum SectionKind {
    /// A session, which runs the statements.
    Session,
    /// A session that keeps an image, over which the statements are answered.
    Snapshot,
}

/// What a line is.
#[derive(Clone, Copy)]
pub(crate) enum LineKind<'a> {
    /// Empty, or a comment.
    Skipped,
    /// The line that begins the statements of the setup.
    Setup,
    /// A line that begins those of a section of this kind, and what it has for the name.
    Section(SectionKind, &'a str),
    Statement(&'a str),
    /// Not in UTF-8.
    NoText,
}

/// What is still to be read, and how many lines stand before it.
#[derive(Clone, Copy)]
pub(crate) struct UnreadInput<'a> {
    pub(crate) bytes: &'a [u8],
    pub(crate) before: u64,
}

/// Whether a text is nothing, or has a blank at its front.
fn is_apart(text: &str) -> bool
    ensures { result ≡ spec.is_apart text.now }
{
    match text.as_bytes() {
        [first, ..] => is_blank(*first),
        [] => true,
    }
}

/// What stands behind a head and its blanks, where the line begins with the head.
fn name_behind<'a>(head: &str, text: &'a str) -> Option<&'a str>
    ensures { option_map (λ name. name.now) result
        ≡ (if spec.begins_with head.now text.now then Some (spec.name_behind head.now text.now) else None) }
{
    let rest = text.strip_prefix(head)?;
    if is_apart(rest) {
        Some(behind_blanks(rest))
    } else {
        None
    }
}

/// What a line is that isn't the one of the setup.
fn kind_of_others(text: &str) -> LineKind<'_>
    ensures { kind_view result ≡ spec.kind_of_others text.now }
{
    if let Some(name) = name_behind("-- session", text) {
        return LineKind::Section(SectionKind::Session, name);
    }
    if let Some(name) = name_behind("-- snapshot", text) {
        return LineKind::Section(SectionKind::Snapshot, name);
    }
    if is_skipped(text) {
        LineKind::Skipped
    } else {
        LineKind::Statement(text)
    }
}

fn kind_of_text(text: &str) -> LineKind<'_>
    ensures { kind_view result ≡ spec.kind_of_text text.now }
{
    if text == "-- setup" {
        LineKind::Setup
    } else {
        kind_of_others(text)
    }
}

#[tactic(auto, using(crate::proofs::Texts::good_line, crate::proofs::Texts::bad_line))]
fn kind_of(line: &[u8]) -> LineKind<'_>
    ensures { kind_view result ≡ kind_of line.now }
{
    match std::str::from_utf8(line) {
        Ok(text) => kind_of_text(before_blanks(behind_blanks(text))),
        Err(_) => LineKind::NoText,
    }
}

/// The first line of a rest, and what stands behind it.
pub(crate) fn next_line<'a>(rest: UnreadInput<'a>) -> (LineKind<'a>, UnreadInput<'a>)
    requires some { 0 < length rest.bytes.now }
    requires fits { rest.before + length rest.bytes.now < 2 ^ 64 }
    ensures kinds { kinds_of rest.entry.bytes.now ≡ kind_view result.0 ∷ kinds_of result.1.bytes.now }
    ensures before { result.1.before ≡ rest.entry.before + 1 }
    ensures shorter { length result.1.bytes.now < length rest.entry.bytes.now }
{
    let (line, behind) = first_line(rest.bytes);
    let rest = UnreadInput {
        bytes: behind,
        before: rest.before + 1,
    };
    (kind_of(line), rest)
}

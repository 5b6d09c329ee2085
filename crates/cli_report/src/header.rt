//! Comments that look as if they began a section.

fn is_blank(byte: u8) -> bool {
    byte == b' ' || byte == b'\t'
}

fn is_word_byte(byte: u8) -> bool {
    byte.is_ascii_alphanumeric() || byte == b'_'
}

/// Whether a text has nothing at its front that belongs to a word.
fn is_apart(text: &[u8]) -> bool {
    match text {
        [next, ..] => !is_word_byte(*next),
        [] => true,
    }
}

/// What stands behind the hyphens at the front, if there are two or more.
fn behind_hyphens(text: &[u8]) -> Option<&[u8]> {
    let count = text.iter().take_while(|byte| **byte == b'-').count();
    if count < 2 {
        return None;
    }
    let (_, rest) = text.split_at(count.min(text.len()));
    Some(rest)
}

fn behind_blanks(text: &[u8]) -> &[u8] {
    let count = text.iter().take_while(|byte| is_blank(**byte)).count();
    let (_, rest) = text.split_at(count.min(text.len()));
    rest
}

/// What stands behind a word at the front, whatever the case of its letters.
fn behind_word<'a>(text: &'a [u8], word: &[u8]) -> Option<&'a [u8]> {
    if text.len() < word.len() {
        return None;
    }
    let (front, rest) = text.split_at(word.len());
    if front.eq_ignore_ascii_case(word) && is_apart(rest) {
        Some(rest)
    } else {
        None
    }
}

/// Whether a line is this head, or has a blank behind it.
fn has_head(line: &[u8], head: &[u8]) -> bool {
    let (front, rest) = line.split_at(line.len().min(head.len()));
    front == head
        && match rest {
            [next, ..] => is_blank(*next),
            [] => true,
        }
}

/// Whether the line begins a section, or would if it had a name.
fn is_header(line: &[u8]) -> bool {
    line == b"-- setup".as_slice()
        || has_head(line, b"-- session")
        || has_head(line, b"-- snapshot")
}

/// Whether a line without blanks at its ends is a comment that looks as if it began a section, as `--session bob`
/// and `-- Snapshot bob`. It may be cut off behind its first words.
pub(crate) fn looks_like_header(line: &[u8]) -> bool {
    let Some(text) = behind_hyphens(line) else {
        return false;
    };
    let text = behind_blanks(text);
    let is_like = behind_word(text, b"session").is_some()
        || behind_word(text, b"snapshot").is_some()
        || behind_word(text, b"setup").is_some();
    is_like && !is_header(line)
}

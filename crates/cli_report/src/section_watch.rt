//! Which lines look as if they began a section.

use crate::header::looks_like_header;

/// As many first bytes of a line are looked at.
const HEAD: usize = 32;

/// As many lines are kept.
const KEPT: usize = 8;

/// The lines of an input that are comments and look as if they began a section, as far as its bytes came.
#[derive(Clone, Copy, Debug)]
pub struct SectionWatch {
    /// The first bytes of the line, without blanks before them, and how many there are.
    head: [u8; HEAD],
    filled: usize,
    /// How many bytes came, and how many lines before this one.
    bytes: u64,
    lines: u64,
    /// The first of the lines that look so, counted from 1, and how many there are.
    found: [u64; KEPT],
    count: usize,
}

impl SectionWatch {
    /// Nothing came so far.
    pub(crate) fn new() -> SectionWatch {
        SectionWatch {
            head: [0; HEAD],
            filled: 0,
            bytes: 0,
            lines: 0,
            found: [0; KEPT],
            count: 0,
        }
    }

    /// Looks at the bytes that come next; at the end of an input there are none.
    pub(crate) fn see(&mut self, bytes: &[u8]) {
        self.bytes = self.bytes.saturating_add(bytes.len() as u64);
        if bytes.is_empty() && self.filled > 0 {
            self.end_line();
        }
        for byte in bytes {
            self.see_byte(*byte);
        }
    }

    /// The first of these lines, counted from 1.
    pub fn lines(&self) -> &[u64] {
        &self.found[..self.count.min(KEPT)]
    }

    /// How many such lines there are.
    pub fn count(&self) -> usize {
        self.count
    }

    /// How many bytes came.
    pub fn bytes(&self) -> u64 {
        self.bytes
    }

    fn see_byte(&mut self, byte: u8) {
        if byte == b'\n' {
            self.end_line();
        } else if self.filled > 0 || !matches!(byte, b' ' | b'\t') {
            self.push(byte);
        }
    }

    fn push(&mut self, byte: u8) {
        if self.filled < HEAD {
            self.head[self.filled] = byte;
            self.filled += 1;
        }
    }

    fn end_line(&mut self) {
        self.lines = self.lines.saturating_add(1);
        if looks_like_header(self.line()) {
            if self.count < KEPT {
                self.found[self.count] = self.lines;
            }
            self.count = self.count.saturating_add(1);
        }
        self.filled = 0;
    }

    /// The line as far as it is kept, without blanks and a CR at its end.
    fn line(&self) -> &[u8] {
        let head = &self.head[..self.filled.min(HEAD)];
        let behind = head
            .iter()
            .rev()
            .take_while(|byte| matches!(**byte, b' ' | b'\t' | b'\r'))
            .count();
        let (line, _) = head.split_at(head.len().saturating_sub(behind));
        line
    }
}

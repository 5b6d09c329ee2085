//! What a transcript tells of the statements whose entries it has.

/// As many first bytes of a line are looked at, so that a session's name and what stands for its end are among them.
const HEAD: usize = 64;

/// As many refused statements are kept.
const KEPT: usize = 10;

/// A statement that was refused.
#[derive(Clone, Copy)]
pub struct RefusedEntry {
    /// The number of its entry among those of statements, from 1.
    pub entry: u64,
    /// The number of its code.
    pub code: u8,
}

/// The entries of a transcript, as far as its bytes came.
#[derive(Clone, Copy)]
pub struct TranscriptWatch {
    /// The first bytes of the line, and how many of the line there are.
    head: [u8; HEAD],
    length: usize,
    /// How many entries of statements there are; that of a session's end is none.
    entries: u64,
    /// Whether the entry looks as if it were that of a session's end.
    is_end: bool,
    /// The first of the statements that were refused, and how many there are.
    kept: [RefusedEntry; KEPT],
    refused: u64,
    committed: u64,
    digests: u64,
}

/// The number of a code, where a line is that of one.
fn code_of(line: &[u8]) -> Option<u8> {
    let [b' ', b' ', b'E', tens, ones] = line else {
        return None;
    };
    if tens.is_ascii_digit() && ones.is_ascii_digit() {
        Some((*tens - b'0') * 10 + (*ones - b'0'))
    } else {
        None
    }
}

/// Whether the line of an entry is that of a session's end, or of a statement with the same text.
fn is_of_end(line: &[u8]) -> bool {
    match line.iter().position(|byte| *byte == b':') {
        Some(at) => {
            let (_, text) = line.split_at(at);
            text == b": (end)".as_slice()
        }
        None => false,
    }
}

impl TranscriptWatch {
    /// Nothing came so far.
    pub(crate) fn new() -> TranscriptWatch {
        TranscriptWatch {
            head: [0; HEAD],
            length: 0,
            entries: 0,
            is_end: false,
            kept: [RefusedEntry { entry: 0, code: 0 }; KEPT],
            refused: 0,
            committed: 0,
            digests: 0,
        }
    }

    /// How many statements were refused.
    pub fn refused(&self) -> u64 {
        self.refused
    }

    /// The first of them, ten at most.
    pub fn first_refused(&self) -> &[RefusedEntry] {
        &self.kept[..(self.refused as usize).min(KEPT)]
    }

    /// How many transactions were committed.
    pub fn committed(&self) -> u64 {
        self.committed
    }

    /// How many digests were issued.
    pub fn digests(&self) -> u64 {
        self.digests
    }

    /// Looks at the bytes that come next.
    pub(crate) fn see(&mut self, bytes: &[u8]) {
        for byte in bytes {
            self.see_byte(*byte);
        }
    }

    fn see_byte(&mut self, byte: u8) {
        if byte == b'\n' {
            self.end_line();
            return;
        }
        if self.length < HEAD {
            self.head[self.length] = byte;
        }
        self.length = self.length.saturating_add(1);
    }

    fn end_line(&mut self) {
        let head = self.head;
        let line = &head[..self.length.min(HEAD)];
        if line.starts_with(b"  ") {
            self.see_reply(line);
        } else {
            self.see_entry(line);
        }
        self.length = 0;
    }

    fn see_entry(&mut self, line: &[u8]) {
        self.is_end = self.length == line.len() && is_of_end(line);
        if !self.is_end {
            self.entries = self.entries.saturating_add(1);
        }
    }

    fn see_reply(&mut self, line: &[u8]) {
        match code_of(line) {
            Some(code) if self.length == line.len() => self.see_code(code),
            _ => {}
        }
        if line.starts_with(b"  committed ") {
            self.committed = self.committed.saturating_add(1);
        } else if line.starts_with(b"  digest ") {
            self.digests = self.digests.saturating_add(1);
        }
    }

    /// No end of a session is refused, so that the entry is a statement's.
    fn see_code(&mut self, code: u8) {
        if self.is_end {
            self.is_end = false;
            self.entries = self.entries.saturating_add(1);
        }
        if self.refused < KEPT as u64 {
            self.kept[self.refused as usize] = RefusedEntry {
                entry: self.entries,
                code,
            };
        }
        self.refused = self.refused.saturating_add(1);
    }
}

//! A source whose bytes are looked at as they pass.

ghost use Rattle.std.specs.Prelude.{◌≡◌};
ghost use Rattle.cli_report.specs.Watched.{source_of};

use crate::section_watch::SectionWatch;
use base_io::{Failed, Source};
use std::alloc::Global;

/// Passes on what a source gives, and looks at the bytes as they pass.
#[derive(Drop)]
pub struct WatchedSource<S: Source + Drop> {
    source: S,
    watch: SectionWatch,
    /// A first part of the bytes that passed, which is all of them as long as memory does.
    input: Vec<u8>,
    lacks_memory: bool,
}

impl<S: Source + Drop> WatchedSource<S> {
    /// Nothing was read of the source so far.
    pub fn new(alloc: Global, source: S) -> WatchedSource<S>
        ensures { source_of result ≡ source }
    {
        WatchedSource {
            source,
            watch: SectionWatch::new(),
            input: Vec::new(alloc),
            lacks_memory: false,
        }
    }

    /// The source behind it.
    pub fn source(&self) -> &S
        ensures { result.now ≡ source_of self.now }
    {
        &self.source
    }

    /// What was seen so far.
    pub fn watch(&self) -> SectionWatch {
        self.watch
    }

    /// The bytes that passed so far; none where memory didn't do for them.
    pub fn input(&self) -> Option<&[u8]> {
        if self.lacks_memory {
            None
        } else {
            Some(&self.input)
        }
    }

    fn see(&mut self, bytes: &[u8])
        ensures { source_of self.new ≡ source_of self.old }
    {
        self.watch.see(bytes);
        if !self.lacks_memory {
            self.lacks_memory = self.input.extend_from_slice(bytes).is_err();
        }
    }
}

impl<S: Source + Drop> Source for WatchedSource<S> {
    ghost use Rattle.cli_report.specs.Watched.{source_of};

    ghost left = { λ w. S.left (source_of w) };

    ghost history = { λ w. S.history (source_of w) };

    ghost faults = { λ w. S.faults (source_of w) };

    fn read(&mut self, buf: &mut [u8]) -> Result<usize, Failed> {
        match self.source.read(buf) {
            Ok(n) => {
                self.see(&buf[..n]);
                Ok(n)
            }
            Err(Failed) => Err(Failed),
        }
    }
}

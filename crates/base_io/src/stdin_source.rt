//! A reader of the machine as a source, as standard input.

ghost use Rattle.std.specs.Prelude.{⊤, ◌≡◌, None};

use crate::{Failed, Source};
use std::io;
use std::io::Read;

/// Reads from a reader. It tells nothing of what is left.
#[derive(Drop)]
pub struct StdinSource<R: Read + Drop> {
    reader: R,
    failed: u64,
    failure: Option<io::Error>,
}

impl<R: Read + Drop> StdinSource<R> {
    ghost use Rattle.base_io.specs.Adapters.{reader_faults, reader_failure};

    /// A source over this reader that has not failed so far.
    pub fn new(reader: R) -> StdinSource<R>
        ensures faults { reader_faults result ≡ 0 }
        ensures failure { reader_failure result ≡ None }
    {
        StdinSource {
            reader,
            failed: 0,
            failure: None,
        }
    }

    /// What the system said when it failed last, for whom it is to be told.
    pub fn failure(&self) -> Option<io::Error>
        ensures { result ≡ reader_failure self.now }
    {
        self.failure
    }
}

impl<R: Read + Drop> Source for StdinSource<R> {
    ghost use Rattle.base_io.specs.Adapters.{reader_faults};

    ghost left = { λ s. None };

    ghost history = { λ s answers. ⊤ };

    ghost faults = { λ s. reader_faults s };

    fn read(&mut self, buf: &mut [u8]) -> Result<usize, Failed> {
        match self.reader.read(buf) {
            Ok(n) => Ok(n),
            Err(error) => {
                self.failed = self.failed.saturating_add(1);
                self.failure = Some(error);
                Err(Failed)
            }
        }
    }
}

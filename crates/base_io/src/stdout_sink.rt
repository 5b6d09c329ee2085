//! A writer of the machine as a sink, as standard output.

ghost use Rattle.std.specs.Prelude.{⊤, ◌≡◌, None};

use crate::{Failed, Sink};
use std::io;
use std::io::Write;

/// Writes to a writer. It tells nothing of what it took.
#[derive(Drop)]
pub struct StdoutSink<W: Write + Drop> {
    writer: W,
    failed: u64,
    stalled: u64,
    failure: Option<io::Error>,
}

impl<W: Write + Drop> StdoutSink<W> {
    ghost use Rattle.base_io.specs.Adapters.{writer_faults, writer_stalls, writer_failure};

    /// A sink over this writer that has neither failed nor stalled so far.
    pub fn new(writer: W) -> StdoutSink<W>
        ensures faults { writer_faults result ≡ 0 }
        ensures stalls { writer_stalls result ≡ 0 }
        ensures failure { writer_failure result ≡ None }
    {
        StdoutSink {
            writer,
            failed: 0,
            stalled: 0,
            failure: None,
        }
    }

    /// What the system said when it failed last, for whom it is to be told.
    pub fn failure(&self) -> Option<io::Error>
        ensures { result ≡ writer_failure self.now }
    {
        self.failure
    }
}

impl<W: Write + Drop> Sink for StdoutSink<W> {
    ghost use Rattle.base_io.specs.Adapters.{writer_faults, writer_stalls};

    ghost taken = { λ s. None };

    ghost history = { λ s answers. ⊤ };

    ghost faults = { λ s. writer_faults s };

    ghost stalls = { λ s. writer_stalls s };

    fn write(&mut self, bytes: &[u8]) -> Result<usize, Failed> {
        match self.writer.write(bytes) {
            Ok(n) => {
                if n == 0 && !bytes.is_empty() {
                    self.stalled = self.stalled.saturating_add(1);
                }
                Ok(n)
            }
            Err(error) => {
                self.failed = self.failed.saturating_add(1);
                self.failure = Some(error);
                Err(Failed)
            }
        }
    }
}

//! A sink whose bytes are looked at as they pass.

ghost use Rattle.std.specs.Prelude.{◌≡◌};
ghost use Rattle.cli_report.specs.Watched.{sink_of};

use crate::transcript_watch::TranscriptWatch;
use base_io::{Failed, Sink};

/// Passes on what a sink is given, and looks at the bytes that it takes.
#[derive(Drop)]
pub struct WatchedSink<K: Sink + Drop> {
    sink: K,
    watch: TranscriptWatch,
}

impl<K: Sink + Drop> WatchedSink<K> {
    /// Nothing was written to the sink so far.
    pub fn new(sink: K) -> WatchedSink<K>
        ensures { sink_of result ≡ sink }
    {
        WatchedSink {
            sink,
            watch: TranscriptWatch::new(),
        }
    }

    /// The sink behind it.
    pub fn sink(&self) -> &K
        ensures { result.now ≡ sink_of self.now }
    {
        &self.sink
    }

    /// What was seen so far.
    pub fn watch(&self) -> TranscriptWatch {
        self.watch
    }
}

impl<K: Sink + Drop> Sink for WatchedSink<K> {
    ghost use Rattle.cli_report.specs.Watched.{sink_of};

    ghost taken = { λ w. K.taken (sink_of w) };

    ghost history = { λ w. K.history (sink_of w) };

    ghost faults = { λ w. K.faults (sink_of w) };

    ghost stalls = { λ w. K.stalls (sink_of w) };

    fn write(&mut self, bytes: &[u8]) -> Result<usize, Failed> {
        match self.sink.write(bytes) {
            Ok(n) => {
                self.watch.see(&bytes[..n]);
                Ok(n)
            }
            Err(Failed) => Err(Failed),
        }
    }
}

//! A text that is printed: help, or the version.

ghost use Rattle.std.specs.Prelude.{⊤, ◌≡◌, ◌⊎◌};
ghost use Rattle.base_io.specs.Count.{Rises};
ghost use Rattle.base_io.specs.History.{Since};
ghost use Rattle.cli_audit.specs.Answer.{Unfailed};
ghost use Rattle.cli_audit.specs.Calls.{AreWrites};
ghost use Rattle.cli_audit.specs.Tell.{TellCause, HasTold};
ghost use Rattle.cli_audit.specs.Verify.{SaidOrIdle};

use crate::Status;
use crate::transfer::write_all;
use base_io::{Failed, Sink};

/// Prints a text.
pub fn tell_text<K: Sink>(text: &str, sink: &mut K) -> Status
    ensures cause { TellCause result
        (Rises (K.faults sink.old) (K.faults sink.new) ⊎ Rises (K.stalls sink.old) (K.stalls sink.new)) }
    ensures told { SaidOrIdle result
        (HasTold result text.now (K.taken sink.old) (K.taken sink.new)) (sink.new ≡ sink.old) }
    ensures writes { Since (K.history sink.old) (K.history sink.new) (AreWrites result) }
    ensures unfailed { Unfailed result ⊤ ⊤
        ((K.faults sink.new ≡ K.faults sink.old) × (K.stalls sink.new ≡ K.stalls sink.old)) }
{
    match write_all(sink, text.as_bytes()) {
        Ok(()) => Status::Done,
        Err(Failed) => Status::SinkFault,
    }
}

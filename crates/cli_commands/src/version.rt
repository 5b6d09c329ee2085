//! The version, as a text that is printed.

ghost use Rattle.std.specs.Prelude.{⊤, ◌≡◌, ◌⊎◌};
ghost use Rattle.base_io.specs.Count.{Rises};
ghost use Rattle.base_io.specs.History.{Since};
ghost use Rattle.cli_audit.specs.Answer.{Unfailed};
ghost use Rattle.cli_audit.specs.Calls.{AreWrites};
ghost use Rattle.cli_audit.specs.Tell.{HasTold, TellCause};
ghost use Rattle.cli_audit.specs.Verify.{SaidOrIdle};
ghost use Rattle.cli_words.specs.Help.{version_line};

use base_io::Sink;
use cli_audit::{Status, tell_text};
use cli_words::version_text;
use std::alloc::{AllocError, Global};

/// Writes the version.
pub(crate) fn tell_version<K: Sink>(alloc: Global, sink: &mut K) -> Status
    ensures cause { TellCause result
        (Rises (K.faults sink.old) (K.faults sink.new) ⊎ Rises (K.stalls sink.old) (K.stalls sink.new)) }
    ensures told { SaidOrIdle result
        (HasTold result version_line (K.taken sink.old) (K.taken sink.new)) (sink.new ≡ sink.old) }
    ensures writes { Since (K.history sink.old) (K.history sink.new) (AreWrites result) }
    ensures unfailed { Unfailed result ⊤ ⊤
        ((K.faults sink.new ≡ K.faults sink.old) × (K.stalls sink.new ≡ K.stalls sink.old)) }
{
    match version_text(alloc) {
        Ok(text) => tell_text(&text, sink),
        Err(AllocError) => Status::Memory,
    }
}

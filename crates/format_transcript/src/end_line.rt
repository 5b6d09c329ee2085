//! The line with which a transaction ends.

ghost use Rattle.std.specs.Prelude.{◌≡◌, ◌++◌, OnOk, string_bytes};
ghost use Rattle.spec_history.specs.EndSeen.{end_seen};
ghost use Rattle.spec_history.specs.Transcripts.{committed_at, ended_after};
ghost use Rattle.format_reply.specs.Shown.{indented};
ghost use Rattle.format_transcript.specs.TranscriptText.{end_line};

use base_types::{Memory, TxId};
use sql_types::EndLine;

/// Appends the line of a transaction that was committed.
fn push_committed(id: TxId, place: u64, transcript: &mut String) -> Result<(), Memory>
    ensures { OnOk result (string_bytes transcript.new
        ≡ string_bytes transcript.old ++ indented (end_line (committed_at id place))) }
{
    write!(transcript, "  committed {id} at {place}\n")?;
    Ok(())
}

/// Appends the line of a transaction that ended otherwise.
fn push_ended(id: TxId, after: u64, transcript: &mut String) -> Result<(), Memory>
    ensures { OnOk result (string_bytes transcript.new
        ≡ string_bytes transcript.old ++ indented (end_line (ended_after id after))) }
{
    write!(transcript, "  ended {id} after {after}\n")?;
    Ok(())
}

/// Appends the line of the end of a transaction. After an error nothing is said of the text.
pub(crate) fn push_line(end: EndLine, transcript: &mut String) -> Result<(), Memory>
    ensures { OnOk result (string_bytes transcript.new
        ≡ string_bytes transcript.old ++ indented (end_line (end_seen end))) }
{
    match end {
        EndLine::Committed { id, place } => push_committed(id, place, transcript),
        EndLine::Ended { id, after } => push_ended(id, after, transcript),
    }
}

//! The entries of a transcript.

ghost use Rattle.std.specs.Prelude.{◌≡◌, ◌++◌, OnOk, None, string_bytes};
ghost use Rattle.spec_history.specs.EndSeen.{end_seen, line_seen};
ghost use Rattle.spec_history.specs.Transcripts.{statement, end_of_session};
ghost use Rattle.format_transcript.specs.TranscriptText.{entry_text, end_text};

use crate::end_line::push_line;
use base_types::Memory;
use format_reply::shown_reply;
use sql_types::{EndLine, Reply};
use std::alloc::Global;

/// Appends the end line, if there is one.
fn push_lines(end: Option<EndLine>, transcript: &mut String) -> Result<(), Memory>
    ensures { OnOk result (string_bytes transcript.new
        ≡ string_bytes transcript.old ++ end_text (line_seen end)) }
{
    match end {
        Some(end) => push_line(end, transcript),
        None => Ok(()),
    }
}

/// Appends a statement behind its session, and the lines of its reply.
fn push_answer(
    alloc: Global,
    session: &str,
    text: &str,
    reply: &Reply,
    transcript: &mut String,
) -> Result<(), Memory>
    ensures { OnOk result (string_bytes transcript.new ≡ string_bytes transcript.old
        ++ entry_text session.now (statement text.now reply.now None)) }
{
    write!(transcript, "{session}: {text}\n")?;
    let lines = shown_reply(alloc, reply)?;
    transcript.push_str(lines.as_str())?;
    Ok(())
}

/// Appends the entry of a statement: the session and the statement, then the lines of the reply, then the end
/// line, if there is one. After an error nothing is said of the text. Costs what `shown_reply` does.
#[tactic(auto, using(crate::proofs::Entries::with_end))]
pub fn push_statement(
    alloc: Global,
    session: &str,
    text: &str,
    reply: &Reply,
    end: Option<EndLine>,
    transcript: &mut String,
) -> Result<(), Memory>
    ensures { OnOk result (string_bytes transcript.new ≡ string_bytes transcript.old
        ++ entry_text session.now (statement text.now reply.now (line_seen end))) }
{
    push_answer(alloc, session, text, reply, transcript)?;
    push_lines(end, transcript)
}

/// Appends the entry of a session's end, where it ends a transaction. After an error nothing is said of the
/// text.
#[tactic(auto, using(crate::proofs::Entries::at_end))]
pub fn push_end(session: &str, end: EndLine, transcript: &mut String) -> Result<(), Memory>
    ensures { OnOk result (string_bytes transcript.new ≡ string_bytes transcript.old
        ++ entry_text session.now (end_of_session (end_seen end))) }
{
    write!(transcript, "{session}: (end)\n")?;
    push_line(end, transcript)
}

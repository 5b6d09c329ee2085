//! Answers, as they are written.

ghost use Rattle.std.specs.Prelude.{◌≡◌, ◌++◌, IfOk, OnOk, flat_map, string_bytes};
ghost use Rattle.format_reply.specs.Shown.{indented};
ghost use Rattle.format_asof.specs.Answers.{answer_lines, answer_text};

use base_types::Memory;
use format_reply::shown_reply;
use spec_asof::AsOfReply;
use sql_types::Reply;
use std::alloc::Global;

/// The lines of an answer, each behind two blanks.
fn indented_answer(alloc: Global, answer: AsOfReply) -> Result<String, Memory>
    ensures { IfOk result (λ text. string_bytes text ≡ flat_map indented (answer_lines answer)) }
{
    match answer {
        AsOfReply::Rows(rows) => shown_reply(alloc, &Reply::Rows(rows)),
        AsOfReply::Refused(refusal) => shown_reply(alloc, &Reply::Refused(refusal)),
        AsOfReply::NotSelect => Ok(format!(in alloc; "  E21\n")?),
    }
}

/// Appends a text, and behind it the lines of its answer, each behind two blanks: those of a reply, or `E21` for a
/// statement that is no SELECT. After an error nothing is said of what was written. Takes time in proportion to what
/// is appended, but for a copy while it grows.
pub fn push_answer(
    alloc: Global,
    text: &str,
    answer: AsOfReply,
    written: &mut String,
) -> Result<(), Memory>
    ensures { OnOk result (string_bytes written.new
        ≡ string_bytes written.old ++ answer_text text.now answer) }
{
    let head = format!(in alloc; "{text}\n")?;
    let lines = indented_answer(alloc, answer)?;
    written.push_str(head.as_str())?;
    written.push_str(lines.as_str())?;
    Ok(())
}

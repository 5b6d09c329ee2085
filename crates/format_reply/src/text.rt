//! The text of a reply.

ghost use Rattle.std.specs.Prelude.{◌≡◌, ◌++◌, ◌∷◌, [], IfOk, codes, flat_map, string_bytes};
ghost use Rattle.std.specs.Fmt.{decimal};
ghost use Rattle.hex.specs.Hex.{encode_upper};
ghost use Rattle.sql_value.specs.Refusal.{code_of};
ghost use Rattle.spec_model.specs.Replies as spec;
ghost use Rattle.format_reply.specs.Shown.{indented, lines_in, shown_lines};

use crate::rows::{LineForm, rows_with_count};
use base_types::{Hash, Memory, Text};
use sql_types::Reply;
use sql_value::Refusal;
use std::alloc::Global;

/// `E` and two digits.
fn code_line(alloc: Global, indent: &str, refusal: Refusal) -> Result<String, Memory>
    ensures { IfOk result (λ text.
        string_bytes text ≡ indent.now ++ spec.code_line (code_of refusal) ++ 10 ∷ []) }
{
    let code = refusal.code();
    Ok(format!(in alloc; "{indent}E{}{}\n", code / 10, code % 10)?)
}

/// The code of a refusal, and behind E20 the transaction that holds the lock.
fn refusal_line(alloc: Global, indent: &str, refusal: Refusal) -> Result<String, Memory>
    ensures { IfOk result (λ text. string_bytes text ≡ indent.now ++ spec.refusal_line refusal ++ 10 ∷ []) }
{
    match refusal {
        Refusal::Locked { holder } => Ok(format!(in alloc; "{indent}E20 {holder}\n")?),
        _ => code_line(alloc, indent, refusal),
    }
}

/// The number of a block, and `0x` with the upper-case digits of its hash.
fn digest_line(alloc: Global, indent: &str, block: u64, hash: Hash) -> Result<String, Memory>
    ensures { IfOk result (λ text.
        string_bytes text
        ≡ indent.now ++ (codes "digest " ++ decimal block ++ codes " 0x" ++ encode_upper hash) ++ 10 ∷ []) }
{
    let digits = hex::encode_upper(alloc, hash)?;
    Ok(format!(in alloc; "{indent}digest {block} 0x{digits}\n")?)
}

/// The lines of a reply, each behind an indent and ended by LF; those of rows with or without escapes.
#[tactic(auto, unfolding(spec_model::specs::Replies::reply_lines))]
fn lines(alloc: Global, indent: &str, escapes: bool, reply: &Reply) -> Result<String, Memory>
    ensures { IfOk result (λ text. string_bytes text
        ≡ flat_map (λ line. indent.now ++ line ++ 10 ∷ []) (lines_in escapes reply.now)) }
{
    match reply {
        Reply::Begun(id) => Ok(format!(in alloc; "{indent}begun {id}\n")?),
        Reply::Changed(count) => Ok(format!(in alloc; "{indent}{count} rows\n")?),
        Reply::Rows(rows) => {
            rows_with_count(alloc, &LineForm { indent, escapes }, rows.as_slice())
        }
        Reply::Made => Ok(format!(in alloc; "{indent}made\n")?),
        Reply::Saved => Ok(format!(in alloc; "{indent}saved\n")?),
        Reply::Back => Ok(format!(in alloc; "{indent}back\n")?),
        Reply::Digest { block, hash } => digest_line(alloc, indent, *block, *hash),
        Reply::Image(items) => Ok(format!(in alloc; "{indent}image {items}\n")?),
        Reply::NoOutput => Ok(String::new(alloc)),
        Reply::Refused(refusal) => refusal_line(alloc, indent, *refusal),
    }
}

/// The text of a reply: its lines, each ended by LF. The values of a row are joined by vertical bars, and the
/// count of the rows stands behind them; a refusal is E with two digits, and E20 names the transaction that
/// holds the lock. Takes time in proportion to the text, but for a copy while it grows.
#[tactic(auto, unfolding(spec_model::specs::Replies::reply_text), using(crate::proofs::Lines::kept_lines))]
pub fn reply_text(alloc: Global, reply: &Reply) -> Result<Text, Memory>
    ensures { IfOk result (λ text. text ≡ spec.reply_text reply.now) }
{
    Ok(Text::from_string(lines(alloc, "", false, reply)?))
}

/// The lines of a reply as transcripts and answers show them, each behind two blanks: those of rows with LF, CR and `\`
/// as `\n`, `\r` and `\\`, so that each row has one line. Costs what `reply_text` does.
pub fn shown_reply(alloc: Global, reply: &Reply) -> Result<String, Memory>
    ensures { IfOk result (λ text. string_bytes text ≡ flat_map indented (shown_lines reply.now)) }
{
    lines(alloc, "  ", true, reply)
}

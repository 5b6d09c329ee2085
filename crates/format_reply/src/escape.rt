//! Texts without line ends.

ghost use Rattle.std.specs.Prelude.{◌≡◌, ◌++◌, IfOk, IsUtf8, OnOk, string_bytes};
ghost use Rattle.format_reply.specs.Shown as spec;

use base_types::Memory;
use std::alloc::Global;

/// Appends a byte; LF, CR and `\` as two.
fn push_byte(byte: u8, escaped: &mut Vec<u8>) -> Result<(), Memory>
    ensures { OnOk result (escaped.new.items ≡ escaped.old.items ++ spec.escaped_byte byte) }
{
    match byte {
        b'\n' => escaped.extend_from_slice(b"\\n")?,
        b'\r' => escaped.extend_from_slice(b"\\r")?,
        b'\\' => escaped.extend_from_slice(b"\\\\")?,
        _ => escaped.push(byte)?,
    }
    Ok(())
}

#[tactic(auto, unfolding(crate::specs::Shown::escaped))]
fn escaped_bytes(alloc: Global, text: &[u8]) -> Result<Vec<u8>, Memory>
    ensures { IfOk result (λ escaped. escaped.items ≡ spec.escaped text.now) }
{
    let mut escaped = Vec::new(alloc);
    for byte in text {
        push_byte(*byte, &mut escaped)?;
    }
    Ok(escaped)
}

/// What is escaped stays UTF-8. Does nothing: it is there for its contract.
fn escaped_is_utf8(text: &str)
    ensures { IsUtf8 (spec.escaped text.now) }
{
    text.as_bytes();
}

/// The text with LF, CR and `\` as `\n`, `\r` and `\\`.
pub(crate) fn escaped(alloc: Global, text: &str) -> Result<String, Memory>
    ensures { IfOk result (λ escaped. string_bytes escaped ≡ spec.escaped text.now) }
{
    let bytes = escaped_bytes(alloc, text.as_bytes())?;
    escaped_is_utf8(text);
    Ok(String::from_utf8(bytes).unwrap())
}

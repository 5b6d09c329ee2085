//! Texts one behind the other.

ghost use Rattle.std.specs.Prelude.{◌≡◌, ◌++◌, string_bytes, OnOk};
ghost use Rattle.server_result.specs.Joined.{joined};

use base_types::{Memory, Text};

/// Appends texts one behind the other.
pub fn push_texts(texts: &[Text], out: &mut String) -> Result<(), Memory>
    ensures { OnOk result (string_bytes out.new ≡ string_bytes out.old ++ joined texts.now) }
{
    for text in texts {
        out.push_str(text.as_str())?;
    }
    Ok(())
}

//! How long a text is.

ghost use Rattle.std.specs.Prelude.{◌≡◌, ◌≤◌, length};
ghost use Rattle.sql_value.specs.Text.{utf16_units};

/// The number of UTF-16 units of a text: two for each character above U+FFFF, one for each other.
#[tactic(auto, unfolding(sql_value::specs::Text::utf16_units))]
pub(crate) fn units_of(text: &str) -> usize
    ensures { result ≡ utf16_units text.now }
{
    text.chars().map(|c| c.len_utf16()).sum()
}

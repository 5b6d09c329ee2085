//! Laws of the lines of rows that are shown.

ghost use Rattle.std.specs.Prelude.{◌≡◌, ℕ, List, false};
ghost use Rattle.std.specs.List.{list_any};
ghost use Rattle.format_reply.specs.Shown.{escaped, is_line_end, unescaped};

/// A line that is shown of a row has no LF and no CR, so no value has a line of its own. The line of the row is read
/// back from it, and so equal lines are of equal rows' lines.
pub fn shown_rows_are_read_back()
    ensures one_line { (line : List ℕ) → list_any is_line_end (escaped line) ≡ false }
    ensures back { (line : List ℕ) → unescaped (escaped line) ≡ line }
    ensures alike { (line other : List ℕ) → escaped line ≡ escaped other → line ≡ other }
{}

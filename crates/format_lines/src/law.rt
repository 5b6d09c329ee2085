//! Laws of the input.

ghost use Rattle.std.specs.Prelude.{◌≡◌, ℕ, List, true, All};
ghost use Rattle.std.specs.List.{list_all, list_any, IsDistinct};
ghost use Rattle.std.specs.Str.{bytes_eq, is_utf8};
ghost use Rattle.format_lines.specs.Line.{Statement};
ghost use Rattle.format_lines.specs.Lines.{lines_of};
ghost use Rattle.format_lines.specs.Sessions.{sessions_of};

/// An input is UTF-8 exactly where each of its lines is.
pub fn utf8_law()
    ensures { (bytes : List ℕ) → is_utf8 bytes ≡ list_all is_utf8 (lines_of bytes) }
{}

/// The session of each statement is among the names, no name stands there twice, and each is the session of a
/// statement.
pub fn sessions_law()
    ensures named { (ss : List Statement)
        → All (λ s. list_any (bytes_eq s.session) (sessions_of ss) ≡ true) ss }
    ensures once { (ss : List Statement) → IsDistinct bytes_eq (sessions_of ss) }
    ensures of_statements { (ss : List Statement)
        → All (λ name. list_any (λ s. bytes_eq name s.session) ss ≡ true) (sessions_of ss) }
{}

//! How long the statements of an input are together.

ghost use Rattle.std.specs.Prelude.{ℕ, ◌≡◌, ◌≤◌, ◌+◌, List, length, Ok};
ghost use Rattle.format_lines.specs.Line.{Statement};
ghost use Rattle.format_lines.specs.Lines.{read_input};
ghost use Rattle.format_sections.specs.RunSections.{RunSections, read_run_sections};
ghost use Rattle.law_digests.specs.Issued.{input_bytes, sessions_of_lines, sessions_of_sections};

use format_lines::sessions_law;
use format_sections::statements_law;

/// The statements that the sessions of an input run, each with a line feed behind it, have no more bytes together
/// than the input and a line feed behind its last line.
pub fn statements_are_within_their_input()
    ensures lines { (bytes : List ℕ) (statements : List Statement) → read_input bytes ≡ Ok statements
        → input_bytes (sessions_of_lines statements) ≤ length bytes + 1 }
    ensures sections { (bytes : List ℕ) (all_sections : RunSections)
        → read_run_sections bytes ≡ Ok all_sections
        → input_bytes (sessions_of_sections all_sections) ≤ length bytes + 1 }
{
    sessions_law();
    statements_law();
}

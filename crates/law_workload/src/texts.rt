// The texts of the workload, as statements.
ghost use Rattle.std.specs.Prelude.{◌≡◌, ◌≤◌, ◌<◌, ◌^◌, ℕ, Some};
ghost use Rattle.workload_generator.specs.Workload.{create_text, insert_text, update_text};
ghost use Rattle.spec_syntax.specs.Text.{statement_of};
ghost use Rattle.law_workload.specs.Statements.{create_statement, insert_statement, update_statement};

use law_syntax::versions_keep_to_the_grammar;
use sql_scalar::literals_are_read_back;

/// Each text of the workload is the statement that it looks like: one that makes a table, one that inserts a
/// row, and one that adds 1 to what stands in a row.
pub fn texts_are_read()
    ensures create { (table : ℕ) → 1 ≤ table → table ≤ 4
        → statement_of (create_text table) ≡ Some (create_statement table) }
    ensures insert { (table row : ℕ) → 1 ≤ table → table ≤ 4 → row < 2 ^ 31
        → statement_of (insert_text table row) ≡ Some (insert_statement table row) }
    ensures update { (table row : ℕ) → 1 ≤ table → table ≤ 4 → row < 2 ^ 31
        → statement_of (update_text table row) ≡ Some (update_statement table row) }
{
    literals_are_read_back();
    versions_keep_to_the_grammar();
}

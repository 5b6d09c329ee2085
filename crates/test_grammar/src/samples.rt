//! Texts taken apart by hand, production by production, and texts that are no statement.

ghost use Rattle.std.specs.Prelude.{codes};
ghost use Rattle.sql_types.specs.declared.statement.Stmt.{Stmt};
ghost use Rattle.spec_grammar.specs.Statements.{IsStatement};
ghost use Rattle.test_grammar.specs.Samples as sample;

use law_syntax::parsing_keeps_to_the_grammar;

/// Words in any case, with and without what may be left out. NOT binds tighter than AND, AND than OR, and
/// operators of one level group from the left. A sign in VALUES belongs to its number. Words of types and
/// options stand in brackets or without. An added column may be NULL.
pub fn texts_are_statements()
    ensures short { IsStatement (codes "DELETE t") sample.delete_all }
    ensures long { IsStatement (codes "delete from [t];") sample.delete_all }
    ensures levels { IsStatement (codes "DELETE t WHERE a OR b AND NOT c")
        (sample.delete_where sample.any_of) }
    ensures grouping { IsStatement (codes "DELETE t WHERE a - b - c IS NULL")
        (sample.delete_where sample.no_rest) }
    ensures signs { IsStatement (codes "INSERT t VALUES (- 5, NULL)") sample.insert_row }
    ensures savepoint { IsStatement (codes "ROLLBACK TRAN [s]") sample.back_to_s }
    ensures table { IsStatement
        (codes "CREATE TABLE t (a [int] PRIMARY KEY) WITH (LEDGER = ON (APPEND_ONLY = ON))")
        sample.create_ledger }
    ensures add { IsStatement (codes "ALTER TABLE t ADD w NVARCHAR(5)") sample.add_w }
    ensures drop_column { IsStatement (codes "alter table [t] drop column v;") sample.drop_v }
    ensures drop_table { IsStatement (codes "DROP TABLE t") sample.drop_t }
{}

/// A reserved word is no name, a comparison isn't compared again, columns and aggregates don't stand
/// together, a table has a primary key, an added column may be NULL, COLUMN stands behind the DROP of a column,
/// and nothing stands behind a statement.
pub fn texts_are_none()
    ensures reserved { (s : Stmt) → IsStatement (codes "DELETE of") s → ⊥ }
    ensures compared { (s : Stmt) → IsStatement (codes "DELETE t WHERE a = b = c") s → ⊥ }
    ensures mixed { (s : Stmt) → IsStatement (codes "SELECT COUNT(*), v FROM t") s → ⊥ }
    ensures keyless { (s : Stmt) → IsStatement (codes "CREATE TABLE t (a INT)") s → ⊥ }
    ensures behind { (s : Stmt) → IsStatement (codes "COMMIT t") s → ⊥ }
    ensures not_null { (s : Stmt) → IsStatement (codes "ALTER TABLE t ADD w INT NOT NULL") s → ⊥ }
    ensures columnless { (s : Stmt) → IsStatement (codes "ALTER TABLE t DROP v") s → ⊥ }
{
    parsing_keeps_to_the_grammar();
}

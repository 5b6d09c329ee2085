//! Laws of earlier states.

ghost use Rattle.std.specs.Prelude.{ℕ, pos, ◌≡◌, List, map, Option, Some};
ghost use Rattle.std.specs.List.{AllByRecursion};
ghost use Rattle.sql_types.specs.declared.image.Image.{Image};
ghost use Rattle.sql_types.specs.declared.journal.JournalItem.{JournalItem};
ghost use Rattle.sql_types.specs.declared.statement.Stmt.{Stmt};
ghost use Rattle.sql_types.specs.declared.table.TableDef.{TableDef};
ghost use Rattle.spec_history.specs.Journals.{ids_of};
ghost use Rattle.spec_model.specs.Catalog.{defs_of, versions_of};
ghost use Rattle.spec_model.specs.Journals.{cut, upto, serial, IsLegal};
ghost use Rattle.spec_model.specs.Script.{Reading};
ghost use Rattle.spec_model.specs.Lists.{is_among};
ghost use Rattle.spec_model.specs.Rows.{Row};
ghost use Rattle.spec_model.specs.SystemTables.{changed_table_row};
ghost use Rattle.spec_syntax.specs.Text.{reading_of};
ghost use Rattle.law_catalog_rows.specs.Encoded.{about};
ghost use Rattle.law_catalog_rows.specs.Latest.{number_at};
ghost use Rattle.law_catalog_rows.specs.Written.{ReadsWritten};
ghost use Rattle.format_image.specs.Image.{image_of};
ghost use Rattle.format_image.specs.Rows.{filled_table, filled_version, table_rows};
ghost use Rattle.spec_asof.specs.Answer.{answer_of};
ghost use Rattle.spec_asof.specs.DatabaseAt.{database_at, first_ids, left_of, versions_at};
ghost use Rattle.spec_asof.specs.DefTold.{def_told, kind_numbered, last_row};
ghost use Rattle.law_asof.specs.SameItems.{HaveSameItems};

use law_catalog_text::readings_of_the_grammar_give_written;

/// The versions of each table to which a legal journal leads, without starts and ends of transactions behind its
/// first `m` items, are those to which these items lead; and so of its first `n` transactions. Whatever comes later
/// leaves what earlier transactions made.
pub fn later_transactions_leave_what_earlier_ones_made()
    ensures items { (reads : Reading) (items : List JournalItem) (m id : ℕ) → IsLegal reads items
        → left_of (is_among (ids_of (cut items m))) (versions_of (serial reads items) id)
        ≡ versions_of (serial reads (cut items m)) id }
    ensures transactions { (reads : Reading) (items : List JournalItem) (n id : ℕ) → IsLegal reads items
        → left_of (is_among (ids_of (upto items n))) (versions_of (serial reads items) id)
        ≡ versions_of (serial reads (upto items n)) id }
{}

/// Of each table, the image of a legal journal tells the versions behind its first `n` transactions: base and history,
/// with the starts and ends of the first `n` entries alone, are the versions to which the first `n` transactions lead,
/// with a value for each column of the table.
pub fn images_tell_earlier_versions()
    ensures { (h : List ℕ → List ℕ) (reads : Reading) (database : List ℕ) (items : List JournalItem) (n : ℕ)
        → IsLegal reads items
        → AllByRecursion (λ t. versions_at (is_among (first_ids (image_of h reads database items).entries n)) (table_rows t)
        ≡ map (filled_version t.def.columns) (versions_of (serial reads (upto items n)) t.def.id)) (serial reads items) }
{}

/// The image of a legal journal tells the whole database behind its first `n` transactions, whatever comes later: its
/// definitions are those to which the first `n` transactions lead, each with the names, the columns and the indexes of
/// then and dropped only where it was by then; and its tables are these tables, each version with a value for each
/// column that its table had then, NULL where it has none. So each text is answered over it as it was then. This holds
/// where each statement that is read is one that the grammar may have written, as in journals of each version.
pub fn images_tell_earlier_databases()
    ensures definitions { (h : List ℕ → List ℕ) (reads : Reading) (database : List ℕ) (items : List JournalItem)
        (n : ℕ) → ReadsWritten reads → IsLegal reads items
        → defs_of (database_at (image_of h reads database items) n) ≡ defs_of (serial reads (upto items n)) }
    ensures tables { (h : List ℕ → List ℕ) (reads : Reading) (database : List ℕ) (items : List JournalItem) (n : ℕ)
        → ReadsWritten reads → IsLegal reads items
        → database_at (image_of h reads database items) n ≡ map filled_table (serial reads (upto items n)) }
    ensures answers { (h : List ℕ → List ℕ) (reads : Reading) (database : List ℕ) (items : List JournalItem) (n : ℕ)
        (text : Option Stmt) → ReadsWritten reads → IsLegal reads items
        → answer_of (database_at (image_of h reads database items) n) text
        ≡ answer_of (serial reads (upto items n)) text }
    ensures versions { (h : List ℕ → List ℕ) (version : ℕ) (database : List ℕ) (items : List JournalItem) (n : ℕ)
        → IsLegal (reading_of version) items
        → database_at (image_of h (reading_of version) database items) n
        ≡ map filled_table (serial (reading_of version) (upto items n)) }
{
    readings_of_the_grammar_give_written();
}

/// After the first `n` transactions a table is told by its own row that counts among theirs: its names, its kind and
/// whether it was dropped are those of this row, not those of the image's definition. So images whose definitions
/// differ in these alone tell the same database. The number in the row of a table tells its kind, dropped or not.
pub fn tables_are_told_by_their_rows()
    ensures kind { (first second : List Row) (def : TableDef) (row : Row)
        → last_row 0 (pos def.id) (about (pos def.id) first) ≡ Some row
        → (def_told first second def).kind ≡ kind_numbered (number_at 3 row) }
    ensures number { (change : ℕ) (def : TableDef)
        → kind_numbered (number_at 3 (changed_table_row change def)) ≡ def.kind }
    ensures databases { (i j : Image) (n : ℕ) → i.entries ≡ j.entries → i.tables ≡ j.tables
        → HaveSameItems i.defs j.defs → database_at i n ≡ database_at j n }
{}

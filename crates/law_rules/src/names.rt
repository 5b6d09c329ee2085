//! What is new at its place in the rows of a legal journal.

ghost use Rattle.std.specs.Prelude.{ℤ, pos, ◌≡◌, ◌<◌, true, List};
ghost use Rattle.sql_types.specs.declared.journal.JournalItem.{JournalItem};
ghost use Rattle.sql_types.specs.declared.table.TableDef.{TableDef};
ghost use Rattle.spec_model.specs.Journals.{serial, IsLegal};
ghost use Rattle.spec_model.specs.Script.{Reading};
ghost use Rattle.law_journal.specs.Serial.{place_in};
ghost use Rattle.law_catalog_rows.specs.Encoded.{IsAmong};
ghost use Rattle.law_catalog_rows.specs.Written.{ReadsWritten};
ghost use Rattle.spec_rules.specs.ColumnNames.{column_names_are_new};
ghost use Rattle.spec_rules.specs.Ids.{ids_follow};
ghost use Rattle.spec_rules.specs.Rows.{columns_about};
ghost use Rattle.spec_rules.specs.TableNames.{table_names_are_new};
ghost use Rattle.law_rules.specs.Steps.{catalog_of};

/// In the tables to which a legal journal leads a table gets names that differ, and that no table has then. A column
/// gets a name that no column of its table has then. The row of a new table comes after that of the table with the id
/// before. So it is if each statement that is read is one that the grammar may have written.
pub fn names_and_ids_are_new_in_legal_journals()
    ensures tables { (reads : Reading) (items : List JournalItem) → ReadsWritten reads → IsLegal reads items
        → (t : ℤ) → table_names_are_new (catalog_of (place_in items) (serial reads items)).rows t ≡ true }
    ensures columns { (reads : Reading) (items : List JournalItem) → ReadsWritten reads → IsLegal reads items
        → (def : TableDef) → IsAmong def (catalog_of (place_in items) (serial reads items)).defs
        → column_names_are_new (columns_about (catalog_of (place_in items) (serial reads items)).rows (pos def.id)) ≡ true }
    ensures ids { (reads : Reading) (items : List JournalItem) → ReadsWritten reads → IsLegal reads items
        → (def : TableDef) → IsAmong def (catalog_of (place_in items) (serial reads items)).defs → 2 < def.id
        → ids_follow (catalog_of (place_in items) (serial reads items)).rows (pos def.id) ≡ true }
{}

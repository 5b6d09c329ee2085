//! When the indexes of a legal journal were made.

ghost use Rattle.std.specs.Prelude.{◌≡◌, pos, true, List};
ghost use Rattle.sql_types.specs.declared.journal.JournalItem.{JournalItem};
ghost use Rattle.sql_types.specs.declared.table.TableDef.{TableDef};
ghost use Rattle.spec_model.specs.Journals.{serial, IsLegal};
ghost use Rattle.spec_model.specs.Script.{Reading};
ghost use Rattle.law_journal.specs.Serial.{place_in};
ghost use Rattle.law_catalog_rows.specs.Encoded.{IsAmong};
ghost use Rattle.law_catalog_rows.specs.Written.{ReadsWritten};
ghost use Rattle.spec_rules.specs.Indexes.{indexes_are_in_time};
ghost use Rattle.spec_rules.specs.Rows.{columns_about, indexes_about, tables_about};
ghost use Rattle.law_rules.specs.Steps.{catalog_of};

/// In the tables to which a legal journal leads, the rows of the indexes of a table come before its table was dropped,
/// and after those of the indexes before them. Each comes after its column was made, and before the column was dropped.
/// So it is if each statement that is read is one that the grammar may have written.
pub fn indexes_are_made_in_time_in_legal_journals()
    ensures { (reads : Reading) (items : List JournalItem) → ReadsWritten reads → IsLegal reads items
        → let x = catalog_of (place_in items) (serial reads items) in
        (def : TableDef) → IsAmong def x.defs
        → let t = pos def.id in
        indexes_are_in_time (tables_about x.rows t) (columns_about x.rows t) (indexes_about x.rows t) ≡ true }
{}

//! The rows of columns, and the order of changes, in legal journals.

ghost use Rattle.std.specs.Prelude.{◌≡◌, pos, true, List};
ghost use Rattle.sql_types.specs.declared.journal.JournalItem.{JournalItem};
ghost use Rattle.sql_types.specs.declared.table.TableDef.{TableDef};
ghost use Rattle.spec_model.specs.Journals.{serial, IsLegal};
ghost use Rattle.spec_model.specs.Script.{Reading};
ghost use Rattle.law_journal.specs.Serial.{place_in};
ghost use Rattle.law_catalog_rows.specs.Encoded.{IsAmong};
ghost use Rattle.law_catalog_rows.specs.Written.{ReadsWritten};
ghost use Rattle.spec_rules.specs.Columns.{columns_are_right};
ghost use Rattle.spec_rules.specs.OrderOfChanges.{changes_are_in_order};
ghost use Rattle.spec_rules.specs.Rows.{columns_about, tables_about};
ghost use Rattle.law_rules.specs.Steps.{catalog_of};

/// In the tables to which a legal journal leads, each column of a table has one row or two: that it was created or
/// added, and that it was dropped, with the name that DROP COLUMN makes. So it is if each statement that is read is
/// one that the grammar may have written.
pub fn legal_journals_have_right_rows_of_columns()
    ensures { (reads : Reading) (items : List JournalItem) → ReadsWritten reads → IsLegal reads items
        → let x = catalog_of (place_in items) (serial reads items) in
        (def : TableDef) → IsAmong def x.defs → columns_are_right (columns_about x.rows (pos def.id)) ≡ true }
{}

/// There the changes of a table and of its columns rise with the places of their rows. Columns come by their ordinals,
/// and the drop of a table has the greatest change.
pub fn changes_rise_in_legal_journals()
    ensures { (reads : Reading) (items : List JournalItem) → ReadsWritten reads → IsLegal reads items
        → let x = catalog_of (place_in items) (serial reads items) in
        (def : TableDef) → IsAmong def x.defs
        → changes_are_in_order (tables_about x.rows (pos def.id)) (columns_about x.rows (pos def.id)) ≡ true }
{}

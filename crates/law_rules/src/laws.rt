//! The rules of changes in legal journals, one by one.

ghost use Rattle.std.specs.Prelude.{ℕ, ◌≡◌, pos, true, List};
ghost use Rattle.std.specs.List.{AllByRecursion};
ghost use Rattle.sql_types.specs.declared.entry.TxEntry.{TxEntry};
ghost use Rattle.sql_types.specs.declared.journal.JournalItem.{JournalItem};
ghost use Rattle.sql_types.specs.declared.table.TableDef.{TableDef};
ghost use Rattle.spec_model.specs.Journals.{serial, IsLegal};
ghost use Rattle.spec_model.specs.Script.{Reading};
ghost use Rattle.law_journal.specs.Serial.{place_in};
ghost use Rattle.law_catalog_rows.specs.Encoded.{IsAmong};
ghost use Rattle.law_catalog_rows.specs.Written.{ReadsWritten};
ghost use Rattle.spec_rules.specs.Places.{position_of};
ghost use Rattle.spec_rules.specs.Rows.{tables_about};
ghost use Rattle.spec_rules.specs.Tables.{tables_are_right};
ghost use Rattle.spec_rules.specs.WhileTheTableIsThere.{is_while_the_table_is_there};
ghost use Rattle.law_rules.specs.Steps.{catalog_of, users_of};

/// In the tables to which a legal journal leads, each table that is defined has one row or two in the table of
/// tables: that it was created, and that it was dropped, with the kind and the names that DROP TABLE makes.
pub fn legal_journals_have_right_rows_of_tables()
    ensures { (reads : Reading) (items : List JournalItem) → ReadsWritten reads → IsLegal reads items
        → let x = catalog_of (place_in items) (serial reads items) in
        (def : TableDef) → IsAmong def x.defs → tables_are_right (tables_about x.rows (pos def.id)) ≡ true }
{}

/// In these tables each version of a user's table starts after the table was created. If the table was dropped, the
/// version starts before that, and if it ended, it ended before that too. Entries give each transaction its place in
/// the journal.
pub fn legal_journals_have_versions_while_the_table_is_there()
    ensures { (reads : Reading) (items : List JournalItem) (entries : List TxEntry) → ReadsWritten reads → IsLegal reads items
        → ((id : ℕ) → position_of entries id ≡ place_in items id)
        → let rows = (catalog_of (place_in items) (serial reads items)).rows in
        AllByRecursion (λ t. AllByRecursion (λ v. is_while_the_table_is_there entries rows (pos t.def.id) v ≡ true) t.versions)
        (users_of (serial reads items)) }
{}

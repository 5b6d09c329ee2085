//! Laws of what the system tables spell.

ghost use Rattle.std.specs.Prelude.{ℕ, List};
ghost use Rattle.sql_types.specs.declared.journal.JournalItem.{JournalItem};
ghost use Rattle.sql_types.specs.declared.statement.Stmt.{Stmt};
ghost use Rattle.spec_model.specs.Catalog.{Tables, defs_of};
ghost use Rattle.spec_model.specs.Effect.{effect};
ghost use Rattle.spec_model.specs.Journals.{cut, serial, IsLegal};
ghost use Rattle.spec_model.specs.Runs.{Sound};
ghost use Rattle.spec_model.specs.Script.{Reading};
ghost use Rattle.spec_model.specs.SystemTables.{first_tables};
ghost use Rattle.law_journal.specs.AppendOnly.{AllKeepRows};
ghost use Rattle.law_catalog_rows.specs.Encoded.{HaveTheirRows, AreEncodedByRows};
ghost use Rattle.law_catalog_rows.specs.Formed.{AllFormed};
ghost use Rattle.law_catalog_rows.specs.Differs.{EncodingHolds};
ghost use Rattle.law_catalog_rows.specs.Written.{StatementWritten, ReadsWritten, AllWritten};

/// The system's first tables have no row, and define no other table. Each statement keeps that the rows that
/// stand in the system tables spell the definitions of all other tables, and no more, where these are formed as
/// the checks leave them and no append-only table has lost a row; and it keeps that they are so formed. One
/// that the grammar may have written also keeps that the definitions are as the grammar leaves them.
pub fn statements_keep_definitions()
    ensures first { HaveTheirRows first_tables }
    ensures rows { (T : Tables) (tx seq : ℕ) (stmt : Stmt)
        → Sound tx seq T → AllFormed (defs_of T) → AllKeepRows T → HaveTheirRows T
        → HaveTheirRows (effect T tx seq stmt).tables }
    ensures formed { (T : Tables) (tx seq : ℕ) (stmt : Stmt)
        → Sound tx seq T → AllFormed (defs_of T) → AllFormed (defs_of (effect T tx seq stmt).tables) }
    ensures written { (T : Tables) (tx seq : ℕ) (stmt : Stmt)
        → Sound tx seq T → StatementWritten stmt → AllWritten (defs_of T)
        → AllWritten (defs_of (effect T tx seq stmt).tables) }
{}

/// In the tables to which a legal journal leads, at each cut, the rows that stand in the system tables spell
/// the definitions of all other tables, each by the rows about it, and there are no others; and these
/// definitions are formed as the checks leave them. This holds for any reading of texts.
pub fn legal_journals_have_their_rows()
    ensures all { (reads : Reading) (items : List JournalItem) (m : ℕ)
        → IsLegal reads items → HaveTheirRows (serial reads (cut items m)) }
    ensures formed { (reads : Reading) (items : List JournalItem) (m : ℕ)
        → IsLegal reads items → AllFormed (defs_of (serial reads (cut items m))) }
{}

/// Where each statement that is read is one that the grammar may have written, the rows that stand in the
/// system tables of a legal journal, at each cut, spell exactly the definitions of all other tables: those that
/// count are their rows, and each definition keeps to the rules. So no fault is found in the spelling.
pub fn legal_journals_encode_definitions()
    ensures written { (reads : Reading) (items : List JournalItem) (m : ℕ)
        → ReadsWritten reads → IsLegal reads items → AllWritten (defs_of (serial reads (cut items m))) }
    ensures spelled { (reads : Reading) (items : List JournalItem) (m : ℕ)
        → ReadsWritten reads → IsLegal reads items → AreEncodedByRows (serial reads (cut items m)) }
    ensures holds { (reads : Reading) (items : List JournalItem) (m : ℕ)
        → ReadsWritten reads → IsLegal reads items → EncodingHolds (serial reads (cut items m)) }
{}

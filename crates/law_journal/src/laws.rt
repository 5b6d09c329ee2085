//! Laws of each run: what one transaction after another keeps.

ghost use Rattle.std.specs.Prelude.{ℕ, ◌≡◌, ◌+◌, Bool, List, Option};
ghost use Rattle.std.specs.List.{AllByRecursion};
ghost use Rattle.sql_value.specs.declared.refusal.Refusal.{Refusal};
ghost use Rattle.sql_types.specs.declared.journal.JournalItem.{JournalItem};
ghost use Rattle.sql_types.specs.declared.reply.Reply.TheVariants.{Refused};
ghost use Rattle.sql_types.specs.declared.statement.Stmt.{Stmt};
ghost use Rattle.spec_model.specs.Catalog.{Tables};
ghost use Rattle.spec_model.specs.Effect.{effect};
ghost use Rattle.spec_model.specs.Journals.{cut, serial, IsLegal};
ghost use Rattle.spec_model.specs.ChangeSets.{TableChange, changed_in, change_set};
ghost use Rattle.spec_model.specs.Runs.{Sound};
ghost use Rattle.spec_model.specs.Script.{Reading, State, by_statement, script};
ghost use Rattle.spec_model.specs.SystemTables.{first_tables};
ghost use Rattle.law_journal.specs.AppendOnly.{AllKeepRows};
ghost use Rattle.law_journal.specs.Described.{Described};
ghost use Rattle.law_journal.specs.Fine.{IsFineIn, AllFine};
ghost use Rattle.law_journal.specs.Kept.{Kept};
ghost use Rattle.law_journal.specs.Serial.{TablesOf};

/// Each change that a statement makes, over the tables that the changes before it left, is the start of a row
/// that fits its columns, at a key that no standing row has, or the end of a version that stands: of INSERT,
/// UPDATE and DELETE, and of the system rows of CREATE TABLE, CREATE INDEX, ALTER TABLE and DROP TABLE.
pub fn changes_are_fine()
    ensures { (place : ℕ → ℕ) (T : Tables) (tx seq : ℕ) (stmt : Stmt) → Kept place tx seq T → Described T
        → AllFine tx seq (change_set T stmt).changes T }
{}

/// Each such change, as the next event of its transaction, keeps what is kept: the numbers of the transaction
/// are those below its counter, each once; each other event stands once; ends come after their starts and
/// before now; of two versions of one key one ends before the other starts; and every version fits its table,
/// as far as it has values.
pub fn fine_changes_keep()
    ensures { (place : ℕ → ℕ) (T : Tables) (tx seq : ℕ) (c : TableChange) → Kept place tx seq T → IsFineIn c T
        → Kept place tx (seq + 1) (changed_in (tx, seq) c T) }
{}

/// So it holds of the first tables, and each statement keeps it; and the system tables have their columns,
/// and no keys from those on that the next table or index gets.
pub fn statements_keep()
    ensures first { (place : ℕ → ℕ) (tx : ℕ) → Kept place tx 0 first_tables }
    ensures first_described { Described first_tables }
    ensures statement { (place : ℕ → ℕ) (T : Tables) (tx seq : ℕ) (stmt : Stmt) → Kept place tx seq T
        → Described T
        → Kept place tx (effect T tx seq stmt).seq (effect T tx seq stmt).tables }
    ensures described { (place : ℕ → ℕ) (T : Tables) (tx seq : ℕ) (stmt : Stmt) → Kept place tx seq T
        → Described T
        → Described (effect T tx seq stmt).tables }
{}

/// Scripts keep it, whether BEGIN opened them or not: it holds of the tables after a script, and of the copy
/// of each savepoint with its counter.
pub fn scripts_keep()
    ensures tables { (place : ℕ → ℕ) (reads : Reading) (explicit : Bool) (T : Tables) (tx : ℕ)
        (texts : List (List ℕ)) → Kept place tx 0 T → Described T
        → Kept place tx (script reads explicit T tx texts).state.seq
        (script reads explicit T tx texts).state.tables
        × Described (script reads explicit T tx texts).state.tables }
    ensures copies { (place : ℕ → ℕ) (reads : Reading) (explicit : Bool) (T : Tables) (tx : ℕ)
        (texts : List (List ℕ)) → Kept place tx 0 T → Described T
        → AllByRecursion (λ c. Kept place tx c.seq c.tables × Described c.tables)
        (script reads explicit T tx texts).state.saved }
{}

/// A text that is refused leaves the tables, the counter and each savepoint's copy as they were.
pub fn refusals_leave_everything()
    ensures { (explicit : Bool) (tx : ℕ) (x : State) (text : Option Stmt) (e : Refusal)
        → (by_statement explicit tx x text).1 ≡ Refused e
        → (by_statement explicit tx x text).0 ≡ x }
{}

/// In the tables to which a legal journal leads each start and each end stands once, its id is that of a
/// transaction of the journal, the events of a transaction are numbered from 0 without a gap, an end comes
/// after its start, every version fits its table, as far as it has values, and of two versions of one key one
/// ends before the other starts, in the order of the journal. The system tables have their columns, and no
/// keys from those on that the next table or index gets.
pub fn legal_journals_keep()
    ensures tables { (reads : Reading) (items : List JournalItem) → IsLegal reads items
        → TablesOf items (serial reads items) }
    ensures described { (reads : Reading) (items : List JournalItem) → IsLegal reads items
        → Described (serial reads items) }
{}

/// No version of an append-only table ever ends: statements and scripts keep it so, and it holds of the
/// tables to which a legal journal leads.
pub fn append_only_tables_keep_their_rows()
    ensures statement { (T : Tables) (tx seq : ℕ) (stmt : Stmt) → Sound tx seq T → AllKeepRows T
        → AllKeepRows (effect T tx seq stmt).tables }
    ensures script { (reads : Reading) (explicit : Bool) (T : Tables) (tx : ℕ) (texts : List (List ℕ))
        → Sound tx 0 T → AllKeepRows T → AllKeepRows (script reads explicit T tx texts).state.tables }
    ensures journal { (reads : Reading) (items : List JournalItem) → IsLegal reads items
        → AllKeepRows (serial reads items) }
{}

/// The first items of a legal journal are a legal journal, so the same holds of the tables to which they
/// lead.
pub fn cuts_of_legal_journals_are_legal()
    ensures legal { (reads : Reading) (items : List JournalItem) (m : ℕ) → IsLegal reads items
        → IsLegal reads (cut items m) }
    ensures tables { (reads : Reading) (items : List JournalItem) (m : ℕ) → IsLegal reads items
        → TablesOf (cut items m) (serial reads (cut items m)) }
{}

//! Laws of each run: what holds of the tables between two events of a transaction.

ghost use Rattle.std.specs.Prelude.{ℕ, ◌≡◌, ◌≢◌, Bool, true, List, []};
ghost use Rattle.std.specs.List.{AllByRecursion};
ghost use Rattle.sql_types.specs.declared.journal.JournalItem.{JournalItem};
ghost use Rattle.sql_types.specs.declared.statement.Stmt.{Stmt};
ghost use Rattle.spec_model.specs.Catalog.{Tables};
ghost use Rattle.spec_model.specs.SystemTables.{first_tables};
ghost use Rattle.spec_model.specs.Effect.{effect};
ghost use Rattle.spec_model.specs.Runs.{Sound};
ghost use Rattle.spec_model.specs.Script.{Reading, script};
ghost use Rattle.spec_model.specs.Events.{all_events};
ghost use Rattle.spec_model.specs.Journals.{IsOther, serial, IsLegal};

/// The first tables are sound, and each statement keeps tables sound: ids in order, no two columns of one
/// name, versions by rising start, and no event of the transaction with the next number or above.
pub fn statements_keep_tables_sound()
    ensures first { (tx seq : ℕ) → Sound tx seq first_tables }
    ensures statement { (T : Tables) (tx seq : ℕ) (stmt : Stmt) → Sound tx seq T
        → Sound tx (effect T tx seq stmt).seq (effect T tx seq stmt).tables }
{}

/// A script of a transaction that BEGIN opened keeps tables sound: those after it, and the copy
/// of each savepoint.
pub fn explicit_scripts_keep_tables_sound()
    ensures tables { (reads : Reading) (T : Tables) (tx : ℕ) (texts : List (List ℕ)) → Sound tx 0 T
        → Sound tx (script reads true T tx texts).state.seq (script reads true T tx texts).state.tables }
    ensures copies { (reads : Reading) (T : Tables) (tx : ℕ) (texts : List (List ℕ)) → Sound tx 0 T
        → AllByRecursion (λ c. Sound tx c.seq c.tables) (script reads true T tx texts).state.saved }
{}

/// A transaction makes no event of another one: tables that are sound for another one stay so under its
/// script, whether BEGIN opened it or not.
pub fn scripts_keep_tables_sound_for_others()
    ensures { (reads : Reading) (explicit : Bool) (T : Tables) (tx other n : ℕ) (texts : List (List ℕ))
        → tx ≢ other → Sound tx 0 T → Sound other n T
        → Sound other n (script reads explicit T tx texts).state.tables }
{}

/// The tables to which a legal journal leads are sound for each transaction that it doesn't have.
pub fn legal_journals_lead_to_sound_tables()
    ensures { (reads : Reading) (items : List JournalItem) (id : ℕ) → IsLegal reads items
        → AllByRecursion (IsOther id) items
        → Sound id 0 (serial reads items) }
{}

/// Tables that are sound for a transaction from its start have no event of it.
pub fn transactions_begin_without_events()
    ensures { (T : Tables) (tx : ℕ) → Sound tx 0 T → all_events tx T ≡ [] }
{}

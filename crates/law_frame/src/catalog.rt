//! Laws of the catalog: who changes the definitions of tables, and who has to be alone with them.

ghost use Rattle.std.specs.Prelude.{ℕ, ◌≡◌, Bool, true, false, List, [], ◌∷◌, Option, Some, None};
ghost use Rattle.std.specs.List.{AllByRecursion};
ghost use Rattle.sql_value.specs.declared.refusal.Refusal.TheVariants.{ForbiddenInTransaction};
ghost use Rattle.sql_types.specs.declared.lock.Mode.{Mode};
ghost use Rattle.sql_types.specs.declared.lock.Mode.TheVariants.{S, X};
ghost use Rattle.sql_types.specs.declared.lock.LockRequest.{LockRequest};
ghost use Rattle.sql_types.specs.declared.statement.Stmt.{Stmt};
ghost use Rattle.sql_types.specs.declared.reply.Reply.TheVariants.{Refused};
ghost use Rattle.sql_types.specs.declared.table.TableDef.{TableDef};
ghost use Rattle.spec_model.specs.Catalog.{Defs, Tables, defs_of};
ghost use Rattle.spec_model.specs.ChangeSets.{altered, change_set};
ghost use Rattle.spec_model.specs.Effect.{effect};
ghost use Rattle.spec_model.specs.Locks.{catalog_request, cell_requests, conflict, some_conflict, clash};
ghost use Rattle.spec_model.specs.Reach.{creates};
ghost use Rattle.spec_model.specs.Script.{Reading, State, start, in_transaction, script};
ghost use Rattle.law_frame.specs.Alters.{Altering};

/// A statement that doesn't create leaves all definitions: a table statement, and a transaction of such
/// a statement alone.
pub fn creates_alone_change_definitions()
    ensures statement { (T : Tables) (tx seq : ℕ) (stmt : Stmt) → creates stmt ≡ false
        → defs_of (effect T tx seq stmt).tables ≡ defs_of T }
    ensures transaction { (reads : Reading) (T : Tables) (tx : ℕ) (text : List ℕ) (stmt : Stmt)
        → reads text ≡ Some stmt → creates stmt ≡ false
        → defs_of (script reads false T tx (text ∷ [])).state.tables ≡ defs_of T }
{}

/// A script of a transaction that BEGIN opened leaves all definitions, and the copies of its
/// savepoints have them too.
pub fn explicit_scripts_leave_definitions()
    ensures tables { (reads : Reading) (T : Tables) (tx : ℕ) (texts : List (List ℕ))
        → defs_of (script reads true T tx texts).state.tables ≡ defs_of T }
    ensures copies { (reads : Reading) (T : Tables) (tx : ℕ) (texts : List (List ℕ))
        → AllByRecursion (λ c. defs_of c.tables ≡ defs_of T) (script reads true T tx texts).state.saved }
{}

/// A statement that wants something in a table's cell doesn't create, and shares the catalog.
pub fn cell_requests_share_the_catalog()
    ensures creates { (defs : Defs) (stmt : Stmt) (c : ℕ × List LockRequest) → cell_requests defs stmt ≡ Some c
        → creates stmt ≡ false }
    ensures shares { (defs : Defs) (explicit : Bool) (stmt : Stmt) (c : ℕ × List LockRequest)
        → cell_requests defs stmt ≡ Some c
        → catalog_request explicit stmt ≡ Some S }
{}

/// Who creates wants the catalog alone, which conflicts with each mode. In a transaction that BEGIN
/// opened nobody creates.
pub fn creates_request_the_catalog_alone()
    ensures requests { (stmt : Stmt) → creates stmt ≡ true → catalog_request false stmt ≡ Some X }
    ensures conflicts { (m : Mode) → (conflict X m ≡ true) × (conflict m X ≡ true) }
    ensures explicit { (tx : ℕ) (x : State) (stmt : Stmt) → creates stmt ≡ true
        → in_transaction tx x stmt ≡ (x, Refused ForbiddenInTransaction) }
{}

/// ALTER TABLE and DROP TABLE put a definition in the place of that of a user's table which stands. It has the
/// id, the kind, the indexes and the places of the key as before. Each column keeps its place and its type, and
/// may be NULL where it might before; columns that are added behind may be NULL. No two columns come to have one
/// name, and there come to be no more than a table may have.
pub fn altered_definitions_keep_keys_and_columns()
    ensures { (T : Tables) (def : TableDef) (stmt : Stmt) → (change_set T stmt).definition ≡ altered def
        → Altering (defs_of T) def }
{}

/// A script without texts leaves the tables and replies nothing.
pub fn no_texts_do_nothing()
    ensures { (reads : Reading) (explicit : Bool) (T : Tables) (tx : ℕ)
        → script reads explicit T tx [] ≡ record { state = start T; replies = [] } }
{}

/// Statements clash whose wants in the catalog conflict, and those with wants on one item of one
/// table that conflict.
pub fn conflicting_requests_clash()
    ensures catalog { (defs : Defs) (o p : Bool) (a b : Stmt) (v w : Mode) → catalog_request o a ≡ Some v
        → catalog_request p b ≡ Some w
        → conflict v w ≡ true → clash defs o a p b ≡ true }
    ensures cell { (defs : Defs) (o p : Bool) (a b : Stmt) (c d : ℕ × List LockRequest) → cell_requests defs a ≡ Some c
        → cell_requests defs b ≡ Some d
        → c.0 ≡ d.0 → some_conflict c.1 d.1 ≡ true → clash defs o a p b ≡ true }
{}

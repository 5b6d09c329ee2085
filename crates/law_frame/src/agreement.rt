//! Laws on which serial execution stands: what two states have to agree on, so that a statement does the same
//! over both, and what a statement leaves alone.

ghost use Rattle.std.specs.Prelude.{ℕ, ◌≡◌, false, List};
ghost use Rattle.sql_value.specs.declared.column.ColumnDef.{ColumnDef};
ghost use Rattle.sql_types.specs.declared.statement.Stmt.{Stmt};
ghost use Rattle.sql_types.specs.declared.version.Version.{Version};
ghost use Rattle.spec_model.specs.Keys.{Key, of_key};
ghost use Rattle.spec_model.specs.Catalog.{Tables, defs_of, versions_of};
ghost use Rattle.spec_model.specs.Effect.{effect};
ghost use Rattle.spec_model.specs.ChangeSets.{change_set, carried_out};
ghost use Rattle.spec_model.specs.Agreement.{AgreeFor, IdsFrom, columns_at, requests_of};
ghost use Rattle.spec_model.specs.Reach.{reaches, reaches_table};
ghost use Rattle.spec_model.specs.Runs.{Rising, Sound};

/// A statement does what its plan says: its starts and ends in order, numbered from the counter, and its
/// definition; and it replies what its plan says.
pub fn effects_are_change_sets_carried_out()
    ensures { (T : Tables) (tx seq : ℕ) (stmt : Stmt)
        → effect T tx seq stmt ≡ carried_out T tx seq (change_set T stmt) }
{}

/// Over two states that agree on all that a statement wants, the first with its tables' ids in order, it has
/// one plan: the same starts and ends, the same definition and the same reply. With `effects_are_change_sets_carried_out` the counter
/// after it is the same too.
pub fn agreeing_states_give_one_change_set()
    ensures change_set { (T U : Tables) (stmt : Stmt) → IdsFrom 1 (defs_of T)
        → AgreeFor T U (requests_of (defs_of T) false stmt) → change_set T stmt ≡ change_set U stmt }
    ensures reply { (T U : Tables) (tx seq : ℕ) (stmt : Stmt) → IdsFrom 1 (defs_of T)
        → AgreeFor T U (requests_of (defs_of T) false stmt)
        → (effect T tx seq stmt).reply ≡ (effect U tx seq stmt).reply }
    ensures counter { (T U : Tables) (tx seq : ℕ) (stmt : Stmt) → IdsFrom 1 (defs_of T)
        → AgreeFor T U (requests_of (defs_of T) false stmt)
        → (effect T tx seq stmt).seq ≡ (effect U tx seq stmt).seq }
{}

/// Where a statement wants no X on the rows of a key of sound tables, their versions are those from before; and
/// where it wants none on anything of a table, all versions of the table are.
pub fn statements_leave_what_they_dont_request()
    ensures keys { (T : Tables) (tx seq id : ℕ) (key : Key) (stmt : Stmt) → Sound tx seq T
        → reaches id key (requests_of (defs_of T) false stmt) ≡ false
        → of_key (columns_at (defs_of T) id) key (versions_of (effect T tx seq stmt).tables id)
        ≡ of_key (columns_at (defs_of T) id) key (versions_of T id) }
    ensures tables { (T : Tables) (tx seq id : ℕ) (stmt : Stmt)
        → reaches_table id (requests_of (defs_of T) false stmt) ≡ false
        → versions_of (effect T tx seq stmt).tables id ≡ versions_of T id }
{}

/// Versions by rising start are the same where those of each key are: who agrees on each key agrees
/// on the whole table.
pub fn versions_are_those_of_their_keys()
    ensures { (columns : List ColumnDef) (V W : List Version) → Rising V → Rising W
        → ((key : Key) → of_key columns key V ≡ of_key columns key W) → V ≡ W }
{}

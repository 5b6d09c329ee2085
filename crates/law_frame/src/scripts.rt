//! Laws of whole scripts: over two states that agree on all that its statements want, a script does the same,
//! and it leaves alone what they don't want.

ghost use Rattle.std.specs.Prelude.{ℕ, ◌≡◌, Bool, true, false, List, [], ◌∷◌, ◌++◌, length, Some};
ghost use Rattle.std.specs.List.{AllByRecursion};
ghost use Rattle.sql_types.specs.declared.statement.Stmt.{Stmt};
ghost use Rattle.spec_model.specs.Keys.{Key, of_key};
ghost use Rattle.spec_model.specs.Catalog.{Tables, defs_of, versions_of};
ghost use Rattle.spec_model.specs.Agreement.{LockRequests, AgreeFor, SameCatalog, columns_at, requests_of};
ghost use Rattle.spec_model.specs.NoClash.{text_clash};
ghost use Rattle.spec_model.specs.ChangeSets.{changed_from};
ghost use Rattle.spec_model.specs.Reach.{creates, reaches, reaches_table};
ghost use Rattle.spec_model.specs.Runs.{Sound};
ghost use Rattle.spec_model.specs.Script.{Reading, script};
ghost use Rattle.spec_model.specs.ScriptRequests.{text_requests, script_requests, script_changes};

/// The tables after a script of a transaction that BEGIN opened are those before it with the starts and ends
/// that stand, in order and numbered from 0, and the counter is their number.
pub fn explicit_scripts_are_their_changes()
    ensures tables { (reads : Reading) (T : Tables) (tx : ℕ) (texts : List (List ℕ))
        → (script reads true T tx texts).state.tables
        ≡ changed_from tx 0 (script_changes reads true T tx texts) T }
    ensures counter { (reads : Reading) (T : Tables) (tx : ℕ) (texts : List (List ℕ))
        → length (script_changes reads true T tx texts) ≡ (script reads true T tx texts).state.seq }
{}

/// Over two sound states that agree on all that its statements want, and on some wants more, a script of a
/// transaction that BEGIN opened, its savepoints and the ways back to them included, has the same replies,
/// the same counter and the same starts and ends; and the states after it agree on all of these wants.
pub fn explicit_scripts_over_agreeing_states_are_one()
    ensures replies { (reads : Reading) (T U : Tables) (tx : ℕ) (texts : List (List ℕ)) (more : List LockRequests)
        → Sound tx 0 T → Sound tx 0 U
        → AllByRecursion (AgreeFor T U) (more ++ script_requests reads (defs_of T) true texts)
        → (script reads true T tx texts).replies ≡ (script reads true U tx texts).replies }
    ensures counter { (reads : Reading) (T U : Tables) (tx : ℕ) (texts : List (List ℕ)) (more : List LockRequests)
        → Sound tx 0 T → Sound tx 0 U
        → AllByRecursion (AgreeFor T U) (more ++ script_requests reads (defs_of T) true texts)
        → (script reads true T tx texts).state.seq ≡ (script reads true U tx texts).state.seq }
    ensures changes { (reads : Reading) (T U : Tables) (tx : ℕ) (texts : List (List ℕ)) (more : List LockRequests)
        → Sound tx 0 T → Sound tx 0 U
        → AllByRecursion (AgreeFor T U) (more ++ script_requests reads (defs_of T) true texts)
        → script_changes reads true T tx texts ≡ script_changes reads true U tx texts }
    ensures agree { (reads : Reading) (T U : Tables) (tx : ℕ) (texts : List (List ℕ)) (more : List LockRequests)
        → Sound tx 0 T → Sound tx 0 U
        → AllByRecursion (AgreeFor T U) (more ++ script_requests reads (defs_of T) true texts)
        → AllByRecursion
        (AgreeFor (script reads true T tx texts).state.tables (script reads true U tx texts).state.tables)
        (more ++ script_requests reads (defs_of T) true texts) }
{}

/// Where none of its statements wants X on the rows of a key, a script of a transaction that BEGIN opened
/// leaves their versions; and where none wants it on anything of a table, all versions of the table.
pub fn opened_scripts_leave_what_they_dont_request()
    ensures keys { (reads : Reading) (T : Tables) (tx id : ℕ) (key : Key) (texts : List (List ℕ))
        → Sound tx 0 T
        → AllByRecursion (λ w. reaches id key w ≡ false) (script_requests reads (defs_of T) true texts)
        → of_key (columns_at (defs_of T) id) key (versions_of (script reads true T tx texts).state.tables id)
        ≡ of_key (columns_at (defs_of T) id) key (versions_of T id) }
    ensures tables { (reads : Reading) (T : Tables) (tx id : ℕ) (texts : List (List ℕ))
        → AllByRecursion (λ w. reaches_table id w ≡ false) (script_requests reads (defs_of T) true texts)
        → versions_of (script reads true T tx texts).state.tables id ≡ versions_of T id }
{}

/// Over two states that agree on all that it wants, a statement that is a transaction of its own has the same
/// reply, the same counter and the same starts and ends. If it doesn't create, the states after it agree on
/// what they agreed on; and if it does, they have the same catalog.
pub fn statements_alone_over_agreeing_states_are_one()
    ensures replies { (reads : Reading) (T U : Tables) (tx : ℕ) (text : List ℕ) → Sound tx 0 T → Sound tx 0 U
        → AgreeFor T U (text_requests (defs_of T) false (reads text))
        → (script reads false T tx (text ∷ [])).replies ≡ (script reads false U tx (text ∷ [])).replies }
    ensures counter { (reads : Reading) (T U : Tables) (tx : ℕ) (text : List ℕ) → Sound tx 0 T → Sound tx 0 U
        → AgreeFor T U (text_requests (defs_of T) false (reads text))
        → (script reads false T tx (text ∷ [])).state.seq ≡ (script reads false U tx (text ∷ [])).state.seq }
    ensures changes { (reads : Reading) (T U : Tables) (tx : ℕ) (text : List ℕ) → Sound tx 0 T → Sound tx 0 U
        → AgreeFor T U (text_requests (defs_of T) false (reads text))
        → script_changes reads false T tx (text ∷ []) ≡ script_changes reads false U tx (text ∷ []) }
    ensures agree { (reads : Reading) (T U : Tables) (tx : ℕ) (text : List ℕ) (stmt : Stmt)
        (more : List LockRequests) → Sound tx 0 T → Sound tx 0 U
        → reads text ≡ Some stmt → creates stmt ≡ false → AgreeFor T U (requests_of (defs_of T) false stmt)
        → AllByRecursion (AgreeFor T U) more
        → AllByRecursion
        (AgreeFor (script reads false T tx (text ∷ [])).state.tables
        (script reads false U tx (text ∷ [])).state.tables) more }
    ensures catalog { (reads : Reading) (T U : Tables) (tx : ℕ) (text : List ℕ) (stmt : Stmt) → Sound tx 0 T
        → Sound tx 0 U
        → reads text ≡ Some stmt → creates stmt ≡ true → AgreeFor T U (requests_of (defs_of T) false stmt)
        → SameCatalog (script reads false T tx (text ∷ [])).state.tables
        (script reads false U tx (text ∷ [])).state.tables }
{}

/// Over sound tables, what doesn't clash with a statement leaves all that the statement wants: a script of a
/// transaction that BEGIN opened, and a statement that is a transaction of its own.
pub fn what_doesnt_clash_leaves_what_is_requested()
    ensures script { (reads : Reading) (T : Tables) (tx : ℕ) (texts : List (List ℕ)) (stmt : Stmt)
        (explicit : Bool) → Sound tx 0 T
        → AllByRecursion (λ t. text_clash (defs_of T) explicit stmt true (reads t) ≡ false) texts
        → AgreeFor T (script reads true T tx texts).state.tables (requests_of (defs_of T) explicit stmt) }
    ensures alone { (reads : Reading) (T : Tables) (tx : ℕ) (text : List ℕ) (stmt : Stmt) (explicit : Bool)
        → Sound tx 0 T
        → text_clash (defs_of T) explicit stmt false (reads text) ≡ false
        → AgreeFor T (script reads false T tx (text ∷ [])).state.tables (requests_of (defs_of T) explicit stmt) }
{}

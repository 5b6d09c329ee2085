//! Laws of leaves.

ghost use Rattle.std.specs.Prelude.{◌≡◌, ◌++◌, ℕ, List, []};
ghost use Rattle.sql_types.specs.declared.event.Event.{Event};
ghost use Rattle.format_event.specs.Leaf.{IsEvent, event_bytes, without_nulls};

/// Two events have equal leaves exactly where they are equal without their NULL columns, and no leaf is a
/// proper prefix of another. All that the ledger's hashes show rests on this.
pub fn equal_leaves_are_of_equal_events()
    ensures equal { (e f : Event) → IsEvent (without_nulls e) → IsEvent (without_nulls f)
        → event_bytes e ≡ event_bytes f → without_nulls e ≡ without_nulls f }
    ensures same { (e f : Event) → without_nulls e ≡ without_nulls f → event_bytes e ≡ event_bytes f }
    ensures prefix { (e f : Event) (rest : List ℕ) → IsEvent (without_nulls e) → IsEvent (without_nulls f)
        → event_bytes e ≡ event_bytes f ++ rest → rest ≡ [] }
{}

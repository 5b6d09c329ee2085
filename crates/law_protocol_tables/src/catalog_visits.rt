//! Visits of the catalog's cell keep cells and seats standing together.

ghost use Rattle.std.specs.Prelude.{◌≡◌, ℕ, false, true, List, [], ◌∷◌, slice_set, Some};
ghost use mathlib.Core.Option.{some};
ghost use lib.ListN.{get_elem?};
ghost use Rattle.sql_types.specs.declared.table.Part.TheVariants.{System};
ghost use Rattle.spec_model.specs.Effect.{query_rows};
ghost use Rattle.spec_history.specs.Acts.{looks, meets};
ghost use Rattle.spec_protocol.specs.ActsOf.{done_acts, failed_in};
ghost use Rattle.spec_protocol.specs.Doing.{rows_reply};
ghost use Rattle.spec_protocol.specs.Server.{Server};
ghost use Rattle.spec_protocol.specs.Cells.{Cell, Catalog, CatalogCell, catalog_at, versions_in};
ghost use Rattle.spec_protocol.specs.Seats.{SeatState};
ghost use Rattle.sql_types.specs.declared.reply.Reply.TheVariants.{Refused};
ghost use Rattle.sql_value.specs.declared.refusal.Refusal.TheVariants.{NoMemory, Locked};
ghost use Rattle.spec_protocol.specs.CatalogVisits.{AltersTable, CreatesIndex, CreatesTable, ReleasesCatalogLock, Looks, ReadsSystem, RefusesCreate, StopsInCatalog};
ghost use Rattle.spec_protocol.specs.UndoVisits.{ReleasesCatalog};
ghost use Rattle.spec_protocol.specs.StandTogether.{History, LocksAskedFor, Stands, StandsAfter};

/// Looking a name up does.
pub fn looking_up_keeps_standing()
    ensures { (v : Server) (history : History) (cells : List Cell) (seats : List SeatState)
        → Stands v history cells seats
        → (j : ℕ) (s : SeatState) → get_elem? seats j ≡ some s
        → (c d : CatalogCell) (t : SeatState) → get_elem? cells catalog_at ≡ some (Catalog c)
        → (w : Looks v c s d t)
        → StandsAfter v j history (looks w.at.stands.text false ∷ [])
        (slice_set cells catalog_at (Catalog d)) (slice_set seats j t) }
{}

/// A refused statement gives the catalog's lock back.
pub fn giving_back_keeps_standing()
    ensures { (v : Server) (history : History) (cells : List Cell) (seats : List SeatState)
        → Stands v history cells seats
        → (j : ℕ) (s : SeatState) → get_elem? seats j ≡ some s
        → (c d : CatalogCell) (t : SeatState) → get_elem? cells catalog_at ≡ some (Catalog c)
        → ReleasesCatalogLock v c s d t
        → Stands v history (slice_set cells catalog_at (Catalog d)) (slice_set seats j t) }
{}

/// CREATE TABLE does.
pub fn creating_a_table_keeps_standing()
    ensures { (v : Server) (history : History) (cells : List Cell) (seats : List SeatState)
        → Stands v history cells seats
        → (j : ℕ) (s : SeatState) → get_elem? seats j ≡ some s
        → (c d : CatalogCell) (t : SeatState) → get_elem? cells catalog_at ≡ some (Catalog c)
        → (w : CreatesTable v c s d t)
        → StandsAfter v j history (looks w.at.stands.text false ∷ [])
        (slice_set cells catalog_at (Catalog d)) (slice_set seats j t) }
{}

/// CREATE INDEX does, as far as the catalog goes.
pub fn creating_an_index_keeps_standing()
    ensures { (v : Server) (history : History) (cells : List Cell) (seats : List SeatState)
        → Stands v history cells seats
        → (j : ℕ) (s : SeatState) → get_elem? seats j ≡ some s
        → (c d : CatalogCell) (t : SeatState) → get_elem? cells catalog_at ≡ some (Catalog c)
        → (w : CreatesIndex v c s d t)
        → StandsAfter v j history (looks w.at.stands.text false ∷ [])
        (slice_set cells catalog_at (Catalog d)) (slice_set seats j t) }
{}

/// ALTER TABLE and DROP TABLE do.
pub fn altering_a_table_keeps_standing()
    ensures { (v : Server) (history : History) (cells : List Cell) (seats : List SeatState)
        → Stands v history cells seats
        → (j : ℕ) (s : SeatState) → get_elem? seats j ≡ some s
        → (c d : CatalogCell) (t : SeatState) → get_elem? cells catalog_at ≡ some (Catalog c)
        → (w : AltersTable v c s d t)
        → StandsAfter v j history (looks w.at.stands.text false ∷ [])
        (slice_set cells catalog_at (Catalog d)) (slice_set seats j t) }
{}

/// A statement that creates, alters or drops does where the catalog refuses it.
pub fn refusing_a_create_keeps_standing()
    ensures { (v : Server) (history : History) (cells : List Cell) (seats : List SeatState)
        → Stands v history cells seats
        → (j : ℕ) (s : SeatState) → get_elem? seats j ≡ some s
        → (c d : CatalogCell) (t : SeatState) → get_elem? cells catalog_at ≡ some (Catalog c)
        → (w : RefusesCreate v c s d t)
        → StandsAfter v j history (looks w.at.stands.text false ∷ [])
        (slice_set cells catalog_at (Catalog d)) (slice_set seats j t) }
{}

/// After the end is fixed, the catalog is released.
pub fn releasing_the_catalog_keeps_standing()
    ensures { (v : Server) (history : History) (cells : List Cell) (seats : List SeatState)
        → Stands v history cells seats
        → (j : ℕ) (s : SeatState) → get_elem? seats j ≡ some s
        → (c d : CatalogCell) (t : SeatState) → get_elem? cells catalog_at ≡ some (Catalog c)
        → ReleasesCatalog c s d t
        → Stands v history (slice_set cells catalog_at (Catalog d)) (slice_set seats j t) }
{}

/// SELECT on a system table does.
pub fn reading_a_system_table_keeps_standing()
    ensures { (v : Server) (history : History) (cells : List Cell) (seats : List SeatState)
        → Stands v history cells seats
        → (j : ℕ) (s : SeatState) → get_elem? seats j ≡ some s
        → (c d : CatalogCell) (t : SeatState) → get_elem? cells catalog_at ≡ some (Catalog c)
        → (w : ReadsSystem v c s d t)
        → StandsAfter v j history (looks w.at.stands.text false ∷ done_acts w.o.explicit w.at.stands.text true
        (rows_reply (query_rows w.q (w.def, System) (versions_in w.def.id (Catalog c)))))
        (slice_set cells catalog_at (Catalog d)) (slice_set seats j t) }
{}

/// So does a visit that lacks memory, and leaves the cell.
pub fn lacking_memory_in_the_catalog_keeps_standing()
    ensures { (v : Server) (history : History) (cells : List Cell) (seats : List SeatState)
        → Stands v history cells seats
        → (j : ℕ) (s : SeatState) → get_elem? seats j ≡ some s
        → (c d : CatalogCell) (t : SeatState) → get_elem? cells catalog_at ≡ some (Catalog c)
        → (w : StopsInCatalog v c s t) → w.r ≡ Refused NoMemory → d ≡ c
        → StandsAfter v j history (failed_in v.meaning (Some w.o) w.at.stands.text)
        (slice_set cells catalog_at (Catalog d)) (slice_set seats j t) }
{}

/// A visit that meets a lock of another transaction does, where each lock was asked for: the history names
/// the holder.
pub fn meeting_a_lock_in_the_catalog_keeps_standing()
    ensures { (v : Server) (history : History) (cells : List Cell) (seats : List SeatState)
        → (st : Stands v history cells seats) → LocksAskedFor st
        → (j : ℕ) (s : SeatState) → get_elem? seats j ≡ some s
        → (c d : CatalogCell) (t : SeatState) → get_elem? cells catalog_at ≡ some (Catalog c)
        → (w : StopsInCatalog v c s t) (holder : ℕ) → w.r ≡ Refused (Locked holder) → d ≡ c
        → StandsAfter v j history (meets w.at.stands.text holder ∷ [])
        (slice_set cells catalog_at (Catalog d)) (slice_set seats j t) }
{}

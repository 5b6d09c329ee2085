//! Visits of a table's cell keep cells and seats standing together.

ghost use Rattle.std.specs.Prelude.{◌≡◌, ℕ, true, List, [], ◌∷◌, slice_set};
ghost use mathlib.Core.Option.{some};
ghost use lib.ListN.{get_elem?};
ghost use Rattle.spec_model.specs.Effect.{query_rows};
ghost use Rattle.spec_history.specs.Acts.{fails, meets};
ghost use Rattle.spec_protocol.specs.ActsOf.{done_acts};
ghost use Rattle.spec_protocol.specs.Doing.{rows_reply};
ghost use Rattle.spec_protocol.specs.Server.{Server};
ghost use Rattle.spec_protocol.specs.Cells.{Cell, Rows, TableCell};
ghost use Rattle.spec_protocol.specs.Seats.{SeatState};
ghost use Rattle.sql_types.specs.declared.reply.Reply.TheVariants.{Changed, Refused};
ghost use Rattle.sql_value.specs.declared.refusal.Refusal.TheVariants.{NoMemory, Locked};
ghost use Rattle.spec_protocol.specs.TableVisits.{AddsIndex, ChangesRows, ReadsRows, RefusesRows, StopsInTable};
ghost use Rattle.spec_protocol.specs.UndoVisits.{ReleasesTable, UndoesTo};
ghost use Rattle.spec_protocol.specs.StandTogether.{History, LocksAskedFor, Stands, StandsAfter};

/// INSERT, UPDATE and DELETE do.
pub fn changing_rows_keeps_standing()
    ensures { (v : Server) (history : History) (cells : List Cell) (seats : List SeatState)
        → Stands v history cells seats
        → (i j : ℕ) (s : SeatState) → get_elem? seats j ≡ some s
        → (c d : TableCell) (t : SeatState) → get_elem? cells i ≡ some (Rows c) → (w : ChangesRows v c s d t)
        → StandsAfter v j history (done_acts w.o.explicit w.at.at.stands.text true (Changed w.count))
        (slice_set cells i (Rows d)) (slice_set seats j t) }
{}

/// On the way back to a savepoint, what the transaction did since is dropped.
pub fn undoing_keeps_standing()
    ensures { (v : Server) (history : History) (cells : List Cell) (seats : List SeatState)
        → Stands v history cells seats
        → (i j : ℕ) (s : SeatState) → get_elem? seats j ≡ some s
        → (c d : TableCell) (t : SeatState) → get_elem? cells i ≡ some (Rows c) → UndoesTo v c s d t
        → Stands v history (slice_set cells i (Rows d)) (slice_set seats j t) }
{}

/// After the end is fixed, the table's cell is released.
pub fn releasing_a_table_keeps_standing()
    ensures { (v : Server) (history : History) (cells : List Cell) (seats : List SeatState)
        → Stands v history cells seats
        → (i j : ℕ) (s : SeatState) → get_elem? seats j ≡ some s
        → (c d : TableCell) (t : SeatState) → get_elem? cells i ≡ some (Rows c) → ReleasesTable c s d t
        → Stands v history (slice_set cells i (Rows d)) (slice_set seats j t) }
{}

/// CREATE INDEX adds its index in its table's cell.
pub fn adding_an_index_keeps_standing()
    ensures { (v : Server) (history : History) (cells : List Cell) (seats : List SeatState)
        → Stands v history cells seats
        → (i j : ℕ) (s : SeatState) → get_elem? seats j ≡ some s
        → (c d : TableCell) (t : SeatState) → get_elem? cells i ≡ some (Rows c) → AddsIndex v c s d t
        → Stands v history (slice_set cells i (Rows d)) (slice_set seats j t) }
{}

/// INSERT, UPDATE and DELETE that a row refuses do.
pub fn refusing_rows_keeps_standing()
    ensures { (v : Server) (history : History) (cells : List Cell) (seats : List SeatState)
        → Stands v history cells seats
        → (i j : ℕ) (s : SeatState) → get_elem? seats j ≡ some s
        → (c d : TableCell) (t : SeatState) → get_elem? cells i ≡ some (Rows c) → (w : RefusesRows v c s d t)
        → StandsAfter v j history (done_acts w.o.explicit w.at.at.stands.text true (Refused w.refusal))
        (slice_set cells i (Rows d)) (slice_set seats j t) }
{}

/// SELECT does.
pub fn reading_rows_keeps_standing()
    ensures { (v : Server) (history : History) (cells : List Cell) (seats : List SeatState)
        → Stands v history cells seats
        → (i j : ℕ) (s : SeatState) → get_elem? seats j ≡ some s
        → (c d : TableCell) (t : SeatState) → get_elem? cells i ≡ some (Rows c) → (w : ReadsRows v c s d t)
        → StandsAfter v j history (done_acts w.o.explicit w.at.at.stands.text true
        (rows_reply (query_rows w.q w.named c.versions)))
        (slice_set cells i (Rows d)) (slice_set seats j t) }
{}

/// So does a visit that lacks memory, and leaves the cell.
pub fn lacking_memory_in_a_table_keeps_standing()
    ensures { (v : Server) (history : History) (cells : List Cell) (seats : List SeatState)
        → Stands v history cells seats
        → (i j : ℕ) (s : SeatState) → get_elem? seats j ≡ some s
        → (c d : TableCell) (t : SeatState) → get_elem? cells i ≡ some (Rows c)
        → (w : StopsInTable v c s t) → w.r ≡ Refused NoMemory → d ≡ c
        → StandsAfter v j history (fails w.at.at.stands.text ∷ [])
        (slice_set cells i (Rows d)) (slice_set seats j t) }
{}

/// A visit that meets a lock of another transaction does, where each lock was asked for: the history names
/// the holder.
pub fn meeting_a_lock_in_a_table_keeps_standing()
    ensures { (v : Server) (history : History) (cells : List Cell) (seats : List SeatState)
        → (st : Stands v history cells seats) → LocksAskedFor st
        → (i j : ℕ) (s : SeatState) → get_elem? seats j ≡ some s
        → (c d : TableCell) (t : SeatState) → get_elem? cells i ≡ some (Rows c)
        → (w : StopsInTable v c s t) (holder : ℕ) → w.r ≡ Refused (Locked holder) → d ≡ c
        → StandsAfter v j history (meets w.at.at.stands.text holder ∷ [])
        (slice_set cells i (Rows d)) (slice_set seats j t) }
{}

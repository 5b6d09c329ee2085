//! Visits of the ledger's cell keep cells and seats standing together.

ghost use Rattle.std.specs.Prelude.{◌≡◌, ◌+◌, ◌++◌, ℕ, Bool, List, [], ◌∷◌, length, slice_set};
ghost use mathlib.Core.Option.{some};
ghost use lib.ListN.{get_elem?};
ghost use Rattle.spec_model.specs.Journals.{tx_count};
ghost use Rattle.spec_history.specs.Acts.{assigns_id, closes, issues, keeps, lacks};
ghost use Rattle.spec_protocol.specs.ActsOf.{closings, commit_acts, end_acts};
ghost use Rattle.spec_protocol.specs.Server.{Server};
ghost use Rattle.spec_protocol.specs.Cells.{Cell, Ledger, LedgerCell, pending_in};
ghost use Rattle.spec_protocol.specs.Seats.{SeatState};
ghost use Rattle.spec_protocol.specs.LedgerVisits.{AssignsId, CommitsNow, ReadsPoint, Closes, Issues, LacksBlock};
ghost use Rattle.spec_protocol.specs.AllowedVisit.{OutsAreIn};
ghost use Rattle.spec_protocol.specs.ImageVisits.{KeepsImage};
ghost use Rattle.spec_protocol.specs.StandTogether.{History, Stands, StandsAfter};

/// Drawing an id does.
pub fn assigning_an_id_keeps_standing()
    ensures { (v : Server) (history : History) (cells : List Cell) (seats : List SeatState)
        → Stands v history cells seats
        → (i j : ℕ) (s : SeatState) → get_elem? seats j ≡ some s
        → (explicit : Bool) (c d : LedgerCell) (t : SeatState) → get_elem? cells i ≡ some (Ledger c)
        → AssignsId v explicit c s d t
        → StandsAfter v j history (assigns_id c.next explicit ∷ [])
        (slice_set cells i (Ledger d)) (slice_set seats j t) }
{}

/// So does a commit.
pub fn committing_keeps_standing()
    ensures { (v : Server) (history : History) (cells : List Cell) (seats : List SeatState)
        → Stands v history cells seats
        → (i j : ℕ) (s : SeatState) → get_elem? seats j ≡ some s
        → (time : ℕ) (c d : LedgerCell) (t : SeatState) → get_elem? cells i ≡ some (Ledger c)
        → (w : CommitsNow v time c s d t)
        → StandsAfter v j history (commit_acts w.stands.x time (tx_count c.items + 1))
        (slice_set cells i (Ledger d)) (slice_set seats j t) }
{}

/// So does reading the point at which a transaction ends.
pub fn reading_the_point_keeps_standing()
    ensures { (v : Server) (history : History) (cells : List Cell) (seats : List SeatState)
        → Stands v history cells seats
        → (i j : ℕ) (s : SeatState) → get_elem? seats j ≡ some s
        → (c d : LedgerCell) (t : SeatState) → get_elem? cells i ≡ some (Ledger c) → (w : ReadsPoint v c s t)
        → d ≡ c
        → StandsAfter v j history (end_acts w.ends (tx_count c.items))
        (slice_set cells i (Ledger d)) (slice_set seats j t) }
{}

/// So does closing a block.
pub fn closing_keeps_standing()
    ensures { (v : Server) (history : History) (cells : List Cell) (seats : List SeatState)
        → Stands v history cells seats
        → (i j : ℕ) (s : SeatState) → get_elem? seats j ≡ some s
        → (n : ℕ) (c d : LedgerCell) (t : SeatState) → get_elem? cells i ≡ some (Ledger c) → Closes v n c d
        → t ≡ s
        → Stands v (history ++ closes n ∷ []) (slice_set cells i (Ledger d)) (slice_set seats j t) }
{}

/// So do issuing a digest, and finding that there is no block.
pub fn digests_keep_standing()
    ensures issues { (v : Server) (history : History) (cells : List Cell) (seats : List SeatState)
        → Stands v history cells seats
        → (i j : ℕ) (s : SeatState) → get_elem? seats j ≡ some s
        → (moment : ℕ) (c d : LedgerCell) (t : SeatState) → get_elem? cells i ≡ some (Ledger c)
        → (w : Issues v moment c s d t)
        → StandsAfter v j (history ++ closings v (pending_in c) c) (issues w.digest (tx_count c.items) ∷ [])
        (slice_set cells i (Ledger d)) (slice_set seats j t) }
    ensures lacks { (v : Server) (history : History) (cells : List Cell) (seats : List SeatState)
        → Stands v history cells seats
        → (i j : ℕ) (s : SeatState) → get_elem? seats j ≡ some s
        → (c d : LedgerCell) (t : SeatState) → get_elem? cells i ≡ some (Ledger c) → LacksBlock v c s t
        → d ≡ c
        → StandsAfter v j history (lacks ∷ [])
        (slice_set cells i (Ledger d)) (slice_set seats j t) }
{}

/// So does keeping an image, with all cells out as they lie there.
pub fn keeping_an_image_keeps_standing()
    ensures { (v : Server) (history : History) (cells : List Cell) (seats : List SeatState)
        → Stands v history cells seats
        → (j : ℕ) (s : SeatState) → get_elem? seats j ≡ some s
        → (out : List (ℕ × Cell)) → OutsAreIn cells out
        → (t : SeatState) → (w : KeepsImage v out s t)
        → StandsAfter v j history (keeps (length w.ledger.items) (tx_count w.ledger.items) ∷ [])
        cells (slice_set seats j t) }
{}

//! What a seat does alone, and seats that are made and taken in, keep cells and seats standing together.

ghost use Rattle.std.specs.Prelude.{◌≡◌, ◌≢◌, ◌++◌, ℕ, List, [], ◌∷◌, slice_set};
ghost use mathlib.Core.Option.{some};
ghost use lib.ListN.{get_elem?};
ghost use Rattle.spec_protocol.specs.Server.{Server};
ghost use Rattle.spec_protocol.specs.Cells.{Cell};
ghost use Rattle.spec_protocol.specs.Seats.{SeatState, kept, split, joined, nobody, may_end};
ghost use Rattle.spec_protocol.specs.ActsOf.{alone_acts};
ghost use Rattle.spec_protocol.specs.Alone.{Alone};
ghost use Rattle.spec_protocol.specs.StandTogether.{History, Stands, StandsAfter};

/// Each step alone does.
pub fn steps_alone_keep_standing()
    ensures { (v : Server) (history : History) (cells : List Cell) (seats : List SeatState)
        → Stands v history cells seats
        → (j : ℕ) (s t : SeatState) → get_elem? seats j ≡ some s
        → (step : Alone v s t) → StandsAfter v j history (alone_acts step) cells (slice_set seats j t) }
{}

/// So do a split and a join.
pub fn splits_and_joins_keep_standing()
    ensures splits { (v : Server) (history : History) (cells : List Cell) (seats : List SeatState) (j n : ℕ)
        (s : SeatState) → Stands v history cells seats → get_elem? seats j ≡ some s
        → Stands v history cells (slice_set seats j (kept s n) ++ split s n ∷ []) }
    ensures joins { (v : Server) (history : History) (cells : List Cell) (seats : List SeatState) (j k : ℕ)
        (s t : SeatState) → Stands v history cells seats
        → get_elem? seats j ≡ some s → get_elem? seats k ≡ some t
        → k ≢ j → may_end t → Stands v history cells (slice_set (slice_set seats j (joined s t)) k nobody) }
{}

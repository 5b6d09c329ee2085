//! What a board asks of its world, for the cells and seats of a server.

ghost use Rattle.std.specs.Prelude.{◌≡◌, ◌≢◌, ◌<◌, ◌≤◌, ◌++◌, ℕ, List, [], ◌∷◌, slice_set};
ghost use mathlib.Core.Option.{some};
ghost use lib.ListN.{get_elem?};
ghost use Rattle.spec_model.specs.Limits.{max_block};
ghost use Rattle.spec_history.specs.Lists.{Text};
ghost use Rattle.spec_protocol.specs.Server.{Server};
ghost use Rattle.spec_protocol.specs.Cells.{Cell, first_cells};
ghost use Rattle.spec_protocol.specs.Seats.{SeatState, kept, split, joined, nobody, may_end};
ghost use Rattle.spec_protocol.specs.AllowedVisit.{AllowedVisit, OutsAreIn, first_seat};
ghost use Rattle.spec_protocol.specs.StandTogether.{StandTogether};

/// Cells and seats that stand together, from the first cells and the first seat on: a visit that a seat may
/// make keeps them so, a split does, and a join of a seat that may end. With `StandTogether v` as what
/// stands, `AllowedVisit v` as what a seat may do, `first_seat` of `AllowedVisit`, and `kept`, `split`, `may_end`, `joined` and
/// `nobody` of `Seats`, these are the premises of a board's world, each in its form, for a world whose cells
/// are these.
pub fn cells_and_seats_are_a_world()
    ensures first { (v : Server) (database : Text) (size : ℕ) → 1 ≤ size → size ≤ max_block
        → StandTogether v (first_cells database size) (first_seat (first_cells database size) ∷ []) }
    ensures visits { (v : Server) (cells : List Cell) (seats : List SeatState) (j : ℕ) (s : SeatState)
        (out : List (ℕ × Cell)) (i : ℕ) (c : Cell) (t : SeatState)
        → StandTogether v cells seats → get_elem? seats j ≡ some s → OutsAreIn cells out → AllowedVisit v s out i c t
        → StandTogether v (slice_set cells i c) (slice_set seats j t) }
    ensures splits { (v : Server) (cells : List Cell) (seats : List SeatState) (j : ℕ) (s : SeatState) (n : ℕ)
        → StandTogether v cells seats → get_elem? seats j ≡ some s → 0 < n
        → StandTogether v cells (slice_set seats j (kept s n) ++ split s n ∷ []) }
    ensures joins { (v : Server) (cells : List Cell) (seats : List SeatState) (j k : ℕ) (s t : SeatState)
        → StandTogether v cells seats → get_elem? seats j ≡ some s → get_elem? seats k ≡ some t → k ≢ j
        → may_end t
        → StandTogether v cells (slice_set (slice_set seats j (joined s t)) k nobody) }
{}

//! The gives of visits of which a value of the thread's own tells.

ghost use Rattle.std.specs.Prelude.{ℕ, ◌≡◌, ◌<◌, [], ◌∷◌, List, vec_len};
ghost use mathlib.Core.Option.{some};
ghost use lib.ListN.{get_elem?};
ghost use Rattle.base_board.specs.Boards.{board_cells, seat_state, seat_parts, seat_out, HasSeat, IsSameSeat};
ghost use Rattle.base_board.specs.Outs.{IsLastOut, all_out, rest};
ghost use Rattle.spec_protocol.specs.Seats.{SeatState};
ghost use Rattle.server_board.specs.ServedDatabase.{MayVisitServed};

use crate::world::{LedgerWorld, SeatKnowledge, Serving};
use base_board::{AfterVisit, Board, BoardSeat, HeldCell};
use server_session::ServedCell;

/// Gives a cell back, as `Board::give` does. What `P.after` says may also speak of `about`, which is for the
/// proof alone.
pub fn give_with<K: Serving, C: ServedCell, P: AfterVisit<SeatKnowledge>, T>(
    board: &Board<LedgerWorld<K, C>>,
    place: &mut BoardSeat<LedgerWorld<K, C>>,
    i: usize,
    held: HeldCell<C>,
    about: &T,
)
    requires seat { HasSeat board.now place.old }
    requires cell { i < board_cells board.now }
    requires last { IsLastOut i (seat_out place.old) }
    requires may { (t : SeatState)
        × MayVisitServed C.cell C.keeps K.database (seat_state place.old) (seat_out place.old) i held.cell t
        × P.after t }
    ensures seat { IsSameSeat place.old place.new × P.after (seat_state place.new)
        × (seat_parts place.new ≡ seat_parts place.old) }
    ensures out { seat_out place.new ≡ rest (seat_out place.old) }
{
    let _ = about;
    board.give::<P>(place, i, held);
}

/// Gives all cells back, as `Board::give_all` does. What `P.after` says may also speak of `about`, which is
/// for the proof alone.
pub fn give_all_with<K: Serving, C: ServedCell, P: AfterVisit<SeatKnowledge>, T>(
    board: &Board<LedgerWorld<K, C>>,
    place: &mut BoardSeat<LedgerWorld<K, C>>,
    cells: Vec<C>,
    about: &T,
)
    requires seat { HasSeat board.now place.old }
    requires out { (seat_out place.old ≡ all_out 0 cells.items [])
        × (vec_len cells ≡ board_cells board.now) }
    requires visit { (i : ℕ) (c : C) (out : List (ℕ × C)) → seat_out place.old ≡ (i, c) ∷ out
        → get_elem? cells.items i ≡ some c
        → (t : SeatState)
        × MayVisitServed C.cell C.keeps K.database (seat_state place.old) (seat_out place.old) i c t
        × P.after t }
    requires nothing { (i : ℕ) (c : C) (out : List (ℕ × C)) (t : SeatState) → get_elem? cells.items i ≡ some c
        → P.after t → MayVisitServed C.cell C.keeps K.database t ((i, c) ∷ out) i c t }
    ensures seat { IsSameSeat place.old place.new × (seat_parts place.new ≡ seat_parts place.old) }
    ensures state { P.after (seat_state place.new) × (seat_out place.new ≡ []) }
{
    let _ = about;
    board.give_all::<P>(place, cells);
}

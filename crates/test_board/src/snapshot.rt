//! A look at both counters.
ghost use Rattle.std.specs.Prelude.{◌≡◌, ℕ, ◌+◌, ◌<◌, ◌≤◌, [], length, IfOk};
ghost use Rattle.base_board.specs.Boards.{board_cells, seat_state, seat_parts, seat_out, HasSeat, IsSameSeat};
ghost use Rattle.test_board.specs.Shares.{most_counts};

use crate::world::{CountersWorld, Totals, totals_of};
use base_board::{Board, BoardSeat, Memory};
use std::alloc::Global;
use std::marker::Brand;
use std::sync::Wait;

/// What both counters hold: each at least what this seat counted in it, and both together no more than all
/// seats may count. The seat stays as it was.
pub fn look<R: Wait>(
    rt: &R,
    alloc: Global,
    board: &Board<CountersWorld>,
    seat: &mut BoardSeat<CountersWorld>,
) -> Result<Totals, Memory>
    requires board { HasSeat board.now seat.old × (board_cells board.now ≡ 2) }
    requires idle { seat_out seat.old ≡ [] }
    ensures seat { IsSameSeat seat.old seat.new × (seat_parts seat.new ≡ seat_parts seat.old)
        × (seat_out seat.new ≡ []) × (seat_state seat.new ≡ seat_state seat.old) }
    ensures own { IfOk result (λ t. ((seat_state seat.old).first ≤ t.first)
        × ((seat_state seat.old).second ≤ t.second)) }
    ensures room { IfOk result (λ t. t.first + t.second ≤ most_counts) }
{
    let cells = board.take_all(rt, alloc, seat)?;
    let totals = totals_of(&cells);
    board.give_all::<Brand>(seat, cells);
    Ok(totals)
}

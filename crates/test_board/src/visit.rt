//! A board of two counters, and the visit that counts.
ghost use Rattle.std.specs.Prelude.{◌≡◌, ℕ, ◌+◌, ◌<◌, ◌≤◌, [], ◌∷◌, length, IfOk};
ghost use Rattle.base_board.specs.Boards.{board_cells, board_parts, seat_state, seat_parts, seat_out, HasSeat, IsSameSeat};
ghost use Rattle.test_board.specs.Shares.{share, number_of, counted, most_counts};

use crate::gate::Gate;
use crate::world::{Counter, CounterId, CountersWorld};
use base_board::{Board, BoardSeat, Memory};
use std::alloc::Global;
use std::marker::Brand;
use std::sync::Wait;

/// A board of two counters at 0, and its first seat, which may count 2^64 - 1 times.
pub fn new_board(
    alloc: Global,
    parts: u32,
) -> Result<(Board<CountersWorld>, BoardSeat<CountersWorld>), Memory>
    requires parts { 0 < parts }
    ensures board { IfOk result (λ b. (board_cells b.0 ≡ 2) × (board_parts b.0 ≡ parts)) }
    ensures seat { IfOk result (λ b. HasSeat b.0 b.1 × (seat_state b.1 ≡ share 0 0 most_counts)
        × (seat_parts b.1 ≡ parts) × (seat_out b.1 ≡ [])) }
{
    let mut cells = Vec::with_capacity(alloc, 2)?;
    cells.push_reserved(Counter { count: 0 });
    cells.push_reserved(Counter { count: 0 });
    Board::new(alloc, cells, parts)
}

/// Counts once in a counter, and waits for it if it is out.
///
/// That the counter isn't at its end follows from the rule of the board: all seats together count less
/// than 2^64 times.
pub fn count_once<G: Gate, R: Wait>(
    rt: &R,
    gate: &G,
    board: &Board<CountersWorld>,
    seat: &mut BoardSeat<CountersWorld>,
    counter: CounterId,
)
    requires board { HasSeat board.now seat.old × (board_cells board.now ≡ 2) }
    requires idle { seat_out seat.old ≡ [] }
    requires left { 0 < (seat_state seat.old).left }
    ensures seat { IsSameSeat seat.old seat.new × (seat_parts seat.new ≡ seat_parts seat.old)
        × (seat_out seat.new ≡ []) }
    ensures counted { seat_state seat.new ≡ counted (number_of counter) (seat_state seat.old) }
{
    let number = counter.number();
    let mut held = board.take(rt, seat, number);
    gate.inside(counter);
    held.cell.count += 1;
    board.give::<Brand>(seat, number, held);
}

//! Visits: a thread takes a cell out, and gives it back.
ghost use Rattle.std.specs.Prelude.{◌≡◌, ℕ, ◌+◌, ◌<◌, ◌≤◌, [], ◌∷◌, List, length};
ghost use mathlib.Core.Option.{some};
ghost use lib.ListN.{get_elem?};
ghost use Rattle.base_board.specs.Outs.{AllBelow, IsLastOut, OutsAreIn, rest};
ghost use Rattle.base_board.specs.Boards.{board_cells, seat_state, seat_parts, seat_out, HasSeat, IsSameSeat};
ghost use Rattle.base_board.specs.Stands.{StandTogether};

use crate::board::{Board, BoardSeat, HeldCell};
use crate::steps::{AWAITED, give_back, try_take_or_mark, try_take_soon};
use crate::world::{AfterVisit, World};
use std::sync::Wait;

impl<W: World> Board<W> {
    /// How many cells the board has.
    pub fn cell_count(&self) -> usize
        ensures { result ≡ board_cells self.now }
    {
        self.table.slot_count()
    }

    /// Takes cell `i` out, and waits until it is at home. Until it is given back no other seat has it.
    ///
    /// A seat takes cells in rising order: each number is above those that it has out. So threads don't
    /// wait for each other in a ring.
    ///
    /// What the caller learns, beside the cell, is that the cells and all seats stand together at the
    /// moment of the take (`stand`), this seat and the cells that it has out among them. It takes no
    /// memory, and a cell at home costs one atomic step.
    pub fn take<R: Wait>(&self, rt: &R, seat: &mut BoardSeat<W>, i: usize) -> HeldCell<W::Cell>
        requires seat { HasSeat self.now seat.old }
        requires cell { i < board_cells self.now }
        requires order { AllBelow i (seat_out seat.old) }
        ensures seat { IsSameSeat seat.old seat.new × (seat_state seat.new ≡ seat_state seat.old)
            × (seat_parts seat.new ≡ seat_parts seat.old) }
        ensures out { seat_out seat.new ≡ (i, result.cell) ∷ seat_out seat.old }
        ensures stand { StandTogether W.stand (board_cells self.now)
            (seat_state seat.new) (seat_out seat.new) }
    {
        if let Some(cell) = try_take_soon(&self.table, &mut seat.token, i) {
            return HeldCell { cell };
        }
        for _ in rt.forever() {
            if let Some(cell) = try_take_or_mark(&self.table, &mut seat.token, i) {
                return HeldCell { cell };
            }
            self.table.shared.park(rt, i, AWAITED as u32);
        }
        unreachable!()
    }

    /// Gives cell `i` back, with whatever it holds now. It has to be the greatest number that the seat
    /// has out.
    ///
    /// This is the moment of the visit. It has to be one that the world allows (`may`): from what the
    /// seat knew and the cells as it took them, to what the cell holds now and what the seat knows from
    /// now on, of which `P.after` holds. It takes no memory, and wakes a thread that waits for the cell.
    pub fn give<P: AfterVisit<W::Seat>>(
        &self,
        seat: &mut BoardSeat<W>,
        i: usize,
        held: HeldCell<W::Cell>,
    )
        requires seat { HasSeat self.now seat.old }
        requires cell { i < board_cells self.now }
        requires last { IsLastOut i (seat_out seat.old) }
        requires may { (t : W.Seat) × W.may (seat_state seat.old) (seat_out seat.old) i held.cell t
            × P.after t }
        ensures seat { IsSameSeat seat.old seat.new × P.after (seat_state seat.new)
            × (seat_parts seat.new ≡ seat_parts seat.old) }
        ensures out { seat_out seat.new ≡ rest (seat_out seat.old) }
    {
        let HeldCell { cell } = held;
        give_back::<W, P>(&self.table, &mut seat.token, i, cell);
    }
}

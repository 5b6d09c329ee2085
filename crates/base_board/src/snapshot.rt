//! A snapshot: all cells are taken in rising order, and given back in falling order.
ghost use Rattle.std.specs.Prelude.{◌≡◌, ℕ, ◌+◌, ◌-◌, ◌<◌, ◌≤◌, [], ◌∷◌, List, length, IfOk, OnErr, MatchBool, vec_len};
ghost use mathlib.Core.Option.{some};
ghost use lib.ListN.{get_elem?};
ghost use Rattle.base_board.specs.Outs.{AllBelow, OutsAreIn, all_out};
ghost use Rattle.base_board.specs.Boards.{board_cells, seat_state, seat_parts, seat_out, HasSeat, IsSameSeat};

use crate::board::{Board, BoardSeat, HeldCell};
use crate::world::{AfterVisit, World};
use base_types::Memory;
use std::alloc::Global;
use std::sync::Wait;

impl<W: World> Board<W> {
    /// Takes all cells, in rising order, and waits for each. The cells are those of one moment: they stand
    /// together with all seats, this one among them.
    ///
    /// Where there is no memory for the row of cells, none was taken.
    pub fn take_all<R: Wait>(
        &self,
        rt: &R,
        alloc: Global,
        seat: &mut BoardSeat<W>,
    ) -> Result<Vec<W::Cell>, Memory>
        requires seat { HasSeat self.now seat.old × (seat_out seat.old ≡ []) }
        ensures seat { IsSameSeat seat.old seat.new × (seat_state seat.new ≡ seat_state seat.old)
            × (seat_parts seat.new ≡ seat_parts seat.old) }
        ensures out { IfOk result (λ v. (seat_out seat.new ≡ all_out 0 v.items [])
            × (length v.items ≡ board_cells self.now)) }
        ensures stand { IfOk result (λ v. (seats : List W.Seat) × (j : ℕ) × W.stand v.items seats
            × (get_elem? seats j ≡ some (seat_state seat.new))) }
        ensures err { OnErr result (seat_out seat.new ≡ []) }
    {
        let count = self.cell_count();
        let mut cells = Vec::with_capacity(alloc, count)?;
        for i in 0..count {
            let HeldCell { cell } = self.take(rt, seat, i);
            cells.push_reserved(cell);
        }
        Ok(cells)
    }

    // Gives the last of the cells back, if there is one.
    fn give_top<P: AfterVisit<W::Seat>>(
        &self,
        seat: &mut BoardSeat<W>,
        cells: &mut Vec<W::Cell>,
    ) -> bool
        requires seat { HasSeat self.now seat.old }
        requires out { (seat_out seat.old ≡ all_out 0 cells.old.items [])
            × (vec_len cells.old ≤ board_cells self.now) }
        requires may { (i : ℕ) (c : W.Cell) (out : List (ℕ × W.Cell)) → seat_out seat.old ≡ (i, c) ∷ out
            → get_elem? cells.old.items i ≡ some c
            → (t : W.Seat) × W.may (seat_state seat.old) (seat_out seat.old) i c t × P.after t }
        ensures seat { IsSameSeat seat.old seat.new × (seat_parts seat.new ≡ seat_parts seat.old) }
        ensures out { (seat_out seat.new ≡ all_out 0 cells.new.items [])
            × (vec_len cells.new ≤ vec_len cells.old) }
        ensures left { (i : ℕ) (c : W.Cell) → get_elem? cells.new.items i ≡ some c
            → get_elem? cells.old.items i ≡ some c }
        ensures more { MatchBool result
            (P.after (seat_state seat.new) × (vec_len cells.new < vec_len cells.old))
            ((seat_state seat.new ≡ seat_state seat.old) × (vec_len cells.old ≡ 0) × (cells.new.items ≡ [])) }
    {
        match cells.pop() {
            Some(cell) => {
                self.give::<P>(seat, cells.len(), HeldCell { cell });
                true
            }
            None => false,
        }
    }

    /// Gives all cells back as they were when they were taken, in falling order, and `P.after` holds of what
    /// the seat knows from then on.
    ///
    /// The snapshot is one visit, the first of the gives, at which all cells are out (`visit`). The other
    /// gives change neither a cell nor what the seat knows, and the world has to allow that (`nothing`). Both
    /// are asked of these cells alone, each at its place.
    pub fn give_all<P: AfterVisit<W::Seat>>(&self, seat: &mut BoardSeat<W>, mut cells: Vec<W::Cell>)
        requires seat { HasSeat self.now seat.old }
        requires out { (seat_out seat.old ≡ all_out 0 cells.items [])
            × (vec_len cells ≡ board_cells self.now) }
        requires visit { (i : ℕ) (c : W.Cell) (out : List (ℕ × W.Cell)) → seat_out seat.old ≡ (i, c) ∷ out
            → get_elem? cells.items i ≡ some c
            → (t : W.Seat) × W.may (seat_state seat.old) (seat_out seat.old) i c t × P.after t }
        requires nothing { (i : ℕ) (c : W.Cell) (out : List (ℕ × W.Cell)) (t : W.Seat)
            → get_elem? cells.items i ≡ some c → P.after t → W.may t ((i, c) ∷ out) i c t }
        ensures seat { IsSameSeat seat.old seat.new × (seat_parts seat.new ≡ seat_parts seat.old) }
        ensures state { P.after (seat_state seat.new) × (seat_out seat.new ≡ []) }
    {
        if !self.give_top::<P>(seat, &mut cells) {
            unreachable!()
        }
        while self.give_top::<P>(seat, &mut cells) {}
    }
}

//! How a board is made of its cells, and how they come back at the end.
ghost use Rattle.std.specs.Prelude.{◌≡◌, ℕ, ◌+◌, ◌-◌, ◌<◌, ◌≤◌, [], ◌∷◌, List, length, map, Some, IfOk, vec_len, vec_capacity};
ghost use mathlib.Core.Option.{some};
ghost use lib.ListN.{get_elem?};
ghost use Rattle.std.specs.Slots.{slots_items, slots_filled, slots_len, IsFull};
ghost use Rattle.base_board.specs.Boards.{board_cells, board_parts, seat_state, seat_parts, seat_out, HasSeat, AllElse};

use crate::board::{Board, BoardSeat};
use crate::rule::InitialBoard;
use crate::world::World;
use atomic_table::{Closed, Table};
use base_types::Memory;
use std::alloc::{AllocError, Global};
use std::snapshot::Snapshot;

/// The most cells that a board may have.
pub const MOST_CELLS: usize = 34;

// Moves the cells into slots. The cells' row keeps its room.
fn slots_of<C: Drop>(alloc: Global, cells: &mut Vec<C>) -> Result<Vec<Option<C>>, AllocError>
    ensures slots { IfOk result (λ v. v.items ≡ map Some cells.old.items) }
    ensures empty { IfOk result (λ _. (vec_len cells.new ≡ 0)
        × (vec_capacity cells.new ≡ vec_capacity cells.old)) }
{
    let count = cells.len();
    let mut slots = Vec::with_capacity(alloc, count)?;
    for _i in 0..count {
        slots.push_reserved(Some(cells.remove(0)));
    }
    Ok(slots)
}

// The cells of a table with all its slots at home.
fn cells_of<C>(mut closed: Closed<Option<C>, Global>, mut cells: Vec<C>) -> Vec<C>
    requires full { IsFull closed.slots }
    requires home { (all : List C) × (slots_items closed.slots ≡ map Some all) }
    requires room { (vec_len cells ≡ 0) × (slots_len closed.slots ≤ vec_capacity cells) }
    ensures { map Some result.items ≡ slots_items closed.slots }
{
    let count = closed.slot_count();
    for i in 0..count {
        cells.push_reserved(closed.take(i).unwrap());
    }
    closed.free();
    cells
}

impl<W: World> Board<W> {
    /// A board of these cells, all at home, and its first seat, which has all parts.
    ///
    /// There are 1 to 34 cells, and they have to stand together with the first seat. As many threads can
    /// have a seat at once as there are parts. Where there is no memory the cells are dropped.
    pub fn new(
        alloc: Global,
        mut cells: Vec<W::Cell>,
        parts: u32,
    ) -> Result<(Board<W>, BoardSeat<W>), Memory>
        requires count { (0 < length cells.items) × (length cells.items ≤ MOST_CELLS) }
        requires parts { 0 < parts }
        requires stand { W.stand cells.items (W.first cells.items ∷ []) }
        ensures board { IfOk result (λ b. (board_cells b.0 ≡ length cells.items)
            × (board_parts b.0 ≡ parts)) }
        ensures seat { IfOk result (λ b. HasSeat b.0 b.1 × (seat_state b.1 ≡ W.first cells.items)
            × (seat_parts b.1 ≡ parts) × (seat_out b.1 ≡ [])) }
    {
        let about = InitialBoard {
            cells: Snapshot::of(&cells),
            parts: u64::from(parts),
        };
        let count = cells.len();
        let words = [0u64; MOST_CELLS];
        let slots = slots_of(alloc, &mut cells)?;
        let Ok((table, token)) = Table::new(alloc, &words[..count], slots, &about) else {
            return Err(Memory);
        };
        let board = Board {
            table,
            spare: cells,
        };
        Ok((board, BoardSeat { token }))
    }

    /// Takes the board apart, and gives its cells.
    ///
    /// The seat has no cell out, and has all parts: so each other seat was joined into it, directly or by
    /// way of others. The cells then stand together with this seat alone: each other entry of the list of
    /// seats is nobody. It takes no memory.
    pub fn close_with(self, seat: BoardSeat<W>) -> Vec<W::Cell>
        requires seat { HasSeat self seat × (seat_out seat ≡ []) }
        requires parts { seat_parts seat ≡ board_parts self }
        ensures count { length result.items ≡ board_cells self }
        ensures stand { (seats : List W.Seat) × (j : ℕ) × W.stand result.items seats
            × (get_elem? seats j ≡ some (seat_state seat)) × AllElse W.nobody j seats }
    {
        let Board { table, spare } = self;
        let BoardSeat { token } = seat;
        cells_of(table.close_with(token), spare)
    }
}

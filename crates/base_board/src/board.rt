//! A board of cells, the seats from which threads visit them, and a cell that is out.
ghost use Rattle.std.specs.Prelude.{◌≡◌, ◌<◌, ◌≤◌, vec_len, vec_capacity};
ghost use Rattle.base_board.specs.Stands.{vacated};

use crate::rule::{CellTable, TableSeat};
use crate::world::World;

/// Cells of a world, shared by threads through a `&`.
///
/// Contracts see how many cells it has (`board_cells`) and how many parts were dealt (`board_parts`).
#[derive(Drop)]
pub struct Board<W: World> {
    pub(crate) table: CellTable<W>,
    // the row that the cells came in, kept so that closing needs no memory
    pub(crate) spare: Vec<W::Cell>,
    ghost sized: { (table.shared.table_id.words ≡ table.shared.table_id.slots)
        × (0 < table.shared.table_id.slots) },
    ghost roomy: { (vec_len spare ≡ 0) × (table.shared.table_id.slots ≤ vec_capacity spare) },
}

/// What one thread visits cells with. It has no bytes.
///
/// Contracts see which board it belongs to (`HasSeat`), what the world knows of it (`seat_state`), the
/// cells that it has out (`seat_out`) and how many parts it has (`seat_parts`). Each seat has at least
/// one part. A seat that is dropped takes its parts with it, and then the board can't be closed.
#[derive(Drop)]
pub struct BoardSeat<W: World> {
    pub(crate) token: TableSeat<W>,
    ghost carried: { token.me.1 ≡ vacated token.me.0.out },
    ghost some_part: { 0 < token.me.0.parts },
}

/// A cell that is out with a seat. It can't be dropped, so it has to be given back.
pub struct HeldCell<T> {
    pub cell: T,
}

//! A seat for each thread: one seat is split in two before a thread starts, and joined after it ended.
ghost use Rattle.std.specs.Prelude.{◌≡◌, ◌+◌, ◌-◌, ◌<◌, []};
ghost use Rattle.base_board.specs.Boards.{seat_state, seat_parts, seat_out, HasSeat, IsSameSeat};

use crate::board::{Board, BoardSeat};
use crate::steps::{divide, unite};
use crate::world::World;
use std::marker::Brand;

impl<W: World> Board<W> {
    /// Makes a new seat with so many of this seat's parts. This seat keeps at least one.
    ///
    /// It takes no memory and can't fail. The seat may have cells out, and keeps them.
    pub fn split(&self, seat: &mut BoardSeat<W>, parts: u32) -> BoardSeat<W>
        requires seat { HasSeat self.now seat.old }
        requires parts { (0 < parts) × (parts < seat_parts seat.old) }
        ensures kept { IsSameSeat seat.old seat.new
            × (seat_state seat.new ≡ W.kept (seat_state seat.old) parts)
            × (seat_parts seat.new ≡ seat_parts seat.old - parts)
            × (seat_out seat.new ≡ seat_out seat.old) }
        ensures new { HasSeat self.now result × (seat_state result ≡ W.split (seat_state seat.old) parts)
            × (seat_parts result ≡ parts) × (seat_out result ≡ []) }
    {
        BoardSeat {
            token: divide::<W, Brand>(&self.table, &mut seat.token, parts),
        }
    }

    /// Takes in a seat that has no cell out and that the world lets end. This seat has its parts from then
    /// on, and knows what both knew.
    ///
    /// It takes no memory and can't fail. This seat may have cells out, and keeps them.
    pub fn join(&self, seat: &mut BoardSeat<W>, other: BoardSeat<W>)
        requires seat { HasSeat self.now seat.old }
        requires other { HasSeat self.now other × (seat_out other ≡ []) }
        requires end { W.may_end (seat_state other) }
        ensures seat { IsSameSeat seat.old seat.new
            × (seat_state seat.new ≡ W.joined (seat_state seat.old) (seat_state other))
            × (seat_parts seat.new ≡ seat_parts seat.old + seat_parts other)
            × (seat_out seat.new ≡ seat_out seat.old) }
    {
        let BoardSeat { token } = other;
        unite(&self.table, &mut seat.token, token);
    }
}

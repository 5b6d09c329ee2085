//! The builder, which closes blocks while sessions run.

ghost use Rattle.std.specs.Prelude.{◌≡◌};
ghost use Rattle.base_board.specs.Boards.{seat_state};
ghost use Rattle.spec_syntax.specs.Text.{statement_of};
ghost use Rattle.spec_protocol.specs.Serves.{Serves};
ghost use Rattle.server_thread.specs.AtBoard.{IsFree, IsFreed};

use crate::shared::{Cells, Run, ThreadSeat};
use base_io::Gate;
use base_merkle::Hash32;
use base_types::Memory;
use server_board::{Serving, give_with};
use server_engine::Cell;
use server_session::LEDGER;
use std::alloc::Global;
use std::marker::Brand;
use std::sync::Wait;

/// Visits the ledger's cell and closes a block of what is pending there, if anything is. Where there is no
/// memory the entries stay pending.
fn close_pending<K: Serving, H: Hash32, R: Wait>(
    rt: &R,
    alloc: Global,
    hasher: H,
    board: &Cells<K>,
    place: &mut ThreadSeat<K>,
)
    requires free { IsFree board.now place.old }
    requires serves { Serves (H.digest hasher) statement_of K.database.server }
    ensures place { IsFreed place.old place.new }
    ensures state { seat_state place.new ≡ seat_state place.old }
{
    let mut held = board.take(rt, place, LEDGER);
    match held.cell.close_pending(alloc, hasher) {
        Ok(()) | Err(Memory) => {}
    }
    give_with::<K, Cell, Brand, ()>(board, place, LEDGER, held, &());
}

/// Visits the ledger's cell so many times, and closes a block at each visit where anything is pending. Behind
/// each visit the gate is passed, under this number. It leaves the seat as it was, with its parts and with no cell out,
/// also where there was no memory to close a block; so the seat may end.
pub fn builder_job<K: Serving, H: Hash32, C, G: Gate, R: Wait>(
    run: &Run<'_, K, H, C, G, R>,
    number: u32,
    place: &mut ThreadSeat<K>,
    visits: u32,
)
    requires free { IsFree run.now.board.now place.old }
    requires serves { Serves (H.digest run.now.hasher) statement_of K.database.server }
    ensures place { IsFreed place.old place.new }
    ensures state { seat_state place.new ≡ seat_state place.old }
{
    for visit in 0..visits {
        close_pending(run.rt, run.alloc, run.hasher, run.board, place);
        run.gate.pass(number, visit);
    }
}

//! The visits of a session: each takes one cell of the board, and gives it back.

ghost use Rattle.std.specs.Prelude.{◌≡◌, MatchBool};
ghost use Rattle.base_board.specs.Boards.{seat_state};
ghost use Rattle.server_engine.specs.IsMidway.{WentToEnd};
ghost use Rattle.spec_syntax.specs.Text.{statement_of};
ghost use Rattle.server_session.specs.Needs.{need_of};
ghost use Rattle.server_session.specs.ControlPoints.{KeepsStatement};
ghost use Rattle.server_session.specs.declared.need.NextVisit.TheVariants as need;
ghost use Rattle.spec_protocol.specs.Serves.{Serves};
ghost use Rattle.server_thread.specs.AtBoard.{IsFree, IsFreed};
ghost use Rattle.server_thread.specs.Seated.{IsAhead, HasSameKnowledge};

use crate::shared::{Cells, ThreadSeat};
use crate::snapshot::visit_all;
use crate::worker::Worker;
use base_io::{Clock, Gate};
use base_merkle::Hash32;
use server_board::{Serving, give_with};
use server_engine::{Cell, visit};
use server_session::NextVisit;
use std::alloc::Global;
use std::marker::Brand;
use std::sync::Wait;

/// Takes the cell that the session needs, waits for it where it is out, visits it, and gives it back.
fn visit_cell<'a, K: Serving, H: Hash32, C: Clock, G: Gate, R: Wait>(
    rt: &R,
    alloc: Global,
    gate: &G,
    board: &Cells<K>,
    place: &mut ThreadSeat<K>,
    worker: &mut Worker<'a, H, C>,
    cell: usize,
)
    requires free { IsFree board.now place.old }
    requires serves { Serves (H.digest worker.old.job.hasher) statement_of K.database.server }
    requires ahead { IsAhead H.digest C.says K.database.server worker.old (seat_state place.old) }
    requires needs { need_of worker.old.session.seat ≡ need.Cell cell }
    ensures place { IsFreed place.old place.new }
    ensures ahead { IsAhead H.digest C.says K.database.server worker.new (seat_state place.new) }
    ensures known { HasSameKnowledge (seat_state place.old) (seat_state place.new) }
    ensures stays { KeepsStatement worker.old.session.seat worker.new.session.seat }
    ensures taken { worker.new.taken ≡ worker.old.taken }
    ensures job { worker.new.job ≡ worker.old.job }
{
    let mut held = board.take(rt, place, cell);
    visit(&mut worker.session.seat, alloc, &mut held.cell);
    gate.inside(cell as u32);
    give_with::<K, Cell, Brand, Worker<'a, H, C>>(board, place, cell, held, worker);
}

/// Makes the next visit that the session needs; false where it needs none.
fn visit_next<'a, K: Serving, H: Hash32, C: Clock, G: Gate, R: Wait>(
    rt: &R,
    alloc: Global,
    gate: &G,
    board: &Cells<K>,
    place: &mut ThreadSeat<K>,
    worker: &mut Worker<'a, H, C>,
) -> bool
    requires free { IsFree board.now place.old }
    requires serves { Serves (H.digest worker.old.job.hasher) statement_of K.database.server }
    requires ahead { IsAhead H.digest C.says K.database.server worker.old (seat_state place.old) }
    ensures place { IsFreed place.old place.new }
    ensures ahead { IsAhead H.digest C.says K.database.server worker.new (seat_state place.new) }
    ensures known { HasSameKnowledge (seat_state place.old) (seat_state place.new) }
    ensures next { MatchBool result
        (KeepsStatement worker.old.session.seat worker.new.session.seat)
        ((worker.new ≡ worker.old) × (need_of worker.old.session.seat ≡ need.Done)) }
    ensures taken { worker.new.taken ≡ worker.old.taken }
    ensures job { worker.new.job ≡ worker.old.job }
{
    match worker.session.seat.need() {
        NextVisit::Cell(cell) => {
            visit_cell(rt, alloc, gate, board, place, worker, cell);
            true
        }
        NextVisit::All => {
            visit_all(rt, alloc, board, place, worker);
            true
        }
        NextVisit::Done => false,
    }
}

/// Makes all visits that the session needs, in a statement or at its end. What lacks memory there is answered so.
pub(crate) fn visit_needed<'a, K: Serving, H: Hash32, C: Clock, G: Gate, R: Wait>(
    rt: &R,
    alloc: Global,
    gate: &G,
    board: &Cells<K>,
    place: &mut ThreadSeat<K>,
    worker: &mut Worker<'a, H, C>,
)
    requires free { IsFree board.now place.old }
    requires serves { Serves (H.digest worker.old.job.hasher) statement_of K.database.server }
    requires ahead { IsAhead H.digest C.says K.database.server worker.old (seat_state place.old) }
    ensures place { IsFreed place.old place.new }
    ensures ahead { IsAhead H.digest C.says K.database.server worker.new (seat_state place.new) }
    ensures known { HasSameKnowledge (seat_state place.old) (seat_state place.new) }
    ensures went { WentToEnd worker.old.session.seat worker.new.session.seat }
    ensures taken { worker.new.taken ≡ worker.old.taken }
    ensures job { worker.new.job ≡ worker.old.job }
{
    for _ in rt.forever() {
        if !visit_next(rt, alloc, gate, board, place, worker) {
            return;
        }
    }
}

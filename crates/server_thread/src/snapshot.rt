//! The visit of all cells at once, for an image.

ghost use Rattle.std.specs.Prelude.{◌≡◌, ◌<◌};
ghost use Rattle.base_board.specs.Boards.{seat_state};
ghost use Rattle.spec_syntax.specs.Text.{statement_of};
ghost use Rattle.server_session.specs.Needs.{need_of, visits_left};
ghost use Rattle.server_session.specs.ControlPoints.{KeepsStatement};
ghost use Rattle.server_session.specs.declared.need.NextVisit.TheVariants as need;
ghost use Rattle.spec_protocol.specs.Serves.{Serves};
ghost use Rattle.server_thread.specs.AtBoard.{IsFree, IsFreed};
ghost use Rattle.server_thread.specs.Seated.{IsAhead, HasSameKnowledge};

use crate::shared::{Cells, ThreadSeat};
use crate::worker::Worker;
use base_io::Clock;
use base_merkle::Hash32;
use base_types::Memory;
use server_board::{Serving, give_all_with};
use server_engine::Cell;
use server_session::LEDGER;
use std::alloc::Global;
use std::marker::Brand;
use std::sync::Wait;

/// Takes all cells, keeps an image of them where there is memory for one, and gives them back as they were. Where
/// there is no memory to take them the statement is refused.
pub(crate) fn visit_all<'a, K: Serving, H: Hash32, C: Clock, R: Wait>(
    rt: &R,
    alloc: Global,
    board: &Cells<K>,
    place: &mut ThreadSeat<K>,
    worker: &mut Worker<'a, H, C>,
)
    requires free { IsFree board.now place.old }
    requires serves { Serves (H.digest worker.old.job.hasher) statement_of K.database.server }
    requires ahead { IsAhead H.digest C.says K.database.server worker.old (seat_state place.old) }
    requires needs { need_of worker.old.session.seat ≡ need.All }
    ensures place { IsFreed place.old place.new }
    ensures ahead { IsAhead H.digest C.says K.database.server worker.new (seat_state place.new) }
    ensures known { HasSameKnowledge (seat_state place.old) (seat_state place.new) }
    ensures stays { KeepsStatement worker.old.session.seat worker.new.session.seat }
    ensures comes_on { visits_left worker.new.session.seat < visits_left worker.old.session.seat }
    ensures taken { worker.new.taken ≡ worker.old.taken }
    ensures job { worker.new.job ≡ worker.old.job }
{
    match board.take_all(rt, alloc, place) {
        Ok(cells) => {
            let items = cells[LEDGER].item_count() as u64;
            worker.session.keep_image(alloc, items, &cells);
            give_all_with::<K, Cell, Brand, Worker<'a, H, C>>(board, place, cells, worker);
        }
        Err(Memory) => worker.session.seat.lack_image(),
    }
}

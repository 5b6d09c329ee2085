//! The last visit of a session, which tells the board that it is over.

ghost use Rattle.base_board.specs.Boards.{seat_state};
ghost use Rattle.server_thread.specs.AtBoard.{IsFree, IsFreed};
ghost use Rattle.server_thread.specs.Seated.{known_by, says_in};
ghost use Rattle.server_thread.specs.Wrote.{HasLeft, HasWritten, left_of, texts_taken};

use crate::shared::{Cells, ThreadSeat};
use crate::worker::Worker;
use base_io::Clock;
use base_merkle::Hash32;
use server_board::{Serving, give_with};
use server_engine::Cell;
use server_session::LEDGER;
use std::marker::Brand;
use std::sync::Wait;

/// Takes the ledger's cell and gives it back as it was: what the session did alone since its last visit is
/// known at the board then.
pub(crate) fn settle<'a, K: Serving, H: Hash32, C: Clock, R: Wait>(
    rt: &R,
    board: &Cells<K>,
    place: &mut ThreadSeat<K>,
    worker: &Worker<'a, H, C>,
)
    requires free { IsFree board.now place.old }
    requires left { HasLeft C.says K.database.server worker.now (seat_state place.old) }
    ensures place { IsFreed place.old place.new }
    ensures wrote { HasWritten (says_in C.says worker.now.job) worker.now.job.name.now
        (texts_taken worker.now) (left_of worker.now) (known_by (seat_state place.old))
        (seat_state place.old).written (seat_state place.new) }
{
    let held = board.take(rt, place, LEDGER);
    give_with::<K, Cell, Brand, Worker<'a, H, C>>(board, place, LEDGER, held, worker);
}

//! Sessions that count side by side; all but the last may run in threads of their own.
ghost use Rattle.std.specs.Prelude.{◌≡◌, ℕ, ◌+◌, ◌*◌, ◌<◌, ◌≤◌, [], ◌∷◌, length, IfOk, sum_by};
ghost use Rattle.std.specs.Thread.{IsSync};
ghost use Rattle.base_board.specs.Boards.{board_cells, seat_state, seat_parts, seat_out, HasSeat, IsSameSeat};
ghost use Rattle.test_board.specs.Shares.{counts_a_part};
ghost use Rattle.test_board.specs.Sessions.{first_times, second_times, counted_by};

use crate::gate::Gate;
use crate::visit::{count_once, new_board};
use crate::world::{CounterId, CountersWorld, Totals, totals_of};
use base_board::{Board, BoardSeat, Memory};
use std::alloc::Global;
use std::sync::Wait;
use std::thread::{Threads, join};

/// A session counts so many times in one counter.
#[derive(Clone, Copy, Drop)]
pub struct Session {
    pub counter: CounterId,
    pub times: u32,
}

// One session, by this thread.
fn run_session<G: Gate, R: Wait>(
    rt: &R,
    gate: &G,
    number: usize,
    board: &Board<CountersWorld>,
    seat: &mut BoardSeat<CountersWorld>,
    session: Session,
)
    requires board { HasSeat board.now seat.old × (board_cells board.now ≡ 2) }
    requires idle { seat_out seat.old ≡ [] }
    requires left { session.times ≤ (seat_state seat.old).left }
    ensures seat { IsSameSeat seat.old seat.new × (seat_parts seat.new ≡ seat_parts seat.old)
        × (seat_out seat.new ≡ []) }
    ensures counted { seat_state seat.new ≡ counted_by session (seat_state seat.old) }
{
    for turn in 0..session.times {
        count_once(rt, gate, board, seat, session.counter);
        gate.pass(number, turn);
    }
}

// One session by this thread, which owns the seat.
fn run_one<G: Gate, R: Wait>(
    rt: &R,
    gate: &G,
    number: usize,
    board: &Board<CountersWorld>,
    mut seat: BoardSeat<CountersWorld>,
    session: Session,
) -> BoardSeat<CountersWorld>
    requires board { HasSeat board.now seat × (board_cells board.now ≡ 2) }
    requires idle { seat_out seat ≡ [] }
    requires left { counts_a_part ≤ (seat_state seat).left }
    ensures seat { HasSeat board.now result × (seat_parts result ≡ seat_parts seat)
        × (seat_out result ≡ []) }
    ensures counted { seat_state result ≡ counted_by session (seat_state seat) }
{
    run_session(rt, gate, number, board, &mut seat, session);
    seat
}

// Runs the sessions of the plan side by side, and returns when all have ended: the last runs in this thread,
// and each other one may run in another. The number of the plan's first session is `from`.
//
// The plan is halved, the seat is split between the halves, and joined again when both have ended.
fn run_part<G: Gate + Sync, R: Threads + Wait + Sync>(
    rt: &R,
    gate: &G,
    from: usize,
    board: &Board<CountersWorld>,
    mut seat: BoardSeat<CountersWorld>,
    session_list: &[Session],
) -> BoardSeat<CountersWorld>
    requires board { HasSeat board.now seat × (board_cells board.now ≡ 2) }
    requires idle { seat_out seat ≡ [] }
    requires parts { (length session_list.now ≤ seat_parts seat) × (from + length session_list.now < counts_a_part) }
    requires left { length session_list.now * counts_a_part ≤ (seat_state seat).left }
    ensures seat { HasSeat board.now result × (seat_parts result ≡ seat_parts seat)
        × (seat_out result ≡ []) }
    ensures first { (seat_state result).first ≡ (seat_state seat).first + sum_by first_times session_list.now }
    ensures second { (seat_state result).second ≡ (seat_state seat).second + sum_by second_times session_list.now }
{
    if session_list.is_empty() {
        return seat;
    }
    if session_list.len() == 1 {
        return run_one(rt, gate, from, board, seat, session_list[0]);
    }
    let (left, right) = session_list.split_at(session_list.len() / 2);
    let middle = from + left.len();
    let other = board.split(&mut seat, right.len() as u32);
    let (mut mine, theirs) = join(
        rt,
        move || -> BoardSeat<CountersWorld>
            requires sync { IsSync R.row × IsSync G.row }
            requires board { HasSeat board.now seat × (board_cells board.now ≡ 2) }
            requires idle { seat_out seat ≡ [] }
            requires parts { (length left.now ≤ seat_parts seat) × (from + length left.now < counts_a_part) }
            requires left { length left.now * counts_a_part ≤ (seat_state seat).left }
            ensures seat { HasSeat board.entry.now result × (seat_parts result ≡ seat_parts seat)
                × (seat_out result ≡ []) }
            ensures first { (seat_state result).first
                ≡ (seat_state seat).first + sum_by first_times left.entry.now }
            ensures second { (seat_state result).second
                ≡ (seat_state seat).second + sum_by second_times left.entry.now }
        { run_part(rt, gate, from, board, seat, left) },
        move || -> BoardSeat<CountersWorld>
            requires sync { IsSync R.row × IsSync G.row }
            requires board { HasSeat board.now other × (board_cells board.now ≡ 2) }
            requires idle { seat_out other ≡ [] }
            requires parts { (length right.now ≤ seat_parts other)
                × (middle + length right.now < counts_a_part) }
            requires left { length right.now * counts_a_part ≤ (seat_state other).left }
            ensures seat { HasSeat board.entry.now result × (seat_parts result ≡ seat_parts other)
                × (seat_out result ≡ []) }
            ensures first { (seat_state result).first
                ≡ (seat_state other).first + sum_by first_times right.entry.now }
            ensures second { (seat_state result).second
                ≡ (seat_state other).second + sum_by second_times right.entry.now }
        { run_part(rt, gate, middle, board, other, right) },
    );
    board.join(&mut mine, theirs);
    mine
}

/// Runs all sessions of the plan side by side, and returns what the counters hold at the end: each the sum
/// of what its sessions were to count. No count is lost, however the threads take turns.
pub fn run_all<G: Gate + Sync, R: Threads + Wait + Sync>(
    rt: &R,
    gate: &G,
    alloc: Global,
    session_list: &[Session],
) -> Result<Totals, Memory>
    requires { length session_list.now + 1 < counts_a_part }
    ensures first { IfOk result (λ t. t.first ≡ sum_by first_times session_list.now) }
    ensures second { IfOk result (λ t. t.second ≡ sum_by second_times session_list.now) }
{
    let (board, seat) = new_board(alloc, session_list.len() as u32 + 1)?;
    let seat = run_part(rt, gate, 0, &board, seat, session_list);
    let counters = board.close_with(seat);
    Ok(totals_of(&counters))
}

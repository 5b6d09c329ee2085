//! A session, from its beginning to its end.

ghost use Rattle.std.specs.Prelude.{◌≡◌, ◌+◌, ◌<◌, ◌^◌, length, IfOk, OnOk, true};
ghost use Rattle.spec_protocol.specs.Seats.{idle};
ghost use Rattle.base_board.specs.Boards.{seat_state};
ghost use Rattle.base_types.specs.SessionName.{is_session_name};
ghost use Rattle.spec_syntax.specs.Text.{statement_of};
ghost use Rattle.server_session.specs.ControlPoints.{IsBetween};
ghost use Rattle.spec_protocol.specs.Serves.{Serves};
ghost use Rattle.server_thread.specs.AtBoard.{IsFree, IsFreed};
ghost use Rattle.server_thread.specs.Seated.{known_by, says_in, texts_in, IsAhead, IsIdle, HasSameKnowledge};
ghost use Rattle.server_thread.specs.Wrote.{HasWritten, left_of, texts_taken};
ghost use Rattle.server_engine.specs.Written.{end_with};

use crate::settling::settle;
use crate::shared::{Cells, ThreadSeat};
use crate::visits::visit_needed;
use crate::worker::{Job, Worker, begin};
use base_io::{Clock, Gate};
use base_merkle::Hash32;
use base_types::Memory;
use server_board::Serving;
use server_engine::SessionEnd;
use std::alloc::Global;
use std::sync::Wait;

/// Runs the next statement of the session to its answer. For want of memory it isn't taken up.
fn run_statement<'a, K: Serving, H: Hash32, C: Clock, G: Gate, R: Wait>(
    rt: &R,
    alloc: Global,
    gate: &G,
    board: &Cells<K>,
    place: &mut ThreadSeat<K>,
    worker: &mut Worker<'a, H, C>,
) -> Result<(), Memory>
    requires free { IsFree board.now place.old }
    requires serves { Serves (H.digest worker.old.job.hasher) statement_of K.database.server }
    requires ahead { IsAhead H.digest C.says K.database.server worker.old (seat_state place.old) }
    requires between { IsBetween worker.old.session.seat }
    requires more { worker.old.taken < length worker.old.job.statements.now }
    ensures place { IsFreed place.old place.new }
    ensures ahead { IsAhead H.digest C.says K.database.server worker.new (seat_state place.new) }
    ensures known { HasSameKnowledge (seat_state place.old) (seat_state place.new) }
    ensures between { IsBetween worker.new.session.seat }
    ensures taken { OnOk result (worker.new.taken ≡ worker.old.taken + 1) }
    ensures job { worker.new.job ≡ worker.old.job }
{
    worker.start(alloc)?;
    visit_needed(rt, alloc, gate, board, place, worker);
    worker.answer(alloc);
    Ok(())
}

/// Runs all statements of the session; the gate is passed behind each. After want of memory the session is between
/// statements too, and some were run.
fn run_statements<'a, K: Serving, H: Hash32, C: Clock, G: Gate, R: Wait>(
    rt: &R,
    alloc: Global,
    gate: &G,
    number: u32,
    board: &Cells<K>,
    place: &mut ThreadSeat<K>,
    worker: &mut Worker<'a, H, C>,
) -> Result<(), Memory>
    requires free { IsFree board.now place.old }
    requires serves { Serves (H.digest worker.old.job.hasher) statement_of K.database.server }
    requires ahead { IsAhead H.digest C.says K.database.server worker.old (seat_state place.old) }
    requires between { IsBetween worker.old.session.seat }
    requires first { worker.old.taken ≡ 0 }
    requires few { length worker.old.job.statements.now < 2 ^ 32 }
    ensures place { IsFreed place.old place.new }
    ensures ahead { IsAhead H.digest C.says K.database.server worker.new (seat_state place.new) }
    ensures known { HasSameKnowledge (seat_state place.old) (seat_state place.new) }
    ensures between { IsBetween worker.new.session.seat }
    ensures all { OnOk result (worker.new.taken ≡ length worker.old.job.statements.now) }
    ensures job { worker.new.job ≡ worker.old.job }
{
    for statement in 0..worker.job.statements.len() {
        run_statement(rt, alloc, gate, board, place, worker)?;
        gate.pass(number, statement as u32);
    }
    Ok(())
}

/// Ends the session: where a transaction is open, it is ended too. Takes no memory.
fn end_session<'a, K: Serving, H: Hash32, C: Clock, G: Gate, R: Wait>(
    rt: &R,
    alloc: Global,
    gate: &G,
    board: &Cells<K>,
    place: &mut ThreadSeat<K>,
    worker: &mut Worker<'a, H, C>,
)
    requires free { IsFree board.now place.old }
    requires serves { Serves (H.digest worker.old.job.hasher) statement_of K.database.server }
    requires ahead { IsAhead H.digest C.says K.database.server worker.old (seat_state place.old) }
    requires between { IsBetween worker.old.session.seat }
    ensures place { IsFreed place.old place.new }
    ensures wrote { HasWritten (says_in C.says worker.old.job) worker.old.job.name.now
        (texts_taken worker.old) (left_of worker.new) (known_by (seat_state place.old))
        (seat_state place.old).written (seat_state place.new) }
{
    worker.finish();
    visit_needed(rt, alloc, gate, board, place, worker);
    worker.leave();
    settle(rt, board, place, worker);
}

/// Runs the session to its end, and writes down what it has shown. After want of memory it is over too.
fn carry_out<'a, K: Serving, H: Hash32, C: Clock, G: Gate, R: Wait>(
    rt: &R,
    alloc: Global,
    gate: &G,
    number: u32,
    board: &Cells<K>,
    place: &mut ThreadSeat<K>,
    worker: &mut Worker<'a, H, C>,
) -> Result<(), Memory>
    requires free { IsFree board.now place.old }
    requires serves { Serves (H.digest worker.old.job.hasher) statement_of K.database.server }
    requires ahead { IsAhead H.digest C.says K.database.server worker.old (seat_state place.old) }
    requires between { IsBetween worker.old.session.seat }
    requires first { worker.old.taken ≡ 0 }
    requires few { length worker.old.job.statements.now < 2 ^ 32 }
    ensures place { IsFreed place.old place.new }
    ensures over { (seat_state place.new).role ≡ idle }
    ensures wrote { OnOk result (HasWritten (says_in C.says worker.old.job) worker.old.job.name.now
        (texts_in worker.old.job.statements.now) (end_with worker.new.session) (known_by (seat_state place.old))
        (seat_state place.old).written (seat_state place.new)) }
{
    let count = worker.job.statements.len();
    let ran = run_statements(rt, alloc, gate, number, board, place, worker);
    end_session(rt, alloc, gate, board, place, worker);
    gate.pass(number, count as u32);
    ran?;
    worker.session.write_last(alloc)
}

/// Runs the session of a job to its end at an idle seat. The gate is passed behind each of its statements, and
/// once more at its end; `number` is the session's there. After want of memory too its session is over, and it leaves
/// the seat with its parts and with no cell out: nobody waits for one, and the seat may end.
pub fn session_job<'a, K: Serving, H: Hash32, C: Clock, G: Gate, R: Wait>(
    rt: &R,
    alloc: Global,
    gate: &G,
    number: u32,
    board: &Cells<K>,
    place: &mut ThreadSeat<K>,
    job: Job<'a, H, C>,
) -> Result<SessionEnd, Memory>
    requires free { IsFree board.now place.old }
    requires idle { IsIdle (seat_state place.old) }
    requires serves { Serves (H.digest job.hasher) statement_of K.database.server }
    requires name { is_session_name job.name.now ≡ true }
    requires few { length job.statements.now < 2 ^ 32 }
    ensures place { IsFreed place.old place.new }
    ensures over { (seat_state place.new).role ≡ idle }
    ensures wrote { IfOk result (λ end. HasWritten (says_in C.says job.entry) job.entry.name.now
        (texts_in job.entry.statements.now) end (known_by (seat_state place.old))
        (seat_state place.old).written (seat_state place.new)) }
{
    let mut worker = begin(alloc, job)?;
    let carried = carry_out(rt, alloc, gate, number, board, place, &mut worker);
    let end = worker.session.into_end();
    carried?;
    Ok(end)
}

//! A whole run: the setup, and then all sessions side by side with the builder.

ghost use Rattle.std.specs.Prelude.{◌≡◌, ◌+◌, ◌≤◌, ◌<◌, ◌^◌, [], length, IfOk};
ghost use Rattle.std.specs.Thread.{IsSend, IsSync};
ghost use Rattle.base_board.specs.Boards.{seat_state, seat_parts};
ghost use Rattle.spec_syntax.specs.Text.{statement_of};
ghost use Rattle.spec_protocol.specs.Serves.{Serves};
ghost use Rattle.spec_protocol.specs.Seats.{split};
ghost use Rattle.server_result.specs.Moments.{said_with};
ghost use Rattle.server_thread.specs.AtBoard.{IsFree, IsFreed, IsGivenBack};
ghost use Rattle.server_thread.specs.Starts.{StartsBehind};
ghost use Rattle.server_run.specs.MayRun.{MayRun};
ghost use Rattle.server_run.specs.FinishedRun.{AreRunnable, HasFinished, setup_name};
ghost use Rattle.server_thread.specs.Seated.{IsIdle, known_by, texts_in};
ghost use Rattle.server_thread.specs.Wrote.{HasWritten};
ghost use Rattle.server_run.specs.AllWrote.{HaveWritten};

use crate::parts::{PartResult, run_part};
use base_io::{Clock, Gate, OpenGate};
use base_merkle::Hash32;
use base_types::Memory;
use format_sections::{RunSections, Section};
use server_ending::FinishedRun;
use server_result::Settings;
use server_thread::{
    Cell, Cells, Job, Run, Serving, SessionEnd, ThreadSeat, builder_job, session_job,
};
use std::alloc::Global;
use std::sync::Wait;
use std::thread::{Threads, join};

// Runs the setup to its end, at a seat of its own, which is taken in again. The gate isn't passed.
fn run_setup<K: Serving, H: Hash32, C: Clock, G, R: Wait>(
    run: &Run<'_, K, H, C, G, R>,
    place: &mut ThreadSeat<K>,
    statements: &[&str],
) -> Result<SessionEnd, Memory>
    requires ready { MayRun K.database.server (H.digest run.now.hasher) run.now.board.now place.old [] }
    requires parts { 1 < seat_parts place.old }
    requires few { length statements.now < 2 ^ 32 }
    ensures place { IfOk result (λ _. IsFreed place.old place.new) }
    ensures idle { IfOk result (λ _. IsIdle (seat_state place.new)) }
    ensures wrote { IfOk result (λ end. HasWritten (said_with run.now.moment (C.says run.now.clock.now)) setup_name
        (texts_in statements.now) end (known_by (split (seat_state place.old) 1))
        (seat_state place.old).written (seat_state place.new)) }
{
    let mut other = run.board.split(place, 1);
    let job = Job {
        hasher: run.hasher,
        name: "setup",
        statements,
        moment: run.moment,
        clock: run.clock,
    };
    let end = session_job(run.rt, run.alloc, &OpenGate, 0, run.board, &mut other, job)?;
    run.board.join(place, other);
    Ok(end)
}

// The builder by this thread, which owns the seat.
fn build<K: Serving, H: Hash32, C, G: Gate, R: Wait>(
    run: &Run<'_, K, H, C, G, R>,
    number: u32,
    mut place: ThreadSeat<K>,
    visits: u32,
) -> ThreadSeat<K>
    requires free { IsFree run.now.board.now place }
    requires serves { Serves (H.digest run.now.hasher) statement_of K.database.server }
    ensures place { IsGivenBack run.now.board.now place result }
    ensures state { seat_state result ≡ seat_state place }
{
    builder_job(run, number, &mut place, visits);
    place
}

// Runs all sessions side by side, and the builder beside them.
fn run_beside<'a, K: Serving + Send + Sync, H: Hash32, C: Clock, G: Gate, R: Threads + Wait + Sync>(
    run: &Run<'_, K, H, C, G, R>,
    mut place: ThreadSeat<K>,
    sections: &[Section<'a>],
    visits: u32,
) -> PartResult<K>
    requires ready { MayRun K.database.server (H.digest run.now.hasher) run.now.board.now place sections.now }
    requires parts { length sections.now + 1 < seat_parts place }
    requires numbers { length sections.now < 2 ^ 32 }
    ensures place { IfOk result (λ r. IsGivenBack run.now.board.now place r.0) }
    ensures wrote { IfOk result (λ r. HaveWritten (said_with run.now.moment (C.says run.now.clock.now))
        sections.now r.1.items (seat_state place) (seat_state r.0)) }
{
    let builder = run.board.split(&mut place, 1);
    let number = sections.len() as u32;
    let (part, builder) = join(
        run.rt,
        move || -> PartResult<K>
            requires sync { IsSync R.row × IsSync H.row × IsSync C.row × IsSync G.row × IsSync K.row
                × IsSend H.row × IsSend K.row }
            requires ready { MayRun K.database.server (H.digest run.now.hasher) run.now.board.now place sections.now }
            requires parts { length sections.now ≤ seat_parts place }
            requires numbers { length sections.now < 2 ^ 32 }
            ensures place { IfOk result (λ r. IsGivenBack run.entry.now.board.now place r.0) }
            ensures wrote { IfOk result
                (λ r. HaveWritten (said_with run.entry.now.moment (C.says run.entry.now.clock.now))
                sections.entry.now r.1.items (seat_state place) (seat_state r.0)) }
        { run_part(run, 0, place, sections) },
        move || -> ThreadSeat<K>
            requires sync { IsSync R.row × IsSync H.row × IsSync C.row × IsSync G.row × IsSync K.row
                × IsSend H.row × IsSend K.row }
            requires free { IsFree run.now.board.now builder }
            requires serves { Serves (H.digest run.now.hasher) statement_of K.database.server }
            ensures place { IsGivenBack run.entry.now.board.now builder result }
            ensures state { seat_state result ≡ seat_state builder }
        { build(run, number, builder, visits) },
    );
    let (mut place, ends) = part?;
    run.board.join(&mut place, builder);
    Ok((place, ends))
}

/// Runs the plan over cells with which a run starts behind a past, as many visits of the builder beside it.
pub(crate) fn run_over<
    K: Serving + Send + Sync,
    H: Hash32,
    C: Clock,
    G: Gate,
    R: Threads + Wait + Sync,
>(
    rt: &R,
    alloc: Global,
    hasher: H,
    how: Settings<'_>,
    cells: Vec<Cell>,
    all_sections: &RunSections<'_>,
    visits: u32,
    clock: &C,
    gate: &G,
) -> Result<FinishedRun, Memory>
    requires serves { Serves (H.digest hasher) statement_of K.database.server }
    requires starts { StartsBehind (H.digest hasher) K.database.database K.database.size K.database.past cells.items }
    requires setup { length all_sections.now.setup.items < 2 ^ 32 }
    requires runnable { AreRunnable all_sections.now.sessions.items }
    requires numbers { length all_sections.now.sessions.items + 2 < 2 ^ 32 }
    ensures { IfOk result (HasFinished K.database (said_with how.entry.clock (C.says clock.now))
        (texts_in all_sections.now.setup.items) all_sections.now.sessions.items) }
{
    let (board, mut place) = Cells::<K>::new(alloc, cells, all_sections.sessions.len() as u32 + 2)?;
    let run = Run {
        rt,
        alloc,
        hasher,
        moment: how.clock,
        clock,
        gate,
        board: &board,
    };
    let setup = run_setup(&run, &mut place, &all_sections.setup)?;
    let (place, ends) = run_beside(&run, place, &all_sections.sessions, visits)?;
    Ok(FinishedRun {
        cells: board.close_with(place),
        setup,
        ends,
    })
}

//! Sessions side by side: a plan is halved, and the seat is split between the halves.

ghost use Rattle.std.specs.Prelude.{◌≡◌, ◌+◌, ◌++◌, ◌∷◌, ◌≤◌, ◌<◌, ◌^◌, [], length, IfOk};
ghost use Rattle.std.specs.Thread.{IsSend, IsSync};
ghost use Rattle.base_board.specs.Boards.{seat_state, seat_parts, seat_out, HasSeat};
ghost use Rattle.spec_protocol.specs.Seats.{IsAtRest};
ghost use Rattle.format_sections.specs.RunSections.{section_view, statements_answered};
ghost use Rattle.law_snapshots.specs.Answered.{AreAnsweredBehind};
ghost use Rattle.server_result.specs.Moments.{said_with};
ghost use Rattle.server_thread.specs.AtBoard.{IsGivenBack};
ghost use Rattle.server_run.specs.MayRun.{MayRun};
ghost use Rattle.server_run.specs.FinishedRun.{AreUnited};
ghost use Rattle.server_run.specs.AllWrote.{HaveWritten};

use base_io::{Clock, Gate};
use base_merkle::Hash32;
use base_types::Memory;
use format_sections::Section;
use law_snapshots::push_answers;
use server_thread::{Cells, Job, Run, Serving, SessionEnd, ThreadSeat, session_job};
use std::alloc::Global;
use std::sync::Wait;
use std::thread::{Threads, join};

/// What a thread comes to: its seat, and what its sessions left.
pub(crate) type PartResult<K> = Result<(ThreadSeat<K>, Vec<SessionEnd>), Memory>;

// What a session left, and behind its entries those of the texts that are answered over its image.
fn with_answers(
    alloc: Global,
    section: &Section<'_>,
    left: SessionEnd,
) -> Result<SessionEnd, Memory>
    ensures images { IfOk result (λ end. end.images ≡ left.images) }
    ensures answered { IfOk result (λ end. AreAnsweredBehind section.now.name.now
        (statements_answered (section_view section.now)) left.images left.entries end.entries) }
{
    let SessionEnd {
        mut entries,
        images,
    } = left;
    push_answers(
        alloc,
        section.name,
        section.statements_answered(),
        images.as_slice(),
        &mut entries,
    )?;
    Ok(SessionEnd { entries, images })
}

// One session by this thread, which owns the seat. Where the section is a snapshot's, the seat is free of the session
// by the time that its texts are answered.
fn run_one<'a, K: Serving, H: Hash32, C: Clock, G: Gate, R: Wait>(
    run: &Run<'_, K, H, C, G, R>,
    number: u32,
    mut place: ThreadSeat<K>,
    section: &Section<'a>,
) -> PartResult<K>
    requires { MayRun K.database.server (H.digest run.now.hasher) run.now.board.now place (section.now ∷ []) }
    ensures place { IfOk result (λ r. IsGivenBack run.now.board.now place r.0) }
    ensures wrote { IfOk result (λ r. HaveWritten (said_with run.now.moment (C.says run.now.clock.now))
        (section.now ∷ []) r.1.items (seat_state place) (seat_state r.0)) }
{
    let job = Job {
        hasher: run.hasher,
        name: section.name,
        statements: section.statements_run(),
        moment: run.moment,
        clock: run.clock,
    };
    let left = session_job(
        run.rt, run.alloc, run.gate, number, run.board, &mut place, job,
    )?;
    let end = with_answers(run.alloc, section, left)?;
    let mut ends = Vec::new(run.alloc);
    ends.push(end)?;
    Ok((place, ends))
}

// What two parts left, one behind the other.
fn both(first: Vec<SessionEnd>, second: Vec<SessionEnd>) -> Result<Vec<SessionEnd>, Memory>
    ensures { IfOk result (λ all. all.items ≡ first.items ++ second.items) }
{
    let (mut all, mut more) = (first, second);
    all.append(&mut more)?;
    Ok(all)
}

// The seats of both parts become one.
fn unite<K: Serving>(board: &Cells<K>, first: PartResult<K>, second: PartResult<K>) -> PartResult<K>
    requires first { IfOk first (λ r. HasSeat board.now r.0 × (seat_out r.0 ≡ [])) }
    requires second { IfOk second (λ r. HasSeat board.now r.0 × (seat_out r.0 ≡ [])
        × IsAtRest (seat_state r.0).role) }
    ensures { IfOk result (AreUnited board.now first second) }
{
    let (mut place, ends) = first?;
    let (other, more) = second?;
    board.join(&mut place, other);
    Ok((place, both(ends, more)?))
}

/// Runs the sessions side by side, each in a thread of its own, and returns when all have ended. The number of
/// the first at the gate is `from`.
///
/// The sessions are halved, the seat is split between the halves, and both seats are joined again when both
/// have ended. After want of memory nothing is known of the seats, and the board is to be dropped.
pub(crate) fn run_part<
    'a,
    K: Serving + Send + Sync,
    H: Hash32,
    C: Clock,
    G: Gate,
    R: Threads + Wait + Sync,
>(
    run: &Run<'_, K, H, C, G, R>,
    from: u32,
    mut place: ThreadSeat<K>,
    sections: &[Section<'a>],
) -> PartResult<K>
    requires ready { MayRun K.database.server (H.digest run.now.hasher) run.now.board.now place sections.now }
    requires parts { length sections.now ≤ seat_parts place }
    requires numbers { from + length sections.now < 2 ^ 32 }
    ensures place { IfOk result (λ r. IsGivenBack run.now.board.now place r.0) }
    ensures wrote { IfOk result (λ r. HaveWritten (said_with run.now.moment (C.says run.now.clock.now))
        sections.now r.1.items (seat_state place) (seat_state r.0)) }
{
    match sections {
        [] => return Ok((place, Vec::new(run.alloc))),
        [section] => return run_one(run, from, place, section),
        _ => {}
    }
    let (left, right) = sections.split_at(sections.len() / 2);
    let middle = from + left.len() as u32;
    let other = run.board.split(&mut place, right.len() as u32);
    let (mine, theirs) = join(
        run.rt,
        move || -> PartResult<K>
            requires sync { IsSync R.row × IsSync H.row × IsSync C.row × IsSync G.row × IsSync K.row
                × IsSend H.row × IsSend K.row }
            requires ready { MayRun K.database.server (H.digest run.now.hasher) run.now.board.now place left.now }
            requires parts { length left.now ≤ seat_parts place }
            requires numbers { from + length left.now < 2 ^ 32 }
            ensures place { IfOk result (λ r. IsGivenBack run.entry.now.board.now place r.0) }
            ensures wrote { IfOk result
                (λ r. HaveWritten (said_with run.entry.now.moment (C.says run.entry.now.clock.now))
                left.entry.now r.1.items (seat_state place) (seat_state r.0)) }
        { run_part(run, from, place, left) },
        move || -> PartResult<K>
            requires sync { IsSync R.row × IsSync H.row × IsSync C.row × IsSync G.row × IsSync K.row
                × IsSend H.row × IsSend K.row }
            requires ready { MayRun K.database.server (H.digest run.now.hasher) run.now.board.now other right.now }
            requires parts { length right.now ≤ seat_parts other }
            requires numbers { middle + length right.now < 2 ^ 32 }
            ensures place { IfOk result (λ r. IsGivenBack run.entry.now.board.now other r.0) }
            ensures wrote { IfOk result
                (λ r. HaveWritten (said_with run.entry.now.moment (C.says run.entry.now.clock.now))
                right.entry.now r.1.items (seat_state other) (seat_state r.0)) }
        { run_part(run, middle, other, right) },
    );
    unite(run.board, mine, theirs)
}

//! The run of a plan.

ghost use Rattle.std.specs.Prelude.{◌≡◌, ◌∷◌, ◌≤◌, ◌<◌, ◌^◌, List, All, IfOk, codes, true};
ghost use Rattle.std.specs.List.{IsDistinct};
ghost use Rattle.std.specs.Str.{bytes_eq};
ghost use Rattle.base_types.specs.DatabaseName.{is_database_name};
ghost use Rattle.format_sections.specs.Form.{is_session_name};
ghost use Rattle.format_sections.specs.RunSections.{run_sections_view, session_names, size_of};
ghost use Rattle.server_result.specs.Moments.{said_with};
ghost use Rattle.law_concurrent.specs.CameTo.{RunResult};
ghost use Rattle.sql_types.specs.declared.digest.Digest.{Digest};
ghost use Rattle.sql_types.specs.declared.journal.TheConstants.{MAX_BLOCK};
ghost use Rattle.server_thread.specs.FirstCells.{first_kept};
ghost use Rattle.server_thread.specs.Starts.{Starts, past_in};
ghost use Rattle.server_run.specs.CameTo.{CameTo, CameToBehind, IsClosed, IsOf, and_digests};

use crate::whole::run_over;
use base_io::{Clock, Gate};
use base_merkle::Hash32;
use base_types::{Memory, Name};
use format_sections::RunSections;
use law_behind::without_a_past_nothing_else_is_meant;
use law_concurrent::{
    digests_are_held_where_their_blocks_are_closed, images_of_legal_journals_verify,
    runs_side_by_side_behind_a_past_agree,
};
use law_snapshots::{images_of_cuts_are_encodable, snapshots_are_of_serial_runs};
use server_ending::{close_all, left_by, left_closed};
use server_result::{RunOutcome, Settings, is_encodable, moment};
use server_thread::{Cell, first_cells, runs_start};
use std::alloc::Global;
use std::marker::Brand;
use std::sync::Wait;
use std::thread::Threads;
use store_ledger::issued_digests_are_of_the_journal;

/// The cells of a database without transactions.
fn empty_database(alloc: Global, database: &str, block_size: u32) -> Result<Vec<Cell>, Memory>
    requires some { 1 ≤ block_size }
    requires most { block_size ≤ MAX_BLOCK }
    ensures { IfOk result (λ cells. cells.items ≡ first_kept database.now block_size) }
{
    first_cells(alloc, Name::of_str(alloc, database)?, block_size)
}

/// How many statements the plan has.
fn statement_count(all_sections: &RunSections<'_>) -> u32
    requires { size_of (run_sections_view all_sections.now) < 2 ^ 31 }
    ensures { result < 2 ^ 31 }
{
    let mut count = all_sections.setup.len();
    for session in &all_sections.sessions {
        count += session.statements.len();
    }
    count as u32
}

/// Runs the plan on an empty database: the setup to its end, as the session `setup`, and then all sessions
/// side by side, each in a thread of its own, while a builder closes blocks. What is written and saved of it
/// agrees with what was answered, however the turns of sessions and builder fall.
///
/// A snapshot is a session that runs `SAVE IMAGE` alone. Behind its end its thread visits no cell any more: it answers
/// the texts of the snapshot over the image that was kept, while other sessions go on.
///
/// The gate is passed by each session behind each of the statements that it runs and at its end, and by the builder
/// behind each of its visits, one for each statement and text of the plan and one more; and a thread says there which
/// cell it is inside of. Want of memory in any thread is answered once all threads have ended; a text of a snapshot for
/// whose answer there is none is answered E30.
pub fn run_all<H: Hash32, C: Clock, G: Gate, R: Threads + Wait + Sync>(
    rt: &R,
    alloc: Global,
    hasher: H,
    how: Settings<'_>,
    all_sections: &RunSections<'_>,
    clock: &C,
    gate: &G,
) -> Result<RunOutcome, Memory>
    requires database { is_database_name how.database.now ≡ true }
    requires some { 1 ≤ how.block_size }
    requires most { how.block_size ≤ MAX_BLOCK }
    requires names { All (λ name. is_session_name name ≡ true) (session_names (run_sections_view all_sections.now)) }
    requires apart { IsDistinct bytes_eq (codes "setup" ∷ session_names (run_sections_view all_sections.now)) }
    requires few { size_of (run_sections_view all_sections.now) < 2 ^ 31 }
    ensures { IfOk result (λ r. (left : RunResult)
        × CameTo (H.digest hasher) how.entry.database.now how.entry.block_size
        (said_with how.entry.clock (C.says clock.now)) (run_sections_view all_sections.now) left
        × IsOf (H.digest hasher) (run_sections_view all_sections.now) left r) }
{
    let cells = empty_database(alloc, how.database, how.block_size)?;
    // Laws: they do nothing.
    runs_start();
    without_a_past_nothing_else_is_meant();
    let ran = run_all_behind(rt, alloc, hasher, how, cells, all_sections, clock, gate)?;
    Ok(ran)
}

/// Runs the plan as `run_all` does, over cells with which a run starts behind their past: those of an empty database,
/// or those to which an earlier journal leads, from which the run goes on.
pub fn run_all_behind<H: Hash32, C: Clock, G: Gate, R: Threads + Wait + Sync>(
    rt: &R,
    alloc: Global,
    hasher: H,
    how: Settings<'_>,
    cells: Vec<Cell>,
    all_sections: &RunSections<'_>,
    clock: &C,
    gate: &G,
) -> Result<RunOutcome, Memory>
    requires database { is_database_name how.database.now ≡ true }
    requires starts { Starts (H.digest hasher) how.database.now how.block_size cells.items }
    requires names { All (λ name. is_session_name name ≡ true) (session_names (run_sections_view all_sections.now)) }
    requires apart { IsDistinct bytes_eq (codes "setup" ∷ session_names (run_sections_view all_sections.now)) }
    requires few { size_of (run_sections_view all_sections.now) < 2 ^ 31 }
    ensures { IfOk result (λ r. (left : RunResult)
        × CameToBehind (H.digest hasher) how.entry.database.now how.entry.block_size (past_in cells.items)
        (said_with how.entry.clock (C.says clock.now)) (run_sections_view all_sections.now) left
        × IsOf (H.digest hasher) (run_sections_view all_sections.now) left r) }
{
    let visits = statement_count(all_sections) + 1;
    let finished = run_over::<Brand, H, C, G, R>(
        rt,
        alloc,
        hasher,
        how,
        cells,
        all_sections,
        visits,
        clock,
        gate,
    )?;
    let ran = left_by(alloc, finished)?;
    // Laws: they do nothing.
    is_encodable(&ran.journal);
    images_of_cuts_are_encodable();
    snapshots_are_of_serial_runs();
    runs_side_by_side_behind_a_past_agree();
    Ok(ran)
}

/// Runs the plan as `run_all` does, and closes the ledger behind the run: all that is pending gets into
/// blocks, and where there is a transaction the digest of the newest block is issued, as the last of the
/// digests. It is in no transcript.
pub fn run_and_close<H: Hash32, C: Clock, G: Gate, R: Threads + Wait + Sync>(
    rt: &R,
    alloc: Global,
    hasher: H,
    how: Settings<'_>,
    all_sections: &RunSections<'_>,
    clock: &C,
    gate: &G,
) -> Result<RunOutcome, Memory>
    requires database { is_database_name how.database.now ≡ true }
    requires some { 1 ≤ how.block_size }
    requires most { how.block_size ≤ MAX_BLOCK }
    requires names { All (λ name. is_session_name name ≡ true) (session_names (run_sections_view all_sections.now)) }
    requires apart { IsDistinct bytes_eq (codes "setup" ∷ session_names (run_sections_view all_sections.now)) }
    requires few { size_of (run_sections_view all_sections.now) < 2 ^ 31 }
    ensures { IfOk result (λ r. (left : RunResult) × (more : List Digest)
        × CameTo (H.digest hasher) how.entry.database.now how.entry.block_size
        (said_with how.entry.clock (C.says clock.now)) (run_sections_view all_sections.now) left
        × IsClosed (H.digest hasher) (said_with how.entry.clock (C.says clock.now)) left more
        × IsOf (H.digest hasher) (run_sections_view all_sections.now) (and_digests left more) r) }
{
    let cells = empty_database(alloc, how.database, how.block_size)?;
    // Laws: they do nothing.
    runs_start();
    without_a_past_nothing_else_is_meant();
    let ran = run_and_close_behind(rt, alloc, hasher, how, cells, all_sections, clock, gate)?;
    Ok(ran)
}

/// Runs the plan as `run_all_behind` does, and closes the ledger behind the run, as `run_and_close` does.
pub fn run_and_close_behind<H: Hash32, C: Clock, G: Gate, R: Threads + Wait + Sync>(
    rt: &R,
    alloc: Global,
    hasher: H,
    how: Settings<'_>,
    cells: Vec<Cell>,
    all_sections: &RunSections<'_>,
    clock: &C,
    gate: &G,
) -> Result<RunOutcome, Memory>
    requires database { is_database_name how.database.now ≡ true }
    requires starts { Starts (H.digest hasher) how.database.now how.block_size cells.items }
    requires names { All (λ name. is_session_name name ≡ true) (session_names (run_sections_view all_sections.now)) }
    requires apart { IsDistinct bytes_eq (codes "setup" ∷ session_names (run_sections_view all_sections.now)) }
    requires few { size_of (run_sections_view all_sections.now) < 2 ^ 31 }
    ensures { IfOk result (λ r. (left : RunResult) × (more : List Digest)
        × CameToBehind (H.digest hasher) how.entry.database.now how.entry.block_size (past_in cells.items)
        (said_with how.entry.clock (C.says clock.now)) (run_sections_view all_sections.now) left
        × IsClosed (H.digest hasher) (said_with how.entry.clock (C.says clock.now)) left more
        × IsOf (H.digest hasher) (run_sections_view all_sections.now) (and_digests left more) r) }
{
    let visits = statement_count(all_sections) + 1;
    let mut finished = run_over::<Brand, H, C, G, R>(
        rt,
        alloc,
        hasher,
        how,
        cells,
        all_sections,
        visits,
        clock,
        gate,
    )?;
    close_all(alloc, hasher, &mut finished.cells)?;
    let made = moment(how.clock, clock);
    let ran = left_closed(alloc, hasher, finished, made)?;
    // Laws: they do nothing.
    is_encodable(&ran.journal);
    images_of_cuts_are_encodable();
    snapshots_are_of_serial_runs();
    runs_side_by_side_behind_a_past_agree();
    issued_digests_are_of_the_journal();
    digests_are_held_where_their_blocks_are_closed();
    images_of_legal_journals_verify();
    Ok(ran)
}

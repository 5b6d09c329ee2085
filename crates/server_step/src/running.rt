//! A run of an input's lines.

ghost use Rattle.std.specs.Prelude.{◌≡◌, ◌≤◌, List, length, map, All, IfOk, true};
ghost use Rattle.base_types.specs.DatabaseName.{is_database_name};
ghost use Rattle.sql_types.specs.declared.journal.TheConstants.{MAX_BLOCK};
ghost use Rattle.format_lines.specs.Line.{is_session_name, seen};
ghost use Rattle.format_lines.specs.Sessions.{sessions_of};
ghost use Rattle.server_result.specs.Moments.{said_with};
ghost use Rattle.server_engine.specs.Starts.{Starts, past_in};
ghost use Rattle.server_step.specs.Came.{CameTo, Run};
ghost use Rattle.server_step.specs.CameBehind.{CameToBehind};
ghost use Rattle.server_step.specs.RunOutcome.{HasRun, IsRunOutcome};

use crate::leaving::left_by;
use crate::lines::run_each;
use crate::sessions::{end_sessions, open_sessions};
use base_io::Clock;
use base_merkle::Hash32;
use base_types::{Memory, Name};
use format_lines::{Line, sessions_law};
use law_kept_images::kept_images_behind_a_past_are_accepted;
use server_engine::{
    Cell, Core, Parts, ended_runs_behind_a_past_agree, first_cells,
    journals_of_runs_behind_a_past_are_legal, runs_behind_no_past_agree, runs_start,
    times_behind_a_past_are_those_of_sessions,
};
use server_result::{RunOutcome, Settings, is_encodable};
use std::alloc::Global;

/// Runs the statements of the lines over cells with which a run starts, to the ends of all sessions.
fn run_to_the_end<H: Hash32, C: Clock>(
    alloc: Global,
    hasher: H,
    how: Settings<'_>,
    cells: Vec<Cell>,
    sessions: &[&str],
    lines: &[Line<'_>],
    clock: &C,
) -> Result<Parts<H>, Memory>
    requires database { is_database_name how.database.now ≡ true }
    requires starts { Starts (H.digest hasher) how.database.now how.block_size cells.items }
    requires sessions { map (λ n. n.now) sessions.now ≡ sessions_of (map seen lines.now) }
    requires names { All (λ l. is_session_name l.session.now ≡ true) lines.now }
    ensures { IfOk result (HasRun (H.digest hasher) (past_in cells.items) how.entry.database.now
        how.entry.block_size (said_with how.entry.clock (C.says clock.now)) (map seen lines.now)) }
{
    sessions_law();
    let mut core = Core::over(alloc, hasher, cells);
    open_sessions(alloc, sessions, &mut core)?;
    run_each(alloc, sessions, lines, how.clock, clock, &mut core)?;
    end_sessions(sessions.len(), &mut core);
    core.into_parts(alloc)
}

/// Runs the statements of the lines in their order on one thread, each at the moment that is given, or else
/// at one that the clock says. The sessions of these names begin before the first line and end, in their
/// order, behind the last. What is written and saved of it agrees with what was answered.
pub fn run_lines<H: Hash32, C: Clock>(
    alloc: Global,
    hasher: H,
    how: Settings<'_>,
    sessions: &[&str],
    lines: &[Line<'_>],
    clock: &C,
) -> Result<RunOutcome, Memory>
    requires database { is_database_name how.database.now ≡ true }
    requires some { 1 ≤ how.block_size }
    requires most { how.block_size ≤ MAX_BLOCK }
    requires sessions { map (λ n. n.now) sessions.now ≡ sessions_of (map seen lines.now) }
    requires names { All (λ l. is_session_name l.session.now ≡ true) lines.now }
    ensures { IfOk result (λ r. (run : Run)
        × CameTo (H.digest hasher) how.entry.database.now how.entry.block_size
        (said_with how.entry.clock (C.says clock.now)) (map seen lines.now) run
        × IsRunOutcome (H.digest hasher) (sessions_of (map seen lines.now)) run r) }
{
    let database = Name::of_str(alloc, how.database)?;
    let cells = first_cells(alloc, database, how.block_size)?;
    // Laws: they do nothing.
    runs_start();
    runs_behind_no_past_agree();
    let ran = run_lines_behind(alloc, hasher, how, cells, sessions, lines, clock)?;
    Ok(ran)
}

/// Runs the statements of the lines as `run_lines` does, over cells with which a run starts behind their past: those
/// of an empty database, or those to which an earlier journal leads, from which the run goes on.
pub fn run_lines_behind<H: Hash32, C: Clock>(
    alloc: Global,
    hasher: H,
    how: Settings<'_>,
    cells: Vec<Cell>,
    sessions: &[&str],
    lines: &[Line<'_>],
    clock: &C,
) -> Result<RunOutcome, Memory>
    requires database { is_database_name how.database.now ≡ true }
    requires starts { Starts (H.digest hasher) how.database.now how.block_size cells.items }
    requires sessions { map (λ n. n.now) sessions.now ≡ sessions_of (map seen lines.now) }
    requires names { All (λ l. is_session_name l.session.now ≡ true) lines.now }
    ensures { IfOk result (λ r. (run : Run)
        × CameToBehind (H.digest hasher) how.entry.database.now how.entry.block_size (past_in cells.items)
        (said_with how.entry.clock (C.says clock.now)) (map seen lines.now) run
        × IsRunOutcome (H.digest hasher) (sessions_of (map seen lines.now)) run r) }
{
    let parts = run_to_the_end(alloc, hasher, how, cells, sessions, lines, clock)?;
    // Laws: they do nothing.
    is_encodable(&parts.journal);
    ended_runs_behind_a_past_agree();
    journals_of_runs_behind_a_past_are_legal();
    times_behind_a_past_are_those_of_sessions();
    kept_images_behind_a_past_are_accepted();
    sessions_law();
    left_by(alloc, sessions, lines, parts)
}

//! Running lines one after another.

ghost use Rattle.std.specs.Prelude.{ℕ, ◌≡◌, ◌++◌, ◌∷◌, [], List, length, map, All, OnOk, true};
ghost use Rattle.std.specs.List.{list_any};
ghost use Rattle.std.specs.Str.{bytes_eq};
ghost use Rattle.law_behind.specs.Past.{Past};
ghost use Rattle.server_engine.specs.Standing.{MayTakeStatement, Stands};
ghost use Rattle.format_lines.specs.Line.{Statement, seen};
ghost use Rattle.server_result.specs.Moments.{said_with};
ghost use Rattle.server_step.specs.Reached.{AreOpen, Reached, asked};

use crate::number::number_of;
use base_io::Clock;
use base_merkle::Hash32;
use base_types::{Memory, Text};
use format_lines::Line;
use server_engine::Core;
use server_result::moment;
use std::alloc::Global;

/// Runs the statement of a line.
fn run_line<H: Hash32, C: Clock>(
    alloc: Global,
    sessions: &[&str],
    line: &Line<'_>,
    given: Option<u64>,
    clock: &C,
    core: &mut Core<H>,
) -> Result<(), Memory>
    requires standing { MayTakeStatement H.digest core.old }
    requires open { AreOpen core.old (length sessions.now) }
    requires named { list_any (bytes_eq line.now.session.now) (map (λ n. n.now) sessions.now) ≡ true }
    ensures reached { (h : H) (past : Past) (database : List ℕ) (size : ℕ) (before : List Statement)
        → Reached H.digest h past database size (map (λ n. n.now) sessions.now)
        (said_with given (C.says clock.now)) before core.old
        → OnOk result (Reached H.digest h past database size (map (λ n. n.now) sessions.now)
        (said_with given (C.says clock.now)) (before ++ seen line.now ∷ []) core.new) }
    ensures open { OnOk result (AreOpen core.new (length sessions.now)) }
{
    let session = number_of(sessions, line.session);
    let text = Text::of_str(alloc, line.text)?;
    core.step(alloc, session, text, moment(given, clock))
}

/// Runs the statements of the lines in their order, each at the moment that is given, or else at one that the
/// clock says.
pub(crate) fn run_each<H: Hash32, C: Clock>(
    alloc: Global,
    sessions: &[&str],
    lines: &[Line<'_>],
    given: Option<u64>,
    clock: &C,
    core: &mut Core<H>,
) -> Result<(), Memory>
    requires begins { (h : H) × (past : Past) × (database : List ℕ) × (size : ℕ)
        × Stands H.digest h core.old (asked past database size (map (λ n. n.now) sessions.now) [] []) }
    requires open { AreOpen core.old (length sessions.now) }
    requires named { All (λ l. list_any (bytes_eq l.session.now) (map (λ n. n.now) sessions.now) ≡ true)
        lines.now }
    ensures reached { (h : H) (past : Past) (database : List ℕ) (size : ℕ)
        → Stands H.digest h core.old (asked past database size (map (λ n. n.now) sessions.now) [] [])
        → OnOk result (Reached H.digest h past database size (map (λ n. n.now) sessions.now)
        (said_with given (C.says clock.now)) (map seen lines.now) core.new) }
    ensures open { OnOk result (AreOpen core.new (length sessions.now)) }
{
    for line in lines {
        run_line(alloc, sessions, line, given, clock, core)?;
    }
    Ok(())
}

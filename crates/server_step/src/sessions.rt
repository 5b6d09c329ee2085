//! Sessions that begin before the first line, and end behind the last.

ghost use Rattle.std.specs.Prelude.{ℕ, ◌≡◌, List, [], length, map, All, OnOk, true};
ghost use Rattle.base_types.specs.SessionName.{is_session_name};
ghost use Rattle.law_behind.specs.Past.{Past};
ghost use Rattle.server_engine.specs.CoreInput.{CoreInput};
ghost use Rattle.server_engine.specs.Standing.{IsStanding, Stands};
ghost use Rattle.server_step.specs.Reached.{AreEnded, AreOpen, StandsEnded, asked};

use base_merkle::Hash32;
use base_types::{Memory, Name};
use server_engine::Core;
use std::alloc::Global;

/// Begins the sessions of these names.
pub(crate) fn open_sessions<H: Hash32>(
    alloc: Global,
    sessions: &[&str],
    core: &mut Core<H>,
) -> Result<(), Memory>
    requires begins { (h : H) × (past : Past) × (database : List ℕ) × (size : ℕ)
        × Stands H.digest h core.old (asked past database size [] [] []) }
    requires names { All (λ n. is_session_name n.now ≡ true) sessions.now }
    ensures stands { (h : H) (past : Past) (database : List ℕ) (size : ℕ)
        → Stands H.digest h core.old (asked past database size [] [] [])
        → OnOk result (Stands H.digest h core.new (asked past database size
        (map (λ n. n.now) sessions.now) [] [])) }
    ensures open { OnOk result (AreOpen core.new (length sessions.now)) }
{
    for session in sessions {
        core.open_session(alloc, Name::of_str(alloc, *session)?)?;
    }
    Ok(())
}

/// Ends the first so many sessions, in their order. Takes no memory.
pub(crate) fn end_sessions<H: Hash32>(count: usize, core: &mut Core<H>)
    requires standing { IsStanding H.digest core.old }
    requires open { AreOpen core.old count }
    ensures stands { (h : H) (a : CoreInput) → Stands H.digest h core.old a
        → StandsEnded H.digest h core.new a }
    ensures ended { AreEnded core.new count }
{
    for session in 0..count {
        core.end_session(session);
    }
}

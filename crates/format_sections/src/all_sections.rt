//! The whole input.

ghost use Rattle.std.specs.Prelude.{◌≡◌, ◌∷◌, ◌≤◌, ℕ, List, nat_lt, true, length, codes, Ok, Err, All, IfOk};
ghost use Rattle.std.specs.List.{IsDistinct};
ghost use Rattle.std.specs.Str.{bytes_eq};
ghost use Rattle.format_lines.specs.Sessions.{max_sessions};
ghost use Rattle.format_sections.specs.Form.{is_session_name};
ghost use Rattle.format_sections.specs.RunSections.{run_sections_view, read_run_sections, session_names, size_of};

use crate::names::first_names;
use crate::section::{Section, SectionsErr, behind_skipped, read_section, read_setup};
use format_lines::MAX_SESSIONS;
use std::alloc::Global;

/// What is run: the statements of the setup, none where there is no setup, and the sections of sessions by their
/// order in the input, of whose names none stands twice and none is `setup`.
#[derive(Debug, Drop)]
pub struct RunSections<'a> {
    pub setup: Vec<&'a str>,
    pub sessions: Vec<Section<'a>>,
}

/// The plan that the input says. Where a line lacks its form, the first such line is named instead. It copies
/// nothing of the input; each line is read at most three times, and the name of each session is sought among
/// those before it by a search in their order.
pub fn read_run_sections<'a>(alloc: Global, input: &'a [u8]) -> Result<RunSections<'a>, SectionsErr>
    ensures read { IfOk result (λ all_sections. read_run_sections input.now ≡ Ok (run_sections_view all_sections)) }
    ensures form { (line : ℕ) → result ≡ Err (SectionsErr.Form line) → read_run_sections input.now ≡ Err line }
    ensures names { IfOk result
        (λ all_sections. All (λ name. is_session_name name ≡ true) (session_names (run_sections_view all_sections))) }
    ensures apart { IfOk result
        (λ all_sections. IsDistinct bytes_eq (codes "setup" ∷ session_names (run_sections_view all_sections))) }
    ensures count { IfOk result (λ all_sections. size_of (run_sections_view all_sections) ≤ length input.now) }
{
    let mut names = first_names(alloc)?;
    let (setup, behind) = read_setup(alloc, behind_skipped(input))?;
    let mut sessions = Vec::new(alloc);
    let mut rest = behind;
    while !rest.bytes.is_empty() {
        let (session, behind) = read_section(alloc, &mut names, rest)?;
        sessions.push(session)?;
        rest = behind;
    }
    Ok(RunSections { setup, sessions })
}

/// Whether a plan has more than 64 sessions, the setup aside.
pub fn has_many_sessions(all_sections: &RunSections<'_>) -> bool
    ensures { result ≡ nat_lt max_sessions (length (run_sections_view all_sections.now).sessions) }
{
    MAX_SESSIONS < all_sections.sessions.len()
}

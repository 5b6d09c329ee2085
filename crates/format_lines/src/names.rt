//! The sessions of the input.

ghost use Rattle.std.specs.Prelude.{◌≡◌, ◌<◌, ◌≤◌, length, map, IfOk, IfSome, IfNone};
ghost use Rattle.std.specs.List.{list_any};
ghost use Rattle.std.specs.Str.{bytes_eq};
ghost use Rattle.format_lines.specs.Line.{seen};
ghost use Rattle.format_lines.specs.Sessions.{sessions_of, max_sessions};

use crate::line::Line;
use base_types::Memory;
use std::alloc::Global;

/// As many sessions as an input has at most; the setup of a plan doesn't count.
pub const MAX_SESSIONS: usize = 64;

/// Whether two names are one.
fn is_same(name: &str, other: &str) -> bool
    ensures { result ≡ bytes_eq name.now other.now }
{
    name == other
}

/// Whether a name is one of some.
fn any_same(names: &[&str], name: &str) -> bool
    ensures { result ≡ list_any (λ n. bytes_eq name.now n.now) names.now }
{
    names.iter().any(|known| is_same(name, *known))
}

#[tactic(auto, using(crate::proofs::Grows::any_text))]
fn is_among(names: &[&str], name: &str) -> bool
    ensures { result ≡ list_any (bytes_eq name.now) (map (λ n. n.now) names.now) }
{
    any_same(names, name)
}

/// The names of the sessions by first appearance, or none where there are more than 64. It takes at most 64
/// comparisons for each line.
#[tactic(auto, unfolding(crate::specs::Sessions::sessions_of))]
pub fn session_names<'a>(alloc: Global, lines: &[Line<'a>]) -> Result<Option<Vec<&'a str>>, Memory>
    ensures many { IfOk result
        (λ found. IfNone found (max_sessions < length (sessions_of (map seen lines.now)))) }
    ensures names { IfOk result (λ found. IfSome found
        (λ names. map (λ n. n.now) names.items ≡ sessions_of (map seen lines.now))) }
    ensures few { IfOk result (λ found. IfSome found (λ names. length names.items ≤ max_sessions)) }
{
    let mut names = Vec::new(alloc);
    for line in lines {
        if !is_among(&names, line.session) {
            if names.len() == MAX_SESSIONS {
                return Ok(None);
            }
            names.push(line.session)?;
        }
    }
    Ok(Some(names))
}

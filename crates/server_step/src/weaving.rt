//! The text of the entries of all sessions, in the order of the lines.

ghost use Rattle.std.specs.Prelude.{ℕ, ◌≡◌, ◌++◌, ◌<◌, List, length, map, string_bytes, IfOk, OnOk};
ghost use Rattle.format_lines.specs.Line.{seen};
ghost use Rattle.server_result.specs.Joined.{joined, joined_each};
ghost use Rattle.server_step.specs.Numbers.{numbers_of};
ghost use Rattle.server_step.specs.Woven.{first_at, without_first, woven_text};

use crate::number::number_of;
use base_types::{Memory, Text, first_of};
use format_lines::Line;
use server_result::push_texts;
use std::alloc::Global;

/// Appends what is left.
fn push_rest(left: &[&[Text]], out: &mut String) -> Result<(), Memory>
    ensures { OnOk result (string_bytes out.new
        ≡ string_bytes out.old ++ joined_each (map (λ texts. texts.now) left.now)) }
{
    for texts in left {
        push_texts(*texts, out)?;
    }
    Ok(())
}

/// Appends the next text of the session with this number, if it has one.
fn push_next(left: &mut [&[Text]], session: usize, out: &mut String) -> Result<(), Memory>
    ensures out { OnOk result (string_bytes out.new
        ≡ string_bytes out.old ++ joined (first_at session (map (λ texts. texts.now) left.old))) }
    ensures left { OnOk result (map (λ texts. texts.now) left.new
        ≡ without_first session (map (λ texts. texts.now) left.old)) }
{
    if session >= left.len() {
        return Ok(());
    }
    let Some((first, rest)) = first_of(left[session]) else {
        return Ok(());
    };
    out.push_str(first.as_str())?;
    left[session] = rest;
    Ok(())
}

/// For each line the next text of its session, and then what is left of each session.
pub(crate) fn weave(
    alloc: Global,
    sessions: &[&str],
    lines: &[Line<'_>],
    texts: Vec<&[Text]>,
) -> Result<Text, Memory>
    ensures { IfOk result (λ text. text ≡ woven_text
        (numbers_of (map (λ n. n.now) sessions.now) (map seen lines.now))
        (map (λ t. t.now) texts.entry.items)) }
{
    let mut left = texts;
    let mut out = String::new(alloc);
    for line in lines {
        push_next(&mut left, number_of(sessions, line.session), &mut out)?;
    }
    push_rest(&left, &mut out)?;
    Ok(Text::from_string(out))
}

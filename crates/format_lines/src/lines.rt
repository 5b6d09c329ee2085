//! The lines of the input.

ghost use Rattle.std.specs.Prelude.{◌≡◌, ◌∷◌, ◌<◌, ◌≤◌, ℕ, true, length, map, Ok, Err, All, IfOk};
ghost use Rattle.std.specs.List.{after_first, position};
ghost use Rattle.format_lines.specs.Line.{seen, is_session_name};
ghost use Rattle.format_lines.specs.Lines as spec;
ghost use Rattle.format_lines.specs.Lines.{lines_of, read_input};

use crate::line::{InputErr, Line, read_line};
use std::alloc::Global;

/// The place of the first line feed.
fn line_feed(bytes: &[u8]) -> Option<usize>
    ensures { result ≡ position spec.is_line_feed bytes.now }
{
    bytes.iter().position(|b| *b == b'\n')
}

/// A line without the carriage return before its line feed.
fn without_return(line: &[u8]) -> &[u8]
    ensures { result.now ≡ spec.without_return line.now }
{
    match line {
        [front @ .., b'\r'] => front,
        _ => line,
    }
}

/// The first line of some bytes, without its line feed and the carriage return before that, and the bytes
/// behind the line feed; nothing where there is none.
#[tactic(auto, using(crate::proofs::Cuts::line_ended, crate::proofs::Cuts::line_alone, crate::proofs::Cuts::rest_behind, crate::proofs::Cuts::none_behind))]
pub fn first_line(bytes: &[u8]) -> (&[u8], &[u8])
    requires { 0 < length bytes.now }
    ensures line { lines_of bytes.now ≡ result.0.now ∷ lines_of result.1.now }
    ensures rest { result.1.now ≡ after_first spec.is_line_feed bytes.now }
    ensures shorter { length result.1.now < length bytes.now }
{
    match line_feed(bytes) {
        Some(at) => (without_return(&bytes[..at]), &bytes[at + 1..]),
        None => (bytes, &[]),
    }
}

/// The statements of the input by line, without those lines that are empty or a comment. Where a line lacks
/// its form, the first such line is named instead. It takes time linear in the input, and copies nothing of
/// it.
#[tactic(auto, unfolding(crate::specs::Lines::read_input))]
pub fn read_lines<'a>(alloc: Global, bytes: &'a [u8]) -> Result<Vec<Line<'a>>, InputErr>
    ensures read { IfOk result (λ lines. read_input bytes.now ≡ Ok (map seen lines.items)) }
    ensures form { (line : ℕ) → result ≡ Err (InputErr.Form line) → read_input bytes.now ≡ Err line }
    ensures names { IfOk result (λ lines. All (λ l. is_session_name l.session.now ≡ true) lines.items) }
    ensures count { IfOk result (λ lines. length lines.items ≤ length bytes.now) }
{
    let mut lines = Vec::new(alloc);
    let mut rest = bytes;
    let mut number = 0;
    while !rest.is_empty() {
        let (line, behind) = first_line(rest);
        number += 1;
        if let Some(found) = read_line(number, line)? {
            lines.push(found)?;
        }
        rest = behind;
    }
    Ok(lines)
}

//! One line of the input.

ghost use Rattle.std.specs.Prelude.{◌≡◌, ◌-◌, ◌<◌, ℕ, true, length, Ok, Err, IfSome, IfOk, MatchOption, IsUtf8, option_map, option_to_list};
ghost use Rattle.std.specs.List.{list_all, suffix_len, prefix_len, slice_index};
ghost use Rattle.std.specs.Str.{is_utf8};
ghost use Rattle.format_lines.specs.Line as spec;
ghost use Rattle.format_lines.specs.Line.{seen, session_and_text, says, is_session_name};

use base_types::is_session_name;
use std::alloc::AllocFailed;

/// A statement of a session, and the line in which it stands.
#[derive(Clone, Copy, Debug, PartialEq, Eq)]
pub struct Line<'a> {
    /// From 1 on, over all lines of the input.
    pub number: u64,
    pub session: &'a str,
    pub text: &'a str,
}

/// Why the input isn't read.
#[derive(Clone, Copy, Debug, PartialEq, Eq)]
pub enum InputErr {
    /// The first line that lacks its form, from 1 on.
    Form { line: u64 },
    /// There is no more memory.
    Memory,
}

impl<T: Drop> From<AllocFailed<T>> for InputErr {
    ghost use Rattle.std.specs.Prelude.{◌≡◌};
    ghost use Rattle.format_lines.specs.declared.line.InputErr.TheVariants as input_err;

    ghost from_gives = { λ _ e. e ≡ input_err.Memory };

    fn from(_: AllocFailed<T>) -> InputErr {
        InputErr::Memory
    }
}

/// Whether a byte is a blank: space or tab.
pub fn is_blank(b: u8) -> bool
    ensures { result ≡ spec.is_blank b }
{
    b == b' ' || b == b'\t'
}

/// How many blanks stand at the front.
fn blanks_at_front(z: &[u8]) -> usize
    ensures { result ≡ prefix_len spec.is_blank z.now }
{
    z.iter().take_while(|b| is_blank(**b)).count()
}

/// The place behind the last byte that is no blank.
fn end_of_rest(z: &[u8]) -> usize
    ensures value { result ≡ length z.now - suffix_len spec.is_blank z.now }
    ensures blank { result < length z.now → spec.is_blank (slice_index z.now result) ≡ true }
{
    let mut end = z.len();
    while 0 < end && is_blank(z[end - 1]) {
        end -= 1;
    }
    end
}

/// The text without the blanks before it.
#[tactic(auto, using(crate::proofs::Blanks::front_boundary))]
pub fn behind_blanks(text: &str) -> &str
    ensures { result.now ≡ spec.behind_blanks text.now }
{
    &text[blanks_at_front(text.as_bytes())..]
}

/// The text without the blanks after it.
#[tactic(auto, using(crate::proofs::Blanks::blank_boundary))]
pub fn before_blanks(text: &str) -> &str
    ensures { result.now ≡ spec.before_blanks text.now }
{
    &text[..end_of_rest(text.as_bytes())]
}

/// Whether the line is empty or a comment.
pub fn is_skipped(text: &str) -> bool
    ensures { result ≡ spec.is_skipped text.now }
{
    text.is_empty() || text.as_bytes().starts_with(b"--")
}

/// The session and the statement of a line that isn't skipped.
#[tactic(auto, using(crate::proofs::Cuts::nowhere, crate::proofs::Cuts::somewhere))]
fn session_and_text(text: &str) -> Option<(&str, &str)>
    ensures value { option_map (λ p. (p.0.now, p.1.now)) result ≡ session_and_text text.now }
    ensures name { IfSome result (λ p. is_session_name p.0.now ≡ true) }
{
    let (session, rest) = text.split_once(':')?;
    if is_session_name(session.as_bytes()) {
        Some((session, behind_blanks(rest)))
    } else {
        None
    }
}

/// What the line of this number says, and none where it is skipped.
#[tactic(auto, using(crate::proofs::Said::bad_line, crate::proofs::Said::good_line))]
pub(crate) fn read_line<'a>(number: u64, line: &'a [u8]) -> Result<Option<Line<'a>>, InputErr>
    ensures said { IfOk result (λ found. says number line.now ≡ Ok (option_to_list (option_map seen found))) }
    ensures form { (at : ℕ) → result ≡ Err (InputErr.Form at) → says number line.now ≡ Err at }
    ensures name { IfOk result (λ found. IfSome found (λ l. is_session_name l.session.now ≡ true)) }
{
    let Ok(line) = std::str::from_utf8(line) else {
        return Err(InputErr::Form { line: number });
    };
    let text = before_blanks(behind_blanks(line));
    if is_skipped(text) {
        return Ok(None);
    }
    let Some((session, text)) = session_and_text(text) else {
        return Err(InputErr::Form { line: number });
    };
    Ok(Some(Line {
        number,
        session,
        text,
    }))
}

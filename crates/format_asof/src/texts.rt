//! The texts of an input by line.

ghost use Rattle.std.specs.Prelude.{◌≡◌, ◌<◌, ℕ, map, Ok, Err, IfOk, option_map, option_to_list};
ghost use Rattle.format_asof.specs.Texts as spec;

use format_lines::{InputErr, before_blanks, behind_blanks, first_line, is_skipped};
use std::alloc::Global;

/// The text of the line of this number, and none where it is skipped.
#[tactic(auto, using(crate::proofs::Told::bad_line, crate::proofs::Told::good_line))]
fn read_text<'a>(number: u64, line: &'a [u8]) -> Result<Option<&'a str>, InputErr>
    ensures told { IfOk result (λ found.
        spec.tells number line.now ≡ Ok (option_to_list (option_map (λ t. t.now) found))) }
    ensures form { (at : ℕ) → result ≡ Err (InputErr.Form at) → spec.tells number line.now ≡ Err at }
{
    let Ok(line) = std::str::from_utf8(line) else {
        return Err(InputErr::Form { line: number });
    };
    let text = before_blanks(behind_blanks(line));
    if is_skipped(text) {
        return Ok(None);
    }
    Ok(Some(text))
}

/// The texts of an input, one for each line that isn't empty and no comment, without the blanks at its ends. Where a
/// line isn't UTF-8, the first such line is named instead. It takes time linear in the input, and copies nothing of it.
#[tactic(auto, unfolding(crate::specs::Texts::texts_of))]
pub fn read_texts<'a>(alloc: Global, bytes: &'a [u8]) -> Result<Vec<&'a str>, InputErr>
    ensures read { IfOk result (λ texts. spec.texts_of bytes.now ≡ Ok (map (λ t. t.now) texts.items)) }
    ensures form { (line : ℕ) → result ≡ Err (InputErr.Form line) → spec.texts_of bytes.now ≡ Err line }
{
    let mut texts = Vec::new(alloc);
    let mut rest = bytes;
    let mut number = 0;
    while !rest.is_empty() {
        let (line, behind) = first_line(rest);
        number += 1;
        if let Some(text) = read_text(number, line)? {
            texts.push(text)?;
        }
        rest = behind;
    }
    Ok(texts)
}

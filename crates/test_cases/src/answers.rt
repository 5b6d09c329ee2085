//! The answer to a line.

use crate::digests::{issued, read};
use crate::expressions::{classes, evaluated};
use crate::fault::Fault;
use crate::hashes::{hashed, hashed_together, node};
use crate::locks::{asked, compared_modes};
use crate::page::Page;
use crate::paths::{led, path};
use crate::pieces::Pieces;
use crate::records::{changed, cut, record, shown};
use crate::replies::reply;
use crate::selecting::{selected, selected_short};
use crate::statements::{compared_texts, cut_up, form, lines, name, parsed, sessions};
use crate::texts::{first_word, text_of};
use crate::trees::{levels, numbered, restored, tree};
use crate::values::{column, compared, day, literal};
use std::alloc::Global;

/// Puts what a line is answered: an empty line and one that begins with `#` as they are, and a case by its
/// first word. A line with the word `let` names a text.
pub fn answer(
    alloc: Global,
    pieces: &mut Pieces,
    line: &str,
    page: &mut Page,
) -> Result<(), Fault> {
    if line.is_empty() || line.starts_with("#") {
        page.put(line);
        return Ok(());
    }
    let (word, rest) = first_word(line);
    if word == "let" {
        return named(alloc, pieces, rest, page);
    }
    of_case(alloc, pieces, word, rest, page)
}

fn named(alloc: Global, pieces: &mut Pieces, text: &str, page: &mut Page) -> Result<(), Fault> {
    let (name, text) = first_word(text);
    let mut full = Page::new(alloc);
    pieces.put_expanded(alloc, text, &mut full)?;
    full.bytes()?;
    pieces.give_name(alloc, name, full)?;
    page.put(name);
    Ok(())
}

fn of_case(
    alloc: Global,
    pieces: &Pieces,
    word: &str,
    text: &str,
    page: &mut Page,
) -> Result<(), Fault> {
    let mut full = Page::new(alloc);
    pieces.put_expanded(alloc, text, &mut full)?;
    of_bytes(alloc, word, full.bytes()?, page)
}

/// The answer to a case that may be any bytes.
fn of_bytes(alloc: Global, word: &str, bytes: &[u8], page: &mut Page) -> Result<(), Fault> {
    match word {
        "lines" => lines(alloc, bytes, page),
        "sessions" => sessions(alloc, bytes, page),
        "digests" => read(alloc, bytes, page),
        _ => of_text(alloc, word, text_of(bytes)?, page),
    }
}

/// The answer to a case of the dialect.
fn of_text(alloc: Global, word: &str, text: &str, page: &mut Page) -> Result<(), Fault> {
    match word {
        "tokens" => cut_up(alloc, text, page),
        "parse" => parsed(alloc, text, page),
        "form" => form(alloc, text, page),
        "same" => compared_texts(alloc, text, page),
        "name" => name(alloc, text, page),
        "literal" => literal(alloc, text, page),
        "column" => column(alloc, text, page),
        "day" => day(alloc, text, page),
        "compare" => compared(alloc, text, page),
        "eval" => evaluated(alloc, text, page),
        "classes" => classes(alloc, text, page),
        "select" => selected(alloc, text, page),
        "short" => selected_short(alloc, text, page),
        _ => of_record(alloc, word, text, page),
    }
}

/// The answer to a case of the ledger.
fn of_record(alloc: Global, word: &str, text: &str, page: &mut Page) -> Result<(), Fault> {
    match word {
        "entry" | "image" | "journal" | "leaf" => shown(alloc, word, text, page),
        "cut" => cut(alloc, text, page),
        "changed" => changed(alloc, text, page),
        "record" => record(text, page),
        "issue" => issued(alloc, text, page),
        "tree" => tree(alloc, text, page),
        "restored" => restored(alloc, text, page),
        "locks" => asked(alloc, text, page),
        "modes" => compared_modes(text, page),
        "reply" => reply(alloc, text, page),
        _ => of_hashes(alloc, word, text, page),
    }
}

/// The answer to a case of hashes.
fn of_hashes(alloc: Global, word: &str, text: &str, page: &mut Page) -> Result<(), Fault> {
    match word {
        "sha256" => hashed(alloc, text, page),
        "four" => hashed_together(alloc, text, page),
        "node" => node(text, page),
        "levels" => levels(alloc, text, page),
        "numbered" => numbered(alloc, text, page),
        "led" => led(alloc, text, page),
        "path" => path(alloc, text, page),
        _ => Err(Fault::Form("no such word")),
    }
}

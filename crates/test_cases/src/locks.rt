//! Cases of locks. A lock is written as its mode for the whole, and with the literal of the key behind it for
//! a key.

use crate::fault::Fault;
use crate::page::Page;
use crate::texts::{first_word, number};
use crate::values::literal_value;
use base_types::Items;
use std::alloc::Global;
use store_locks::{Item, LockErr, LockList, LockRequest, Mode, conflicts};

/// The mode that a word begins with, and what stands behind it.
fn mode_of(word: &str) -> Result<(Mode, &str), Fault> {
    for (name, mode) in [
        ("IS", Mode::IS),
        ("IX", Mode::IX),
        ("S", Mode::S),
        ("X", Mode::X),
    ] {
        if let Some(rest) = word.strip_prefix(name) {
            return Ok((mode, rest));
        }
    }
    Err(Fault::Form("a mode is wanted"))
}

fn request_of(alloc: Global, word: &str) -> Result<LockRequest, Fault> {
    let (mode, key) = mode_of(word)?;
    if key.is_empty() {
        return Ok(LockRequest {
            item: Item::Whole,
            mode,
        });
    }
    let mut values = Items::new(alloc);
    values.push(literal_value(alloc, key)?)?;
    Ok(LockRequest {
        item: Item::Key(values),
        mode,
    })
}

fn put_requests(alloc: Global, words: &str, requests: &mut Vec<LockRequest>) -> Result<(), Fault> {
    for word in words.split_whitespace() {
        requests.push(request_of(alloc, word)?)?;
    }
    Ok(())
}

fn requests_of(alloc: Global, words: &str) -> Result<Vec<LockRequest>, Fault> {
    let mut requests = Vec::new(alloc);
    put_requests(alloc, words, &mut requests)?;
    Ok(requests)
}

fn item_word(item: &Item) -> &'static str {
    match item {
        Item::Whole => "whole",
        Item::Key(_) => "key",
    }
}

/// Whether the transaction is new here, or who stands against it, in which mode, on the whole or a key.
fn put_answer(answer: &Result<bool, LockErr>, page: &mut Page) -> Result<(), Fault> {
    match answer {
        Ok(first) => page.put(if *first { "new" } else { "known" }),
        Err(LockErr::Memory) => return Err(Fault::Memory),
        Err(LockErr::Locked { holder, item, mode }) => {
            page.put_number(*holder);
            page.put(" ");
            page.put_shown(mode);
            page.put(" ");
            page.put(item_word(item));
        }
    }
    Ok(())
}

fn ask(
    alloc: Global,
    list: &mut LockList,
    tx: u64,
    words: &str,
    page: &mut Page,
) -> Result<(), Fault> {
    let requests = requests_of(alloc, words)?;
    let answer = list.ask(tx, &requests);
    let put = put_answer(&answer, page);
    // `drop` lets each type go by a function of its own, which is proved once
    drop(answer);
    put
}

fn go_back(list: &mut LockList, holds: u64) -> Result<(), Fault> {
    if holds > list.holds() {
        return Err(Fault::Form("fewer locks are held"));
    }
    list.back(holds);
    Ok(())
}

/// What one step is answered: `TX LOCK ..` asks, `release TX` releases, and `back N` leaves the first so
/// many.
fn step(alloc: Global, list: &mut LockList, text: &str, page: &mut Page) -> Result<(), Fault> {
    let (word, rest) = first_word(text);
    match word {
        "release" => list.release(number(rest)?),
        "back" => go_back(list, number(rest)?)?,
        _ => return ask(alloc, list, number(word)?, rest, page),
    }
    page.put(word);
    Ok(())
}

fn steps(alloc: Global, list: &mut LockList, text: &str, page: &mut Page) -> Result<(), Fault> {
    for text in text.split("; ") {
        step(alloc, list, text, page)?;
        page.put(" ");
        page.put_number(list.holds());
        page.put("; ");
    }
    Ok(())
}

/// What each step is answered, and how many locks are held then.
pub fn asked(alloc: Global, text: &str, page: &mut Page) -> Result<(), Fault> {
    let mut list = LockList::new(alloc);
    steps(alloc, &mut list, text, page)
}

/// Whether two modes conflict.
pub fn compared_modes(text: &str, page: &mut Page) -> Result<(), Fault> {
    let (one, other) = first_word(text);
    let ((one, _), (other, _)) = (mode_of(one)?, mode_of(other)?);
    page.put(if conflicts(one, other) {
        "conflict"
    } else {
        "agree"
    });
    Ok(())
}

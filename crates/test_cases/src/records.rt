//! Cases of leaves, entries, records and journals, in hexadecimal digits.

ghost use Rattle.std.specs.Prelude.{IfSome};
ghost use Rattle.format_event.specs.Leaf.{HasLeaf};
ghost use Rattle.format_entry.specs.Entry.{IsEntry};
ghost use Rattle.format_journal.specs.Rules.{IsJournal};

use crate::fault::Fault;
use crate::images::image;
use crate::page::Page;
use crate::texts::{first_word, hash_of, hex_bytes, number};
use base_merkle::Sha256Hash;
use format_entry::{block_hash, read_entry, read_record, record_bytes, write_entry};
use format_event::{read_event, write_event};
use format_journal::{read_journal, write_journal};
use sql_types::{BlockRecord, Event, EventField, Journal, JournalItem, Script, TxEntry};
use std::alloc::Global;

/// Puts transaction, block, place, time and session of an entry, and the tables of its roots.
fn put_entry(e: &TxEntry, page: &mut Page) {
    for number in [e.id, e.block, e.ordinal, e.time] {
        page.put_number(number);
        page.put(" ");
    }
    page.put(e.principal.as_str());
    page.put(":");
    for (table, _) in e.roots.as_slice() {
        page.put(" ");
        page.put_shown(table);
    }
}

fn is_entry_of(alloc: Global, e: &TxEntry, bytes: &[u8]) -> Result<bool, Fault>
    requires { IsEntry e.now }
{
    let mut out = Vec::new(alloc);
    write_entry(e, &mut out)?;
    Ok(out.as_slice() == bytes)
}

fn entry_found(
    alloc: Global,
    found: &Option<TxEntry>,
    bytes: &[u8],
    page: &mut Page,
) -> Result<bool, Fault>
    requires { IfSome found.now (λ e. IsEntry e) }
{
    let Some(e) = found else {
        return Ok(false);
    };
    if !is_entry_of(alloc, e, bytes)? {
        return Err(Fault::Form("the entry isn't written as it is read"));
    }
    put_entry(e, page);
    Ok(true)
}

fn entry(alloc: Global, bytes: &[u8], page: &mut Page) -> Result<bool, Fault> {
    let found = read_entry(alloc, bytes)?;
    let is_one = entry_found(alloc, &found, bytes, page);
    // `drop` lets each type go by a function of its own, which is proved once
    drop(found);
    is_one
}

/// Puts each statement with its reply.
fn put_script(script: &Script, page: &mut Page) {
    for (statement, reply) in script.as_slice() {
        page.put(" [");
        page.put_on_one_line(statement.as_str());
        page.put("|");
        page.put_on_one_line(reply.as_str());
        page.put("]");
    }
}

fn put_item(item: &JournalItem, page: &mut Page) {
    match item {
        JournalItem::Tx {
            id,
            session,
            time,
            explicit,
            script,
        } => {
            page.put_number(*id);
            page.put(" ");
            page.put(session.as_str());
            page.put(" ");
            page.put_number(*time);
            page.put(if *explicit { " begun" } else { "" });
            put_script(script, page);
        }
        JournalItem::Close(count) => {
            page.put("close ");
            page.put_number(*count as u64);
        }
    }
}

/// Puts the database of a journal, and its items.
fn put_journal(j: &Journal, page: &mut Page) {
    page.put(j.database.as_str());
    for item in j.items.as_slice() {
        page.put("; ");
        put_item(item, page);
    }
}

fn is_written_as(alloc: Global, j: &Journal, bytes: &[u8]) -> Result<bool, Fault>
    requires { IsJournal j.now }
{
    let again = write_journal(alloc, j)?;
    Ok(again.as_slice() == bytes)
}

fn journal_found(
    alloc: Global,
    found: &Option<Journal>,
    bytes: &[u8],
    page: &mut Page,
) -> Result<bool, Fault>
    requires { IfSome found.now (λ j. IsJournal j) }
{
    let Some(j) = found else {
        return Ok(false);
    };
    if !is_written_as(alloc, j, bytes)? {
        return Err(Fault::Form("the journal isn't written as it is read"));
    }
    put_journal(j, page);
    Ok(true)
}

fn journal(alloc: Global, bytes: &[u8], page: &mut Page) -> Result<bool, Fault> {
    let found = read_journal(alloc, bytes)?;
    let is_one = journal_found(alloc, &found, bytes, page);
    drop(found);
    is_one
}

/// Puts the ordinal, type and value of a column.
fn put_field(field: &EventField, page: &mut Page) {
    page.put(", ");
    page.put_number(field.ordinal as u64);
    page.put(" ");
    page.put_shown(&field.ty);
    page.put(" ");
    page.put_value(&field.value);
}

/// Puts the table of an event, 1 for a start and 2 for an end, its transaction and number, the start of what it ends,
/// and its columns.
fn put_event(e: &Event, page: &mut Page) {
    let op = if e.ends.is_some() { 2 } else { 1 };
    for number in [e.table as u64, op, e.tx, e.seq] {
        page.put_number(number);
        page.put(" ");
    }
    page.put_shown(&e.ends);
    for field in e.columns.as_slice() {
        put_field(field, page);
    }
}

fn is_leaf_of(alloc: Global, e: &Event, bytes: &[u8]) -> Result<bool, Fault>
    requires { HasLeaf e.now }
{
    let mut out = Vec::new(alloc);
    write_event(e, &mut out)?;
    Ok(out.as_slice() == bytes)
}

fn leaf_found(
    alloc: Global,
    found: &Option<Event>,
    bytes: &[u8],
    page: &mut Page,
) -> Result<bool, Fault>
    requires { IfSome found.now (λ e. HasLeaf e) }
{
    let Some(e) = found else {
        return Ok(false);
    };
    if !is_leaf_of(alloc, e, bytes)? {
        return Err(Fault::Form("the leaf isn't written as it is read"));
    }
    put_event(e, page);
    Ok(true)
}

fn leaf(alloc: Global, bytes: &[u8], page: &mut Page) -> Result<bool, Fault> {
    let found = read_event(alloc, bytes)?;
    let is_one = leaf_found(alloc, &found, bytes, page);
    drop(found);
    is_one
}

/// Whether bytes are an entry, an image, a journal or a leaf, and puts what it says.
fn put_said(alloc: Global, word: &str, bytes: &[u8], page: &mut Page) -> Result<bool, Fault> {
    match word {
        "entry" => entry(alloc, bytes, page),
        "image" => image(alloc, bytes, page),
        "journal" => journal(alloc, bytes, page),
        "leaf" => leaf(alloc, bytes, page),
        _ => Err(Fault::Form("an entry, an image, a journal or a leaf is wanted")),
    }
}

fn put_all(alloc: Global, word: &str, bytes: &[u8], page: &mut Page) -> Result<(), Fault> {
    if !put_said(alloc, word, bytes, page)? {
        page.put("no ");
        page.put(word);
    }
    Ok(())
}

/// What bytes say in digits.
pub fn shown(alloc: Global, word: &str, digits: &str, page: &mut Page) -> Result<(), Fault> {
    put_all(alloc, word, &hex_bytes(alloc, digits)?, page)
}

fn says(alloc: Global, word: &str, bytes: &[u8]) -> Result<bool, Fault> {
    let mut page = Page::new(alloc);
    put_said(alloc, word, bytes, &mut page)
}

/// How many of the bytes say something alone, where fewer than all do.
fn first_saying(alloc: Global, word: &str, bytes: &[u8]) -> Result<Option<usize>, Fault> {
    for len in 0..bytes.len() {
        if says(alloc, word, &bytes[..len])? {
            return Ok(Some(len));
        }
    }
    Ok(None)
}

fn put_first(len: usize, whole: usize, page: &mut Page) {
    page.put("the first ");
    page.put_number(len as u64);
    page.put(" of ");
    page.put_number(whole as u64);
    page.put(" bytes");
}

fn put_whole(whole: usize, longer: bool, page: &mut Page) {
    page.put(if longer { "a byte behind " } else { "" });
    page.put_number(whole as u64);
    page.put(if longer { " bytes" } else { " bytes alone" });
}

/// How many bytes there are, and whether fewer of them or one more say something too.
pub fn cut(alloc: Global, text: &str, page: &mut Page) -> Result<(), Fault> {
    let (word, digits) = first_word(text);
    let mut bytes = hex_bytes(alloc, digits)?;
    let whole = bytes.len();
    if let Some(len) = first_saying(alloc, word, &bytes)? {
        put_first(len, whole, page);
        return Ok(());
    }
    bytes.push(0)?;
    put_whole(whole, says(alloc, word, &bytes)?, page);
    Ok(())
}

fn byte_of(alloc: Global, digits: &str) -> Result<u8, Fault> {
    match hex_bytes(alloc, digits)?.first() {
        Some(byte) => Ok(*byte),
        None => Err(Fault::Form("a place and a byte are wanted")),
    }
}

fn change(bytes: &mut [u8], place: u64, byte: u8) -> Result<(), Fault> {
    match bytes.get_mut(place as usize) {
        Some(at) => *at = byte,
        None => return Err(Fault::Form("a place and a byte are wanted")),
    }
    Ok(())
}

/// A place, a byte in digits, and the word and the digits of a case: what is said where the byte stands at
/// the place.
pub fn changed(alloc: Global, text: &str, page: &mut Page) -> Result<(), Fault> {
    let (place, text) = first_word(text);
    let (byte, text) = first_word(text);
    let (word, digits) = first_word(text);
    let place = number(place)?;
    let byte = byte_of(alloc, byte)?;
    let mut bytes = hex_bytes(alloc, digits)?;
    change(&mut bytes, place, byte)?;
    put_all(alloc, word, &bytes, page)
}

/// The number, root, size and previous hash of a block: the bytes of its record, and its hash.
pub fn record(text: &str, page: &mut Page) -> Result<(), Fault> {
    let (id, text) = first_word(text);
    let (root, text) = first_word(text);
    let (size, previous) = first_word(text);
    let b = BlockRecord {
        id: number(id)?,
        root: hash_of(root)?,
        size: number(size)?,
        previous: hash_of(previous)?,
    };
    let bytes = record_bytes(&b);
    if read_record(&bytes) != b {
        return Err(Fault::Form("the record isn't read as it is written"));
    }
    page.put_digits(&bytes);
    page.put(" ");
    page.put_digits(&block_hash(Sha256Hash, &b));
    Ok(())
}

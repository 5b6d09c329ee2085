//! Reading the bytes of a journal.

ghost use Rattle.std.specs.Prelude.{◌≡◌, Some, IfOk, IfSome};
ghost use Rattle.base_fields.specs.Readers.{times};
ghost use Rattle.base_fields.specs.Reading.{Finds, ReadsAs};
ghost use Rattle.sql_types.specs.declared.journal.Journal.{Journal};
ghost use Rattle.sql_types.specs.Versions as versions;
ghost use Rattle.format_journal.specs.Journal.{journal_bytes};
ghost use Rattle.format_journal.specs.Rules.{IsJournal};
ghost use Rattle.format_journal.specs.JournalReading.{journal_at, version_at, items_at, item_at, item_behind, tx_at, close_at, run_at, opened_at, script_at, statement_at, text_at};

use crate::rules::{closes_follow, ids_differ};
use base_fields::{
    ReadError, database_at, literal, moment_at, session_at, tx_id_at, u8_at, u32_at, u64_at, whole,
    wide_at,
};
use base_types::{Items, Memory, Text};
use sql_types::{Journal, JournalItem, MAX_BLOCK, Script};
use std::alloc::Global;

/// The journal whose bytes these are, all of them, or None exactly where they are those of no journal that
/// keeps the side rules (`docs/FORMATS.md`). The only error is want of memory. Takes time in proportion to
/// the bytes, but for the look-up of each id in an ordered set.
pub fn read_journal(alloc: Global, bytes: &[u8]) -> Result<Option<Journal>, Memory>
    ensures found { IfOk result (λ read. IfSome read (λ j. IsJournal j × (bytes.now ≡ journal_bytes j))) }
    ensures only { (j : Journal) → IsJournal j → bytes.now ≡ journal_bytes j
        → IfOk result (λ read. read ≡ Some j) }
{
    let found = whole(journal_at(alloc, bytes))?;
    Ok(found)
}

#[tactic(auto, unfolding(crate::specs::JournalReading::journal_at))]
fn journal_at(alloc: Global, bytes: &[u8]) -> Result<(Journal, &[u8]), ReadError>
    ensures { ReadsAs (λ x. (x.0, x.1.now)) result (journal_at bytes.now) }
{
    let rest = literal(b"LGJN", bytes)?;
    let (version, rest) = version_at(rest)?;
    let (database, rest) = database_at(alloc, rest)?;
    let (items, rest) = items_at(alloc, rest)?;
    let journal = Journal {
        version,
        database,
        items,
    };
    Ok((journal, rest))
}

// Whether there are journals of the version.
fn is_version(version: u8) -> bool
    ensures { result ≡ versions.is_version version }
{
    matches!(version, 1 | 2)
}

#[tactic(auto, unfolding(crate::specs::JournalReading::version_at))]
fn version_at(bytes: &[u8]) -> Result<(u8, &[u8]), ReadError>
    ensures { Finds (λ x. (x.0, x.1.now)) result (version_at bytes.now) }
{
    let (version, rest) = u8_at(bytes)?;
    if !is_version(version) {
        return Err(ReadError::Malformed);
    }
    Ok((version, rest))
}

#[tactic(auto, unfolding(crate::specs::JournalReading::items_at))]
fn items_at(alloc: Global, bytes: &[u8]) -> Result<(Items<JournalItem>, &[u8]), ReadError>
    ensures { ReadsAs (λ x. (x.0, x.1.now)) result (items_at bytes.now) }
{
    let (count, rest) = u64_at(bytes)?;
    let (items, rest) = some_items(alloc, count, rest)?;
    if !ids_differ(alloc, items.as_slice())? {
        return Err(ReadError::Malformed);
    }
    if !closes_follow(items.as_slice()) {
        return Err(ReadError::Malformed);
    }
    Ok((items, rest))
}

fn some_items(
    alloc: Global,
    count: u64,
    bytes: &[u8],
) -> Result<(Items<JournalItem>, &[u8]), ReadError>
    ensures { ReadsAs (λ x. (x.0, x.1.now)) result (times item_at count bytes.now) }
{
    let mut items = Items::new(alloc);
    let mut rest = bytes;
    for _ in 0..count {
        let (item, after) = item_at(alloc, rest)?;
        items.push(item)?;
        rest = after;
    }
    Ok((items, rest))
}

#[tactic(auto, unfolding(crate::specs::JournalReading::item_at))]
fn item_at(alloc: Global, bytes: &[u8]) -> Result<(JournalItem, &[u8]), ReadError>
    ensures { ReadsAs (λ x. (x.0, x.1.now)) result (item_at bytes.now) }
{
    let (kind, rest) = u8_at(bytes)?;
    item_behind(alloc, kind, rest)
}

#[tactic(auto, unfolding(crate::specs::JournalReading::item_behind))]
fn item_behind(alloc: Global, kind: u8, bytes: &[u8]) -> Result<(JournalItem, &[u8]), ReadError>
    ensures { ReadsAs (λ x. (x.0, x.1.now)) result (item_behind kind bytes.now) }
{
    match kind {
        1 => tx_at(alloc, bytes),
        2 => close_at(bytes),
        _ => Err(ReadError::Malformed),
    }
}

#[tactic(auto, unfolding(crate::specs::JournalReading::tx_at))]
fn tx_at(alloc: Global, bytes: &[u8]) -> Result<(JournalItem, &[u8]), ReadError>
    ensures { ReadsAs (λ x. (x.0, x.1.now)) result (tx_at bytes.now) }
{
    let (id, rest) = tx_id_at(bytes)?;
    let (session, rest) = session_at(alloc, rest)?;
    let (time, rest) = moment_at(rest)?;
    let ((explicit, script), rest) = run_at(alloc, rest)?;
    let item = JournalItem::Tx {
        id,
        session,
        time,
        explicit,
        script,
    };
    Ok((item, rest))
}

#[tactic(auto, unfolding(crate::specs::JournalReading::close_at))]
fn close_at(bytes: &[u8]) -> Result<(JournalItem, &[u8]), ReadError>
    ensures { Finds (λ x. (x.0, x.1.now)) result (close_at bytes.now) }
{
    let (count, rest) = u32_at(bytes)?;
    if count < 1 || count > MAX_BLOCK {
        return Err(ReadError::Malformed);
    }
    Ok((JournalItem::Close(count), rest))
}

// Whether BEGIN opened the transaction, and its statements.
#[tactic(auto, unfolding(crate::specs::JournalReading::run_at))]
fn run_at(alloc: Global, bytes: &[u8]) -> Result<((bool, Script), &[u8]), ReadError>
    ensures { ReadsAs (λ x. (x.0, x.1.now)) result (run_at bytes.now) }
{
    let (explicit, rest) = opened_at(bytes)?;
    let (script, rest) = script_at(alloc, rest)?;
    if !explicit && script.len() != 1 {
        return Err(ReadError::Malformed);
    }
    Ok(((explicit, script), rest))
}

#[tactic(auto, unfolding(crate::specs::JournalReading::opened_at))]
fn opened_at(bytes: &[u8]) -> Result<(bool, &[u8]), ReadError>
    ensures { Finds (λ x. (x.0, x.1.now)) result (opened_at bytes.now) }
{
    let (flag, rest) = u8_at(bytes)?;
    match flag {
        0 => Ok((false, rest)),
        1 => Ok((true, rest)),
        _ => Err(ReadError::Malformed),
    }
}

#[tactic(auto, unfolding(crate::specs::JournalReading::script_at))]
fn script_at(alloc: Global, bytes: &[u8]) -> Result<(Script, &[u8]), ReadError>
    ensures { ReadsAs (λ x. (x.0, x.1.now)) result (script_at bytes.now) }
{
    let (count, rest) = u64_at(bytes)?;
    some_statements(alloc, count, rest)
}

fn some_statements(alloc: Global, count: u64, bytes: &[u8]) -> Result<(Script, &[u8]), ReadError>
    ensures { ReadsAs (λ x. (x.0, x.1.now)) result (times statement_at count bytes.now) }
{
    let mut script = Items::new(alloc);
    let mut rest = bytes;
    for _ in 0..count {
        let (statement, after) = statement_at(alloc, rest)?;
        script.push(statement)?;
        rest = after;
    }
    Ok((script, rest))
}

#[tactic(auto, unfolding(crate::specs::JournalReading::statement_at))]
fn statement_at(alloc: Global, bytes: &[u8]) -> Result<((Text, Text), &[u8]), ReadError>
    ensures { ReadsAs (λ x. (x.0, x.1.now)) result (statement_at bytes.now) }
{
    let (text, rest) = text_at(alloc, bytes)?;
    let (reply, rest) = text_at(alloc, rest)?;
    Ok(((text, reply), rest))
}

#[tactic(auto, unfolding(crate::specs::JournalReading::text_at))]
fn text_at(alloc: Global, bytes: &[u8]) -> Result<(Text, &[u8]), ReadError>
    ensures { ReadsAs (λ x. (x.0, x.1.now)) result (text_at bytes.now) }
{
    let (text, rest) = wide_at(bytes)?;
    match std::str::from_utf8(text) {
        Ok(text) => Ok((Text::of_str(alloc, text)?, rest)),
        Err(_) => Err(ReadError::Malformed),
    }
}

//! Writing the bytes of a journal.

ghost use Rattle.std.specs.Prelude.{All, ◌≡◌, ◌<◌, ◌^◌, ◌++◌, IfOk, OnOk, length, flat_map, if◌then◌else◌};
ghost use Rattle.format_journal.specs.Journal.{statement_bytes, script_bytes, item_bytes, items_bytes, journal_bytes};
ghost use Rattle.format_journal.specs.Rules.{IsItem, IsJournal};

use base_fields::{put_short, put_u8, put_u32, put_u64, put_wide};
use base_types::{Memory, Text};
use sql_types::{Journal, JournalItem};
use std::alloc::Global;

/// The bytes of a journal that keeps the side rules (`docs/FORMATS.md`). The only error is want of memory.
/// Takes time in proportion to the bytes.
#[tactic(auto, unfolding(crate::specs::Journal::journal_bytes))]
pub fn write_journal(alloc: Global, journal: &Journal) -> Result<Vec<u8>, Memory>
    requires { IsJournal journal.now }
    ensures { IfOk result (λ v. v.items ≡ journal_bytes journal.now) }
{
    let mut out = Vec::new(alloc);
    out.extend_from_slice(b"LGJN")?;
    put_u8(&mut out, journal.version)?;
    put_short(&mut out, journal.database.bytes())?;
    put_items(journal.items.as_slice(), &mut out)?;
    Ok(out)
}

// How many items there are, and these.
fn put_items(items: &[JournalItem], out: &mut Vec<u8>) -> Result<(), Memory>
    requires { All IsItem items.now }
    ensures { OnOk result (out.new.items ≡ out.old.items ++ items_bytes items.now) }
{
    put_u64(out, items.len() as u64)?;
    put_each(items, out)
}

fn put_each(items: &[JournalItem], out: &mut Vec<u8>) -> Result<(), Memory>
    requires { All IsItem items.now }
    ensures { OnOk result (out.new.items ≡ out.old.items ++ flat_map item_bytes items.now) }
{
    for item in items {
        put_item(item, out)?;
    }
    Ok(())
}

fn put_item(item: &JournalItem, out: &mut Vec<u8>) -> Result<(), Memory>
    requires { IsItem item.now }
    ensures { OnOk result (out.new.items ≡ out.old.items ++ item_bytes item.now) }
{
    match item {
        JournalItem::Tx {
            id,
            session,
            time,
            explicit,
            script,
        } => {
            put_u8(out, 1)?;
            put_u64(out, *id)?;
            put_short(out, session.bytes())?;
            put_u64(out, *time)?;
            put_u8(out, flag_of(*explicit))?;
            put_script(script.as_slice(), out)
        }
        JournalItem::Close(count) => {
            put_u8(out, 2)?;
            put_u32(out, *count)
        }
    }
}

fn flag_of(explicit: bool) -> u8
    ensures { result ≡ (if explicit then 1 else 0) }
{
    if explicit { 1 } else { 0 }
}

// How many statements there are, and these.
fn put_script(script: &[(Text, Text)], out: &mut Vec<u8>) -> Result<(), Memory>
    ensures { OnOk result (out.new.items ≡ out.old.items ++ script_bytes script.now) }
{
    put_u64(out, script.len() as u64)?;
    put_statements(script, out)
}

fn put_statements(script: &[(Text, Text)], out: &mut Vec<u8>) -> Result<(), Memory>
    ensures { OnOk result (out.new.items ≡ out.old.items ++ flat_map statement_bytes script.now) }
{
    for (text, reply) in script {
        put_wide(out, text.bytes())?;
        put_wide(out, reply.bytes())?;
    }
    Ok(())
}

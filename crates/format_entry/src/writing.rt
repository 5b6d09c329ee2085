//! Writing the bytes of an entry.

ghost use Rattle.std.specs.Prelude.{◌≡◌, ◌<◌, ◌^◌, ◌++◌, take, length, flat_map, OnOk, OnErr};
ghost use Rattle.format_entry.specs.Entry.{IsEntry, entry_bytes, head_bytes, roots_bytes, root_bytes};

use base_fields::{put_hash, put_short, put_u8, put_u32, put_u64};
use base_types::{Hash, Memory, TableId};
use sql_types::TxEntry;

/// Appends the bytes of an entry that has a spelling: its transaction is from 1 to 2^63 - 1, its place in the
/// block is below 2^32, its time is at most `MAX_TICKS`, its principal is the name of a session, and it has 1
/// to 255 roots by strictly rising table. For want of memory the bytes are as they were.
#[tactic(auto, unfolding(crate::specs::Entry::entry_bytes))]
pub fn write_entry(entry: &TxEntry, out: &mut Vec<u8>) -> Result<(), Memory>
    requires { IsEntry entry.now }
    ensures ok { OnOk result (out.new.items ≡ out.old.items ++ entry_bytes entry.now) }
    ensures err { OnErr result (out.new.items ≡ out.old.items) }
{
    let before = out.len();
    let written = put_parts(entry, out);
    if written.is_err() {
        out.truncate(before);
    }
    written
}

fn put_parts(entry: &TxEntry, out: &mut Vec<u8>) -> Result<(), Memory>
    requires { IsEntry entry.now }
    ensures ok { OnOk result
        (out.new.items ≡ out.old.items ++ (head_bytes entry.now ++ roots_bytes entry.now.roots)) }
    ensures grows { take (length out.old.items) out.new.items ≡ out.old.items }
{
    put_head(entry, out)?;
    put_roots(entry.roots.as_slice(), out)
}

fn put_head(entry: &TxEntry, out: &mut Vec<u8>) -> Result<(), Memory>
    requires { IsEntry entry.now }
    ensures ok { OnOk result (out.new.items ≡ out.old.items ++ head_bytes entry.now) }
    ensures grows { take (length out.old.items) out.new.items ≡ out.old.items }
{
    put_u8(out, 1)?;
    put_u64(out, entry.id)?;
    put_u64(out, entry.block)?;
    put_u32(out, entry.ordinal as u32)?;
    put_u64(out, entry.time)?;
    put_short(out, entry.principal.bytes())
}

/// Appends the number of the format, how many roots there are, and these. There are to be at most 255. After
/// want of memory what stood first still does.
pub fn put_roots(roots: &[(TableId, Hash)], out: &mut Vec<u8>) -> Result<(), Memory>
    requires { length roots.now < 256 }
    ensures ok { OnOk result (out.new.items ≡ out.old.items ++ roots_bytes roots.now) }
    ensures grows { take (length out.old.items) out.new.items ≡ out.old.items }
{
    put_u8(out, 1)?;
    put_u8(out, roots.len() as u8)?;
    put_each(roots, out)
}

fn put_each(roots: &[(TableId, Hash)], out: &mut Vec<u8>) -> Result<(), Memory>
    ensures ok { OnOk result (out.new.items ≡ out.old.items ++ flat_map root_bytes roots.now) }
    ensures grows { take (length out.old.items) out.new.items ≡ out.old.items }
{
    for root in roots {
        put_root(root, out)?;
    }
    Ok(())
}

fn put_root(root: &(TableId, Hash), out: &mut Vec<u8>) -> Result<(), Memory>
    ensures ok { OnOk result (out.new.items ≡ out.old.items ++ root_bytes root.now) }
    ensures grows { take (length out.old.items) out.new.items ≡ out.old.items }
{
    put_u32(out, root.0)?;
    put_hash(out, &root.1)
}

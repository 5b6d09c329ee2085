//! The places of entries in blocks.

ghost use Rattle.std.specs.Prelude.{◌≡◌, ◌≤◌, ◌-◌, ◌++◌, length, take, drop};
ghost use Rattle.spec_ledger.specs.Entries.{at_place, placed};

use sql_types::TxEntry;

/// Puts an entry at a place of a block.
pub(crate) fn place_at(entry: &mut TxEntry, block: u64, ordinal: u64)
    ensures { entry.new ≡ at_place block ordinal entry.old }
{
    entry.block = block;
    entry.ordinal = ordinal;
}

/// Puts the entries from this one on and before that one at the places of a block, from its first one on.
pub(crate) fn place_between(entries: &mut Vec<TxEntry>, from: usize, behind: usize, block: u64)
    requires order { from ≤ behind }
    requires within { behind ≤ length entries.old.items }
    ensures { entries.new.items ≡ take from entries.old.items
        ++ (placed block 0 (take (behind - from) (drop from entries.old.items)) ++ drop behind entries.old.items) }
{
    for place in from..behind {
        place_at(&mut entries[place], block, (place - from) as u64);
    }
}

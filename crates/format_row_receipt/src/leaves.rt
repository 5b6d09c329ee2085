//! Leaves behind their lengths.

ghost use Rattle.std.specs.Prelude.{◌≡◌, ◌<◌, ◌^◌, ◌++◌, All, flat_map, length, OnOk};
ghost use Rattle.base_fields.specs.Fields.{long_field};
ghost use Rattle.base_fields.specs.Readers.{times};
ghost use Rattle.base_fields.specs.Readers as bytes_of;
ghost use Rattle.base_fields.specs.Reading.{ReadsAs};
ghost use Rattle.format_row_receipt.specs.RowReceipts.{IsShown, leaves_bytes};
ghost use Rattle.format_row_receipt.specs.RowReading.{leaves_at};

use base_fields::{ReadError, long_at, put_long, put_u64, u64_at};
use base_types::{Blob, Items, Memory};
use std::alloc::Global;

/// One leaf and more, behind their count in 8 bytes.
#[tactic(auto, unfolding(crate::specs::RowReading::leaves_at))]
pub(crate) fn leaves_at(alloc: Global, bytes: &[u8]) -> Result<(Items<Blob>, &[u8]), ReadError>
    ensures { ReadsAs (λ x. (x.0, x.1.now)) result (leaves_at bytes.now) }
{
    let (count, rest) = u64_at(bytes)?;
    let (leaves, rest) = some_leaves(alloc, count, rest)?;
    if leaves.is_empty() {
        return Err(ReadError::Malformed);
    }
    Ok((leaves, rest))
}

fn some_leaves(alloc: Global, count: u64, bytes: &[u8]) -> Result<(Items<Blob>, &[u8]), ReadError>
    ensures { ReadsAs (λ x. (x.0, x.1.now)) result (times bytes_of.long_at count bytes.now) }
{
    let mut leaves = Items::new(alloc);
    let mut rest = bytes;
    for _ in 0..count {
        let (leaf, after) = leaf_at(alloc, rest)?;
        leaves.push(leaf)?;
        rest = after;
    }
    Ok((leaves, rest))
}

/// The leaf behind its length.
pub(crate) fn leaf_at(alloc: Global, bytes: &[u8]) -> Result<(Blob, &[u8]), ReadError>
    ensures { ReadsAs (λ x. (x.0, x.1.now)) result (bytes_of.long_at bytes.now) }
{
    let (own, rest) = long_at(bytes)?;
    Ok((Blob::of(alloc, own)?, rest))
}

/// Adds how many leaves there are, and each of them.
pub(crate) fn put_leaves(leaves: &[Blob], out: &mut Vec<u8>) -> Result<(), Memory>
    requires { All IsShown leaves.now }
    ensures { OnOk result (out.new.items ≡ out.old.items ++ leaves_bytes leaves.now) }
{
    put_u64(out, leaves.len() as u64)?;
    put_each(leaves, out)
}

fn put_each(leaves: &[Blob], out: &mut Vec<u8>) -> Result<(), Memory>
    requires { All IsShown leaves.now }
    ensures { OnOk result (out.new.items ≡ out.old.items ++ flat_map long_field leaves.now) }
{
    for leaf in leaves {
        put_leaf(leaf, out)?;
    }
    Ok(())
}

/// Adds a leaf.
pub(crate) fn put_leaf(leaf: &Blob, out: &mut Vec<u8>) -> Result<(), Memory>
    requires { length leaf.now < 2 ^ 32 }
    ensures { OnOk result (out.new.items ≡ out.old.items ++ long_field leaf.now) }
{
    put_long(out, leaf.bytes())
}

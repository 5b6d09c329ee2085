//! What stands in the files of a line.

ghost use Rattle.std.specs.Prelude.{IfOk};
ghost use Rattle.format_image.specs.ImageBytes.{IsImage};
ghost use Rattle.format_journal.specs.Rules.{IsJournal};

use crate::fault::Fault;
use audit_replay::{ReplayErr, replay};
use base_io::{Vault, VaultErr};
use base_merkle::Hash32;
use base_types::Items;
use format_digest::{DigestErr, read_digests};
use format_journal::read_journal;
use sql_types::{HeldDigest, Image, Journal};
use std::alloc::Global;

/// The most bytes that a file may have.
const LIMIT: usize = 65536;

fn bytes_of<V: Vault>(vault: &mut V, name: &str) -> Result<Vec<u8>, Fault> {
    match vault.get(name, LIMIT) {
        Ok(bytes) => Ok(bytes),
        Err(VaultErr::Memory) => Err(Fault::Memory),
        Err(_) => Err(Fault::Form("a file can't be read")),
    }
}

fn journal_of<V: Vault>(alloc: Global, vault: &mut V, name: &str) -> Result<Journal, Fault>
    ensures { IfOk result IsJournal }
{
    let bytes = bytes_of(vault, name)?;
    match read_journal(alloc, &bytes)? {
        Some(journal) => Ok(journal),
        None => Err(Fault::Form("a file isn't a journal")),
    }
}

/// The image of the journal that stands under a name.
pub fn image_of<H: Hash32, V: Vault>(
    alloc: Global,
    h: H,
    vault: &mut V,
    name: &str,
) -> Result<Image, Fault>
    ensures { IfOk result IsImage }
{
    let journal = journal_of(alloc, vault, name)?;
    let replayed = replay(alloc, h, &journal);
    // `drop` lets each type go by a function of its own, which is proved once
    drop(journal);
    match replayed {
        Ok(image) => Ok(image),
        Err(ReplayErr::Differs { .. }) => Err(Fault::Form("a journal isn't legal")),
        Err(ReplayErr::Memory) => Err(Fault::Memory),
    }
}

/// The digests that stand under a name.
pub fn digests_of<V: Vault>(
    alloc: Global,
    vault: &mut V,
    name: &str,
) -> Result<Items<HeldDigest>, Fault> {
    let bytes = bytes_of(vault, name)?;
    match read_digests(alloc, &bytes) {
        Ok(held) => Ok(held),
        Err(DigestErr::Memory) => Err(Fault::Memory),
        Err(_) => Err(Fault::Form("a file has no digests")),
    }
}

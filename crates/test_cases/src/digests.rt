//! Cases of digest files.

use crate::fault::Fault;
use crate::page::Page;
use crate::texts::{first_word, hash_of, number};
use base_types::{Hash, MAX_TICKS, Name};
use format_digest::{Digest, DigestErr, HeldDigest, read_digests, write_digests};
use std::alloc::Global;

fn put_digest(digest: &HeldDigest, page: &mut Page) {
    page.put("; ");
    page.put(digest.database.as_str());
    page.put(" ");
    page.put_number(digest.block);
    page.put(" ");
    page.put_digits(&digest.hash);
}

fn put_digests(held: &[HeldDigest], page: &mut Page) {
    page.put_number(held.len() as u64);
    page.put(" digests");
    for digest in held {
        put_digest(digest, page);
    }
}

/// The digests that a file holds: database, number of the block and its hash; or why it holds none.
pub fn read(alloc: Global, bytes: &[u8], page: &mut Page) -> Result<(), Fault> {
    match read_digests(alloc, bytes) {
        Ok(held) => put_digests(held.as_slice(), page),
        Err(DigestErr::Unreadable) => page.put("no JSON value"),
        Err(DigestErr::Memory) => return Err(Fault::Memory),
        Err(DigestErr::Bad { index }) => {
            page.put("item ");
            page.put_number(index as u64);
            page.put(" is no digest");
        }
    }
    Ok(())
}

fn put_file(
    alloc: Global,
    database: &str,
    block: u64,
    hash: Hash,
    times: (u64, u64),
    page: &mut Page,
) -> Result<(), Fault> {
    let (last_commit, made) = times;
    if last_commit > MAX_TICKS || made > MAX_TICKS {
        return Err(Fault::Form("a time is too great"));
    }
    let digest = Digest {
        database: Name::of_str(alloc, database)?,
        block,
        hash,
        last_commit,
        made,
    };
    page.put_bytes(&write_digests(alloc, &[digest])?);
    Ok(())
}

/// The digest file of one digest: database, number of the block, its hash, the time of its last entry and
/// when it was made.
pub fn issued(alloc: Global, text: &str, page: &mut Page) -> Result<(), Fault> {
    let (database, text) = first_word(text);
    let (block, text) = first_word(text);
    let (hash, text) = first_word(text);
    let (last_commit, made) = first_word(text);
    let times = (number(last_commit)?, number(made)?);
    put_file(alloc, database, number(block)?, hash_of(hash)?, times, page)
}

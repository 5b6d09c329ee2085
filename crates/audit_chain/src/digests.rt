//! Which digests a chain joins.

ghost use Rattle.std.specs.Prelude.{◌≡◌, ◌&&◌, bytes_eq, drop, None};
ghost use Rattle.std.specs.Bool.{Decides};
ghost use Rattle.audit_chain.specs.Continues.{IsLeastUnjoined, LeadsOn, first_block};
ghost use Rattle.audit_chain.specs.Continues.{is_joined, is_of_first, least_unjoined, lesser};

use audit_receipt::leads_to;
use base_merkle::Hash32;
use base_types::first_of;
use format_chain::Chain;
use format_entry::block_hash;
use sql_types::{BlockRecord, HeldDigest};

/// Whether a chain's records are in order, and lead from its first block to the newest digest. It takes no memory, and
/// the time of hashing each record once.
pub fn leads_on<H: Hash32>(h: H, chain: &Chain, newest: &HeldDigest) -> bool
    ensures { Decides result (LeadsOn (H.digest h) chain.now newest.now) }
{
    let records = chain.records.as_slice();
    let from = first_block(records);
    let own = is_equal(chain.database.bytes(), newest.database.bytes());
    let led = leads_to(h, from, records, newest);
    are_both(own, led)
}

fn are_both(a: bool, b: bool) -> bool
    ensures { result ≡ (a && b) }
{
    a && b
}

fn is_equal(a: &[u8], b: &[u8]) -> bool
    ensures { result ≡ bytes_eq a.now b.now }
{
    a == b
}

/// The block of the first of some records.
pub fn first_block(records: &[BlockRecord]) -> u64
    ensures { result ≡ first_block records.now }
{
    match first_of(records) {
        Some((first, _)) => first.id,
        None => 0,
    }
}

/// The least block of the digests that a chain doesn't join, or None where it joins each. It takes no memory, and the
/// time of hashing the record of each digest's block.
pub fn least_unjoined_of<H: Hash32>(h: H, chain: &Chain, digests: &[HeldDigest]) -> Option<u64>
    ensures { IsLeastUnjoined (H.digest h) chain.now digests.now result }
{
    let records = chain.records.as_slice();
    let from = first_block(records);
    least_unjoined(h, chain.database.bytes(), from, records, digests)
}

fn least_unjoined<H: Hash32>(
    h: H,
    database: &[u8],
    from: u64,
    records: &[BlockRecord],
    digests: &[HeldDigest],
) -> Option<u64>
    ensures { result ≡ least_unjoined (H.digest h) database.now from records.now None digests.now }
{
    let mut least = None;
    for digest in digests {
        if !is_joined(h, database, from, records, digest) {
            least = Some(lesser(least, digest.block));
        }
    }
    least
}

/// The lesser of two blocks, of which the first may be absent.
fn lesser(least: Option<u64>, block: u64) -> u64
    ensures { result ≡ lesser least block }
{
    match least {
        Some(least) => { if block < least { block } else { least } }
        None => block,
    }
}

// Whether the digest is of one of the blocks from one on, and is that of the block's record.
fn is_joined<H: Hash32>(
    h: H,
    database: &[u8],
    from: u64,
    records: &[BlockRecord],
    digest: &HeldDigest,
) -> bool
    ensures { result ≡ is_joined (H.digest h) database.now from records.now digest.now }
{
    if digest.block < from {
        return false;
    }
    is_of_first(h, database, digest, after(records, digest.block - from))
}

// The records after so many, or none.
fn after(records: &[BlockRecord], count: u64) -> &[BlockRecord]
    ensures { result.now ≡ drop count records.now }
{
    if count < records.len() as u64 {
        records.split_at(count as usize).1
    } else {
        records.split_at(records.len()).1
    }
}

fn is_of_first<H: Hash32>(
    h: H,
    database: &[u8],
    digest: &HeldDigest,
    records: &[BlockRecord],
) -> bool
    ensures { result ≡ is_of_first (H.digest h) database.now digest.now records.now }
{
    match first_of(records) {
        Some((first, _)) => {
            is_equal(digest.database.bytes(), database)
                && is_equal(&block_hash(h, first), &digest.hash)
        }
        None => false,
    }
}

//! Whether a chain joins two digests.

ghost use Rattle.std.specs.Prelude.{◌≡◌, ◌&&◌, bytes_eq};
ghost use Rattle.std.specs.Bool.{Decides};
ghost use Rattle.spec_ledger.specs.Blocks.{first_or_no_hash};
ghost use Rattle.audit_chain.specs.Joins.{Joins};

use audit_receipt::leads_to;
use base_merkle::Hash32;
use base_types::{Hash, first_of};
use format_chain::Chain;
use format_entry::block_hash;
use sql_types::{BlockRecord, HeldDigest};

/// Whether a chain joins two digests. It takes no memory.
pub fn check_chain<H: Hash32>(h: H, chain: &Chain, older: &HeldDigest, newer: &HeldDigest) -> bool
    ensures { Decides result (Joins (H.digest h) chain.now older.now newer.now) }
{
    let records = chain.records.as_slice();
    let of_older = is_equal(chain.database.bytes(), older.database.bytes());
    let of_newer = is_equal(chain.database.bytes(), newer.database.bytes());
    let led = leads_to(h, older.block, records, newer);
    let begins = is_equal(&first_hash(h, records), &older.hash);
    are_all(of_older, of_newer, led, begins)
}

fn are_all(a: bool, b: bool, c: bool, d: bool) -> bool
    ensures { result ≡ ((a && b) && (c && d)) }
{
    (a && b) && (c && d)
}

fn is_equal(a: &[u8], b: &[u8]) -> bool
    ensures { result ≡ bytes_eq a.now b.now }
{
    a == b
}

fn first_hash<H: Hash32>(h: H, records: &[BlockRecord]) -> Hash
    ensures { result ≡ first_or_no_hash (H.digest h) records.now }
{
    match first_of(records) {
        Some((first, _)) => block_hash(h, first),
        None => [0; 32],
    }
}

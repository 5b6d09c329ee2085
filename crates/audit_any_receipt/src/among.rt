//! What is answered of a receipt or a chain, with the digests that somebody holds.

ghost use Rattle.std.specs.Prelude.{◌≡◌, Some, IfOk};
ghost use Rattle.std.specs.Option.{option_copied};
ghost use Rattle.audit_any_receipt.specs.Among.{IsAnswer, answer_of, first_of_block, last_block};
ghost use Rattle.audit_any_receipt.specs.Kinds.{IsAny, records_of};
ghost use Rattle.audit_any_receipt.specs.declared.any.AnyReceipt.TheVariants as kinds;

use crate::any::{AnyReceipt, records_of};
use audit_chain::{Chain, first_block, leads_on, least_unjoined_of};
use audit_receipt::check_receipt;
use audit_row_receipt::{check_row_receipt, check_table_receipt};
use base_merkle::Hash32;
use base_types::Memory;
use sql_types::{BlockRecord, HeldDigest};
use std::alloc::Global;

/// What is answered of a receipt or a chain, with the digests that somebody holds: the first of these that holds.
#[derive(Clone, Copy, Debug, PartialEq, Eq)]
pub enum Answer {
    /// The receipt is accepted with the first digest of its last record's block.
    Yes,
    /// The chain is accepted: its records are in order, and it joins all digests, of which one is of its last block.
    /// These are the blocks of its first and its last record.
    Joined { from: u64, to: u64 },
    /// The chain's records are in order, and it joins the first digest of its last block, but it doesn't join some
    /// other: this is the least block of those.
    NoJoin { block: u64 },
    /// There is no digest of the last record's block, which is this one.
    NoDigest { block: u64 },
    /// The receipt or the chain isn't accepted.
    NoReceipt,
}

/// The block of the last of these records.
pub fn last_block(records: &[BlockRecord]) -> u64
    ensures { result ≡ last_block records.now }
{
    let mut block = 0;
    for record in records {
        block = record.id;
    }
    block
}

/// The first digest of a block.
fn first_of_block(block: u64, digests: &[HeldDigest]) -> Option<&HeldDigest>
    ensures { option_copied result ≡ first_of_block block digests.now }
{
    for digest in digests {
        if digest.block == block {
            return Some(digest);
        }
    }
    None
}

/// Whether a receipt that is no chain is accepted.
fn answer_of(so: bool) -> Answer
    ensures { result ≡ answer_of so }
{
    if so { Answer::Yes } else { Answer::NoReceipt }
}

/// What is answered of a chain with the first digest of its last block.
fn answer_of_chain<H: Hash32>(
    h: H,
    chain: &Chain,
    newest: &HeldDigest,
    held: &[HeldDigest],
) -> Answer
    requires { first_of_block (last_block chain.now.records) held.now ≡ Some newest.now }
    ensures { IsAnswer (H.digest h) (kinds.Chain chain.now) held.now result }
{
    if !leads_on(h, chain, newest) {
        return Answer::NoReceipt;
    }
    let records = chain.records.as_slice();
    match least_unjoined_of(h, chain, held) {
        Some(block) => Answer::NoJoin { block },
        None => Answer::Joined {
            from: first_block(records),
            to: last_block(records),
        },
    }
}

/// What is answered with the first digest of the last block.
fn answer_with<H: Hash32>(
    alloc: Global,
    h: H,
    r: &AnyReceipt,
    digest: &HeldDigest,
    held: &[HeldDigest],
) -> Result<Answer, Memory>
    requires form { IsAny r.now }
    requires first { first_of_block (last_block (records_of r.now)) held.now ≡ Some digest.now }
    ensures { IfOk result (IsAnswer (H.digest h) r.now held.now) }
{
    match r {
        AnyReceipt::Entry(receipt) => {
            let so = check_receipt(alloc, h, receipt, digest)?;
            Ok(answer_of(so))
        }
        AnyReceipt::Table(receipt) => {
            let so = check_table_receipt(alloc, h, receipt, digest)?;
            Ok(answer_of(so))
        }
        AnyReceipt::Event(receipt) => {
            let so = check_row_receipt(alloc, h, receipt, digest)?;
            Ok(answer_of(so))
        }
        AnyReceipt::Chain(chain) => Ok(answer_of_chain(h, chain, digest, held)),
    }
}

/// What is answered of a receipt or a chain with these digests. Takes the time of hashing its records once, its path,
/// its leaves, and of a chain the records of the digests' blocks once more.
pub fn check_any<H: Hash32>(
    alloc: Global,
    h: H,
    r: &AnyReceipt,
    held: &[HeldDigest],
) -> Result<Answer, Memory>
    requires { IsAny r.now }
    ensures { IfOk result (IsAnswer (H.digest h) r.now held.now) }
{
    let block = last_block(records_of(r));
    match first_of_block(block, held) {
        Some(digest) => answer_with(alloc, h, r, digest, held),
        None => Ok(Answer::NoDigest { block }),
    }
}

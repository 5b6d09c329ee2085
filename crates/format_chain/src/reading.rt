//! Reading the bytes of a chain.

ghost use Rattle.std.specs.Prelude.{◌≡◌, Some, IfOk, IfSome};
ghost use Rattle.base_fields.specs.Reading.{ReadsAs};
ghost use Rattle.format_chain.specs.declared.chain.Chain.{Chain};
ghost use Rattle.format_chain.specs.Chains.{IsChain, chain_bytes};
ghost use Rattle.format_chain.specs.ChainReading.{chain_at};

use crate::chain::Chain;
use base_fields::{ReadError, database_at, literal, whole};
use base_types::Memory;
use format_receipt::records_at;
use std::alloc::Global;

/// The chain whose bytes these are, all of them, or None exactly where they are those of none.
pub fn read_chain(alloc: Global, bytes: &[u8]) -> Result<Option<Chain>, Memory>
    ensures found { IfOk result (λ read. IfSome read (λ c. IsChain c × (bytes.now ≡ chain_bytes c))) }
    ensures only { (c : Chain) → IsChain c → bytes.now ≡ chain_bytes c
        → IfOk result (λ read. read ≡ Some c) }
{
    let found = whole(chain_at(alloc, bytes))?;
    Ok(found)
}

#[tactic(auto, unfolding(crate::specs::ChainReading::chain_at))]
fn chain_at(alloc: Global, bytes: &[u8]) -> Result<(Chain, &[u8]), ReadError>
    ensures { ReadsAs (λ x. (x.0, x.1.now)) result (chain_at bytes.now) }
{
    let rest = literal(b"LGCC", bytes)?;
    let rest = literal(&[1], rest)?;
    let (database, rest) = database_at(alloc, rest)?;
    let (records, rest) = records_at(alloc, rest)?;
    Ok((Chain { database, records }, rest))
}

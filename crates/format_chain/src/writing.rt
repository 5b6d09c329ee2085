//! Writing the bytes of a chain.

ghost use Rattle.std.specs.Prelude.{◌≡◌, IfOk};
ghost use Rattle.format_chain.specs.Chains.{IsChain, chain_bytes};

use crate::chain::Chain;
use base_fields::{put_short, put_u8};
use base_types::Memory;
use format_receipt::put_records;
use std::alloc::Global;

/// The bytes of a chain that has a spelling.
#[tactic(auto, unfolding(crate::specs::Chains::chain_bytes))]
pub fn write_chain(alloc: Global, chain: &Chain) -> Result<Vec<u8>, Memory>
    requires { IsChain chain.now }
    ensures { IfOk result (λ v. v.items ≡ chain_bytes chain.now) }
{
    let mut out = Vec::new(alloc);
    out.extend_from_slice(b"LGCC")?;
    put_u8(&mut out, 1)?;
    put_short(&mut out, chain.database.bytes())?;
    put_records(chain.records.as_slice(), &mut out)?;
    Ok(out)
}

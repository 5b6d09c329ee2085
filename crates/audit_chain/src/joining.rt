//! The chain that an image gives.

ghost use Rattle.std.specs.Prelude.{◌≡◌, ◌≤◌, ◌<◌, length, IfOk};
ghost use Rattle.format_image.specs.ImageBytes.{IsImage};
ghost use Rattle.format_chain.specs.Chains.{IsChain};
ghost use Rattle.audit_chain.specs.Joins.{chain_of};

use audit_receipt::records_from;
use base_types::Memory;
use format_chain::Chain;
use sql_types::Image;
use std::alloc::Global;

/// The chain of an image's records from one block to another.
pub fn join(alloc: Global, image: &Image, from: u64, block: u64) -> Result<Chain, Memory>
    requires image { IsImage image.now }
    requires within { from ≤ block }
    requires block { block < length image.now.blocks }
    ensures made { IfOk result (λ c. c ≡ chain_of image.now from block) }
    ensures spelled { IfOk result (λ c. IsChain c) }
{
    let records = records_from(alloc, image, from, block)?;
    let database = image.database.copy()?;
    Ok(Chain { database, records })
}

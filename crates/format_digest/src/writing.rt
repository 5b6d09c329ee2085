//! Writing digest files.

ghost use Rattle.std.specs.Prelude.{◌≡◌, Ok, IfOk, map, length, codes, ◌++◌, string_bytes};
ghost use Rattle.std.specs.List.{AllByRecursion};
ghost use Rattle.hex.specs.Hex.{IsBytes, encode_upper};
ghost use Rattle.serde_json.specs.View.{view};
ghost use Rattle.format_digest.specs.Reading.{IsRead};
ghost use Rattle.format_digest.specs.Writing as spec;

use crate::Digest;
use crate::moment::moment_text;
use base_types::{Hash, Memory};
use serde_json::{Value, json};
use std::alloc::{AllocError, Global};

/// The file of some digests: a compact JSON array, its keys in alphabetical order, the digits of hashes in
/// upper case, the times in ISO 8601 with seven decimals and no zone. What is read of it is the database,
/// block and hash of each. Both times of each digest are at most `MAX_TICKS`.
pub fn write_digests(alloc: Global, list: &[Digest]) -> Result<Vec<u8>, Memory>
    requires { AllByRecursion spec.HasMoments list.now }
    ensures text { IfOk result (λ b. spec.IsFile list.now b.items) }
    ensures reads_back { IfOk result (λ b. IsRead b.items (Ok (map spec.held_form list.now))) }
{
    let values = Value::Array(values_of(alloc, list)?);
    let bytes = values.to_vec(alloc)?;
    Ok(bytes)
}

fn values_of(alloc: Global, list: &[Digest]) -> Result<Vec<Value>, Memory>
    requires { AllByRecursion spec.HasMoments list.now }
    ensures { IfOk result (λ values. spec.AreValues list.now values.items) }
{
    let mut values = Vec::with_capacity(alloc, list.len())?;
    for digest in list {
        values.push(value_of(alloc, digest)?)?;
    }
    Ok(values)
}

fn value_of(alloc: Global, digest: &Digest) -> Result<Value, Memory>
    requires { spec.HasMoments digest.now }
    ensures { IfOk result (λ value. spec.IsValue digest.now value) }
{
    let hash = hash_text(alloc, digest.hash)?;
    let made = moment_text(digest.made);
    let last_commit = moment_text(digest.last_commit);
    let value = members(
        alloc,
        digest,
        hash.as_str(),
        made.as_str(),
        last_commit.as_str(),
    )?;
    Ok(value)
}

#[tactic(auto, unfolding(crate::specs::Writing::digest_data))]
fn members(
    alloc: Global,
    digest: &Digest,
    hash: &str,
    made: &str,
    last_commit: &str,
) -> Result<Value, AllocError>
    ensures { IfOk result (λ v. view v
        ≡ spec.digest_data digest.now.block digest.now.database made.now hash.now last_commit.now) }
{
    json!(in alloc; {
        "block_id": digest.block,
        "database_name": digest.database.as_str(),
        "digest_time": made,
        "hash": hash,
        "last_transaction_commit_time": last_commit
    })
}

fn hash_text(alloc: Global, hash: Hash) -> Result<String, Memory>
    ensures fits { IfOk result (λ s. (length hash ≡ 32) × IsBytes hash) }
    ensures text { IfOk result (λ s. string_bytes s ≡ codes "0x" ++ encode_upper hash) }
{
    let digits = hex::encode_upper(alloc, hash)?;
    Ok(format!(in alloc; "0x{digits}")?)
}

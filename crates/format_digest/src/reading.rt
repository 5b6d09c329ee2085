//! Reading digest files.

ghost use Rattle.std.specs.Prelude.{◌≡◌, [], IfOk};
ghost use Rattle.serde_json.specs.View.{view, items_view};
ghost use Rattle.format_digest.specs.Reading as spec;

use crate::{DigestErr, HeldDigest};
use base_types::{Hash, Items, Memory, Name};
use hex::FromHex;
use serde_json::Value;
use std::alloc::Global;

/// The digests that a file holds: an array of them, or one alone. A digest is an object with a string
/// `database_name`, a `block_id` in digits alone and below 2^64, and a `hash` of `0x` and 64 hexadecimal
/// digits; other keys may have any value, and of a repeated key the last counts. `Unreadable` exactly where
/// the bytes aren't one JSON value, whose arrays and objects nest to 127 at most; `Bad` exactly at the first
/// item that is no digest, and at 0 where the value is neither an array nor an object.
pub fn read_digests(alloc: Global, bytes: &[u8]) -> Result<Items<HeldDigest>, DigestErr>
    ensures { spec.IsRead bytes.now result }
{
    let value = match Value::from_slice(alloc, bytes) {
        Ok(value) => value,
        Err(error) => {
            if error.is_memory() {
                return Err(DigestErr::Memory);
            }
            return Err(DigestErr::Unreadable);
        }
    };
    digests_in(alloc, &value)
}

#[tactic(auto, unfolding(crate::specs::Reading::digests_in))]
fn digests_in(alloc: Global, value: &Value) -> Result<Items<HeldDigest>, DigestErr>
    ensures { spec.IsEach (spec.digests_in (view value.now)) result }
{
    if let Some(values) = value.as_array() {
        return each_held(alloc, values.as_slice());
    }
    if value.is_object() {
        return each_held(alloc, std::slice::from_ref(value));
    }
    Err(DigestErr::Bad { index: 0 })
}

fn each_held(alloc: Global, values: &[Value]) -> Result<Items<HeldDigest>, DigestErr>
    ensures { spec.IsEach (spec.each_held 0 [] (items_view values.now)) result }
{
    let mut list = Items::new(alloc);
    for (index, value) in values.iter().enumerate() {
        match held_of(alloc, value)? {
            Some(held) => list.push(held)?,
            None => return Err(DigestErr::Bad {
                index: index as u64,
            }),
        }
    }
    Ok(list)
}

#[tactic(auto, unfolding(crate::specs::Reading::held_of))]
fn held_of(alloc: Global, value: &Value) -> Result<Option<HeldDigest>, Memory>
    ensures { IfOk result (λ held. held ≡ spec.held_of (view value.now)) }
{
    let Some(database) = value.get("database_name").and_then(Value::as_str) else {
        return Ok(None);
    };
    let Some(block) = value.get("block_id").and_then(Value::as_u64) else {
        return Ok(None);
    };
    let Some(hash) = value.get("hash").and_then(Value::as_str).and_then(hash_of) else {
        return Ok(None);
    };
    Ok(Some(HeldDigest {
        database: Name::of_str(alloc, database)?,
        block,
        hash,
    }))
}

#[tactic(auto, unfolding(crate::specs::Reading::hash_of))]
fn hash_of(text: &str) -> Option<Hash>
    ensures { result ≡ spec.hash_of text.now }
{
    let digits = text.strip_prefix("0x")?;
    <Hash as FromHex>::from_hex(digits).ok()
}

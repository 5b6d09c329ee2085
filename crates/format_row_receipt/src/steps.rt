//! The steps from a leaf up to a root.

ghost use Rattle.std.specs.Prelude.{◌≡◌, ◌<◌, ◌++◌, flat_map, length, OnOk};
ghost use Rattle.base_fields.specs.Readers.{times};
ghost use Rattle.base_fields.specs.Reading.{Finds, ReadsAs};
ghost use Rattle.format_row_receipt.specs.RowReceipts.{side_number, step_bytes, steps_bytes};
ghost use Rattle.format_row_receipt.specs.RowReading.{side_at, step_at, steps_at};

use audit_paths::Side;
use base_fields::{ReadError, hash_at, put_hash, put_u8, u8_at};
use base_types::{Hash, Items, Memory};
use std::alloc::Global;

/// At most 63 steps, behind their count in a byte.
#[tactic(auto, unfolding(crate::specs::RowReading::steps_at))]
pub(crate) fn steps_at(
    alloc: Global,
    bytes: &[u8],
) -> Result<(Items<(Side, Hash)>, &[u8]), ReadError>
    ensures { ReadsAs (λ x. (x.0, x.1.now)) result (steps_at bytes.now) }
{
    let (count, rest) = u8_at(bytes)?;
    let (steps, rest) = some_steps(alloc, count, rest)?;
    if steps.len() > 63 {
        return Err(ReadError::Malformed);
    }
    Ok((steps, rest))
}

fn some_steps(
    alloc: Global,
    count: u8,
    bytes: &[u8],
) -> Result<(Items<(Side, Hash)>, &[u8]), ReadError>
    ensures { ReadsAs (λ x. (x.0, x.1.now)) result (times step_at count bytes.now) }
{
    let mut steps = Items::new(alloc);
    let mut rest = bytes;
    for _ in 0..count {
        let (step, after) = step_at(rest)?;
        steps.push(step)?;
        rest = after;
    }
    Ok((steps, rest))
}

#[tactic(auto, unfolding(crate::specs::RowReading::step_at))]
fn step_at(bytes: &[u8]) -> Result<((Side, Hash), &[u8]), ReadError>
    ensures { Finds (λ x. (x.0, x.1.now)) result (step_at bytes.now) }
{
    let (side, rest) = side_at(bytes)?;
    let (hash, rest) = hash_at(rest)?;
    Ok(((side, hash), rest))
}

#[tactic(auto, unfolding(crate::specs::RowReading::side_at))]
fn side_at(bytes: &[u8]) -> Result<(Side, &[u8]), ReadError>
    ensures { Finds (λ x. (x.0, x.1.now)) result (side_at bytes.now) }
{
    let (number, rest) = u8_at(bytes)?;
    match number {
        0 => Ok((Side::Right, rest)),
        1 => Ok((Side::Left, rest)),
        _ => Err(ReadError::Malformed),
    }
}

/// Adds how many steps there are, and each of them.
pub(crate) fn put_steps(steps: &[(Side, Hash)], out: &mut Vec<u8>) -> Result<(), Memory>
    requires { length steps.now < 256 }
    ensures { OnOk result (out.new.items ≡ out.old.items ++ steps_bytes steps.now) }
{
    put_u8(out, steps.len() as u8)?;
    put_each(steps, out)
}

fn put_each(steps: &[(Side, Hash)], out: &mut Vec<u8>) -> Result<(), Memory>
    ensures { OnOk result (out.new.items ≡ out.old.items ++ flat_map step_bytes steps.now) }
{
    for step in steps {
        put_step(step, out)?;
    }
    Ok(())
}

fn put_step(step: &(Side, Hash), out: &mut Vec<u8>) -> Result<(), Memory>
    ensures { OnOk result (out.new.items ≡ out.old.items ++ step_bytes step.now) }
{
    put_u8(out, side_number(step.0))?;
    put_hash(out, &step.1)?;
    Ok(())
}

fn side_number(side: Side) -> u8
    ensures { result ≡ side_number side }
{
    match side {
        Side::Right => 0,
        Side::Left => 1,
    }
}

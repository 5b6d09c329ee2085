//! Two receipts of one place.

ghost use Rattle.std.specs.Prelude.{◌≡◌, IfOk};
ghost use Rattle.format_image.specs.ImageBytes.{IsImage};
ghost use Rattle.format_receipt.specs.Receipts.{IsReceipt};
ghost use Rattle.spec_verify.specs.declared.place.Verdict.TheVariants.{Yes};
ghost use Rattle.spec_verify.specs.Verdict.{image_verdict};

use crate::comparing::{collision_text, refusal};
use crate::fault::Fault;
use audit_any_receipt::{AnyReceipt, Wanted, make_any};
use audit_extract::last_of;
use audit_receipt::{Receipt, Settled, check_receipt, settle};
use base_merkle::Hash32;
use sql_types::{HeldDigest, Image};
use std::alloc::{AllocError, Global};

/// The receipt that an accepted image gives of a transaction.
fn receipt_of<H: Hash32>(
    alloc: Global,
    h: H,
    image: &Image,
    digests: &[HeldDigest],
    tx: u64,
) -> Result<Receipt, Fault>
    requires image { IsImage image.now }
    requires accepted { image_verdict (H.digest h) image.now digests.now ≡ Yes }
    ensures { IfOk result IsReceipt }
{
    match make_any(alloc, h, image, digests, Wanted::Entry(tx)) {
        Ok(AnyReceipt::Entry(receipt)) => Ok(receipt),
        Ok(other) => {
            // `drop` lets each type go by a function of its own, which is proved once
            drop(other);
            Err(Fault::Form("no such entry"))
        }
        Err(_) => Err(Fault::Form("no such entry")),
    }
}

fn text_of(alloc: Global, settled: &Settled) -> Result<String, AllocError> {
    match settled {
        Settled::Same => String::from_str(alloc, "Same"),
        Settled::Collision(collision) => collision_text(alloc, collision),
    }
}

/// What two receipts come to, where both are accepted with a digest and of one place.
fn settled_under<H: Hash32>(
    alloc: Global,
    h: H,
    a: &Receipt,
    b: &Receipt,
    digest: &HeldDigest,
) -> Result<String, Fault>
    requires first { IsReceipt a.now }
    requires second { IsReceipt b.now }
{
    if !check_receipt(alloc, h, a, digest)? || !check_receipt(alloc, h, b, digest)? {
        return Err(Fault::Form("a receipt isn't accepted"));
    }
    if a.entry.block != b.entry.block || a.entry.ordinal != b.entry.ordinal {
        return Err(Fault::Form("the receipts are of two places"));
    }
    let found = settle(alloc, h, a, b, digest)?;
    let text = text_of(alloc, &found);
    drop(found);
    Ok(text?)
}

/// What a receipt comes to with that which an accepted image gives of a transaction.
fn settled_beside<H: Hash32>(
    alloc: Global,
    h: H,
    a: &Receipt,
    suspect: &Image,
    digests: &[HeldDigest],
    tx: u64,
) -> Result<String, Fault>
    requires first { IsReceipt a.now }
    requires suspect { IsImage suspect.now }
    requires accepted { image_verdict (H.digest h) suspect.now digests.now ≡ Yes }
{
    let b = receipt_of(alloc, h, suspect, digests, tx)?;
    let text = match last_of(digests) {
        Some(digest) => settled_under(alloc, h, a, &b, digest),
        None => Err(Fault::Form("no digest")),
    };
    drop(b);
    text
}

/// What the receipts come to that two images give of a transaction, where both images are accepted.
pub fn settled<H: Hash32>(
    alloc: Global,
    h: H,
    honest: &Image,
    suspect: &Image,
    digests: &[HeldDigest],
    tx: u64,
) -> Result<String, Fault>
    requires honest { IsImage honest.now }
    requires suspect { IsImage suspect.now }
{
    if let Some(verdict) = refusal(alloc, h, honest, digests)? {
        return Ok(format!(in alloc; "honest: {verdict}")?);
    }
    if let Some(verdict) = refusal(alloc, h, suspect, digests)? {
        return Ok(format!(in alloc; "suspect: {verdict}")?);
    }
    let a = receipt_of(alloc, h, honest, digests, tx)?;
    let text = settled_beside(alloc, h, &a, suspect, digests, tx);
    drop(a);
    text
}

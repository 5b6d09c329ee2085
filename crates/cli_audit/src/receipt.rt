//! The receipt of a transaction or of digests, of an image that is accepted with digests.

ghost use Rattle.std.specs.Prelude.{⊤, ◌≡◌, ◌⊎◌, ◌∷◌, [], string_bytes, IfOk, IfErr};
ghost use Rattle.base_io.specs.Count.{Rises};
ghost use Rattle.base_io.specs.History.{Since};
ghost use Rattle.format_image.specs.ImageBytes.{IsImage};
ghost use Rattle.audit_any_receipt.specs.Kinds.{IsAny};
ghost use Rattle.audit_any_receipt.specs.Wanted.{IsReceiptUnder};
ghost use Rattle.spec_verify.specs.Verdict.{image_verdict};
ghost use Rattle.cli_audit.specs.Answer.{EndsBy, HasPut, HasWritten, Unfailed};
ghost use Rattle.cli_audit.specs.Calls.{AreGets, AreGetsAndPuts, ArePuts, AreWrites, Gave};
ghost use Rattle.cli_audit.specs.Receipt.{LacksUnder, IsShownOn, LacksShown, IsShown, LacksReceipt};
ghost use Rattle.cli_audit.specs.Receipt.{ending_of, entry_text, chain_text, joined_text};
ghost use Rattle.cli_audit.specs.Receipt.{ReceiptCause, receipt_file, receipt_text, Receipted, EndsRefusing, SaysNo};
ghost use Rattle.cli_audit.specs.Receipt.{ReceiptedOrIdle, PutsReceipt};

use crate::files::{File, file_of, put_and_write};
use crate::transfer::write_all;
use crate::verify::{read_evidence, read_held};
use crate::{Status, verify};
use audit_answers::accepted;
use audit_any_receipt::{
    AnyReceipt, ReceiptErr, Wanted, first_block, last_block, make_any, write_any,
};
use base_io::{Failed, Sink, Vault};
use base_merkle::Hash32;
use base_types::{Blob, Items, Memory};
use spec_verify::Verdict;
use sql_types::{BlockRecord, HeldDigest, Image, TxEntry};
use std::alloc::{AllocError, Global};

/// What is shown of an image.
#[derive(Drop)]
pub(crate) enum Shown {
    /// The image isn't accepted, and this is the verdict on it.
    Refused(Verdict),
    /// It is, and this is the receipt that is wanted.
    Made(AnyReceipt),
}

/// The receipt that an accepted image gives under the digest of the greatest block.
fn receipt_under<H: Hash32>(
    alloc: Global,
    h: H,
    image: Image,
    held: &[HeldDigest],
    wanted: Wanted,
) -> Result<AnyReceipt, Status>
    requires image { IsImage image }
    requires accepted { image_verdict (H.digest h) image held.now ≡ Verdict.Yes }
    ensures made { IfOk result (IsReceiptUnder (H.digest h) image held.now wanted) }
    ensures lacks { IfErr result (λ status. LacksUnder status image held.now wanted) }
{
    let made = make_any(alloc, h, &image, held, wanted);
    // `drop` lets each type go by a function of its own, which is proved once
    drop(image);
    match made {
        Ok(receipt) => Ok(receipt),
        Err(ReceiptErr::NoEntry) => Err(Status::NoEntry),
        Err(ReceiptErr::Memory) => Err(Status::Memory),
    }
}

/// What is shown by these bytes of an image, with the digests of this file.
fn show<H: Hash32>(
    alloc: Global,
    h: H,
    bytes: &[u8],
    digests: &[u8],
    wanted: Wanted,
) -> Result<Shown, Status>
    ensures shown { IfOk result (IsShownOn (H.digest h) wanted bytes.now digests.now) }
    ensures lacks { IfErr result (λ status. LacksShown status (H.digest h) wanted bytes.now digests.now) }
{
    let held = read_held(alloc, digests)?;
    match accepted(alloc, h, bytes, held.as_slice()) {
        Ok(Ok(image)) => {
            let receipt = receipt_under(alloc, h, image, held.as_slice(), wanted)?;
            Ok(Shown::Made(receipt))
        }
        Ok(Err(verdict)) => Ok(Shown::Refused(verdict)),
        Err(Memory) => Err(Status::Memory),
    }
}

/// What is shown by what stands under the two names.
fn show_names<H: Hash32, V: Vault>(
    alloc: Global,
    h: H,
    image: &str,
    digests: &str,
    wanted: Wanted,
    vault: &mut V,
) -> Result<Shown, Status>
    ensures shown { IfOk result (IsShown (H.digest h) image.now digests.now wanted (V.names vault.old)) }
    ensures lacks { IfErr result
        (λ status. LacksReceipt status (H.digest h) image.now digests.now wanted (V.names vault.old)
        (Rises (V.faults vault.old) (V.faults vault.new))) }
    ensures same { V.names vault.new ≡ V.names vault.old }
    ensures gave { IfOk result (λ shown. Since (V.history vault.old) (V.history vault.new) (Gave 2)) }
    ensures gets { IfErr result
        (λ status. Since (V.history vault.old) (V.history vault.new) (AreGets 2 status)) }
    ensures calm { IfOk result (λ shown. V.faults vault.new ≡ V.faults vault.old) }
    ensures unfailed { IfErr result
        (λ status. Unfailed status ⊤ (V.faults vault.new ≡ V.faults vault.old) ⊤) }
{
    let evidence = read_evidence(vault, image, digests)?;
    show(alloc, h, &evidence.image, &evidence.digests, wanted)
}

/// The line of an entry: its block, and its place there.
fn entry_text(alloc: Global, entry: &TxEntry) -> Result<String, AllocError>
    ensures { IfOk result (λ text. string_bytes text ≡ entry_text entry.now) }
{
    let block = entry.block;
    let ordinal = entry.ordinal;
    format!(in alloc; "receipt {block} {ordinal}\n")
}

/// The line of a chain from one block to another.
fn joined_text(alloc: Global, from: u64, to: u64) -> Result<String, AllocError>
    ensures { IfOk result (λ text. string_bytes text ≡ joined_text from to) }
{
    format!(in alloc; "joined {from} {to}\n")
}

/// The line of a chain: its first block and its last one.
fn chain_text(alloc: Global, records: &[BlockRecord]) -> Result<String, AllocError>
    ensures { IfOk result (λ text. string_bytes text ≡ chain_text records.now) }
{
    joined_text(alloc, first_block(records), last_block(records))
}

/// The line of a receipt.
fn text_of(alloc: Global, receipt: &AnyReceipt) -> Result<String, AllocError>
    ensures { IfOk result (λ text. string_bytes text ≡ receipt_text receipt.now) }
{
    match receipt {
        AnyReceipt::Entry(receipt) => entry_text(alloc, &receipt.entry),
        AnyReceipt::Table(receipt) => entry_text(alloc, &receipt.receipt.entry),
        AnyReceipt::Event(receipt) => entry_text(alloc, &receipt.receipt.entry),
        AnyReceipt::Chain(chain) => chain_text(alloc, chain.records.as_slice()),
    }
}

/// The ending of the name that a receipt is put under.
fn ending_of(receipt: &AnyReceipt) -> &'static str
    ensures { result.now ≡ ending_of receipt.now }
{
    match receipt {
        AnyReceipt::Entry(_) | AnyReceipt::Table(_) | AnyReceipt::Event(_) => ".receipt",
        AnyReceipt::Chain(_) => ".chain",
    }
}

/// The file of a receipt.
fn files_of(alloc: Global, save: &str, receipt: &AnyReceipt) -> Result<Items<File>, Memory>
    requires { IsAny receipt.now }
    ensures { IfOk result (λ files. files ≡ receipt_file save.now receipt.now ∷ []) }
{
    let bytes = Blob::from_vec(write_any(alloc, receipt)?);
    let mut files = Items::new(alloc);
    files.push(file_of(alloc, save, ending_of(receipt), bytes)?)?;
    Ok(files)
}

/// Puts a receipt, and then writes its line.
fn save_receipt<K: Sink, V: Vault>(
    alloc: Global,
    save: &str,
    receipt: &AnyReceipt,
    sink: &mut K,
    vault: &mut V,
) -> Status
    requires { IsAny receipt.now }
    ensures cause { EndsBy result (Rises (V.faults vault.old) (V.faults vault.new))
        (Rises (K.faults sink.old) (K.faults sink.new) ⊎ Rises (K.stalls sink.old) (K.stalls sink.new)) }
    ensures put { HasPut result (receipt_file save.now receipt.now ∷ []) (V.names vault.old) (V.names vault.new) }
    ensures written { HasWritten result (receipt_text receipt.now) (K.taken sink.old) (K.taken sink.new) }
    ensures puts { Since (V.history vault.old) (V.history vault.new) (ArePuts result) }
    ensures writes { Since (K.history sink.old) (K.history sink.new) (AreWrites result) }
    ensures unfailed { Unfailed result ⊤ (V.faults vault.new ≡ V.faults vault.old)
        ((K.faults sink.new ≡ K.faults sink.old) × (K.stalls sink.new ≡ K.stalls sink.old)) }
    ensures unwritten { (result ≡ Status.Done → ⊥) → (result ≡ Status.SinkFault → ⊥) → sink.new ≡ sink.old }
{
    let Ok(text) = text_of(alloc, receipt) else {
        return Status::Memory;
    };
    let Ok(files) = files_of(alloc, save, receipt) else {
        return Status::Memory;
    };
    put_and_write(vault, sink, files.as_slice(), text.as_bytes())
}

/// Says a verdict that isn't Yes.
pub(crate) fn refuse<K: Sink>(alloc: Global, verdict: &Verdict, sink: &mut K) -> Status
    requires { verdict.now ≡ Verdict.Yes → ⊥ }
    ensures ends { EndsRefusing result verdict.now
        (Rises (K.faults sink.old) (K.faults sink.new) ⊎ Rises (K.stalls sink.old) (K.stalls sink.new))
        (K.taken sink.old) (K.taken sink.new) (sink.new ≡ sink.old) }
    ensures writes { Since (K.history sink.old) (K.history sink.new) (AreWrites result) }
    ensures unfailed { Unfailed result ⊤ ⊤
        ((K.faults sink.new ≡ K.faults sink.old) × (K.stalls sink.new ≡ K.stalls sink.old)) }
{
    let Ok(text) = verify::text_of(alloc, verdict) else {
        return Status::Memory;
    };
    match write_all(sink, text.as_bytes()) {
        Ok(()) => Status::No,
        Err(Failed) => Status::SinkFault,
    }
}

/// Puts the receipt that is wanted under the digest of the greatest block, and writes where its entry stands, or from
/// which block to which it joins; of an image that isn't accepted, says the verdict.
pub fn make_receipt<H: Hash32, K: Sink, V: Vault>(
    alloc: Global,
    h: H,
    image: &str,
    digests: &str,
    wanted: Wanted,
    save: &str,
    sink: &mut K,
    vault: &mut V,
) -> Status
    ensures cause { ReceiptCause result (H.digest h) image.now digests.now wanted (V.names vault.old)
        (Rises (V.faults vault.old) (V.faults vault.new))
        (Rises (K.faults sink.old) (K.faults sink.new) ⊎ Rises (K.stalls sink.old) (K.stalls sink.new)) }
    ensures receipted { ReceiptedOrIdle result
        (Receipted result (H.digest h) image.now digests.now wanted save.now
        (V.names vault.old) (V.names vault.new) (K.taken sink.old) (K.taken sink.new))
        (SaysNo result (H.digest h) image.now digests.now
        (V.names vault.old) (V.names vault.new) (K.taken sink.old) (K.taken sink.new))
        ((V.names vault.new ≡ V.names vault.old) × (sink.new ≡ sink.old)) }
    ensures shown { result ≡ Status.Done
        → PutsReceipt (H.digest h) image.now digests.now wanted save.now (V.names vault.old) (V.names vault.new) }
    ensures calls { Since (V.history vault.old) (V.history vault.new) (AreGetsAndPuts 2 result) }
    ensures writes { Since (K.history sink.old) (K.history sink.new) (AreWrites result) }
    ensures unfailed { Unfailed result ⊤ (V.faults vault.new ≡ V.faults vault.old)
        ((K.faults sink.new ≡ K.faults sink.old) × (K.stalls sink.new ≡ K.stalls sink.old)) }
    ensures unwritten { (result ≡ Status.Done → ⊥) → (result ≡ Status.No → ⊥)
        → (result ≡ Status.SinkFault → ⊥) → sink.new ≡ sink.old }
{
    match show_names(alloc, h, image, digests, wanted, vault) {
        Ok(Shown::Made(receipt)) => {
            let ended = save_receipt(alloc, save, &receipt, sink, vault);
            drop(receipt);
            ended
        }
        Ok(Shown::Refused(verdict)) => refuse(alloc, &verdict, sink),
        Err(status) => status,
    }
}

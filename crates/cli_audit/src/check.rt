//! What is answered of a receipt or a chain, with the digests that an auditor holds.

ghost use Rattle.std.specs.Prelude.{⊤, ◌≡◌, ◌⊎◌, string_bytes, IfOk, IfErr, IfSome};
ghost use Rattle.base_io.specs.Count.{Rises};
ghost use Rattle.base_io.specs.History.{Since};
ghost use Rattle.audit_any_receipt.specs.Among.{is_yes};
ghost use Rattle.audit_any_receipt.specs.Kinds.{IsAny, Spells};
ghost use Rattle.cli_audit.specs.Answer.{Unfailed};
ghost use Rattle.cli_audit.specs.Calls.{AreGets, AreWrites, Gave};
ghost use Rattle.cli_audit.specs.Check.{receipt_limit, IsSoWith, IsCheckedOn, LacksCheck, IsChecked, LacksAnswer};
ghost use Rattle.cli_audit.specs.Check.{answer_text, CheckCause, Checks, ShowsClaim, LacksReceiptForm};
ghost use Rattle.cli_audit.specs.Evidence.{AreUnder, LacksEither};
ghost use Rattle.cli_audit.specs.Verify.{AreRefused, SaidOrIdle};

use crate::Status;
use crate::names::{DIGESTS_LIMIT, read_name};
use crate::transfer::write_all;
use crate::verify::read_held;
use audit_any_receipt::{
    Answer, AnyReceipt, accepted_receipts_are_never_contradicted, check_any, read_any,
};
use base_io::{Failed, Sink, Vault};
use base_merkle::Hash32;
use base_types::Memory;
use std::alloc::{AllocError, Global};

/// The most bytes that a receipt may have: 16 MiB.
const RECEIPT_LIMIT: usize = 16777216;

/// What stands under the two names.
#[derive(Drop)]
struct Claim {
    receipt: Vec<u8>,
    digests: Vec<u8>,
}

/// Reads what stands under the two names, the receipt's first.
fn read_claim<V: Vault>(vault: &mut V, receipt: &str, digests: &str) -> Result<Claim, Status>
    ensures are { IfOk result (λ read. IfSome (V.names vault.old)
        (λ names. AreUnder receipt_limit receipt.now digests.now names read.receipt.items read.digests.items)) }
    ensures lacks { IfErr result
        (λ status. LacksEither status receipt_limit receipt.now digests.now (V.names vault.old)) }
    ensures same { V.names vault.new ≡ V.names vault.old }
    ensures gave { IfOk result (λ read. Since (V.history vault.old) (V.history vault.new) (Gave 2)) }
    ensures gets { IfErr result
        (λ status. Since (V.history vault.old) (V.history vault.new) (AreGets 2 status)) }
    ensures calm { IfOk result (λ read. V.faults vault.new ≡ V.faults vault.old) }
    ensures unfailed { IfErr result
        (λ status. Unfailed status ⊤ (V.faults vault.new ≡ V.faults vault.old) ⊤) }
    ensures cause { IfErr result
        (λ status. status ≡ Status.VaultFault → Rises (V.faults vault.old) (V.faults vault.new)) }
{
    let receipt = read_name(vault, receipt, 1, RECEIPT_LIMIT)?;
    let digests = read_name(vault, digests, 2, DIGESTS_LIMIT)?;
    Ok(Claim { receipt, digests })
}

/// The receipt whose bytes these are.
fn receipt_of(alloc: Global, bytes: &[u8]) -> Result<AnyReceipt, Status>
    ensures spelled { IfOk result (Spells bytes.now) }
    ensures refused { IfErr result (λ status. LacksReceiptForm status bytes.now) }
{
    match read_any(alloc, bytes) {
        Ok(Some(receipt)) => Ok(receipt),
        Ok(None) => Err(Status::Receipt),
        Err(Memory) => Err(Status::Memory),
    }
}

/// What is answered of a receipt with the digests of this file.
fn judge_receipt<H: Hash32>(
    alloc: Global,
    h: H,
    receipt: &AnyReceipt,
    digests: &[u8],
) -> Result<Answer, Status>
    requires { IsAny receipt.now }
    ensures checked { IfOk result (IsSoWith (H.digest h) receipt.now digests.now) }
    ensures refused { IfErr result (λ status. AreRefused status digests.now) }
{
    let held = read_held(alloc, digests)?;
    match check_any(alloc, h, receipt, held.as_slice()) {
        Ok(answer) => Ok(answer),
        Err(Memory) => Err(Status::Memory),
    }
}

/// What is answered of the receipt whose bytes these are, with the digests of this file.
fn judge<H: Hash32>(alloc: Global, h: H, bytes: &[u8], digests: &[u8]) -> Result<Answer, Status>
    ensures checked { IfOk result (IsCheckedOn (H.digest h) bytes.now digests.now) }
    ensures lacks { IfErr result (λ status. LacksCheck status bytes.now digests.now) }
{
    let receipt = receipt_of(alloc, bytes)?;
    let answer = judge_receipt(alloc, h, &receipt, digests);
    // `drop` lets each type go by a function of its own, which is proved once
    drop(receipt);
    answer
}

/// What is answered of the receipt under a name, with the digests under the other.
fn judge_names<H: Hash32, V: Vault>(
    alloc: Global,
    h: H,
    receipt: &str,
    digests: &str,
    vault: &mut V,
) -> Result<Answer, Status>
    ensures checked { IfOk result (IsChecked (H.digest h) receipt.now digests.now (V.names vault.old)) }
    ensures lacks { IfErr result (λ status. LacksAnswer status receipt.now digests.now (V.names vault.old)
        (Rises (V.faults vault.old) (V.faults vault.new))) }
    ensures same { V.names vault.new ≡ V.names vault.old }
    ensures gave { IfOk result (λ so. Since (V.history vault.old) (V.history vault.new) (Gave 2)) }
    ensures gets { IfErr result
        (λ status. Since (V.history vault.old) (V.history vault.new) (AreGets 2 status)) }
    ensures calm { IfOk result (λ so. V.faults vault.new ≡ V.faults vault.old) }
    ensures unfailed { IfErr result
        (λ status. Unfailed status ⊤ (V.faults vault.new ≡ V.faults vault.old) ⊤) }
{
    let claim = read_claim(vault, receipt, digests)?;
    judge(alloc, h, &claim.receipt, &claim.digests)
}

/// The line of a chain that joins all digests.
fn joined_text(alloc: Global, from: u64, to: u64) -> Result<String, AllocError>
    ensures { IfOk result (λ text. string_bytes text ≡ answer_text (Answer.Joined from to)) }
{
    format!(in alloc; "Yes {from} {to}\n")
}

/// The line that is written of an answer.
fn text_of(alloc: Global, answer: Answer) -> Result<String, AllocError>
    ensures { IfOk result (λ text. string_bytes text ≡ answer_text answer) }
{
    match answer {
        Answer::Yes => format!(in alloc; "Yes\n"),
        Answer::Joined { from, to } => joined_text(alloc, from, to),
        Answer::NoJoin { block } => format!(in alloc; "No join of block {block}\n"),
        Answer::NoDigest { block } => format!(in alloc; "No digest of block {block}\n"),
        Answer::NoReceipt => format!(in alloc; "No receipt\n"),
    }
}

/// Whether an answer says that the receipt or chain is accepted.
fn is_yes(answer: Answer) -> bool
    ensures { result ≡ is_yes answer }
{
    match answer {
        Answer::Yes => true,
        Answer::Joined { .. } => true,
        Answer::NoJoin { .. } => false,
        Answer::NoDigest { .. } => false,
        Answer::NoReceipt => false,
    }
}

/// Says what is answered of the receipt or chain under a name with the digests under another.
pub fn check_receipt<H: Hash32, K: Sink, V: Vault>(
    alloc: Global,
    h: H,
    receipt: &str,
    digests: &str,
    sink: &mut K,
    vault: &mut V,
) -> Status
    ensures cause { CheckCause result (H.digest h) receipt.now digests.now (V.names vault.old)
        (Rises (V.faults vault.old) (V.faults vault.new))
        (Rises (K.faults sink.old) (K.faults sink.new) ⊎ Rises (K.stalls sink.old) (K.stalls sink.new)) }
    ensures checked { SaidOrIdle result
        (Checks result (H.digest h) receipt.now digests.now
        (V.names vault.old) (K.taken sink.old) (K.taken sink.new)) (sink.new ≡ sink.old) }
    ensures shows { result ≡ Status.Done → ShowsClaim (H.digest h) receipt.now digests.now (V.names vault.old) }
    ensures same { V.names vault.new ≡ V.names vault.old }
    ensures gets { Since (V.history vault.old) (V.history vault.new) (AreGets 2 result) }
    ensures writes { Since (K.history sink.old) (K.history sink.new) (AreWrites result) }
    ensures unfailed { Unfailed result ⊤ (V.faults vault.new ≡ V.faults vault.old)
        ((K.faults sink.new ≡ K.faults sink.old) × (K.stalls sink.new ≡ K.stalls sink.old)) }
{
    accepted_receipts_are_never_contradicted();
    let answer = match judge_names(alloc, h, receipt, digests, vault) {
        Ok(answer) => answer,
        Err(status) => return status,
    };
    let Ok(text) = text_of(alloc, answer) else {
        return Status::Memory;
    };
    if let Err(Failed) = write_all(sink, text.as_bytes()) {
        return Status::SinkFault;
    }
    if is_yes(answer) {
        Status::Done
    } else {
        Status::No
    }
}

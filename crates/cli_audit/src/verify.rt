//! The verdict on an image, with the digests that an auditor holds.

ghost use Rattle.std.specs.Prelude.{⊤, ◌≡◌, ◌⊎◌, ◌∷◌, ◌++◌, [], string_bytes, Ok, IfOk, IfErr, IfSome};
ghost use Rattle.std.specs.Option.{option_copied};
ghost use Rattle.base_io.specs.Count.{Rises};
ghost use Rattle.base_io.specs.History.{Since};
ghost use Rattle.spec_verify.specs.declared.place.Verdict.TheVariants.{Yes};
ghost use Rattle.format_digest.specs.Reading.{IsRead};
ghost use Rattle.cli_audit.specs.Answer.{Unfailed};
ghost use Rattle.cli_audit.specs.Calls.{AreGets, Gave, AreWrites};
ghost use Rattle.audit_answers.specs.Covers.{coverage_text};
ghost use Rattle.cli_audit.specs.Calls.{name_count};
ghost use Rattle.cli_audit.specs.Verified.{IsJudgedOn, IsVerified, LacksJudgement, LacksVerified};
ghost use Rattle.cli_audit.specs.Verified.{SaysVerdict, VerifyCause, judgement_note, judgement_text};
ghost use Rattle.cli_audit.specs.Verify.{IsEvidence, LacksEvidence, AreRefused, SaidOrIdle, verdict_text};

use crate::Status;
use crate::ended::Ended;
use crate::names::{DIGESTS_LIMIT, IMAGE_LIMIT, read_name};
use crate::subject::{Subject, file_in, held_in, lacks_digest, read_subject};
use crate::transfer::write_all;
use audit_answers::{Coverage, Judgement, coverage_text};
use base_io::{Failed, Sink, Vault};
use base_merkle::Hash32;
use base_types::{Items, Memory};
use format_digest::{DigestErr, read_digests};
use spec_verify::Verdict;
use sql_types::HeldDigest;
use std::alloc::{AllocError, Global};
use std::thread::Threads;

/// What stands under the two names.
#[derive(Drop)]
pub(crate) struct Evidence {
    pub image: Vec<u8>,
    pub digests: Vec<u8>,
}

/// Reads what stands under the two names, the image's first.
pub(crate) fn read_evidence<V: Vault>(
    vault: &mut V,
    image: &str,
    digests: &str,
) -> Result<Evidence, Status>
    ensures are { IfOk result (λ read. IfSome (V.names vault.old)
        (λ names. IsEvidence image.now digests.now names read.image.items read.digests.items)) }
    ensures lacks { IfErr result (λ status. LacksEvidence status image.now digests.now (V.names vault.old)) }
    ensures same { V.names vault.new ≡ V.names vault.old }
    ensures gave { IfOk result (λ read. Since (V.history vault.old) (V.history vault.new) (Gave 2)) }
    ensures gets { IfErr result
        (λ status. Since (V.history vault.old) (V.history vault.new) (AreGets 2 status)) }
    ensures calm { IfOk result (λ read. V.faults vault.new ≡ V.faults vault.old) }
    ensures unfailed { IfErr result
        (λ status. Unfailed status ⊤ (V.faults vault.new ≡ V.faults vault.old) ⊤) }
    ensures cause { IfErr result
        (λ status. status ≡ Status.VaultFault → Rises (V.faults vault.old) (V.faults vault.new)) }
{
    let image = read_name(vault, image, 1, IMAGE_LIMIT)?;
    let digests = read_name(vault, digests, 2, DIGESTS_LIMIT)?;
    Ok(Evidence { image, digests })
}

/// The digests of a file.
pub(crate) fn read_held(alloc: Global, file: &[u8]) -> Result<Items<HeldDigest>, Status>
    ensures held { IfOk result (λ held. IsRead file.now (Ok held)) }
    ensures refused { IfErr result (λ status. AreRefused status file.now) }
{
    match read_digests(alloc, file) {
        Ok(held) => Ok(held),
        Err(DigestErr::Unreadable) => Err(Status::Digests { index: None }),
        Err(DigestErr::Bad { index }) => Err(Status::Digests { index: Some(index) }),
        Err(DigestErr::Memory) => Err(Status::Memory),
    }
}

/// What is judged of these bytes, with the digests of the file, if there is one.
fn judge<H: Hash32, R: Threads + Sync>(
    rt: &R,
    alloc: Global,
    h: H,
    image: Vec<u8>,
    file: Option<&[u8]>,
    workers: u32,
) -> Result<Judgement, Status>
    ensures judged { IfOk result (IsJudgedOn (H.digest h) image.items (option_copied file.entry)) }
    ensures lacks { IfErr result (λ status. LacksJudgement status (option_copied file.entry)) }
{
    let held = held_in(alloc, file)?;
    match audit_answers::judge(rt, alloc, h, image, held.as_slice(), workers) {
        Ok(judgement) => Ok(judgement),
        Err(Memory) => Err(Status::Memory),
    }
}

/// What is judged of what stands under the names.
fn judge_names<H: Hash32, V: Vault, R: Threads + Sync>(
    rt: &R,
    alloc: Global,
    h: H,
    image: &str,
    digests: Option<&str>,
    workers: u32,
    vault: &mut V,
) -> Result<Judgement, Status>
    ensures judged { IfOk result
        (IsVerified (H.digest h) image.now (option_copied digests.entry) (V.names vault.old)) }
    ensures lacks { IfErr result
        (λ status. LacksVerified status image.now (option_copied digests.entry) (V.names vault.old)
        (Rises (V.faults vault.old) (V.faults vault.new))) }
    ensures same { V.names vault.new ≡ V.names vault.old }
    ensures gave { IfOk result (λ judgement. Since (V.history vault.old) (V.history vault.new)
        (Gave (name_count (option_copied digests.entry)))) }
    ensures gets { IfErr result (λ status. Since (V.history vault.old) (V.history vault.new)
        (AreGets (name_count (option_copied digests.entry)) status)) }
    ensures calm { IfOk result (λ judgement. V.faults vault.new ≡ V.faults vault.old) }
    ensures unfailed { IfErr result
        (λ status. Unfailed status ⊤ (V.faults vault.new ≡ V.faults vault.old) ⊤) }
{
    let Subject { image, digests } = read_subject(vault, image, digests)?;
    judge(rt, alloc, h, image, file_in(&digests), workers)
}

/// The line that is written of a verdict.
pub(crate) fn text_of(alloc: Global, verdict: &Verdict) -> Result<String, AllocError>
    ensures { IfOk result (λ text. string_bytes text ≡ verdict_text verdict.now) }
{
    format!(in alloc; "{verdict}\n")
}

/// The lines of an image that is accepted, and of what the digests cover of it.
fn covered_text(alloc: Global, coverage: Coverage) -> Result<String, AllocError>
    ensures { IfOk result (λ text. string_bytes text ≡ verdict_text Yes ++ coverage_text coverage ++ 10 ∷ []) }
{
    let covers = coverage_text(alloc, coverage)?;
    let text = format!(in alloc; "Yes\n{covers}\n")?;
    Ok(text)
}

/// The lines that are written: the verdict, and what the digests cover where that is asked for.
fn text_of_judgement(
    alloc: Global,
    judgement: &Judgement,
    shows: bool,
) -> Result<String, AllocError>
    ensures { IfOk result (λ text. string_bytes text ≡ judgement_text shows judgement.now) }
{
    match judgement {
        Judgement::Accepted(coverage) => {
            if shows {
                covered_text(alloc, *coverage)
            } else {
                text_of(alloc, &Verdict::Yes)
            }
        }
        Judgement::Refused(verdict) => text_of(alloc, verdict),
    }
}

/// What is noted beside the lines: what the digests cover, where the lines don't show it.
fn note_of(judgement: &Judgement, shows: bool) -> Option<Coverage>
    ensures { result ≡ judgement_note shows judgement.now }
{
    match judgement {
        Judgement::Accepted(coverage) => { if shows { None } else { Some(*coverage) } }
        Judgement::Refused(_) => None,
    }
}

/// Says the verdict on the image under a name, with the digests under another where one is given, and what they cover
/// where that is asked for. At most so many threads as there are workers look at the image.
pub fn verify_image<H: Hash32, K: Sink, V: Vault, R: Threads + Sync>(
    rt: &R,
    alloc: Global,
    h: H,
    image: &str,
    digests: Option<&str>,
    workers: u32,
    shows: bool,
    sink: &mut K,
    vault: &mut V,
) -> Ended
    ensures cause { VerifyCause result.status (H.digest h) image.now (option_copied digests.entry) (V.names vault.old)
        (Rises (V.faults vault.old) (V.faults vault.new))
        (Rises (K.faults sink.old) (K.faults sink.new) ⊎ Rises (K.stalls sink.old) (K.stalls sink.new)) }
    ensures verified { SaidOrIdle result.status
        (SaysVerdict result.status (H.digest h) image.now (option_copied digests.entry) shows result.covers
        (V.names vault.old) (K.taken sink.old) (K.taken sink.new)) (sink.new ≡ sink.old) }
    ensures same { V.names vault.new ≡ V.names vault.old }
    ensures gets { Since (V.history vault.old) (V.history vault.new)
        (AreGets (name_count (option_copied digests.entry)) result.status) }
    ensures writes { Since (K.history sink.old) (K.history sink.new) (AreWrites result.status) }
    ensures unfailed { Unfailed result.status ⊤ (V.faults vault.new ≡ V.faults vault.old)
        ((K.faults sink.new ≡ K.faults sink.old) × (K.stalls sink.new ≡ K.stalls sink.old)) }
{
    let judgement = match judge_names(rt, alloc, h, image, digests, workers, vault) {
        Ok(judgement) => judgement,
        Err(status) => return Ended {
            status,
            covers: None,
        },
    };
    let Ok(text) = text_of_judgement(alloc, &judgement, shows) else {
        return Ended {
            status: Status::Memory,
            covers: None,
        };
    };
    let covers = note_of(&judgement, shows);
    if let Err(Failed) = write_all(sink, text.as_bytes()) {
        return Ended {
            status: Status::SinkFault,
            covers,
        };
    }
    match &judgement {
        Judgement::Accepted(coverage) => {
            if lacks_digest(digests, *coverage) {
                Ended {
                    status: Status::NoDigestHeld,
                    covers,
                }
            } else {
                Ended {
                    status: Status::Done,
                    covers,
                }
            }
        }
        Judgement::Refused(_) => Ended {
            status: Status::No,
            covers,
        },
    }
}

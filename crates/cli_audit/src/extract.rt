//! Two images that are held against the same digests.

ghost use Rattle.std.specs.Prelude.{⊤, ◌≡◌, ◌⊎◌, string_bytes, None, IfOk, IfErr, IfSome};
ghost use Rattle.base_io.specs.Count.{Rises};
ghost use Rattle.base_io.specs.History.{Since};
ghost use Rattle.cli_audit.specs.Answer.{Unfailed};
ghost use Rattle.cli_audit.specs.Calls.{AreGets, Gave, AreWrites};
ghost use Rattle.cli_audit.specs.Extract.{AreExhibits, LacksExhibits, IsFoundWith, IsFoundOn, IsFound};
ghost use Rattle.cli_audit.specs.Extract.{LacksFinding, ExtractCause, Extracts};
ghost use Rattle.cli_audit.specs.Extract.{collision_text, finding_note, finding_status, finding_text};
ghost use Rattle.cli_audit.specs.Subject.{done_by};
ghost use Rattle.cli_audit.specs.Verify.{AreRefused, SaidOrIdle};

use crate::Status;
use crate::ended::Ended;
use crate::names::{DIGESTS_LIMIT, IMAGE_LIMIT, read_name};
use crate::subject::lacks_digest;
use crate::transfer::write_all;
use crate::verify::read_held;
use audit_answers::{Coverage, accepted, coverage_of};
use audit_extract::{Collision, ImageComparison, extract_each};
use base_io::{Failed, Sink, Vault};
use base_merkle::Hash32;
use base_types::Memory;
use spec_verify::Verdict;
use sql_types::HeldDigest;
use std::alloc::{AllocError, Global};

/// What is found of two images.
#[derive(Drop)]
pub(crate) enum Finding {
    /// The honest image isn't accepted, and this is the verdict on it.
    Honest(Verdict),
    /// It is, and the suspect one isn't, with this verdict.
    Suspect(Verdict),
    /// Both are accepted, this is what they are to each other, and this the digests cover of the suspect one.
    Compared(ImageComparison, Coverage),
}

/// What stands under the three names.
#[derive(Drop)]
struct Exhibits {
    honest: Vec<u8>,
    suspect: Vec<u8>,
    digests: Vec<u8>,
}

/// Reads what stands under the three names, in the order of the words.
fn read_exhibits<V: Vault>(
    vault: &mut V,
    honest: &str,
    suspect: &str,
    digests: &str,
) -> Result<Exhibits, Status>
    ensures are { IfOk result (λ read. IfSome (V.names vault.old) (λ names. AreExhibits
        honest.now suspect.now digests.now names read.honest.items read.suspect.items read.digests.items)) }
    ensures lacks { IfErr result
        (λ status. LacksExhibits status honest.now suspect.now digests.now (V.names vault.old)) }
    ensures same { V.names vault.new ≡ V.names vault.old }
    ensures gave { IfOk result (λ read. Since (V.history vault.old) (V.history vault.new) (Gave 3)) }
    ensures gets { IfErr result
        (λ status. Since (V.history vault.old) (V.history vault.new) (AreGets 3 status)) }
    ensures calm { IfOk result (λ read. V.faults vault.new ≡ V.faults vault.old) }
    ensures unfailed { IfErr result
        (λ status. Unfailed status ⊤ (V.faults vault.new ≡ V.faults vault.old) ⊤) }
    ensures cause { IfErr result
        (λ status. status ≡ Status.VaultFault → Rises (V.faults vault.old) (V.faults vault.new)) }
{
    let honest = read_name(vault, honest, 1, IMAGE_LIMIT)?;
    let suspect = read_name(vault, suspect, 2, IMAGE_LIMIT)?;
    let digests = read_name(vault, digests, 3, DIGESTS_LIMIT)?;
    Ok(Exhibits {
        honest,
        suspect,
        digests,
    })
}

/// What is found of two images with some digests. The suspect one is looked at where the honest one is
/// accepted.
fn compare<H: Hash32>(
    alloc: Global,
    h: H,
    honest: &[u8],
    suspect: &[u8],
    digests: &[HeldDigest],
) -> Result<Finding, Memory>
    ensures { IfOk result (IsFoundWith (H.digest h) digests.now honest.now suspect.now) }
{
    let honest_image = match accepted(alloc, h, honest, digests)? {
        Ok(image) => image,
        Err(verdict) => return Ok(Finding::Honest(verdict)),
    };
    // `drop` lets each type go by a function of its own, which is proved once
    let suspect_image = match accepted(alloc, h, suspect, digests) {
        Ok(Ok(image)) => image,
        Ok(Err(verdict)) => {
            drop(honest_image);
            return Ok(Finding::Suspect(verdict));
        }
        Err(Memory) => {
            drop(honest_image);
            return Err(Memory);
        }
    };
    let outcome = extract_each(alloc, h, &honest_image, &suspect_image, digests);
    let coverage = coverage_of(&suspect_image, digests);
    drop(suspect_image);
    drop(honest_image);
    Ok(Finding::Compared(outcome?, coverage))
}

/// What is found of these bytes, with the digests of this file.
fn examine<H: Hash32>(
    alloc: Global,
    h: H,
    honest: &[u8],
    suspect: &[u8],
    digests: &[u8],
) -> Result<Finding, Status>
    ensures found { IfOk result (IsFoundOn (H.digest h) honest.now suspect.now digests.now) }
    ensures refused { IfErr result (λ status. AreRefused status digests.now) }
{
    let held = read_held(alloc, digests)?;
    match compare(alloc, h, honest, suspect, held.as_slice()) {
        Ok(finding) => Ok(finding),
        Err(Memory) => Err(Status::Memory),
    }
}

/// What is found of what stands under the three names.
fn examine_names<H: Hash32, V: Vault>(
    alloc: Global,
    h: H,
    honest: &str,
    suspect: &str,
    digests: &str,
    vault: &mut V,
) -> Result<Finding, Status>
    ensures found { IfOk result
        (IsFound (H.digest h) honest.now suspect.now digests.now (V.names vault.old)) }
    ensures lacks { IfErr result
        (λ status. LacksFinding status honest.now suspect.now digests.now (V.names vault.old)
        (Rises (V.faults vault.old) (V.faults vault.new))) }
    ensures same { V.names vault.new ≡ V.names vault.old }
    ensures gave { IfOk result (λ finding. Since (V.history vault.old) (V.history vault.new) (Gave 3)) }
    ensures gets { IfErr result
        (λ status. Since (V.history vault.old) (V.history vault.new) (AreGets 3 status)) }
    ensures calm { IfOk result (λ finding. V.faults vault.new ≡ V.faults vault.old) }
    ensures unfailed { IfErr result
        (λ status. Unfailed status ⊤ (V.faults vault.new ≡ V.faults vault.old) ⊤) }
{
    let read = read_exhibits(vault, honest, suspect, digests)?;
    examine(alloc, h, &read.honest, &read.suspect, &read.digests)
}

/// Two byte strings with one hash, each in hexadecimal digits on a line of its own.
fn collision_text(alloc: Global, collision: &Collision) -> Result<String, AllocError>
    ensures { IfOk result (λ text. string_bytes text ≡ collision_text collision.now) }
{
    let first = hex::encode(alloc, collision.first.bytes())?;
    let second = hex::encode(alloc, collision.second.bytes())?;
    let text = format!(in alloc; "Collision\n{first}\n{second}\n")?;
    Ok(text)
}

/// The lines that are written of what was found.
fn text_of(alloc: Global, finding: &Finding) -> Result<String, AllocError>
    ensures { IfOk result (λ text. string_bytes text ≡ finding_text finding.now) }
{
    match finding {
        Finding::Honest(verdict) => format!(in alloc; "honest: {verdict}\n"),
        Finding::Suspect(verdict) => format!(in alloc; "suspect: {verdict}\n"),
        Finding::Compared(ImageComparison::Same, _) => format!(in alloc; "Same\n"),
        Finding::Compared(ImageComparison::Collision(collision), _) => collision_text(
            alloc, collision,
        ),
    }
}

/// What the digests cover, where both images are accepted and it is the same in both.
fn same_coverage(finding: &Finding) -> Option<Coverage>
    ensures same { IfSome result (λ coverage. finding_status finding.now ≡ done_by coverage.newest) }
    ensures other { result ≡ None → finding_status finding.now ≡ Status.No }
    ensures note { result ≡ finding_note finding.now }
{
    match finding {
        Finding::Compared(ImageComparison::Same, coverage) => Some(*coverage),
        Finding::Compared(ImageComparison::Collision(_), _) => None,
        Finding::Honest(_) => None,
        Finding::Suspect(_) => None,
    }
}

/// Says what two images are to each other with the digests under a name, or which of them isn't accepted.
pub fn compare_images<H: Hash32, K: Sink, V: Vault>(
    alloc: Global,
    h: H,
    honest: &str,
    suspect: &str,
    digests: &str,
    sink: &mut K,
    vault: &mut V,
) -> Ended
    ensures cause { ExtractCause result.status (H.digest h) honest.now suspect.now digests.now (V.names vault.old)
        (Rises (V.faults vault.old) (V.faults vault.new))
        (Rises (K.faults sink.old) (K.faults sink.new) ⊎ Rises (K.stalls sink.old) (K.stalls sink.new)) }
    ensures extracts { SaidOrIdle result.status
        (Extracts result.status (H.digest h) honest.now suspect.now digests.now result.covers
        (V.names vault.old) (K.taken sink.old) (K.taken sink.new)) (sink.new ≡ sink.old) }
    ensures same { V.names vault.new ≡ V.names vault.old }
    ensures gets { Since (V.history vault.old) (V.history vault.new) (AreGets 3 result.status) }
    ensures writes { Since (K.history sink.old) (K.history sink.new) (AreWrites result.status) }
    ensures unfailed { Unfailed result.status ⊤ (V.faults vault.new ≡ V.faults vault.old)
        ((K.faults sink.new ≡ K.faults sink.old) × (K.stalls sink.new ≡ K.stalls sink.old)) }
{
    let finding = match examine_names(alloc, h, honest, suspect, digests, vault) {
        Ok(finding) => finding,
        Err(status) => {
            return Ended {
                status,
                covers: None,
            };
        }
    };
    let Ok(text) = text_of(alloc, &finding) else {
        return Ended {
            status: Status::Memory,
            covers: None,
        };
    };
    let covers = same_coverage(&finding);
    if let Err(Failed) = write_all(sink, text.as_bytes()) {
        return Ended {
            status: Status::SinkFault,
            covers,
        };
    }
    match covers {
        Some(coverage) => {
            if lacks_digest(Some(digests), coverage) {
                Ended {
                    status: Status::NoDigestHeld,
                    covers,
                }
            } else {
                Ended {
                    status: Status::Done,
                    covers,
                }
            }
        }
        None => Ended {
            status: Status::No,
            covers,
        },
    }
}

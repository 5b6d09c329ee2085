//! An image that is judged, with the digests of a file where the name of one is given.

ghost use Rattle.std.specs.Prelude.{⊤, ◌≡◌, option_map, true, false, IfErr, IfOk, IfSome};
ghost use Rattle.std.specs.Option.{option_copied};
ghost use Rattle.base_io.specs.Count.{Rises};
ghost use Rattle.base_io.specs.History.{Since};
ghost use Rattle.cli_audit.specs.Answer.{Unfailed};
ghost use Rattle.cli_audit.specs.Calls.{AreGets, Gave, name_count};
ghost use Rattle.cli_audit.specs.Names.{IsInVault, LacksName, image_limit};
ghost use Rattle.cli_audit.specs.Subject.{AreHeld, AreSubject, FileIsRefused, LacksSubject, done_with};

use crate::Status;
use crate::names::{IMAGE_LIMIT, read_name};
use crate::verify::{read_evidence, read_held};
use audit_answers::Coverage;
use base_io::Vault;
use base_types::Items;
use sql_types::HeldDigest;
use std::alloc::Global;

/// What stands under the names: an image, and digests where their name is given.
#[derive(Drop)]
pub(crate) struct Subject {
    pub image: Vec<u8>,
    pub digests: Option<Vec<u8>>,
}

/// The file of the digests, if there is one.
pub(crate) fn file_in(digests: &Option<Vec<u8>>) -> Option<&[u8]>
    ensures { option_copied result ≡ option_map (λ v. v.items) digests.now }
{
    match digests {
        Some(file) => Some(file.as_slice()),
        None => None,
    }
}

/// Reads what stands under the name of the image, where it is the only one.
fn read_alone<V: Vault>(vault: &mut V, image: &str) -> Result<Vec<u8>, Status>
    ensures is { IfOk result (λ bytes. IfSome (V.names vault.old)
        (λ names. IsInVault (names image.now) image_limit bytes.items)) }
    ensures lacks { IfErr result (λ status. LacksName status 1 image_limit (V.names vault.old) image.now) }
    ensures same { V.names vault.new ≡ V.names vault.old }
    ensures gave { IfOk result (λ bytes. Since (V.history vault.old) (V.history vault.new) (Gave 1)) }
    ensures gets { IfErr result
        (λ status. Since (V.history vault.old) (V.history vault.new) (AreGets 1 status)) }
    ensures calm { IfOk result (λ bytes. V.faults vault.new ≡ V.faults vault.old) }
    ensures unfailed { IfErr result
        (λ status. Unfailed status ⊤ (V.faults vault.new ≡ V.faults vault.old) ⊤) }
    ensures cause { IfErr result
        (λ status. status ≡ Status.VaultFault → Rises (V.faults vault.old) (V.faults vault.new)) }
{
    let bytes = read_name(vault, image, 1, IMAGE_LIMIT)?;
    Ok(bytes)
}

/// Reads what stands under the names, the image's first.
pub(crate) fn read_subject<V: Vault>(
    vault: &mut V,
    image: &str,
    digests: Option<&str>,
) -> Result<Subject, Status>
    ensures are { IfOk result (λ read. IfSome (V.names vault.old) (λ names. AreSubject image.now
        (option_copied digests.entry) names read.image.items (option_map (λ v. v.items) read.digests))) }
    ensures lacks { IfErr result
        (λ status. LacksSubject status image.now (option_copied digests.entry) (V.names vault.old)) }
    ensures same { V.names vault.new ≡ V.names vault.old }
    ensures gave { IfOk result (λ read. Since (V.history vault.old) (V.history vault.new)
        (Gave (name_count (option_copied digests.entry)))) }
    ensures gets { IfErr result (λ status. Since (V.history vault.old) (V.history vault.new)
        (AreGets (name_count (option_copied digests.entry)) status)) }
    ensures calm { IfOk result (λ read. V.faults vault.new ≡ V.faults vault.old) }
    ensures unfailed { IfErr result
        (λ status. Unfailed status ⊤ (V.faults vault.new ≡ V.faults vault.old) ⊤) }
    ensures cause { IfErr result
        (λ status. status ≡ Status.VaultFault → Rises (V.faults vault.old) (V.faults vault.new)) }
{
    match digests {
        Some(digests) => {
            let evidence = read_evidence(vault, image, digests)?;
            Ok(Subject {
                image: evidence.image,
                digests: Some(evidence.digests),
            })
        }
        None => {
            let image = read_alone(vault, image)?;
            Ok(Subject {
                image,
                digests: None,
            })
        }
    }
}

/// The digests of the file; without one there are none.
pub(crate) fn held_in(alloc: Global, file: Option<&[u8]>) -> Result<Items<HeldDigest>, Status>
    ensures held { IfOk result (AreHeld (option_copied file.entry)) }
    ensures refused { IfErr result (λ status. FileIsRefused status (option_copied file.entry)) }
{
    match file {
        Some(file) => read_held(alloc, file),
        None => Ok(Items::new(alloc)),
    }
}

/// Whether a name of digests is given, and there is no digest.
pub(crate) fn lacks_digest(digests: Option<&str>, coverage: Coverage) -> bool
    ensures without { result ≡ true
        → done_with (option_copied digests.entry) coverage ≡ Status.NoDigestHeld }
    ensures done { result ≡ false → done_with (option_copied digests.entry) coverage ≡ Status.Done }
{
    match digests {
        Some(_) => match coverage.newest {
            Some(_) => false,
            None => true,
        },
        None => false,
    }
}

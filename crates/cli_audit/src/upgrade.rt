//! An image that is put again in the newest version.

ghost use Rattle.std.specs.Prelude.{⊤, ◌≡◌, ◌⊎◌, IfOk, IfErr};
ghost use Rattle.base_io.specs.Count.{Rises};
ghost use Rattle.base_io.specs.History.{Since};
ghost use Rattle.format_image.specs.ImageBytes.{IsImage};
ghost use Rattle.cli_audit.specs.Answer.{Unfailed};
ghost use Rattle.cli_audit.specs.Calls.{Gave, AreGets, AreGetsAndPuts, AreWrites};
ghost use Rattle.cli_audit.specs.Upgrade.{IsSpelled, AreRefused, ImageUnder, LacksImage, upgraded_files, upgraded_text};
ghost use Rattle.cli_audit.specs.Upgrade.{Upgraded, UpgradedOrIdle, PutsTheSame, UpgradeCause};

use crate::Status;
use crate::files::{File, image_file, put_and_write};
use crate::names::{IMAGE_LIMIT, read_name};
use base_io::{Sink, Vault};
use base_types::{Blob, Items, Memory};
use format_image::{Image, read_image, write_image};
use std::alloc::Global;

/// The line that is written.
fn upgraded_line() -> &'static str
    ensures { result.now ≡ upgraded_text }
{
    "upgraded\n"
}

/// The image whose bytes these are, in either version.
fn image_of(alloc: Global, bytes: &[u8]) -> Result<Image, Status>
    ensures spelled { IfOk result (λ image. IsSpelled image bytes.now) }
    ensures refused { IfErr result (λ status. AreRefused status bytes.now) }
{
    match read_image(alloc, bytes) {
        Ok(Some(image)) => Ok(image),
        Ok(None) => Err(Status::NotImage),
        Err(Memory) => Err(Status::Memory),
    }
}

/// The image that stands under a name.
fn image_under<V: Vault>(alloc: Global, name: &str, vault: &mut V) -> Result<Image, Status>
    ensures read { IfOk result (ImageUnder name.now (V.names vault.old)) }
    ensures lacks { IfErr result (λ status. LacksImage status name.now (V.names vault.old)
        (Rises (V.faults vault.old) (V.faults vault.new))) }
    ensures same { V.names vault.new ≡ V.names vault.old }
    ensures gave { IfOk result (λ image. Since (V.history vault.old) (V.history vault.new) (Gave 1)) }
    ensures gets { IfErr result
        (λ status. Since (V.history vault.old) (V.history vault.new) (AreGets 1 status)) }
    ensures calm { IfOk result (λ image. V.faults vault.new ≡ V.faults vault.old) }
    ensures unfailed { IfErr result
        (λ status. Unfailed status ⊤ (V.faults vault.new ≡ V.faults vault.old) ⊤) }
{
    let bytes = read_name(vault, name, 1, IMAGE_LIMIT)?;
    let image = image_of(alloc, &bytes)?;
    Ok(image)
}

/// The file of the image in the newest version.
fn files_of(alloc: Global, save: &str, image: Image) -> Result<Items<File>, Memory>
    requires { IsImage image }
    ensures { IfOk result (λ files. files ≡ upgraded_files save.now image) }
{
    let written = write_image(alloc, &image);
    // `drop` lets each type go by a function of its own, which is proved once
    drop(image);
    let bytes = Blob::from_vec(written?);
    let mut files = Items::new(alloc);
    files.push(image_file(alloc, save, bytes)?)?;
    Ok(files)
}

/// Puts the image under a name again, in the newest version, under the other.
pub fn upgrade_image<K: Sink, V: Vault>(
    alloc: Global,
    image: &str,
    save: &str,
    sink: &mut K,
    vault: &mut V,
) -> Status
    ensures cause { UpgradeCause result image.now (V.names vault.old)
        (Rises (V.faults vault.old) (V.faults vault.new))
        (Rises (K.faults sink.old) (K.faults sink.new) ⊎ Rises (K.stalls sink.old) (K.stalls sink.new)) }
    ensures upgraded { UpgradedOrIdle result
        (Upgraded result image.now save.now
        (V.names vault.old) (V.names vault.new) (K.taken sink.old) (K.taken sink.new))
        ((V.names vault.new ≡ V.names vault.old) × (sink.new ≡ sink.old)) }
    ensures same { result ≡ Status.Done
        → PutsTheSame image.now save.now (V.names vault.old) (V.names vault.new) }
    ensures calls { Since (V.history vault.old) (V.history vault.new) (AreGetsAndPuts 1 result) }
    ensures writes { Since (K.history sink.old) (K.history sink.new) (AreWrites result) }
    ensures unfailed { Unfailed result ⊤ (V.faults vault.new ≡ V.faults vault.old)
        ((K.faults sink.new ≡ K.faults sink.old) × (K.stalls sink.new ≡ K.stalls sink.old)) }
    ensures unwritten { (result ≡ Status.Done → ⊥) → (result ≡ Status.SinkFault → ⊥) → sink.new ≡ sink.old }
{
    let found = match image_under(alloc, image, vault) {
        Ok(found) => found,
        Err(status) => return status,
    };
    let Ok(files) = files_of(alloc, save, found) else {
        return Status::Memory;
    };
    put_and_write(vault, sink, files.as_slice(), upgraded_line().as_bytes())
}

//! Files that are put one after another, and the text that is written behind them.

ghost use Rattle.std.specs.Prelude.{⊤, ◌≡◌, ◌⊎◌, ◌++◌, All, Err, length, IfErr, IfOk, OnOk};
ghost use Rattle.base_io.specs.Count.{Rises};
ghost use Rattle.base_io.specs.History.{Since, EndsAt};
ghost use Rattle.base_io.specs.Outside.{CountsFault};
ghost use Rattle.cli_audit.specs.Calls.{KeptFile, ArePuts, AreWrites};
ghost use Rattle.cli_audit.specs.Files.{FirstArePut, StopsBy, image_file};
ghost use Rattle.cli_audit.specs.Answer.{HasPut, HasWritten, EndsBy, Unfailed, vault_status};

use crate::Status;
use crate::transfer::write_all;
use base_io::{Failed, Sink, Vault, VaultErr};
use base_types::{Blob, Memory, Text};
use std::alloc::Global;

/// Bytes, and the name that they are put under.
#[derive(Drop)]
pub struct File {
    pub name: Text,
    pub bytes: Blob,
}

/// The file of some bytes, under a name with this ending.
pub fn file_of(alloc: Global, save: &str, ending: &str, bytes: Blob) -> Result<File, Memory>
    ensures { IfOk result (λ file. file ≡ record { name = save.now ++ ending.now; bytes = bytes }) }
{
    let name = format!(in alloc; "{save}{ending}")?;
    Ok(File {
        name: Text::from_string(name),
        bytes,
    })
}

/// The file of an image, under `save` and `.img`.
pub fn image_file(alloc: Global, save: &str, bytes: Blob) -> Result<File, Memory>
    ensures { IfOk result (λ file. file ≡ image_file save.now bytes) }
{
    file_of(alloc, save, ".img", bytes)
}

/// Puts the files in their order, up to the first that the vault refuses.
fn put_all<V: Vault>(vault: &mut V, files: &[File]) -> Result<(), VaultErr>
    ensures ok { OnOk result
        (FirstArePut files.now (length files.now) (V.names vault.old) (V.names vault.new)) }
    ensures err { IfErr result (λ error. StopsBy error files.now (V.names vault.old) (V.names vault.new)) }
    ensures known { IfErr result (λ error. (error ≡ VaultErr.Missing → ⊥) × (error ≡ VaultErr.TooLong → ⊥)) }
    ensures all_puts { OnOk result (Since (V.history vault.old) (V.history vault.new) (All KeptFile)) }
    ensures some_puts { IfErr result
        (λ error. Since (V.history vault.old) (V.history vault.new) (EndsAt KeptFile (Err error))) }
    ensures counts { CountsFault result (V.faults vault.old) (V.faults vault.new) }
{
    for file in files {
        vault.put(file.name.as_str(), file.bytes.bytes())?;
    }
    Ok(())
}

/// How a call ends where the vault refused a file.
fn status_of(error: VaultErr) -> Status
    ensures { result ≡ vault_status error }
{
    match error {
        VaultErr::Failed => Status::VaultFault,
        VaultErr::Memory => Status::Memory,
        // no put answers these
        VaultErr::Missing => Status::Memory,
        VaultErr::TooLong => Status::Memory,
    }
}

/// Puts all files and then writes the text. Nothing is written before all is put.
pub fn put_and_write<V: Vault, K: Sink>(
    vault: &mut V,
    sink: &mut K,
    files: &[File],
    text: &[u8],
) -> Status
    ensures cause { EndsBy result (Rises (V.faults vault.old) (V.faults vault.new))
        (Rises (K.faults sink.old) (K.faults sink.new) ⊎ Rises (K.stalls sink.old) (K.stalls sink.new)) }
    ensures put { HasPut result files.now (V.names vault.old) (V.names vault.new) }
    ensures puts { Since (V.history vault.old) (V.history vault.new) (ArePuts result) }
    ensures writes { Since (K.history sink.old) (K.history sink.new) (AreWrites result) }
    ensures written { HasWritten result text.now (K.taken sink.old) (K.taken sink.new) }
    ensures unfailed { Unfailed result ⊤ (V.faults vault.new ≡ V.faults vault.old)
        ((K.faults sink.new ≡ K.faults sink.old) × (K.stalls sink.new ≡ K.stalls sink.old)) }
    ensures unwritten { (result ≡ Status.Done → ⊥) → (result ≡ Status.SinkFault → ⊥) → sink.new ≡ sink.old }
{
    if let Err(error) = put_all(vault, files) {
        return status_of(error);
    }
    match write_all(sink, text) {
        Ok(()) => Status::Done,
        Err(Failed) => Status::SinkFault,
    }
}

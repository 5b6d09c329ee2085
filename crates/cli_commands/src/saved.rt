//! The files that a run saves.

ghost use Rattle.std.specs.Prelude.{⊤, ◌≡◌, ◌⊎◌, map, IfOk, Ok};
ghost use Rattle.std.specs.List.{AllByRecursion};
ghost use Rattle.base_io.specs.Count.{Rises};
ghost use Rattle.base_io.specs.History.{Since};
ghost use Rattle.format_digest.specs.Reading.{IsRead};
ghost use Rattle.format_digest.specs.Writing.{HasMoments, IsFile, held_form};
ghost use Rattle.format_journal.specs.Rules.{IsJournal};
ghost use Rattle.cli_audit.specs.Answer.{EndsBy, Unfailed};
ghost use Rattle.cli_commands.specs.Answer.{RunOutcomeOrIdle, Saves};
ghost use Rattle.cli_audit.specs.Calls.{ArePuts, AreWrites};
ghost use Rattle.cli_audit.specs.Files.{journal_file};
ghost use Rattle.cli_commands.specs.Run.{AreSaved, IsSavable, cut_file, digests_file};

use base_io::{Sink, Vault};
use base_types::{Blob, Items, Memory, Text};
use cli_audit::{File, Status, file_of, image_file, put_and_write};
use format_digest::write_digests;
use format_journal::{Journal, write_journal};
use server_result::RunOutcome;
use sql_types::Digest;
use std::alloc::Global;

/// The file of the image of so many items.
fn cut_file(alloc: Global, save: &str, image: (u64, Blob)) -> Result<File, Memory>
    ensures { IfOk result (λ file. file ≡ cut_file save.now image) }
{
    let (items, bytes) = image;
    let name = format!(in alloc; "{save}-{items}.img")?;
    Ok(File {
        name: Text::from_string(name),
        bytes,
    })
}

fn digests_file(alloc: Global, save: &str, digests: &[Digest]) -> Result<File, Memory>
    requires { AllByRecursion HasMoments digests.now }
    ensures file { IfOk result (λ file. IsFile digests.now file.bytes) }
    ensures read_back { IfOk result (λ file. IsRead file.bytes (Ok (map held_form digests.now))) }
    ensures is { IfOk result (λ file. file ≡ digests_file save.now file.bytes) }
{
    let bytes = Blob::from_vec(write_digests(alloc, digests)?);
    file_of(alloc, save, ".digests", bytes)
}

fn journal_file(alloc: Global, save: &str, journal: &Journal) -> Result<File, Memory>
    requires { IsJournal journal.now }
    ensures { IfOk result (λ file. file ≡ journal_file save.now journal.now) }
{
    let bytes = Blob::from_vec(write_journal(alloc, journal)?);
    file_of(alloc, save, ".journal", bytes)
}

/// The files of the images that were kept.
fn cut_files(alloc: Global, save: &str, images: Items<(u64, Blob)>) -> Result<Items<File>, Memory>
    ensures { IfOk result (λ files. files ≡ map (cut_file save.now) images) }
{
    let mut files = Items::new(alloc);
    for image in images.into_vec() {
        files.push(cut_file(alloc, save, image)?)?;
    }
    Ok(files)
}

/// What is put and written.
#[derive(Drop)]
pub(crate) struct Output {
    /// In the order in which they are put.
    pub files: Items<File>,
    pub text: Text,
}

/// What is put and written of a run.
pub(crate) fn output_of(alloc: Global, save: &str, ran: RunOutcome) -> Result<Output, Memory>
    requires journal { IsJournal ran.journal }
    requires digests { AllByRecursion HasMoments ran.digests }
    ensures files { IfOk result (λ output. AreSaved save.now ran output.files) }
    ensures text { IfOk result (λ output. output.text ≡ ran.transcript) }
{
    let mut files = cut_files(alloc, save, ran.images)?;
    files.push(image_file(alloc, save, ran.image)?)?;
    files.push(digests_file(alloc, save, ran.digests.as_slice())?)?;
    files.push(journal_file(alloc, save, &ran.journal)?)?;
    Ok(Output {
        files,
        text: ran.transcript,
    })
}

/// Makes the files and the text of a run, puts the files, and then writes the text.
pub(crate) fn save_and_write<K: Sink, V: Vault>(
    alloc: Global,
    save: &str,
    ran: RunOutcome,
    sink: &mut K,
    vault: &mut V,
) -> Status
    requires { IsSavable ran }
    ensures cause { EndsBy result (Rises (V.faults vault.old) (V.faults vault.new))
        (Rises (K.faults sink.old) (K.faults sink.new) ⊎ Rises (K.stalls sink.old) (K.stalls sink.new)) }
    ensures saved { RunOutcomeOrIdle result
        (Saves result save.now ran
        (V.names vault.old) (V.names vault.new) (K.taken sink.old) (K.taken sink.new))
        ((vault.new ≡ vault.old) × (sink.new ≡ sink.old)) }
    ensures puts { Since (V.history vault.old) (V.history vault.new) (ArePuts result) }
    ensures writes { Since (K.history sink.old) (K.history sink.new) (AreWrites result) }
    ensures unfailed { Unfailed result ⊤ (V.faults vault.new ≡ V.faults vault.old)
        ((K.faults sink.new ≡ K.faults sink.old) × (K.stalls sink.new ≡ K.stalls sink.old)) }
    ensures unwritten { (result ≡ Status.Done → ⊥) → (result ≡ Status.SinkFault → ⊥) → sink.new ≡ sink.old }
{
    let Ok(output) = output_of(alloc, save, ran) else {
        return Status::Memory;
    };
    put_and_write(vault, sink, output.files.as_slice(), output.text.bytes())
}

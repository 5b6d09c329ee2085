//! A journal that is run again, and the image to which it leads.

ghost use Rattle.std.specs.Prelude.{⊤, ◌≡◌, ◌⊎◌, ◌∷◌, [], length, string_bytes, IfOk, IfErr, OnOk};
ghost use Rattle.base_io.specs.Count.{Rises};
ghost use Rattle.base_io.specs.History.{Since};
ghost use Rattle.spec_syntax.specs.Text.{reading_of};
ghost use Rattle.format_journal.specs.Rules.{IsJournal};
ghost use Rattle.format_image.specs.Image.{image_of};
ghost use Rattle.format_image.specs.ImageBytes.{image_bytes, IsImage};
ghost use Rattle.cli_audit.specs.Answer.{Unfailed};
ghost use Rattle.cli_audit.specs.Files.{image_file, journal_name};
ghost use Rattle.cli_audit.specs.Calls.{Gave, AreGets, AreGetsAndPuts, AreWrites};
ghost use Rattle.cli_audit.specs.Replay.{IsUnderName, IsSpelled, AreRefused, IsLegalInVersion, IsIllegal, IsImageOf, LacksImage};
ghost use Rattle.cli_audit.specs.Replay.{HasOutput, replayed_text, SavesReplay, ReplayedOrIdle, PutsAccepted};
ghost use Rattle.cli_audit.specs.Replay.{LacksReplay, ReplayCause, replay_status};

use crate::Status;
use crate::files::{File, file_of, image_file, put_and_write};
use crate::names::{IMAGE_LIMIT, read_name};
use audit_replay::ReplayErr;
use base_io::{Sink, Vault};
use base_merkle::Hash32;
use base_types::{Blob, Items, Memory};
use format_image::{Image, write_image};
use format_journal::{Journal, read_journal};
use law_accepts::images_of_legal_journals_verify;
use law_catalog_text::readings_of_the_grammar_give_written;
use sql_reference::run_agrees_with_legal_items;
use std::alloc::{AllocError, Global};

/// The journal whose bytes these are.
pub(crate) fn journal_of(alloc: Global, bytes: &[u8]) -> Result<Journal, Status>
    ensures spelled { IfOk result (λ journal. IsSpelled journal bytes.now) }
    ensures refused { IfErr result (λ status. AreRefused status bytes.now) }
{
    match read_journal(alloc, bytes) {
        Ok(Some(journal)) => Ok(journal),
        Ok(None) => Err(Status::Journal { at: None }),
        Err(Memory) => Err(Status::Memory),
    }
}

/// How a call ends where a journal is refused that was run again.
pub(crate) fn status_of(error: ReplayErr) -> Status
    ensures { result ≡ replay_status error }
{
    match error {
        ReplayErr::Differs { item, statement } => Status::Journal {
            at: Some((item, statement)),
        },
        ReplayErr::Memory => Status::Memory,
    }
}

/// The image to which a journal leads, where it is legal.
fn run_again<H: Hash32>(alloc: Global, h: H, journal: &Journal) -> Result<Image, Status>
    requires { IsJournal journal.now }
    ensures legal { OnOk result (IsLegalInVersion journal.now) }
    ensures made { IfOk result (λ image. image
        ≡ image_of (H.digest h) (reading_of journal.now.version) journal.now.database journal.now.items) }
    ensures spelling { IfOk result IsImage }
    ensures illegal { IfErr result (λ status. IsIllegal status journal.now) }
{
    run_agrees_with_legal_items();
    match audit_replay::replay(alloc, h, journal) {
        Ok(image) => Ok(image),
        Err(error) => Err(status_of(error)),
    }
}

/// The image to which the journal with these bytes leads, where it is legal.
fn image_of_bytes<H: Hash32>(alloc: Global, h: H, bytes: &[u8]) -> Result<Image, Status>
    ensures image { IfOk result (IsImageOf (H.digest h) bytes.now) }
    ensures lacks { IfErr result (λ status. LacksImage status bytes.now) }
{
    images_of_legal_journals_verify();
    readings_of_the_grammar_give_written();
    let journal = journal_of(alloc, bytes)?;
    let image = run_again(alloc, h, &journal);
    // `drop` lets each type go by a function of its own, which is proved once
    drop(journal);
    image
}

/// What a name came to.
#[derive(Drop)]
struct ReplayedJournal {
    /// The bytes of the journal.
    journal: Vec<u8>,
    image: Image,
}

/// Runs the journal under a name again.
fn run_name<H: Hash32, V: Vault>(
    alloc: Global,
    h: H,
    name: &str,
    vault: &mut V,
) -> Result<ReplayedJournal, Status>
    ensures is_in_vault { IfOk result (λ again. IsUnderName name.now (V.names vault.old) again.journal.items) }
    ensures image { IfOk result (λ again. IsImageOf (H.digest h) again.journal.items again.image) }
    ensures lacks { IfErr result (λ status. LacksReplay status name.now (V.names vault.old)
        (Rises (V.faults vault.old) (V.faults vault.new))) }
    ensures same { V.names vault.new ≡ V.names vault.old }
    ensures gave { IfOk result (λ again. Since (V.history vault.old) (V.history vault.new) (Gave 1)) }
    ensures gets { IfErr result
        (λ status. Since (V.history vault.old) (V.history vault.new) (AreGets 1 status)) }
    ensures calm { IfOk result (λ again. V.faults vault.new ≡ V.faults vault.old) }
    ensures unfailed { IfErr result
        (λ status. Unfailed status ⊤ (V.faults vault.new ≡ V.faults vault.old) ⊤) }
{
    let journal = read_name(vault, name, 1, IMAGE_LIMIT)?;
    let image = image_of_bytes(alloc, h, &journal)?;
    Ok(ReplayedJournal { journal, image })
}

/// The line of so many transactions.
fn text_of(alloc: Global, count: usize) -> Result<String, AllocError>
    ensures { IfOk result (λ text. string_bytes text ≡ replayed_text count) }
{
    format!(in alloc; "replayed {count}\n")
}

/// The files of a journal that was run again, in the order in which they are put: its image, and its bytes.
fn replayed_files(
    alloc: Global,
    save: &str,
    image: &Image,
    journal: Vec<u8>,
) -> Result<Items<File>, Memory>
    requires { IsImage image.now }
    ensures { IfOk result (λ files. files ≡ image_file save.now (image_bytes image.now)
        ∷ record { name = journal_name save.now; bytes = journal.items } ∷ []) }
{
    let image = Blob::from_vec(write_image(alloc, image)?);
    let mut files = Items::new(alloc);
    files.push(image_file(alloc, save, image)?)?;
    files.push(file_of(alloc, save, ".journal", Blob::from_vec(journal))?)?;
    Ok(files)
}

/// What is put and written of a journal.
#[derive(Drop)]
struct Output {
    files: Items<File>,
    text: String,
}

/// What is put and written of a journal with these bytes, which leads to the image. An image has an entry for each
/// transaction.
fn output_from(alloc: Global, save: &str, image: &Image, journal: Vec<u8>) -> Result<Output, Memory>
    requires { IsImage image.now }
    ensures { IfOk result (λ output. HasOutput save.now journal.items (image_bytes image.now)
        (length image.now.entries) output.files (string_bytes output.text)) }
{
    let text = text_of(alloc, image.entries.len())?;
    let files = replayed_files(alloc, save, image, journal)?;
    Ok(Output { files, text })
}

/// What is put and written of a journal that was run again.
fn output_of(alloc: Global, save: &str, again: ReplayedJournal) -> Result<Output, Memory>
    requires { IsImage again.image }
    ensures { IfOk result (λ output. HasOutput save.now again.journal.items (image_bytes again.image)
        (length again.image.entries) output.files (string_bytes output.text)) }
{
    let ReplayedJournal { journal, image } = again;
    let output = output_from(alloc, save, &image, journal);
    // `drop` lets each type go by a function of its own, which is proved once
    drop(image);
    output
}

/// Runs the journal under a name again, puts its image and its bytes, and writes how many transactions it has.
pub fn replay_journal<H: Hash32, K: Sink, V: Vault>(
    alloc: Global,
    h: H,
    journal: &str,
    save: &str,
    sink: &mut K,
    vault: &mut V,
) -> Status
    ensures cause { ReplayCause result journal.now (V.names vault.old)
        (Rises (V.faults vault.old) (V.faults vault.new))
        (Rises (K.faults sink.old) (K.faults sink.new) ⊎ Rises (K.stalls sink.old) (K.stalls sink.new)) }
    ensures replayed { ReplayedOrIdle result
        (SavesReplay result (H.digest h) journal.now save.now
        (V.names vault.old) (V.names vault.new) (K.taken sink.old) (K.taken sink.new))
        ((V.names vault.new ≡ V.names vault.old) × (sink.new ≡ sink.old)) }
    ensures accepted { result ≡ Status.Done
        → PutsAccepted (H.digest h) journal.now save.now (V.names vault.old) (V.names vault.new) }
    ensures calls { Since (V.history vault.old) (V.history vault.new) (AreGetsAndPuts 1 result) }
    ensures writes { Since (K.history sink.old) (K.history sink.new) (AreWrites result) }
    ensures unfailed { Unfailed result ⊤ (V.faults vault.new ≡ V.faults vault.old)
        ((K.faults sink.new ≡ K.faults sink.old) × (K.stalls sink.new ≡ K.stalls sink.old)) }
    ensures unwritten { (result ≡ Status.Done → ⊥) → (result ≡ Status.SinkFault → ⊥) → sink.new ≡ sink.old }
{
    let again = match run_name(alloc, h, journal, vault) {
        Ok(again) => again,
        Err(status) => return status,
    };
    let Ok(output) = output_of(alloc, save, again) else {
        return Status::Memory;
    };
    put_and_write(vault, sink, output.files.as_slice(), output.text.as_bytes())
}

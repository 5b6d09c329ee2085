//! SELECTs over an image as it was behind its first transactions.

ghost use Rattle.std.specs.Prelude.{⊤, ◌≡◌, ◌≤◌, ◌⊎◌, [], length, map, Ok, Some, IfErr, IfOk, IfSome};
ghost use Rattle.std.specs.Option.{option_copied};
ghost use Rattle.base_io.specs.Count.{Rises};
ghost use Rattle.base_io.specs.History.{EndsAt, Since};
ghost use Rattle.cli_audit.specs.Answer.{Unfailed};
ghost use Rattle.cli_audit.specs.AsOf.{IsTold, LacksTexts, LacksTold};
ghost use Rattle.cli_audit.specs.AsOf.{AreReadsBehind, AsOfCause, HasReadBehind, SaysAnswers};
ghost use Rattle.cli_audit.specs.AsOf.{AreNoYes, EndsSaying, LacksAnswers, StandAndCame, answers_note};
ghost use Rattle.format_asof.specs.Texts.{texts_of};
ghost use Rattle.cli_audit.specs.Calls.{AreGetsBefore, AreWrites, Gave, Moved, name_count};
ghost use Rattle.cli_audit.specs.AsOf.{IsUnread};
ghost use Rattle.cli_audit.specs.Transfer.{input_limit};
ghost use Rattle.cli_audit.specs.Verify.{SaidOrIdle};

use crate::Status;
use crate::ended::Ended;
use crate::receipt::refuse;
use crate::subject::{file_in, held_in, lacks_digest, read_subject};
use crate::transfer::{ReadErr, read_input, write_all};
use audit_answers::{Answers, AnswersErr, Coverage, answer_texts};
use base_io::{Failed, Sink, Source, Vault};
use base_merkle::Hash32;
use format_asof::{InputErr, read_texts};
use std::alloc::Global;

/// Reads the whole input. `Limit` where it has more than `INPUT_LIMIT` bytes, of which one behind these is taken.
pub fn read_whole<S: Source>(alloc: Global, source: &mut S) -> Result<Vec<u8>, Status>
    ensures came { IfOk result (λ bytes. IfSome (S.left source.old) (λ input. bytes.items ≡ input)) }
    ensures within { IfOk result (λ bytes. length bytes.items ≤ input_limit) }
    ensures rest { IfOk result (λ bytes. IfSome (S.left source.old) (λ input. S.left source.new ≡ Some [])) }
    ensures all_reads { IfOk result
        (λ bytes. Since (S.history source.old) (S.history source.new) (EndsAt Moved (Ok 0))) }
    ensures lacks { IfErr result (λ status. IsUnread status (S.left source.old)
        (Rises (S.faults source.old) (S.faults source.new))) }
    ensures read { IfErr result
        (λ status. IfSome (S.left source.old) (λ input. HasReadBehind status input (S.left source.new))) }
    ensures reads { IfErr result
        (λ status. Since (S.history source.old) (S.history source.new) (AreReadsBehind status)) }
    ensures calm { IfOk result (λ bytes. S.faults source.new ≡ S.faults source.old) }
    ensures unfailed { IfErr result
        (λ status. Unfailed status (S.faults source.new ≡ S.faults source.old) ⊤ ⊤) }
{
    match read_input(alloc, source) {
        Ok(input) => Ok(input),
        Err(ReadErr::Memory) => Err(Status::Memory),
        Err(ReadErr::TooMuch) => Err(Status::Limit),
        Err(ReadErr::Failed) => Err(Status::SourceFault),
    }
}

/// The texts of the input.
fn texts_in<'a>(alloc: Global, input: &'a [u8]) -> Result<Vec<&'a str>, Status>
    ensures read { IfOk result (λ texts. texts_of input.now ≡ Ok (map (λ t. t.now) texts.items)) }
    ensures lacks { IfErr result (λ status. LacksTexts status input.now) }
{
    match read_texts(alloc, input) {
        Ok(texts) => Ok(texts),
        Err(InputErr::Form { line }) => Err(Status::Form { line }),
        Err(InputErr::Memory) => Err(Status::Memory),
    }
}

/// What is told of the image whose bytes these are, with the digests of the file, by the texts of the input.
fn tell_answers<H: Hash32>(
    alloc: Global,
    h: H,
    bytes: &[u8],
    file: Option<&[u8]>,
    n: u64,
    input: &[u8],
) -> Result<Answers, Status>
    ensures told { IfOk result
        (λ answers. IsTold (H.digest h) n answers bytes.now (option_copied file.entry) input.now) }
    ensures lacks { IfErr result
        (λ status. LacksTold status (H.digest h) n bytes.now (option_copied file.entry) input.now) }
{
    let texts = texts_in(alloc, input)?;
    let held = held_in(alloc, file)?;
    match answer_texts(alloc, h, bytes, held.as_slice(), n, &texts) {
        Ok(answers) => Ok(answers),
        Err(AnswersErr::TooFar { entries }) => Err(Status::TooFar { entries }),
        Err(AnswersErr::Memory) => Err(Status::Memory),
    }
}

/// What is told of what stands under the names, by the texts of the input behind them.
fn tell_names<H: Hash32, S: Source, V: Vault>(
    alloc: Global,
    h: H,
    image: &str,
    n: u64,
    digests: Option<&str>,
    source: &mut S,
    vault: &mut V,
) -> Result<Answers, Status>
    ensures told { IfOk result (λ answers. StandAndCame image.now (option_copied digests.entry) (V.names vault.old)
        (S.left source.old) (IsTold (H.digest h) n answers)) }
    ensures lacks { IfErr result
        (λ status. LacksAnswers status (H.digest h) image.now n (option_copied digests.entry) (S.left source.old)
        (V.names vault.old) (Rises (S.faults source.old) (S.faults source.new))
        (Rises (V.faults vault.old) (V.faults vault.new))) }
    ensures same { V.names vault.new ≡ V.names vault.old }
    ensures all_read { IfOk result
        (λ answers. IfSome (S.left source.old) (λ input. S.left source.new ≡ Some [])) }
    ensures read { IfErr result
        (λ status. IfSome (S.left source.old) (λ input. HasReadBehind status input (S.left source.new))) }
    ensures all_reads { IfOk result
        (λ answers. Since (S.history source.old) (S.history source.new) (EndsAt Moved (Ok 0))) }
    ensures reads { IfErr result
        (λ status. Since (S.history source.old) (S.history source.new) (AreReadsBehind status)) }
    ensures gave { IfOk result (λ answers. Since (V.history vault.old) (V.history vault.new)
        (Gave (name_count (option_copied digests.entry)))) }
    ensures gets { IfErr result (λ status. Since (V.history vault.old) (V.history vault.new)
        (AreGetsBefore (name_count (option_copied digests.entry)) status)) }
    ensures calm { IfOk result (λ answers. (S.faults source.new ≡ S.faults source.old)
        × (V.faults vault.new ≡ V.faults vault.old)) }
    ensures unfailed { IfErr result (λ status. Unfailed status (S.faults source.new ≡ S.faults source.old)
        (V.faults vault.new ≡ V.faults vault.old) ⊤) }
{
    let subject = read_subject(vault, image, digests)?;
    let input = read_whole(alloc, source)?;
    tell_answers(
        alloc,
        h,
        &subject.image,
        file_in(&subject.digests),
        n,
        &input,
    )
}

/// Says what is told.
fn say<K: Sink>(alloc: Global, digests: Option<&str>, answers: &Answers, sink: &mut K) -> Status
    requires { AreNoYes answers.now }
    ensures ends { EndsSaying result (option_copied digests.entry) answers.now
        (Rises (K.faults sink.old) (K.faults sink.new) ⊎ Rises (K.stalls sink.old) (K.stalls sink.new))
        (K.taken sink.old) (K.taken sink.new) (sink.new ≡ sink.old) }
    ensures writes { Since (K.history sink.old) (K.history sink.new) (AreWrites result) }
    ensures unfailed { Unfailed result ⊤ ⊤
        ((K.faults sink.new ≡ K.faults sink.old) × (K.stalls sink.new ≡ K.stalls sink.old)) }
{
    match answers {
        Answers::Refused(verdict) => refuse(alloc, verdict, sink),
        Answers::Written { text, coverage } => {
            if let Err(Failed) = write_all(sink, text.as_bytes()) {
                return Status::SinkFault;
            }
            if lacks_digest(digests, *coverage) {
                Status::NoDigestHeld
            } else {
                Status::Done
            }
        }
    }
}

/// What is noted beside the answers: what the digests cover, where their name is given.
fn note_of(digests: Option<&str>, answers: &Answers) -> Option<Coverage>
    ensures { result ≡ answers_note (option_copied digests.entry) answers.now }
{
    match answers {
        Answers::Refused(_) => None,
        Answers::Written { coverage, .. } => match digests {
            Some(_) => Some(*coverage),
            None => None,
        },
    }
}

/// Verifies the image under a name, with the digests under another where one is given, reads the texts of the input,
/// and writes each with its answer over the image behind its first `n` transactions; of an image that isn't accepted,
/// says the verdict.
pub fn answer_as_of<H: Hash32, S: Source, K: Sink, V: Vault>(
    alloc: Global,
    h: H,
    image: &str,
    n: u64,
    digests: Option<&str>,
    source: &mut S,
    sink: &mut K,
    vault: &mut V,
) -> Ended
    ensures cause { AsOfCause result.status (H.digest h) image.now n (option_copied digests.entry) (S.left source.old)
        (V.names vault.old) (Rises (S.faults source.old) (S.faults source.new))
        (Rises (V.faults vault.old) (V.faults vault.new))
        (Rises (K.faults sink.old) (K.faults sink.new) ⊎ Rises (K.stalls sink.old) (K.stalls sink.new)) }
    ensures answered { SaidOrIdle result.status
        (SaysAnswers result.status (H.digest h) image.now n (option_copied digests.entry) result.covers
        (S.left source.old) (V.names vault.old) (K.taken sink.old) (K.taken sink.new)) (sink.new ≡ sink.old) }
    ensures same { V.names vault.new ≡ V.names vault.old }
    ensures read { IfSome (S.left source.old) (λ input. HasReadBehind result.status input (S.left source.new)) }
    ensures reads { Since (S.history source.old) (S.history source.new) (AreReadsBehind result.status) }
    ensures gets { Since (V.history vault.old) (V.history vault.new)
        (AreGetsBefore (name_count (option_copied digests.entry)) result.status) }
    ensures writes { Since (K.history sink.old) (K.history sink.new) (AreWrites result.status) }
    ensures unfailed { Unfailed result.status (S.faults source.new ≡ S.faults source.old)
        (V.faults vault.new ≡ V.faults vault.old)
        ((K.faults sink.new ≡ K.faults sink.old) × (K.stalls sink.new ≡ K.stalls sink.old)) }
{
    match tell_names(alloc, h, image, n, digests, source, vault) {
        Ok(answers) => {
            let status = say(alloc, digests, &answers, sink);
            let covers = note_of(digests, &answers);
            Ended { status, covers }
        }
        Err(status) => Ended {
            status,
            covers: None,
        },
    }
}

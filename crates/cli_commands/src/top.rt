//! The top call.

ghost use Rattle.std.specs.Prelude.{◌≡◌, ◌⊎◌, map, string_bytes, None, IfSome, false};
ghost use Rattle.sha2.specs.Sha256.{sha256};
ghost use Rattle.base_io.specs.Count.{Rises};
ghost use Rattle.base_io.specs.History.{Since};
ghost use Rattle.cli_words.specs.Commands.{command_of};
ghost use Rattle.cli_commands.specs.Words.{OfStep, OfStepFrom, OfRun, OfRunFrom};
ghost use Rattle.cli_commands.specs.Words.{OfVerify, OfReplay, OfUpgrade, OfExtract, OfGen, OfTell};
ghost use Rattle.cli_commands.specs.Words.{OfReceipt, OfCheck, OfAsOf};
ghost use Rattle.cli_audit.specs.AsOf.{AreReadsBehind, HasReadBehind, SaysAnswers};
ghost use Rattle.cli_commands.specs.Words.{notes_coverage, reads_input, puts_files};
ghost use Rattle.cli_audit.specs.Answer.{HasRead, Unfailed};
ghost use Rattle.cli_commands.specs.Answer.{RanAndSaved, RunOutcomeOrIdle};
ghost use Rattle.cli_audit.specs.Calls.{AreReads, AreWrites};
ghost use Rattle.cli_commands.specs.Calls.{AreCalls};
ghost use Rattle.cli_commands.specs.Cause.{HasCause};
ghost use Rattle.cli_audit.specs.Check.{Checks, ShowsClaim};
ghost use Rattle.cli_audit.specs.Extract.{Extracts};
ghost use Rattle.cli_commands.specs.Generated.{HasGenerated};
ghost use Rattle.cli_commands.specs.GoesOn.{LinesComeToBehind, SectionsComeToBehind};
ghost use Rattle.cli_commands.specs.Input.{line_form, section_form};
ghost use Rattle.cli_audit.specs.Receipt.{Receipted, SaysNo, ReceiptedOrIdle, PutsReceipt};
ghost use Rattle.cli_audit.specs.Past.{AreReadsBehindPast, HasReadBehindPast};
ghost use Rattle.cli_audit.specs.Replay.{JournalUnder, SavesReplay, ReplayedOrIdle, PutsAccepted};
ghost use Rattle.cli_commands.specs.Run.{LinesComeTo, SectionsComeTo};
ghost use Rattle.cli_audit.specs.Tell.{HasTold};
ghost use Rattle.cli_audit.specs.Upgrade.{Upgraded, UpgradedOrIdle, PutsTheSame};
ghost use Rattle.cli_audit.specs.Verified.{SaysVerdict};
ghost use Rattle.cli_audit.specs.Verify.{SaidOrIdle};

use crate::generate::generate;
use crate::part::receipt_of_part;
use crate::run::run_side_by_side;
use crate::run_from::run_from;
use crate::step::step;
use crate::step_from::step_from;
use crate::version::tell_version;
use base_io::{Clock, Gate, Sink, Source, Vault};
use base_merkle::Sha256Hash;
use base_types::Memory;
use cli_audit::{
    Ended, Status, Wanted, answer_as_of, check_receipt, compare_images, make_receipt,
    replay_journal, tell_text, upgrade_image, verify_image,
};
use cli_words::{Command, help_text, read_command};
use std::alloc::Global;
use std::sync::Wait;
use std::thread::Threads;

/// Runs the command that the words give.
///
/// `step --save NAME` reads an input of statements, `session: statement` on each line, and runs them in their
/// order on one thread, each at a moment that the clock says. The sessions begin before the first line and
/// end, in the order in which they appear, behind the last. For each number of journal items that a SAVE
/// IMAGE answered, the image goes under `NAME-m.img`, m being that number, the least first; then that of the
/// whole journal under `NAME.img`, the digests under `NAME.digests` and the journal of what was committed
/// under `NAME.journal`. Then the transcript is written, which has what each statement was answered, in the
/// order of the lines. Transcripts, journal, digests and images agree: each image is that of its part of the
/// journal, and `verify` says `Yes` of it, where it has at most 256 MiB, with any of these digests whose blocks are
/// closed in it.
/// `--block-size N` says how many transactions a block has, `--clock T` at which moment all is done, and
/// `--database D` the name of the database.
///
/// With `--from JOURNAL` the database isn't empty: what stands under the name of a journal, as `step` and `run` save
/// one, is run again, as `replay` does, and the sessions go on from what that leads to, of the database that it names.
/// All that is promised of a run holds behind that past: ids go on above the greatest that the journal has, its
/// entries, blocks and pending entries stay, the journal that is saved begins with its items, and `verify` says `Yes`
/// of each image with every digest that was ever issued of its blocks. Blocks that are full by `--block-size` are closed
/// first. `--database` beside it is refused as words.
///
/// `run --save NAME` reads an input of sections: behind a line `-- setup` the statements of a session
/// `setup`, and behind each line `-- session S` those of the session S. It runs the setup to its end, and
/// then all sessions side by side, each in a thread of its own that runs its statements in their order, while
/// another thread closes blocks. It puts the files of `step`, and then writes the transcripts: that of the
/// setup, and then each session's in the order of the input. However the turns of the threads fall,
/// transcripts, journal, digests and images agree as those of `step` do, but that lines have no order there.
/// Its options are those of `step`.
///
/// `verify IMAGE DIGESTS` reads what stands under the two names, and writes the verdict on the image with the
/// digests: `Yes`, and the status is `Done`, or `No` with the first invariant that fails and its least place,
/// and the status is `No`. Where the list has no digest the status is `NoDigestHeld` in the place of `Done`, as it is
/// of `extract` and of `asof --digests`. `verify IMAGE` asks for no digest: it looks at the image alone. It puts nothing
/// and reads no input.
///
/// `replay JOURNAL --save NAME` reads what stands under the name of a journal, as `step` and `run` save
/// one, and runs its statements again in their order, one transaction after another. Where each is answered
/// with the reply that the journal keeps, and each transaction leaves a start or an end of a version, the
/// journal is legal: then its image goes under `NAME.img`, its own bytes under `NAME.journal`, and the
/// number of its transactions is written. Whoever has digests of blocks that the journal closed gets `Yes`
/// for that image, where it has at most 256 MiB.
///
/// `upgrade IMAGE --save NAME` reads what stands under the name of an image, in version 2 or in version 1, and puts
/// the same image in version 2 under `NAME.img`, and writes `upgraded`. With every list of digests `verify` says the
/// same of both, where the new one too has at most 256 MiB: version 2 may be longer. It verifies nothing: where the
/// bytes are an image of neither version, the status is `NotImage`.
///
/// `extract HONEST SUSPECT DIGESTS` reads what stands under the three names and verifies both images with the
/// digests. Where the honest one isn't accepted it writes `honest: ` and the line of the verdict, and else
/// `suspect: ` where the suspect one isn't; the status is `No`. Where both are, all that any of the digests
/// covers is the same in both, and it writes `Same`, and the status is `Done`; or it writes `Collision`, and
/// on two lines, in hexadecimal digits, two different strings of bytes with one SHA-256: the status is `No`.
/// It puts nothing and reads no input.
///
/// `receipt IMAGE DIGESTS TX --save NAME` reads what stands under the two names and verifies the image with the
/// digests. Where the verdict is No it writes the line of the verdict, and the status is `No`. Else it makes the
/// receipt of the transaction with this id under the digest of the greatest block, the first of these, puts it
/// under `NAME.receipt`, and writes the block of the transaction's entry and its place there. The receipt is
/// accepted with the digest. Where there is no digest, or no entry up to its block is of the transaction, the
/// status is `NoEntry`. With `--table ID` the receipt has all events of the transaction in this table too, and with
/// `--event N` behind it the one with this number alone; where there is none the status is `NoEntry`.
///
/// `join IMAGE DIGESTS --save NAME` does the same of the digests themselves: what it puts under `NAME.chain` are the
/// records from the least to the greatest of the digests' blocks, and it writes the numbers of these two.
///
/// What the digests cover of an image that `verify`, `extract` or `asof --digests` accepted is noted: how many of its
/// transactions, and which of its blocks. `verify --coverage IMAGE DIGESTS` writes it on a second line instead.
///
/// `check RECEIPT DIGESTS` reads what stands under the two names, and tells the kind of the receipt by its first
/// bytes. Where it is accepted with the first digest that is of its last record's block it writes `Yes`, and the
/// status is `Done`; of a chain `Yes` and the blocks of its first and last record, where its records are in order and
/// each digest is that of one of them. Else the status is `No`, and it writes `No join of block K` where a chain leaves
/// a digest out, K being the least block of those that it leaves out; `No digest of block K` where no digest is of the
/// last block, which is K; and `No receipt` for the rest. After
/// `Yes` each image that is accepted with this digest has the receipt's entry at its place, just the events of it in
/// the table that a receipt has all of, the event that one has, and the block of each digest that is held with a chain;
/// or SHA-256 has a collision of a string of bytes that is hashed where the receipt is checked with one that is hashed
/// where the image is verified. It puts nothing and reads no input.
///
/// `asof IMAGE N` reads what stands under the name and verifies the image, with the digests under another name where
/// `--digests DIGESTS` is given, and with none where it isn't. Where the verdict is No it writes the line of the verdict,
/// and the status is `No`. Else it answers each text of the input, one for each line that isn't empty and doesn't begin
/// with `--`, over the database behind the image's first N transactions in ledger order, whatever came later: a SELECT by
/// the meaning of statements, E01 for a text outside the grammar, and E21 for any other statement. It writes each text,
/// and behind it the lines of its answer, each behind two blanks. Where the image has fewer entries, the status is
/// `TooFar`. It puts nothing.
///
/// `gen COUNT` runs a workload of four sessions side by side, each of which inserts so many rows into a table
/// of its own and adds 1 to every tenth, and writes five lines: how many transactions there are, rows, versions
/// that have ended, the sum of the rows' values, and the verdict on the image. However the turns of the threads
/// fall, these are 4 and 4.4 times the count, 4 times the count, 0.4 times the count, what was inserted and
/// added, and `Yes` (of a count that isn't a multiple of ten, the tenths are rounded down for each table). It
/// reads no input and puts no file.
///
/// `--help` (or `-h` or `help`) and `--version` (or `-V`) as the only word, `--help` or `-h` as the only word
/// behind a command, and `help` before one, print a text.
///
/// An option and its value are two words or one, `--save NAME` or `--save=NAME`, and stand anywhere behind
/// the command. `verify --workers N` lets N threads look at an image, and says what is so without it.
///
/// Only `run`, `gen` and `verify` with more than one worker start threads, and only `run` calls the gate.
///
/// `Words` comes before anything else, and so does want of memory for the words. Where `step` or `run` goes on from a
/// journal, the name is looked at next, whether it is there and then how long, then whether the bytes are those of a
/// journal, and whether that is legal and a server's; all this before the input is read. Of `step` and `run`, `Limit`
/// and `Form` come before anything is put; the size of the input is looked at first, then the form of all
/// lines, and then the number of sessions. After `VaultFault` the files before the one that failed stand, its
/// name is open, and nothing was written; after `Memory` the first of the files may stand. After `SinkFault`
/// all files stand and a first part of the text was written. Of `verify` and `extract`, the names are looked
/// at in the order of the words, each whether it is there and then how long, then the digests, and last the
/// images: `Digests` comes before `No`. Of `upgrade`, the name is looked at so, and then whether the bytes are those
/// of an image, before anything is put. Of `replay`, the name is looked at so, then whether the bytes are
/// those of a journal, and last whether that is legal; all this before anything is put. Of `receipt` and `join`, the
/// names and the digests are looked at as of `verify`, then the image, and last whether there is such an entry: `No`
/// comes before `NoEntry`, and all this before anything is put. Of `check`, the names, then whether the bytes are
/// those of a receipt of any kind, and then the digests: `Receipt` comes before `Digests`. Of `asof`, the
/// names are looked at as of `verify`, then the size of the input and whether its lines are UTF-8, then the digests, then
/// the image, and last how many entries it has: `Form` comes before `Digests`, and `No` before `TooFar`.
pub fn ledgerd<S: Source, K: Sink, V: Vault, C: Clock, G: Gate, R: Threads + Wait + Sync>(
    rt: &R,
    alloc: Global,
    words: &[String],
    source: &mut S,
    sink: &mut K,
    vault: &mut V,
    clock: &C,
    gate: &G,
) -> Ended
    // Each status has its cause.
    ensures cause { HasCause result.status sha256 (command_of (map string_bytes words.now))
        (S.left source.old) (V.names vault.old)
        (Rises (S.faults source.old) (S.faults source.new))
        (Rises (V.faults vault.old) (V.faults vault.new))
        (Rises (K.faults sink.old) (K.faults sink.new) ⊎ Rises (K.stalls sink.old) (K.stalls sink.new)) }

    // Where the words say no command, nothing is touched. Only `step`, `run` and `asof` read the input; the first two,
    // `replay`, `upgrade`, `receipt` and `join` put files.
    ensures words { command_of (map string_bytes words.now) ≡ None
        → (source.new ≡ source.old) × (vault.new ≡ vault.old) × (sink.new ≡ sink.old) }
    ensures unread { reads_input (command_of (map string_bytes words.now)) ≡ false
        → source.new ≡ source.old }
    ensures unput { puts_files (command_of (map string_bytes words.now)) ≡ false
        → V.names vault.new ≡ V.names vault.old }

    // `step`: what is read, by the status; and what is put and written of a run whose transcripts, journal,
    // digests and images agree.
    ensures read { OfStep (command_of (map string_bytes words.now))
        (λ save settings. IfSome (S.left source.old) (λ input. HasRead result.status input (S.left source.new))) }
    ensures ran { OfStep (command_of (map string_bytes words.now)) (λ save settings. RunOutcomeOrIdle result.status
        (RanAndSaved result.status line_form (LinesComeTo sha256 settings (C.says clock.now)) save (S.left source.old)
        (V.names vault.old) (V.names vault.new) (K.taken sink.old) (K.taken sink.new))
        ((vault.new ≡ vault.old) × (sink.new ≡ sink.old))) }

    // `run`: the same of sections whose sessions were run side by side.
    ensures read_sections { OfRun (command_of (map string_bytes words.now))
        (λ save settings. IfSome (S.left source.old) (λ input. HasRead result.status input (S.left source.new))) }
    ensures ran_all { OfRun (command_of (map string_bytes words.now)) (λ save settings. RunOutcomeOrIdle result.status
        (RanAndSaved result.status section_form (SectionsComeTo sha256 settings (C.says clock.now)) save
        (S.left source.old) (V.names vault.old) (V.names vault.new) (K.taken sink.old) (K.taken sink.new))
        ((vault.new ≡ vault.old) × (sink.new ≡ sink.old))) }

    // `step` and `run` that go on from the journal under a name: the same behind the past that this journal is. What
    // is saved begins with its items, and `verify` says Yes of each image with every digest that was ever issued of
    // blocks which it closed.
    ensures read_behind { OfStepFrom (command_of (map string_bytes words.now))
        (λ save journal settings. IfSome (S.left source.old)
        (λ input. HasReadBehindPast result.status input (S.left source.new))) }
    ensures ran_behind { OfStepFrom (command_of (map string_bytes words.now))
        (λ save journal settings. ReplayedOrIdle result.status
        (JournalUnder journal (V.names vault.old) (λ J. RanAndSaved result.status line_form
        (LinesComeToBehind sha256 settings (C.says clock.now) J) save (S.left source.old)
        (V.names vault.old) (V.names vault.new) (K.taken sink.old) (K.taken sink.new)))
        ((V.names vault.new ≡ V.names vault.old) × (sink.new ≡ sink.old))) }
    ensures read_sections_behind { OfRunFrom (command_of (map string_bytes words.now))
        (λ save journal settings. IfSome (S.left source.old)
        (λ input. HasReadBehindPast result.status input (S.left source.new))) }
    ensures ran_all_behind { OfRunFrom (command_of (map string_bytes words.now))
        (λ save journal settings. ReplayedOrIdle result.status
        (JournalUnder journal (V.names vault.old) (λ J. RanAndSaved result.status section_form
        (SectionsComeToBehind sha256 settings (C.says clock.now) J) save (S.left source.old)
        (V.names vault.old) (V.names vault.new) (K.taken sink.old) (K.taken sink.new)))
        ((V.names vault.new ≡ V.names vault.old) × (sink.new ≡ sink.old))) }

    // `verify`: the line of the verdict on what stands under the names, and what the digests cover, by the status: on a
    // second line where it is asked for, and else as what is noted.
    ensures verified { OfVerify (command_of (map string_bytes words.now))
        (λ image digests covers. SaidOrIdle result.status
        (SaysVerdict result.status sha256 image digests covers result.covers
        (V.names vault.old) (K.taken sink.old) (K.taken sink.new)) (sink.new ≡ sink.old)) }

    // `extract`: the lines of what is found of the two images under the names, by the status.
    ensures extracts { OfExtract (command_of (map string_bytes words.now))
        (λ honest suspect digests. SaidOrIdle result.status
        (Extracts result.status sha256 honest suspect digests result.covers
        (V.names vault.old) (K.taken sink.old) (K.taken sink.new)) (sink.new ≡ sink.old)) }

    // `gen`: the lines of what is counted of a run of the workload, which are those that are expected.
    ensures generated { OfGen (command_of (map string_bytes words.now))
        (λ count. SaidOrIdle result.status
        (HasGenerated result.status sha256 count (K.taken sink.old) (K.taken sink.new)) (sink.new ≡ sink.old)) }

    // Help and the version: the text, by the status.
    ensures told { OfTell (command_of (map string_bytes words.now))
        (λ text. SaidOrIdle result.status
        (HasTold result.status text (K.taken sink.old) (K.taken sink.new)) (sink.new ≡ sink.old)) }

    // `replay`: what is put and written of the legal journal under the name, by the status; and the image
    // that is put is accepted with any digests of the journal's blocks.
    ensures replayed { OfReplay (command_of (map string_bytes words.now))
        (λ journal save. ReplayedOrIdle result.status
        (SavesReplay result.status sha256 journal save
        (V.names vault.old) (V.names vault.new) (K.taken sink.old) (K.taken sink.new))
        ((V.names vault.new ≡ V.names vault.old) × (sink.new ≡ sink.old))) }
    ensures accepted { OfReplay (command_of (map string_bytes words.now))
        (λ journal save. result.status ≡ Status.Done
        → PutsAccepted sha256 journal save (V.names vault.old) (V.names vault.new)) }

    // `upgrade`: what is put and written of the image under the name, by the status; and what is put has the
    // verdict of what was read, with every hash and every list of digests.
    ensures upgraded { OfUpgrade (command_of (map string_bytes words.now))
        (λ image save. UpgradedOrIdle result.status
        (Upgraded result.status image save
        (V.names vault.old) (V.names vault.new) (K.taken sink.old) (K.taken sink.new))
        ((V.names vault.new ≡ V.names vault.old) × (sink.new ≡ sink.old))) }
    ensures one_verdict { OfUpgrade (command_of (map string_bytes words.now))
        (λ image save. result.status ≡ Status.Done
        → PutsTheSame image save (V.names vault.old) (V.names vault.new)) }

    // `receipt` and `join`: what is put and written of the receipt, or the line of a verdict that isn't Yes, by the
    // status; and the receipt that is put is accepted with the digest of the greatest block, a chain with all.
    ensures receipted { OfReceipt (command_of (map string_bytes words.now))
        (λ image digests wanted save. ReceiptedOrIdle result.status
        (Receipted result.status sha256 image digests wanted save
        (V.names vault.old) (V.names vault.new) (K.taken sink.old) (K.taken sink.new))
        (SaysNo result.status sha256 image digests
        (V.names vault.old) (V.names vault.new) (K.taken sink.old) (K.taken sink.new))
        ((V.names vault.new ≡ V.names vault.old) × (sink.new ≡ sink.old))) }
    ensures shown { OfReceipt (command_of (map string_bytes words.now))
        (λ image digests wanted save. result.status ≡ Status.Done
        → PutsReceipt sha256 image digests wanted save (V.names vault.old) (V.names vault.new)) }

    // `check`: the line of what is answered of the receipt or chain under the name, by the status; and after
    // `Yes` no image that is accepted with the digest contradicts it, or SHA-256 has a collision of what is hashed
    // of the receipt and of the image.
    ensures checked { OfCheck (command_of (map string_bytes words.now))
        (λ receipt digests. SaidOrIdle result.status
        (Checks result.status sha256 receipt digests
        (V.names vault.old) (K.taken sink.old) (K.taken sink.new)) (sink.new ≡ sink.old)) }
    ensures shows { OfCheck (command_of (map string_bytes words.now))
        (λ receipt digests. result.status ≡ Status.Done → ShowsClaim sha256 receipt digests (V.names vault.old)) }

    // `asof`: what is read behind the names, by the status; and what is told of the image under the name, by the texts
    // of the input.
    ensures read_texts { OfAsOf (command_of (map string_bytes words.now))
        (λ image n digests. IfSome (S.left source.old)
        (λ input. HasReadBehind result.status input (S.left source.new))) }
    ensures answered { OfAsOf (command_of (map string_bytes words.now))
        (λ image n digests. SaidOrIdle result.status
        (SaysAnswers result.status sha256 image n digests result.covers (S.left source.old)
        (V.names vault.old) (K.taken sink.old) (K.taken sink.new)) (sink.new ≡ sink.old)) }

    // The first fault or stall is the last call: nothing is tried again, and nothing is read behind the end.
    ensures reads { OfStep (command_of (map string_bytes words.now))
        (λ save settings. Since (S.history source.old) (S.history source.new) (AreReads result.status)) }
    ensures reads_sections { OfRun (command_of (map string_bytes words.now))
        (λ save settings. Since (S.history source.old) (S.history source.new) (AreReads result.status)) }
    ensures reads_behind { OfStepFrom (command_of (map string_bytes words.now))
        (λ save journal settings. Since (S.history source.old) (S.history source.new)
        (AreReadsBehindPast result.status)) }
    ensures reads_sections_behind { OfRunFrom (command_of (map string_bytes words.now))
        (λ save journal settings. Since (S.history source.old) (S.history source.new)
        (AreReadsBehindPast result.status)) }
    ensures reads_texts { OfAsOf (command_of (map string_bytes words.now))
        (λ image n digests. Since (S.history source.old) (S.history source.new) (AreReadsBehind result.status)) }
    ensures calls { Since (V.history vault.old) (V.history vault.new)
        (AreCalls (command_of (map string_bytes words.now)) result.status) }
    ensures writes { Since (K.history sink.old) (K.history sink.new) (AreWrites result.status) }
    ensures unfailed { Unfailed result.status (S.faults source.new ≡ S.faults source.old)
        (V.faults vault.new ≡ V.faults vault.old)
        ((K.faults sink.new ≡ K.faults sink.old) × (K.stalls sink.new ≡ K.stalls sink.old)) }

    // Of other commands nothing is noted.
    ensures unnoted { notes_coverage (command_of (map string_bytes words.now)) ≡ false → result.covers ≡ None }

    // Nothing is written before all is put, and before the verdict.
    ensures unwritten { (result.status ≡ Status.Done → ⊥) → (result.status ≡ Status.No → ⊥)
        → (result.status ≡ Status.NoDigestHeld → ⊥) → (result.status ≡ Status.SinkFault → ⊥)
        → sink.new ≡ sink.old }
{
    let command = match read_command(alloc, words) {
        Ok(Some(command)) => command,
        Ok(None) => {
            return Ended {
                status: Status::Words,
                covers: None,
            };
        }
        Err(Memory) => {
            return Ended {
                status: Status::Memory,
                covers: None,
            };
        }
    };
    match command {
        Command::Step {
            save,
            from: None,
            settings,
        } => Ended {
            status: step(
                alloc, Sha256Hash, save, settings, source, sink, vault, clock,
            ),
            covers: None,
        },
        Command::Step {
            save,
            from: Some(journal),
            settings,
        } => Ended {
            status: step_from(
                alloc, Sha256Hash, save, journal, settings, source, sink, vault, clock,
            ),
            covers: None,
        },
        Command::Run {
            save,
            from: None,
            settings,
        } => Ended {
            status: run_side_by_side(
                rt, alloc, Sha256Hash, save, settings, source, sink, vault, clock, gate,
            ),
            covers: None,
        },
        Command::Run {
            save,
            from: Some(journal),
            settings,
        } => Ended {
            status: run_from(
                rt, alloc, Sha256Hash, save, journal, settings, source, sink, vault, clock, gate,
            ),
            covers: None,
        },
        Command::Verify {
            image,
            digests,
            workers,
            covers,
        } => {
            verify_image(
                rt, alloc, Sha256Hash, image, digests, workers, covers, sink, vault,
            )
        }
        Command::Extract {
            honest,
            suspect,
            digests,
        } => compare_images(alloc, Sha256Hash, honest, suspect, digests, sink, vault),
        Command::Replay { journal, save } => Ended {
            status: replay_journal(alloc, Sha256Hash, journal, save, sink, vault),
            covers: None,
        },
        Command::Upgrade { image, save } => Ended {
            status: upgrade_image(alloc, image, save, sink, vault),
            covers: None,
        },
        Command::Receipt {
            image,
            digests,
            tx,
            part,
            save,
        } => Ended {
            status: receipt_of_part(
                alloc, Sha256Hash, image, digests, tx, part, save, sink, vault,
            ),
            covers: None,
        },
        Command::Join {
            image,
            digests,
            save,
        } => Ended {
            status: make_receipt(
                alloc,
                Sha256Hash,
                image,
                digests,
                Wanted::Chain,
                save,
                sink,
                vault,
            ),
            covers: None,
        },
        Command::Check { receipt, digests } => Ended {
            status: check_receipt(alloc, Sha256Hash, receipt, digests, sink, vault),
            covers: None,
        },
        Command::AsOf { image, n, digests } => {
            answer_as_of(alloc, Sha256Hash, image, n, digests, source, sink, vault)
        }
        Command::Gen { count } => Ended {
            status: generate(rt, alloc, Sha256Hash, count, sink),
            covers: None,
        },
        Command::Help(which) => Ended {
            status: tell_text(help_text(which), sink),
            covers: None,
        },
        Command::Version => Ended {
            status: tell_version(alloc, sink),
            covers: None,
        },
    }
}

//! Two calls in a row, over a vault that tells what it has.

ghost use Rattle.std.specs.Prelude.{ℕ, ◌≡◌, ◌≤◌, List, Option, Some, length};
ghost use Rattle.base_io.specs.Store.{Bytes, Names};
ghost use Rattle.sql_types.specs.declared.digest.HeldDigest.{HeldDigest};
ghost use Rattle.sql_types.specs.declared.journal.Journal.{Journal};
ghost use Rattle.spec_syntax.specs.Text.{reading_of};
ghost use Rattle.spec_verify.specs.declared.place.Verdict.TheVariants.{Yes};
ghost use Rattle.spec_verify.specs.Bytes.{verdict_of};
ghost use Rattle.law_headline.specs.Held.{AllHeld};
ghost use Rattle.server_result.specs.declared.ran.RunOutcome.{RunOutcome as Output};
ghost use Rattle.cli_words.specs.Commands.{Settings};
ghost use Rattle.cli_commands.specs.Answer.{RanAndSaved};
ghost use Rattle.cli_commands.specs.GoesOn.{LinesComeToBehind, SectionsComeToBehind};
ghost use Rattle.cli_commands.specs.Input.{line_form, section_form};
ghost use Rattle.cli_commands.specs.Names.{image_limit};
ghost use Rattle.cli_commands.specs.Replay.{IsSpelled, IsUnderName, PutsAccepted, SavesReplay};
ghost use Rattle.cli_commands.specs.Files.{image_name, journal_name};
ghost use Rattle.cli_commands.specs.Run.{LinesComeTo, SectionsComeTo};
ghost use Rattle.cli_commands.specs.Status.{Status};
ghost use Rattle.cli_commands.specs.Status.TheVariants.{Done};
ghost use Rattle.law_commands.specs.Calls.{EndsVerify, EndsExtract, SaysYes, SaysSameOrCollision, faults_in};
ghost use Rattle.law_commands.specs.Exhibits.{AcceptThePast, AreDigestsOf, AreExhibits, held_of};
ghost use Rattle.law_commands.specs.Exhibits.{HoldsDigests, HoldsImage, IsExhibit};

use crate::digests::digests_that_were_put_can_be_read;
use crate::values::saved_files_keep_the_headline;
use base_io::{Clock, Sink, Vault};
use format_journal::equal_bytes_are_of_equal_journals;
use law_blocks::histories_may_hash_so;
use spec_history::statements_have_such_a_meaning;

/// Where `step`, `run` or `replay` ended with `Done` over a vault that tells what it has, and `verify` or `extract`
/// runs over what the vault has then, under the names that were put: the line of `verify` is `Yes`, and that of
/// `extract` with any other image that is accepted is `Same`, or `Collision` with two different strings of bytes
/// that have one hash; unless a fault or want of memory comes first. A file without a digest shows nothing: the calls
/// end with `NoDigestHeld` then.
///
/// What was put has to be within the limits of what is read; the file of digests of a run is, where the input is
/// told. With NAME.img goes NAME.digests, which has all digests that were issued; with NAME-m.img any file of
/// digests of blocks that are closed in it; and with the image of `replay` any file of digests of blocks that its
/// journal closed. Of the journal that a run saved it makes the image that the run saved.
///
/// Where a run goes on from a journal, with each image that it saved goes besides any file of digests of blocks that
/// this journal closed. A run issues digests of blocks that its own journal closed, and these stay closed where a later
/// run goes on from that: so the image of each day is accepted with the digests of every day before.
pub fn what_was_saved_is_accepted<K: Sink, V: Vault, C: Clock>()
    // the first call
    ensures step { (h : List ℕ → List ℕ) (how : Settings) (clock : C) (save : List ℕ) (input : Option (List ℕ))
        (old new : Names) (taken_old taken_new : Option (List ℕ))
        → (ran : RanAndSaved Done line_form (LinesComeTo h how (C.says clock)) save input
        (Some old) (Some new) taken_old taken_new)
        → AreExhibits h new save input ran.output ran.saved.digests }
    ensures run { (h : List ℕ → List ℕ) (how : Settings) (clock : C) (save : List ℕ) (input : Option (List ℕ))
        (old new : Names) (taken_old taken_new : Option (List ℕ))
        → (ran : RanAndSaved Done section_form (SectionsComeTo h how (C.says clock)) save input
        (Some old) (Some new) taken_old taken_new)
        → AreExhibits h new save input ran.output ran.saved.digests }
    // and where it goes on from a journal
    ensures step_behind { (h : List ℕ → List ℕ) (how : Settings) (clock : C) (J : Journal) (save : List ℕ)
        (input : Option (List ℕ)) (old new : Names) (taken_old taken_new : Option (List ℕ))
        → (ran : RanAndSaved Done line_form (LinesComeToBehind h how (C.says clock) J) save input
        (Some old) (Some new) taken_old taken_new)
        → AreExhibits h new save input ran.output ran.saved.digests × AcceptThePast h new save J ran.output }
    ensures run_behind { (h : List ℕ → List ℕ) (how : Settings) (clock : C) (J : Journal) (save : List ℕ)
        (input : Option (List ℕ)) (old new : Names) (taken_old taken_new : Option (List ℕ))
        → (ran : RanAndSaved Done section_form (SectionsComeToBehind h how (C.says clock) J) save input
        (Some old) (Some new) taken_old taken_new)
        → AreExhibits h new save input ran.output ran.saved.digests × AcceptThePast h new save J ran.output }
    ensures replay { (h : List ℕ → List ℕ) (journal save : List ℕ) (old new : Names)
        → (puts : PutsAccepted h journal save (Some old) (Some new)) → length puts.image ≤ image_limit
        → (name : List ℕ) (digests : List HeldDigest) → HoldsDigests new name digests
        → AllHeld h (reading_of puts.read.J.version) puts.read.J.database puts.read.J.items digests
        → IsExhibit h new (image_name save) name puts.image digests }
    // a call that goes on from the journal that a run saved
    ensures next_day { (h : List ℕ → List ℕ) (save : List ℕ) (input : Option (List ℕ)) (o : Output)
        (file : List ℕ) (names : Names) (J : Journal) (bytes : List ℕ)
        → AreExhibits h names save input o file
        → IsUnderName (journal_name save) (Some names) bytes → IsSpelled J bytes
        → (J ≡ o.journal) × AreDigestsOf h J (held_of o) }
    // `replay` of the journal that a run saved
    ensures same_image { (h : List ℕ → List ℕ) (save again : List ℕ) (input : Option (List ℕ)) (o : Output)
        (file : List ℕ) (names after : Names) (taken_old taken_new : Option (List ℕ))
        → AreExhibits h names save input o file
        → SavesReplay Done h (journal_name save) again (Some names) (Some after) taken_old taken_new
        → after (image_name again) ≡ Bytes o.image }
    // the second call
    ensures verify { (h : List ℕ → List ℕ) (names : Names) (image digests bytes : List ℕ)
        (held : List HeldDigest) (status : Status) (vault vault_then : V) (sink sink_then : K)
        → IsExhibit h names image digests bytes held → V.names vault ≡ Some names
        → EndsVerify h image digests (V.names vault)
        (faults_in (V.faults vault) (V.faults vault_then) (K.faults sink) (K.faults sink_then)
        (K.stalls sink) (K.stalls sink_then) (sink_then ≡ sink)) status (K.taken sink) (K.taken sink_then)
        → SaysYes held status
        (faults_in (V.faults vault) (V.faults vault_then) (K.faults sink) (K.faults sink_then)
        (K.stalls sink) (K.stalls sink_then) (sink_then ≡ sink)) (K.taken sink) (K.taken sink_then) }
    ensures extract { (h : List ℕ → List ℕ) (names : Names) (honest suspect digests bytes other : List ℕ)
        (held : List HeldDigest) (status : Status) (vault vault_then : V) (sink sink_then : K)
        → IsExhibit h names honest digests bytes held
        → HoldsImage names suspect other → verdict_of h held other ≡ Yes → V.names vault ≡ Some names
        → EndsExtract h honest suspect digests (V.names vault)
        (faults_in (V.faults vault) (V.faults vault_then) (K.faults sink) (K.faults sink_then)
        (K.stalls sink) (K.stalls sink_then) (sink_then ≡ sink)) status (K.taken sink) (K.taken sink_then)
        → SaysSameOrCollision h held bytes other status
        (faults_in (V.faults vault) (V.faults vault_then) (K.faults sink) (K.faults sink_then)
        (K.stalls sink) (K.stalls sink_then) (sink_then ≡ sink)) (K.taken sink) (K.taken sink_then) }
{
    saved_files_keep_the_headline::<C>();
    digests_that_were_put_can_be_read::<C>();
    equal_bytes_are_of_equal_journals();
    histories_may_hash_so();
    statements_have_such_a_meaning();
}

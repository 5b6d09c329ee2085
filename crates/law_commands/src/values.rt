//! What holds of every image that a call of `step` or `run` saved.

ghost use Rattle.std.specs.Prelude.{ℕ, List};
ghost use Rattle.sql_types.specs.declared.journal.Journal.{Journal};
ghost use Rattle.format_lines.specs.Line.{Statement};
ghost use Rattle.format_sections.specs.RunSections.{RunSections};
ghost use Rattle.server_result.specs.declared.ran.RunOutcome.{RunOutcome as Output};
ghost use Rattle.cli_commands.specs.PastCells.{past_seen};
ghost use Rattle.cli_words.specs.Commands.{Settings};
ghost use Rattle.cli_commands.specs.GoesOn.{LinesComeToBehind, SectionsComeToBehind};
ghost use Rattle.cli_commands.specs.Run.{LinesComeTo, SectionsComeTo};
ghost use Rattle.law_commands.specs.Runs.{LinesKeepHeadline, SectionsKeepHeadline};
ghost use Rattle.law_commands.specs.Runs.{LinesKeepHeadlineBehind, SectionsKeepHeadlineBehind};

use base_io::Clock;
use law_headline::{
    saved_images_are_serial_and_tamper_evident,
    saved_images_behind_a_past_are_serial_and_tamper_evident,
};

/// Every image that `step` or `run` saved is that of its committed transactions run by one thread in ledger
/// order with the replies given, and `verify` says Yes of it with every digest issued before; and whatever
/// `verify` says Yes of with those digests has the same covered transactions and row versions, or two different
/// strings of bytes have one hash.
///
/// So it is where they go on from a journal: each image has the journal's transactions before those of the run, and
/// the digests issued before are those of the run and any that were ever issued of the journal.
pub fn saved_files_keep_the_headline<C: Clock>()
    ensures step { (h : List ℕ → List ℕ) (how : Settings) (clock : C) (statements : List Statement) (o : Output)
        → (came : LinesComeTo h how (C.says clock) statements o)
        → LinesKeepHeadline h how.block_size statements came.run.X o }
    ensures run { (h : List ℕ → List ℕ) (how : Settings) (clock : C) (all_sections : RunSections) (o : Output)
        → (came : SectionsComeTo h how (C.says clock) all_sections o)
        → SectionsKeepHeadline h all_sections came.left.X o }
    ensures step_behind { (h : List ℕ → List ℕ) (how : Settings) (clock : C) (J : Journal)
        (statements : List Statement) (o : Output)
        → (came : LinesComeToBehind h how (C.says clock) J statements o)
        → LinesKeepHeadlineBehind h how.block_size (past_seen came.past) statements came.run.X o }
    ensures run_behind { (h : List ℕ → List ℕ) (how : Settings) (clock : C) (J : Journal)
        (all_sections : RunSections) (o : Output)
        → (came : SectionsComeToBehind h how (C.says clock) J all_sections o)
        → SectionsKeepHeadlineBehind h (past_seen came.past) all_sections came.left.X o }
{
    saved_images_are_serial_and_tamper_evident::<C>();
    saved_images_behind_a_past_are_serial_and_tamper_evident::<C>();
}

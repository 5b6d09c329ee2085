//! How long the file of digests is that a call of `step` or `run` put.

ghost use Rattle.std.specs.Prelude.{ℕ, ◌≤◌, List, OnSome, Option, length};
ghost use Rattle.base_io.specs.Store.{Names};
ghost use Rattle.sql_types.specs.declared.journal.Journal.{Journal};
ghost use Rattle.cli_words.specs.Commands.{Settings};
ghost use Rattle.cli_commands.specs.Answer.{RanAndSaved};
ghost use Rattle.cli_commands.specs.GoesOn.{LinesComeToBehind, SectionsComeToBehind};
ghost use Rattle.cli_commands.specs.Input.{line_form, section_form};
ghost use Rattle.cli_commands.specs.Names.{digests_limit};
ghost use Rattle.cli_commands.specs.Run.{LinesComeTo, SectionsComeTo};
ghost use Rattle.cli_commands.specs.Status.{Status};

use crate::values::saved_files_keep_the_headline;
use base_io::Clock;
use law_blocks::histories_may_hash_so;
use law_digests::digest_files_can_be_read;
use spec_history::statements_have_such_a_meaning;

/// Where the input of `step` or `run` is told, the file of the digests that were issued in its run has no more
/// bytes than `verify` and `extract` read of such a file, however the call ended, and whether or not it goes on from a
/// journal.
pub fn digests_that_were_put_can_be_read<C: Clock>()
    ensures step { (h : List ℕ → List ℕ) (how : Settings) (clock : C) (ended : Status) (save : List ℕ)
        (input : Option (List ℕ)) (old new : Option Names) (taken_old taken_new : Option (List ℕ))
        → (ran : RanAndSaved ended line_form (LinesComeTo h how (C.says clock)) save input
        old new taken_old taken_new)
        → OnSome input (length ran.saved.digests ≤ digests_limit) }
    ensures run { (h : List ℕ → List ℕ) (how : Settings) (clock : C) (ended : Status) (save : List ℕ)
        (input : Option (List ℕ)) (old new : Option Names) (taken_old taken_new : Option (List ℕ))
        → (ran : RanAndSaved ended section_form (SectionsComeTo h how (C.says clock)) save input
        old new taken_old taken_new)
        → OnSome input (length ran.saved.digests ≤ digests_limit) }
    ensures step_behind { (h : List ℕ → List ℕ) (how : Settings) (clock : C) (J : Journal) (ended : Status)
        (save : List ℕ) (input : Option (List ℕ)) (old new : Option Names) (taken_old taken_new : Option (List ℕ))
        → (ran : RanAndSaved ended line_form (LinesComeToBehind h how (C.says clock) J) save input
        old new taken_old taken_new)
        → OnSome input (length ran.saved.digests ≤ digests_limit) }
    ensures run_behind { (h : List ℕ → List ℕ) (how : Settings) (clock : C) (J : Journal) (ended : Status)
        (save : List ℕ) (input : Option (List ℕ)) (old new : Option Names) (taken_old taken_new : Option (List ℕ))
        → (ran : RanAndSaved ended section_form (SectionsComeToBehind h how (C.says clock) J) save input
        old new taken_old taken_new)
        → OnSome input (length ran.saved.digests ≤ digests_limit) }
{
    saved_files_keep_the_headline::<C>();
    histories_may_hash_so();
    statements_have_such_a_meaning();
    digest_files_can_be_read();
}

//! What holds of every history that goes on from a journal.

ghost use Rattle.std.specs.Prelude.{ℕ, ◌≡◌, ◌+◌, ◌↔◌, List, length, Option};
ghost use Rattle.sql_types.specs.declared.journal.JournalItem.{JournalItem};
ghost use Rattle.spec_history.specs.Acts.{Act, of};
ghost use Rattle.spec_history.specs.Agree.{Agree};
ghost use Rattle.spec_history.specs.ByLocks.{LocksDecide};
ghost use Rattle.spec_history.specs.Digests.{Digest};
ghost use Rattle.spec_history.specs.ExactRefusals.{StepOrder};
ghost use Rattle.spec_history.specs.Guards.{Good};
ghost use Rattle.spec_history.specs.Histories.{ClosesInStep, Due, EndsComeLast, IsWhole, OneAtATime, SessionsBelow, lines_of, pending};
ghost use Rattle.spec_history.specs.Inputs.{InputLine, InputSession};
ghost use Rattle.spec_history.specs.Lists.{Text};
ghost use Rattle.spec_history.specs.Meaning.{Meaning};
ghost use Rattle.spec_history.specs.Transcripts.{Transcript};
ghost use Rattle.spec_history.specs.Worlds.{World, first, run};
ghost use Rattle.law_order.specs.OneOrder.{HaveOneOrder};
ghost use Rattle.law_behind.specs.AgreeBehind.{AgreeBehind};
ghost use Rattle.law_behind.specs.Forgotten.{IsWithout, without};
ghost use Rattle.law_behind.specs.OrderBehind.{HaveOneOrderBehind, StepOrderBehind};
ghost use Rattle.law_behind.specs.Past.{IsPast, Past, behind, no_past, unclosed};

/// The transcripts of a history that goes on from a journal, in which each act might happen when it did, and at
/// whose end every session is at rest, agree behind that past with the journal and the digests that it leads to.
pub fn histories_behind_a_past_agree()
    ensures { (q : Meaning) (database : Text) (past : Past) → IsPast q past
        → (history : List Act) (input : List InputSession) (setup : Option ℕ) (transcripts : List Transcript)
        → Good q database (behind past) history → IsWhole input setup transcripts history
        → AgreeBehind q database past input setup transcripts
        (run (behind past) history).items (run (behind past) history).issued }
{}

/// Where such a history takes one statement after another, ends its sessions behind the last, closes a block as soon
/// as N entries are pending, those of the past among them, and what is pending for a digest, and where locks decide,
/// it keeps step order behind the past.
pub fn histories_behind_a_past_keep_step_order()
    ensures { (q : Meaning) (database : Text) (N : ℕ) (past : Past) → IsPast q past
        → (history : List Act) (input : List InputSession) (setup : Option ℕ) (transcripts : List Transcript)
        → Good q database (behind past) history → IsWhole input setup transcripts history
        → OneAtATime first history → EndsComeLast first history
        → ClosesInStep N (pending (unclosed past.items)) history
        → LocksDecide q (length transcripts) (behind past) history
        → StepOrderBehind q N past (lines_of first history) transcripts (run (behind past) history).items }
{}

/// All that the transcripts show stands in one order behind the past.
pub fn histories_behind_a_past_are_in_one_order()
    ensures { (q : Meaning) (database : Text) (past : Past) → IsPast q past
        → (history : List Act) (input : List InputSession) (setup : Option ℕ) (transcripts : List Transcript)
        → Good q database (behind past) history → IsWhole input setup transcripts history
        → HaveOneOrderBehind q past setup transcripts (run (behind past) history).items }
{}

/// Where nothing came before, all of this is what is meant without a past.
pub fn without_a_past_nothing_else_is_meant()
    ensures past { (q : Meaning) → IsPast q no_past }
    ensures world { behind no_past ≡ first }
    ensures agree { (q : Meaning) (database : Text) (input : List InputSession) (setup : Option ℕ)
        (transcripts : List Transcript) (journal : List JournalItem) (digests : List Digest)
        → AgreeBehind q database no_past input setup transcripts journal digests
        ↔ Agree q database input setup transcripts journal digests }
    ensures step_order { (q : Meaning) (N : ℕ) (lines : List InputLine) (transcripts : List Transcript)
        (journal : List JournalItem)
        → StepOrderBehind q N no_past lines transcripts journal ↔ StepOrder q N lines transcripts journal }
    ensures one_order { (q : Meaning) (setup : Option ℕ) (transcripts : List Transcript) (journal : List JournalItem)
        → HaveOneOrderBehind q no_past setup transcripts journal ↔ HaveOneOrder q setup transcripts journal }
{}

/// Where some first sessions are over and have no transaction, what may happen may happen without them, with the
/// other sessions numbered from 0 on: it leads to the same journal, ids and digests, and to the same sessions.
pub fn sessions_that_are_over_can_be_forgotten()
    ensures { (q : Meaning) (database : Text) (count : ℕ) (history : List Act) (w v : World)
        → IsWithout count w v → Good q database w history
        → Good q database v (without count history) × IsWithout count (run w history) (run v (without count history)) }
{}

/// What is left goes as it went: each session does what it did, one statement after another if it was so, and its
/// lines, its ends, its closings and what locks decide are those of the whole.
pub fn what_is_left_goes_as_it_went()
    ensures parts { (q : Meaning) (database : Text) (count : ℕ) (history : List Act) (w v : World)
        → IsWithout count w v → Good q database w history
        → (n : ℕ) → of n (without count history) ≡ of (count + n) history }
    ensures below { (q : Meaning) (database : Text) (count : ℕ) (history : List Act) (w v : World)
        → IsWithout count w v → Good q database w history
        → (k : ℕ) → SessionsBelow (count + k) history → SessionsBelow k (without count history) }
    ensures one_at_a_time { (q : Meaning) (database : Text) (count : ℕ) (history : List Act) (w v : World)
        → IsWithout count w v → Good q database w history
        → OneAtATime w history → OneAtATime v (without count history) }
    ensures lines { (q : Meaning) (database : Text) (count : ℕ) (history : List Act) (w v : World)
        → IsWithout count w v → Good q database w history
        → lines_of v (without count history) ≡ lines_of w history }
    ensures ends { (q : Meaning) (database : Text) (count : ℕ) (history : List Act) (w v : World)
        → IsWithout count w v → Good q database w history
        → EndsComeLast w history → EndsComeLast v (without count history) }
    ensures closings { (count N : ℕ) (due : Due) (history : List Act)
        → ClosesInStep N due history → ClosesInStep N due (without count history) }
    ensures locks { (q : Meaning) (database : Text) (count : ℕ) (history : List Act) (w v : World)
        → IsWithout count w v → Good q database w history
        → (k : ℕ) → LocksDecide q (count + k) w history → LocksDecide q k v (without count history) }
{}

//! What holds of every history.

ghost use Rattle.std.specs.Prelude.{ℕ, ◌↔◌, List, length, Option, Some};
ghost use Rattle.spec_history.specs.Lists.{Text, Each};
ghost use Rattle.spec_history.specs.Inputs.{InputSession};
ghost use Rattle.spec_history.specs.Meaning.{Meaning};
ghost use Rattle.spec_history.specs.Transcripts.{Transcript};
ghost use Rattle.spec_history.specs.Agree.{Agree};
ghost use Rattle.spec_history.specs.Acts.{Act};
ghost use Rattle.spec_history.specs.Worlds.{first, run};
ghost use Rattle.spec_history.specs.Guards.{Good};
ghost use Rattle.sql_types.specs.declared.journal.JournalItem.{JournalItem};
ghost use Rattle.spec_model.specs.Journals as model;
ghost use Rattle.spec_model.specs.Script.{Reading};
ghost use Rattle.spec_history.specs.Real.{Hashing, IsReal};
ghost use Rattle.spec_history.specs.Serial.{IsLegal};
ghost use Rattle.spec_history.specs.StepOrder.{IsStepOrder};
ghost use Rattle.spec_history.specs.ExactRefusals.{StepOrder};
ghost use Rattle.spec_history.specs.ByLocks.{LocksDecide};
ghost use Rattle.spec_history.specs.Histories.{ClosesInStep, EndsComeLast, HasItsName, IsWhole, OneAtATime, lines_of, pending, rows_of};
ghost use Rattle.law_history.specs.Sample as sample;
ghost use Rattle.spec_history.specs.SoFar.{AgreeSoFar};

/// The transcripts of a history in which each act might happen when it did, and at whose end every session is
/// at rest, agree with the journal and the digests that the history leads to.
pub fn histories_agree()
    ensures { (q : Meaning) (database : Text) (history : List Act) (input : List InputSession)
        (setup : Option ℕ) (transcripts : List Transcript)
        → Good q database first history → IsWhole input setup transcripts history
        → Agree q database input setup transcripts (run first history).items (run first history).issued }
{}

/// At each moment of a good history the rules hold of all that its sessions have shown so far, also inside a
/// statement.
pub fn histories_agree_so_far()
    ensures { (q : Meaning) (database : Text) (history : List Act) → Good q database first history
        → AgreeSoFar q database (run first history) }
{}

/// In the journal of a good history each transaction has the name of the session that drew its id.
pub fn the_journal_has_the_names_of_its_sessions()
    ensures { (q : Meaning) (database : Text) (history : List Act) → Good q database first history
        → Each (HasItsName history) (run first history).items }
{}

/// Where such a history takes one statement after another, ends its sessions behind the last, and closes a
/// block as soon as N entries are pending and what is pending for a digest, its transcripts are one list
/// besides, in the order of the lines, in which ids and marks count; and the items of the journal stand in
/// the order of the entries that made them.
pub fn histories_keep_step_order()
    ensures { (q : Meaning) (database : Text) (N : ℕ) (history : List Act) (input : List InputSession)
        (setup : Option ℕ) (transcripts : List Transcript)
        → Good q database first history → IsWhole input setup transcripts history → OneAtATime first history
        → EndsComeLast first history → ClosesInStep N (pending 0) history
        → IsStepOrder q N (lines_of first history) transcripts (run first history).items (rows_of history) }
{}

/// Where besides a statement is said only where no lock of the others is in its way, and meets a lock only
/// where it is the one in its way, E20 comes exactly where a lock is in the way, unless it is NoMemory. So such a
/// history keeps step order whole.
pub fn where_locks_decide_step_order_is_whole()
    ensures { (q : Meaning) (database : Text) (N : ℕ) (history : List Act) (input : List InputSession)
        (setup : Option ℕ) (transcripts : List Transcript)
        → Good q database first history → IsWhole input setup transcripts history → OneAtATime first history
        → EndsComeLast first history → ClosesInStep N (pending 0) history
        → LocksDecide q (length transcripts) first history
        → StepOrder q N (lines_of first history) transcripts (run first history).items }
{}

/// There is such a history: setup and another session commit, a third one meets a lock, ends and is issued a
/// digest.
pub fn a_history_is_good()
    ensures good { Good sample.meaning sample.database first sample.history }
    ensures whole { IsWhole sample.input (Some 0) sample.transcripts sample.history }
    ensures one_at_a_time { OneAtATime first sample.history }
    ensures ends { EndsComeLast first sample.history }
    ensures in_step { ClosesInStep 2 (pending 0) sample.history }
    ensures by_locks { LocksDecide sample.meaning 3 first sample.history }
{}

/// By such a meaning the same journals are legal as by the meaning of statements.
pub fn legality_is_one_for_all_meanings()
    ensures { (reads : Reading) (h : Hashing) (q : Meaning) → IsReal reads h q
        → (J : List JournalItem) → IsLegal q J ↔ model.IsLegal reads J }
{}

//! What the workload's statements come to in whatever turns they run, and what agreement says of runs of them
//! in which every one was committed.

ghost use Rattle.std.specs.Prelude.{◌≡◌, ◌≤◌, ◌+◌, ◌*◌, ◌/◌, ◌∷◌, ℕ, List, Some, map};
ghost use Rattle.std.specs.List.{AllByRecursion};
ghost use Rattle.sql_types.specs.declared.digest.Digest.{Digest};
ghost use Rattle.sql_types.specs.declared.journal.JournalItem.{JournalItem};
ghost use Rattle.sql_types.specs.JournalRules.{ItemRules};
ghost use Rattle.spec_model.specs.Journals.{tx_count, serial, IsLegal};
ghost use Rattle.spec_model.specs.Script.{Reading};
ghost use Rattle.spec_history.specs.Agree.{Agree};
ghost use Rattle.spec_history.specs.Lists.{Text};
ghost use Rattle.spec_history.specs.Meaning.{Meaning};
ghost use Rattle.spec_history.specs.Transcripts.{Transcript};
ghost use Rattle.workload_generator.specs.Workload.{setup_texts, session_texts, tables};
ghost use Rattle.law_workload.specs.Input.{workload_input};
ghost use Rattle.law_workload.specs.Tables.{Shows, id_of};
ghost use Rattle.law_workload.specs.Turns.{Turns, ReadsTexts, inserted_total};

use workload_generator::statements_law;

/// In whatever turns the statements run, where their texts are read as what they look like and each table has
/// up to 1,000,000 rows, the tables to which a legal journal of them leads show the same: each table has its
/// rows and one row of history for each tenth, and `v` adds up to what was inserted and one for each change.
/// There are no tables but these and the two of the system.
pub fn turns_come_to_one_end()
    ensures tables { (reads : Reading) (rows : ℕ) (items : List JournalItem) → ReadsTexts reads
        → rows ≤ 1000000
        → Turns setup_texts (session_texts 1 rows) (session_texts 2 rows) (session_texts 3 rows)
        (session_texts 4 rows) items
        → IsLegal reads items
        → (table : ℕ) → 1 ≤ table → table ≤ 4
        → Shows (serial reads items) table rows (rows / 10) (inserted_total table rows + rows / 10) }
    ensures order { (reads : Reading) (rows : ℕ) (items : List JournalItem) → ReadsTexts reads
        → rows ≤ 1000000
        → Turns setup_texts (session_texts 1 rows) (session_texts 2 rows) (session_texts 3 rows)
        (session_texts 4 rows) items
        → IsLegal reads items
        → map (λ t. t.def.id) (serial reads items) ≡ 1 ∷ 2 ∷ map id_of tables }
    ensures transactions { (rows : ℕ) (items : List JournalItem)
        → Turns setup_texts (session_texts 1 rows) (session_texts 2 rows) (session_texts 3 rows)
        (session_texts 4 rows) items
        → tx_count items ≡ 4 + 4 * rows + 4 * (rows / 10) }
    ensures ten { inserted_total 1 10 + inserted_total 2 10 + inserted_total 3 10 + inserted_total 4 10 + 4
        ≡ 5684 }
{
    statements_law();
}

/// Where transcripts of the workload agree with a journal that has as many transactions as the workload has
/// statements, these are the statements, each alone: those of the setup, and then those of the four sessions
/// in turns, each session's in its order. The texts are read as what they look like, each table has up to
/// 1,000,000 rows, and the journal's items keep their rules.
pub fn runs_of_the_workload_take_turns()
    ensures { (q : Meaning) (database : Text) (rows : ℕ) (X : List Transcript) (items : List JournalItem)
        (G : List Digest) → ReadsTexts q.reads → rows ≤ 1000000
        → AllByRecursion ItemRules items
        → Agree q database (workload_input rows) (Some 0) X items G
        → tx_count items ≡ 4 + 4 * rows + 4 * (rows / 10)
        → Turns setup_texts (session_texts 1 rows) (session_texts 2 rows) (session_texts 3 rows)
        (session_texts 4 rows) items }
{
    statements_law();
}

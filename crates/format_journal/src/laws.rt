//! Laws of the bytes.

ghost use Rattle.std.specs.Prelude.{◌≡◌, ◌++◌, ℕ, List, []};
ghost use Rattle.sql_types.specs.declared.journal.Journal.{Journal};
ghost use Rattle.format_journal.specs.Journal.{journal_bytes};
ghost use Rattle.format_journal.specs.Rules.{IsJournal};

/// Equal bytes are of equal journals, and no journal's bytes begin another's.
pub fn equal_bytes_are_of_equal_journals()
    ensures equal { (i j : Journal) → IsJournal i → IsJournal j → journal_bytes i ≡ journal_bytes j → i ≡ j }
    ensures prefix { (i j : Journal) (rest : List ℕ) → IsJournal i → IsJournal j
        → journal_bytes i ≡ journal_bytes j ++ rest → rest ≡ [] }
{}

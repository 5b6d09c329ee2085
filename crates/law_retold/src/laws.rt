//! The laws that each legal journal is that of a history, and that what comes behind it may happen without it.

ghost use Rattle.std.specs.Prelude.{ℕ, ◌++◌, List};
ghost use Rattle.sql_types.specs.declared.journal.JournalItem.{JournalItem};
ghost use Rattle.spec_model.specs.Journals.{IsLegal};
ghost use Rattle.spec_model.specs.Script.{Reading};
ghost use Rattle.spec_history.specs.Acts.{Act};
ghost use Rattle.spec_history.specs.Guards.{Good};
ghost use Rattle.spec_history.specs.Lists.{Each, Text};
ghost use Rattle.spec_history.specs.Meaning.{Meaning};
ghost use Rattle.spec_history.specs.Real.{Hashing, IsReal};
ghost use Rattle.spec_history.specs.Worlds.{first, run};
ghost use Rattle.law_behind.specs.Forgotten.{IsWithout, without};
ghost use Rattle.law_behind.specs.Past.{behind};
ghost use Rattle.law_retold.specs.Retold.{AreWords, CanBeRetold, LeadsTo, Words, past_of, retold};

/// A legal journal is that of a history in which each of its transactions is a session of its own, and an id up to
/// `count` that it doesn't have is a transaction that was begun and given up. In it each act might happen when it
/// did; it leads to just this journal, to the id above `count` and to no digest, and each session is over at its
/// end. Premises: the grammar reads a text as BEGIN and one as COMMIT, ids are 1 to `count`, a transaction that
/// BEGIN didn't open has one statement, and none of the others' statements is a COMMIT or a ROLLBACK of all.
pub fn legal_journals_are_those_of_histories()
    ensures good { (reads : Reading) (h : Hashing) (q : Meaning) → IsReal reads h q
        → (c : Words) → AreWords reads c → (database : Text) (J : List JournalItem) (count : ℕ)
        → IsLegal reads J → Each (CanBeRetold reads count) J
        → Good q database first (retold reads c J count) }
    ensures leads { (reads : Reading) (h : Hashing) (q : Meaning) → IsReal reads h q
        → (c : Words) → AreWords reads c → (J : List JournalItem) (count : ℕ)
        → IsLegal reads J → Each (CanBeRetold reads count) J
        → LeadsTo c J count (retold reads c J count) }
{}

/// What comes behind the history that is told from a journal may happen where a database goes on that has this
/// journal, and no session has begun: it leads to the same journal, ids and digests, and to the same sessions.
pub fn what_follows_a_retold_history_follows_its_journal()
    ensures { (reads : Reading) (h : Hashing) (q : Meaning) → IsReal reads h q
        → (c : Words) → AreWords reads c → (database : Text) (J : List JournalItem) (count : ℕ)
        → IsLegal reads J → Each (CanBeRetold reads count) J → (since : List Act)
        → Good q database first (retold reads c J count ++ since)
        → Good q database (behind (past_of J count)) (without count since)
        × IsWithout count (run first (retold reads c J count ++ since)) (run (behind (past_of J count)) (without count since)) }
{}

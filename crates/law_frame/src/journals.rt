//! Laws of legal journals.

ghost use Rattle.std.specs.Prelude.{◌≡◌, true, List, []};
ghost use Rattle.sql_types.specs.declared.journal.Journal.{Journal};
ghost use Rattle.sql_types.specs.declared.journal.JournalItem.{JournalItem};
ghost use Rattle.sql_types.specs.JournalRules.{JournalRules, closes_follow, ids_differ};
ghost use Rattle.spec_model.specs.Journals.{IsLegal};
ghost use Rattle.spec_model.specs.LegalJournals.{IsLegalJournal};
ghost use Rattle.spec_model.specs.Script.{Reading};

/// Where the items are legal, their ids differ, and each closing takes no more than is pending there; so a
/// legal journal keeps all side rules (that its texts are UTF-8 isn't one of them).
pub fn legal_journals_keep_the_rules()
    ensures ids { (reads : Reading) (items : List JournalItem) → IsLegal reads items
        → ids_differ [] items ≡ true }
    ensures closes { (reads : Reading) (items : List JournalItem) → IsLegal reads items
        → closes_follow 0 items ≡ true }
    ensures journal { (reads : Reading) (j : Journal) → IsLegalJournal reads j → JournalRules j }
{}

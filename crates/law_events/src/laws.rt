//! The law that events have leaves.

ghost use Rattle.std.specs.Prelude.{ℕ, List};
ghost use Rattle.std.specs.List.{AllByRecursion};
ghost use Rattle.sql_types.specs.declared.journal.JournalItem.{JournalItem};
ghost use Rattle.spec_model.specs.Events.{all_events};
ghost use Rattle.spec_model.specs.Journals.{IsLegal, serial};
ghost use Rattle.spec_model.specs.Script.{Reading};
ghost use Rattle.law_events.specs.Room.{FitsLeaf};

use law_journal::legal_journals_keep;

/// Each event of a transaction in the tables to which a legal journal leads has a leaf, where its numbers
/// have room in one and its texts are UTF-8.
pub fn events_of_legal_journals_have_leaves()
    ensures { (reads : Reading) (items : List JournalItem) (tx : ℕ) → IsLegal reads items
        → AllByRecursion FitsLeaf (all_events tx (serial reads items)) }
{
    legal_journals_keep();
}

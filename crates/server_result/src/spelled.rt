//! Journals that a program has in memory have a spelling.

ghost use Rattle.spec_model.specs.LegalJournals.{IsLegalJournal};
ghost use Rattle.spec_model.specs.Script.{Reading};
ghost use Rattle.format_journal.specs.Rules.{IsJournal};

use format_journal::{Journal, texts_are_encodable};
use law_frame::legal_journals_keep_the_rules;

/// A legal journal has a spelling, by whatever grammar its texts are read. Does nothing: it is there for its
/// contract.
pub fn is_encodable(journal: &Journal)
    ensures { (reads : Reading) → IsLegalJournal reads journal.now → IsJournal journal.now }
{
    legal_journals_keep_the_rules();
    texts_are_encodable(journal.items.as_slice());
    let _count = journal.items.len();
}

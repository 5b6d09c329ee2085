//! The texts of a journal that a program has in memory have a spelling.

ghost use Rattle.std.specs.List.{AllByRecursion};
ghost use Rattle.format_journal.specs.Rules.{HasTexts, IsStatement, IsText};

use base_types::Text;
use sql_types::JournalItem;

/// Does nothing: it is there for its contract.
#[tactic(auto, using(crate::proofs::Texts::utf8_text))]
fn is_text(text: &Text)
    ensures { IsText text.now }
{
    text.as_str().len();
}

/// Does nothing: it is there for its contract.
fn is_statement(statement: &(Text, Text))
    ensures { IsStatement statement.now }
{
    is_text(&statement.0);
    is_text(&statement.1);
}

/// Does nothing: it is there for its contract.
fn are_statements(script: &[(Text, Text)])
    ensures { AllByRecursion IsStatement script.now }
{
    for statement in script {
        is_statement(statement);
    }
}

/// Does nothing: it is there for its contract.
fn has_texts(item: &JournalItem)
    ensures { HasTexts item.now }
{
    if let JournalItem::Tx { script, .. } = item {
        are_statements(script.as_slice());
        script.len();
    }
}

/// The texts of items are UTF-8, and as long as 8 bytes can tell. Does nothing: it is there for its contract.
pub fn texts_are_encodable(items: &[JournalItem])
    ensures { AllByRecursion HasTexts items.now }
{
    for item in items {
        has_texts(item);
    }
}

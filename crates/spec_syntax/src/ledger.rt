//! What a CREATE TABLE says of the ledger.

use base_types::Name;
use sql_value::TableKind;

/// Whether the rows may change, and the names of the history table and the view, where they are written.
#[derive(Debug, Drop)]
pub struct Ledger {
    pub kind: TableKind,
    pub history: Option<Name>,
    pub view: Option<Name>,
}

/// What is chosen for the ledger.
#[derive(Debug, Drop)]
pub struct Choices {
    pub append_only: bool,
    pub view: Option<Name>,
}

/// One of the choices.
#[derive(Debug, Drop)]
pub enum Choice {
    AppendOnly,
    View(Name),
}

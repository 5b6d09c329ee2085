//! What a statement of rows gets in the catalog.

use base_types::Items;
use server_session::Shared;
use sql_types::{Part, Row, TableDef};

/// What a statement gets that passes its checks.
#[derive(Drop)]
pub(crate) enum LookupResult {
    /// The table that it is to visit, and the part of it that it names.
    Table { def: Shared<TableDef>, part: Part },
    /// The rows of a system table, which are shown at once.
    Rows(Items<Row>),
}

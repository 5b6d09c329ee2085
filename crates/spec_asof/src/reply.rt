//! What a text is answered over the tables of an image.

use sql_types::Row;
use sql_value::{Items, Refusal};

/// The answer to a text.
#[derive(Debug, Drop)]
pub enum AsOfReply {
    /// The rows that a SELECT shows.
    Rows(Items<Row>),
    /// The text is no statement, or its SELECT is refused.
    Refused(Refusal),
    /// E21: the text is a statement and no SELECT.
    NotSelect,
}

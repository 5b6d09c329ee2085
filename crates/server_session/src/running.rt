//! The transaction of a session.

use crate::visited::VisitedCellList;
use base_merkle::Hash32;
use base_types::Text;
use sql_types::{EndLine, Reply};
use store_tx::TxCtx;

/// The transaction of a session, until it has released all its locks.
#[derive(Drop)]
pub struct Running<H: Hash32> {
    pub context: TxCtx<H>,
    /// The statements that belong to it for certain, with their replies.
    pub script: Vec<(Text, Reply)>,
    pub visited: VisitedCellList,
    /// Whether BEGIN opened it.
    pub explicit: bool,
    /// Once its end is fixed.
    pub end: Option<EndLine>,
}

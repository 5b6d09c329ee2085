//! Where a seat stands.

use base_shared::Shared;
use sql_types::{Part, Reply, TableDef};
use sql_value::Refusal;

/// Where a seat stands between two visits.
#[derive(Drop)]
pub enum ControlPoint {
    /// In no statement.
    Between,
    Inside(Stage),
    /// At the session's end, while its transaction is ended.
    Leaving,
    /// The session is over.
    Over,
}

/// How far a statement came, by what it does next.
#[derive(Drop)]
pub enum Stage {
    /// It is taken up, and nothing else is done.
    Begun,
    /// It draws the id of a transaction: for BEGIN, or else for one of its own.
    AssigningId {
        explicit: bool,
    },
    /// COMMIT.
    Committing,
    /// ROLLBACK of a whole transaction.
    RollingBack,
    /// The digest statement.
    Issuing,
    /// SAVE IMAGE.
    Keeping,
    /// It looks up, creates, alters or drops in the catalog.
    Looking,
    /// It passed its checks over this table, and changes or reads it. With true, its transaction had no lock
    /// in the catalog before.
    Found {
        def: Shared<TableDef>,
        part: Part,
        fresh: bool,
    },
    /// CREATE INDEX made its rows. With true, the table's cell has the index, and it commits.
    Made {
        def: Shared<TableDef>,
        indexed: bool,
    },
    /// There is no memory for the index.
    LacksIndex {
        def: Shared<TableDef>,
    },
    /// On the way back to a savepoint: to this number, and so many cells were visited.
    GoingBack {
        seq: u64,
        passed: usize,
    },
    /// A transaction of its own did all that it does, and its end is fixed next.
    Replied(Reply),
    /// It is refused, and gives the catalog's lock back.
    GivingBack(Refusal),
    /// Its reply is certain, and locks may have to be released.
    Answering(Answering),
}

/// A reply that is certain.
#[derive(Drop)]
pub struct Answering {
    pub reply: Reply,
    /// Whether it belongs to the script of the transaction.
    pub said: bool,
    /// Of a refused CREATE INDEX, whose index may have to be dropped.
    pub def: Option<Shared<TableDef>>,
}

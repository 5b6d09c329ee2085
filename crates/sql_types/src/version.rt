//! Versions of rows, what a row was from its start to its end, and the tables that have them.

use crate::table::TableDef;
use sql_value::{Items, SqlType, TxId, Value};
use std::marker::Model;

/// The values of a row, one for each column.
pub type Row = Items<Value>;

/// The id of an event. Events are ordered by the transaction and then the number. Contracts see the pair of both.
#[derive(Clone, Copy, Debug, PartialEq, Eq, PartialOrd, Ord)]
pub struct EventId {
    pub tx: TxId,
    /// The number of the event in its transaction, from 0.
    pub seq: u64,
}

impl Model for EventId {
    ghost use Rattle.std.specs.Prelude.{ℕ};

    ghost Value = { ℕ × ℕ };

    ghost view = { λ e. (e.tx, e.seq) };

    ghost inverse = { λ p. record { tx = p.0; seq = p.1 } };
}

/// A value other than NULL, with the type of the column that stored it.
#[derive(Debug, Drop)]
pub struct TypedValue {
    pub ty: SqlType,
    pub value: Value,
}

/// One state of one row.
#[derive(Debug, Drop)]
pub struct Version {
    /// One for each column of the table; NULL is none.
    pub values: Items<Option<TypedValue>>,
    /// The event that started it.
    pub start: EventId,
    /// The event that ended it, if one did.
    pub end: Option<EventId>,
}

/// A table: its definition, and all versions of its rows.
#[derive(Debug, Drop)]
pub struct Table {
    pub def: TableDef,
    /// By rising start.
    pub versions: Items<Version>,
}

//! Statements, as the parser reads them and the printer writes them.

use sql_value::{ColumnDef, Expr, Items, Name, TableKind, Value};

/// A statement.
#[derive(Debug, Drop)]
pub enum Stmt {
    /// `CREATE TABLE`.
    Create(CreateTable),
    /// `CREATE INDEX`.
    Index(CreateIndex),
    /// `ALTER TABLE`.
    Alter(Alter),
    /// `DROP TABLE` with the table's name.
    Drop(Name),
    /// `INSERT`, `UPDATE` or `DELETE`.
    Change(RowStmt),
    Select(Select),
    /// `BEGIN TRANSACTION`.
    Begin,
    Commit,
    /// `SAVE TRANSACTION` with the savepoint's name.
    Save(Name),
    /// `ROLLBACK`, or with a name the way back to that savepoint.
    Rollback(Option<Name>),
    /// The call that issues a digest of the ledger.
    Digest,
    /// `SAVE IMAGE`.
    Image,
}

/// A new table.
#[derive(Debug, Drop)]
pub struct CreateTable {
    pub name: Name,
    /// The columns, each with the key position 0.
    pub columns: Items<ColumnDef>,
    /// The columns of the primary key, in order.
    pub key: Items<Name>,
    pub kind: TableKind,
    /// The name of the history table, where one is written.
    pub history: Option<Name>,
    /// The name of the ledger view, where one is written.
    pub view: Option<Name>,
}

/// A new index of a table.
#[derive(Debug, Drop)]
pub struct CreateIndex {
    pub name: Name,
    pub table: Name,
    pub columns: Items<Name>,
}

/// A statement that changes the columns of a table.
#[derive(Debug, Drop)]
pub enum Alter {
    /// `ADD`, of a column that may be NULL and is in no key.
    Add { table: Name, column: ColumnDef },
    /// `DROP COLUMN`.
    DropColumn { table: Name, column: Name },
}

/// A statement that changes rows.
#[derive(Debug, Drop)]
pub enum RowStmt {
    Insert {
        table: Name,
        columns: Option<Items<Name>>,
        rows: Items<Items<Value>>,
    },
    Update {
        table: Name,
        sets: Items<(Name, Expr)>,
        cond: Option<Expr>,
    },
    Delete {
        table: Name,
        cond: Option<Expr>,
    },
}

/// A statement that reads rows.
#[derive(Debug, Drop)]
pub struct Select {
    pub table: Name,
    pub what: SelectList,
    pub cond: Option<Expr>,
    /// The columns by which the rows are sorted, each with true for `DESC`.
    pub order: Items<(Name, bool)>,
}

/// What a `SELECT` shows.
#[derive(Debug, Drop)]
pub enum SelectList {
    /// `*`.
    All,
    Columns(Items<Name>),
    Aggs(Items<Agg>),
}

/// A number that is worked out of all rows.
#[derive(Debug, Drop)]
pub enum Agg {
    /// `COUNT(*)`.
    Count,
    /// The sum of a column.
    Sum(Name),
}

//! Columns and keys of a CREATE TABLE, as they are written.

use base_types::{Items, Name};
use sql_value::SqlType;

/// A column as it is written.
#[derive(Debug, Drop)]
pub struct Column {
    pub name: Name,
    pub ty: SqlType,
    /// Whether NULL or NOT NULL is written.
    pub nullable: Option<bool>,
}

/// What stands between two commas of a CREATE TABLE.
#[derive(Debug, Drop)]
pub enum Item {
    Column { column: Column, is_key: bool },
    Key(Items<Name>),
}

/// The columns and the primary key so far.
#[derive(Debug, Drop)]
pub struct Draft {
    pub columns: Items<Column>,
    pub key: Option<Items<Name>>,
}

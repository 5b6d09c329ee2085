//! Columns, and the kinds of tables.

ghost use Rattle.std.specs.Prelude.{◌≡◌, IfOk};

use crate::SqlType;
use base_types::{Memory, Name};

/// Whether the rows of a table may change.
#[derive(Clone, Copy, Debug, PartialEq, Eq)]
pub enum TableKind {
    /// Rows are only added.
    AppendOnly,
    /// Rows are added, changed and deleted.
    Updatable,
}

/// The definition of a column.
#[derive(Debug, Drop, PartialEq, Eq)]
pub struct ColumnDef {
    pub name: Name,
    pub ty: SqlType,
    /// Whether the column may be NULL.
    pub nullable: bool,
    /// The place in the primary key, counted from 1, or 0 outside it.
    pub key_position: u8,
}

impl ColumnDef {
    /// An equal one.
    pub fn copy(&self) -> Result<ColumnDef, Memory>
        ensures { IfOk result (λ copy. copy ≡ self.now) }
    {
        Ok(ColumnDef {
            name: self.name.copy()?,
            ty: self.ty,
            nullable: self.nullable,
            key_position: self.key_position,
        })
    }
}

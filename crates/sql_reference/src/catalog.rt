//! What names stand for among the tables.

ghost use Rattle.std.specs.Prelude.{ℕ, ◌≡◌, ◌<◌, IfSome, option_map};
ghost use Rattle.spec_model.specs.Catalog as spec;
ghost use Rattle.sql_reference.specs.Ids.{IdsRise};

use base_types::{Name, TableId};
use sql_check::{Definitions, part_named};
use sql_types::{Part, Table, Version};

/// The table, and the part of it, that a name stands for.
#[tactic(auto, unfolding(spec_model::specs::Catalog::find_part))]
pub(crate) fn find<'a>(tables: &'a [Table], name: &Name) -> Option<(&'a Table, Part)>
    ensures part { option_map (λ p. (p.0.now.def, p.1)) result
        ≡ spec.find_part (spec.defs_of tables.now) name.now }
    ensures versions { (last : ℕ) → IdsRise last (spec.defs_of tables.now)
        → IfSome result (λ p. (last < p.0.now.def.id)
        × (p.0.now.versions ≡ spec.versions_of tables.now p.0.now.def.id)) }
{
    match tables {
        [] => None,
        [table, rest @ ..] => match part_named(&table.def, name) {
            Some(part) => Some((table, part)),
            None => find(rest, name),
        },
    }
}

/// The versions of the table with this id.
pub(crate) fn versions_of(tables: &[Table], id: TableId) -> &[Version]
    ensures { result.now ≡ spec.versions_of tables.now id }
{
    match tables {
        [] => &[],
        [table, ..] if table.def.id == id => table.versions.as_slice(),
        [_, rest @ ..] => versions_of(rest, id),
    }
}

/// The definitions of some tables.
#[derive(Drop)]
pub(crate) struct DefsOf<'a> {
    pub tables: &'a [Table],
}

impl<'a> Definitions for DefsOf<'a> {
    ghost defs = { λ d. spec.defs_of d.tables.now };

    fn count(&self) -> usize {
        self.tables.len()
    }

    fn is_used(&self, name: &Name) -> bool {
        find(self.tables, name).is_some()
    }
}

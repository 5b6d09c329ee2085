//! Names in lists, and what a name stands for in a table.

ghost use Rattle.std.specs.Prelude.{◌≡◌, ◌||◌, ℕ, List, IfOk, OnOk, map, not};
ghost use Rattle.std.specs.List.{list_any};
ghost use Rattle.std.specs.Str.{bytes_eq};
ghost use Rattle.spec_model.specs.Lists as spec;
ghost use Rattle.spec_model.specs.Catalog as catalog;
ghost use Rattle.sql_check.specs.NameSet.{has};

use base_types::{Memory, Name};
use sql_types::{Part, TableDef};
use sql_value::{ColumnDef, Expr};
use std::alloc::Global;
use std::collections::BTreeSet;

/// How many names are compared two by two, and not put into a set.
const FEW_NAMES: usize = 16;

/// What has a name.
pub trait Named: Drop {
    /// The bytes of the name.
    ghost named: { Self → List ℕ };

    fn name(&self) -> &Name
        ensures { result.now ≡ named self.now };
}

impl Named for Name {
    ghost named = { λ n. n };

    fn name(&self) -> &Name {
        self
    }
}

impl Named for ColumnDef {
    ghost named = { λ c. c.name };

    fn name(&self) -> &Name {
        &self.name
    }
}

/// A column that SET names, with its new value.
impl Named for (Name, Expr) {
    ghost named = { λ s. s.0 };

    fn name(&self) -> &Name {
        &self.0
    }
}

fn any_named<T: Named>(items: &[T], name: &Name) -> bool
    ensures { result ≡ list_any (λ item. bytes_eq (T.named item) name.now) items.now }
{
    items.iter().any(|item| *item.name() == *name)
}

/// Whether one of these has the name.
#[tactic(auto, using(crate::proofs::Lists::any_map))]
pub(crate) fn has_name<T: Named>(items: &[T], name: &Name) -> bool
    ensures { result ≡ spec.has_name (map T.named items.now) name.now }
{
    any_named(items, name)
}

/// Whether some name stands twice. Takes memory where there are many, and time in proportion to n log n.
pub(crate) fn repeats<T: Named>(alloc: Global, items: &[T]) -> Result<bool, Memory>
    ensures { IfOk result (λ b. b ≡ spec.repeats (map T.named items.now)) }
{
    if items.len() > FEW_NAMES {
        many_repeat(alloc, items)
    } else {
        Ok(few_repeat(items))
    }
}

/// Adds a name to a set, and says whether it is new there.
#[tactic(auto, using(crate::proofs::NameSets::added))]
fn add_name<'a>(names: &mut BTreeSet<&'a str>, name: &'a Name) -> Result<bool, Memory>
    ensures new { IfOk result (λ new. new ≡ not (has names.old name.now)) }
    ensures added { OnOk result ((q : List ℕ) → has names.new q ≡ (bytes_eq name.now q || has names.old q)) }
{
    Ok(names.insert(name.as_str())?)
}

/// Whether some name stands twice, by a set of the names behind each.
#[tactic(auto, using(crate::proofs::NameSets::repeats_before))]
fn many_repeat<T: Named>(alloc: Global, items: &[T]) -> Result<bool, Memory>
    ensures { IfOk result (λ b. b ≡ spec.repeats (map T.named items.now)) }
{
    let mut behind = BTreeSet::new(alloc);
    let mut at = items.len();
    while at > 0 {
        at -= 1;
        if !add_name(&mut behind, items[at].name())? {
            return Ok(true);
        }
    }
    Ok(false)
}

/// Whether some name stands twice. Each is compared with those behind it.
fn few_repeat<T: Named>(items: &[T]) -> bool
    ensures { result ≡ spec.repeats (map T.named items.now) }
{
    for at in 0..items.len() {
        if has_name(&items[at + 1..], items[at].name()) {
            return true;
        }
    }
    false
}

/// The part of the table that has the name.
pub fn part_named(def: &TableDef, name: &Name) -> Option<Part>
    ensures { result ≡ catalog.part_named def.now name.now }
{
    if is_named(&def.name, name) {
        Some(own_part(def))
    } else if is_named(&def.history, name) {
        Some(Part::History)
    } else if is_named(&def.view, name) {
        Some(Part::View)
    } else {
        None
    }
}

/// Whether the name is this one; what has no name is found by none.
pub(crate) fn is_named(own: &Name, name: &Name) -> bool
    ensures { result ≡ catalog.is_named own.now name.now }
{
    !own.bytes().is_empty() && *own == *name
}

/// The part of a table that its own name stands for.
pub fn own_part(def: &TableDef) -> Part
    ensures { result ≡ catalog.own_part def.now }
{
    if def.id <= 2 {
        Part::System
    } else {
        Part::Base
    }
}

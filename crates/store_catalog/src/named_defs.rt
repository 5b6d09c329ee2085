//! The definitions of all tables, and where each name leads.

ghost use Rattle.std.specs.Prelude.{ℕ, ◌≡◌, ◌≤◌, ◌<◌, ◌-◌, ◌++◌, ◌∷◌, [], IfOk, OnOk, OnErr, get_or, length, option_map, slice_set, take, unwrap_or};
ghost use Rattle.std.specs.Str.{bytes_eq};
ghost use Rattle.indexmap.specs.IndexMap.{insert_all};
ghost use Rattle.sql_types.specs.declared.table.Part.{Part as SpecPart};
ghost use Rattle.spec_model.specs.Catalog.{find_part};
ghost use Rattle.store_catalog.specs.Names.{leading, names_at, names_from, HasNewNames, MayReplace};

use base_shared::Shared;
use base_types::{Memory, Name};
use indexmap::IndexMap;
use sql_check::{Definitions, own_part};
use sql_types::{Part, TableDef};
use std::alloc::Global;
use std::marker::Model;
use std::mem;

/// Where a name leads: the place of a definition, and the part of the table.
#[derive(Drop)]
pub(crate) struct NamedPlace {
    pub place: usize,
    pub part: Part,
}

/// Where each name leads, in the order of the definitions.
pub(crate) type Names = IndexMap<Name, NamedPlace>;

/// A definition for a place. Where its names are other than those of the one there, it comes with the names of
/// all tables once it stands there.
#[derive(Drop)]
pub(crate) struct PlacedDef {
    pub place: usize,
    pub def: Shared<TableDef>,
    pub names: Option<Names>,
}

/// The definitions in the order in which their tables were made, and a map of their names in the same order.
/// Contracts see the list of the definitions.
#[derive(Drop)]
pub(crate) struct NamedDefs {
    defs: Vec<Shared<TableDef>>,
    names: Names,
}

impl Model for NamedDefs {
    ghost use Rattle.std.specs.Prelude.{◌≡◌};
    ghost use Rattle.spec_model.specs.Catalog.{Defs};
    ghost use Rattle.store_catalog.specs.Names.{names_from};

    ghost Value = { Defs };

    ghost view = { λ d. d.defs.items };

    ghost invariant = { λ d. d.names.entries ≡ names_from 0 d.defs.items };
}

// Adds a name that leads to this part of the table at this place; what is empty is no name.
fn add_name(names: &mut Names, name: &Name, place: usize, part: Part) -> Result<(), Memory>
    ensures { OnOk result (names.new.entries
        ≡ insert_all bytes_eq names.old.entries (leading name.now place part)) }
{
    if !name.bytes().is_empty() {
        names.insert(name.copy()?, NamedPlace { place, part })?;
    }
    Ok(())
}

// Adds the names of the table at this place.
fn add_names(names: &mut Names, place: usize, def: &TableDef) -> Result<(), Memory>
    ensures { OnOk result (names.new.entries
        ≡ insert_all bytes_eq names.old.entries (names_at place def.now)) }
{
    add_name(names, &def.name, place, own_part(def))?;
    add_name(names, &def.history, place, Part::History)?;
    add_name(names, &def.view, place, Part::View)
}

// The names of the table at this place.
fn names_of(alloc: Global, place: usize, def: &TableDef) -> Result<Names, Memory>
    ensures { IfOk result (λ names. names.entries ≡ insert_all bytes_eq [] (names_at place def.now)) }
{
    let mut names = IndexMap::new(alloc);
    add_names(&mut names, place, def)?;
    Ok(names)
}

// The definition there, once this one stands at its place.
fn def_there<'a>(
    defs: &'a [Shared<TableDef>],
    there: usize,
    place: usize,
    def: &'a TableDef,
) -> &'a TableDef
    requires { there < length defs.now }
    ensures { result.now ≡ get_or (slice_set defs.now place def.now) there result.now }
{
    if there == place {
        def
    } else {
        defs[there].get()
    }
}

// Adds the names of all tables, once this definition stands at its place.
fn add_all_names(
    names: &mut Names,
    defs: &[Shared<TableDef>],
    place: usize,
    def: &TableDef,
) -> Result<(), Memory>
    ensures { OnOk result (names.new.entries
        ≡ insert_all bytes_eq names.old.entries (names_from 0 (slice_set defs.now place def.now))) }
{
    for there in 0..defs.len() {
        add_names(names, there, def_there(defs, there, place, def))?;
    }
    Ok(())
}

// Puts these names, where there are some, in the place of those, which it gives.
fn replace_names(names: &mut Names, new: Option<Names>) -> Option<Names>
    ensures after { names.new ≡ unwrap_or new names.old }
    ensures before { result ≡ option_map (λ n. names.old) new }
{
    match new {
        Some(new) => Some(mem::replace(names, new)),
        None => None,
    }
}

// 1 for a name, and 0 for what is empty.
fn count_name(name: &Name) -> usize
    ensures count { (place : ℕ) (part : SpecPart) → result ≡ length (leading name.now place part) }
    ensures most { result ≤ 1 }
{
    if name.bytes().is_empty() { 0 } else { 1 }
}

// How many names the table has.
fn count_names(def: &TableDef) -> usize
    ensures { (place : ℕ) → result ≡ length (names_at place def.now) }
{
    count_name(&def.name) + count_name(&def.history) + count_name(&def.view)
}

impl NamedDefs {
    /// No definitions. Takes no memory.
    pub(crate) fn new(alloc: Global) -> NamedDefs
        ensures { result ≡ [] }
    {
        NamedDefs {
            defs: Vec::new(alloc),
            names: IndexMap::new(alloc),
        }
    }

    /// The definitions, in the order in which their tables were made.
    pub(crate) fn as_slice(&self) -> &[Shared<TableDef>]
        ensures { result.now ≡ self.now }
    {
        &self.defs
    }

    /// The table, and the part of it, that a name stands for. The map leads there, and nothing is copied.
    pub(crate) fn find(&self, name: &Name) -> Option<(&Shared<TableDef>, Part)>
        ensures { option_map (λ p. (p.0.now, p.1)) result ≡ find_part self.now name.now }
    {
        let named = self.names.get(name)?;
        Some((&self.defs[named.place], named.part))
    }

    /// The same, without a share in the definition.
    pub(crate) fn find_def(&self, name: &Name) -> Option<(&TableDef, Part)>
        ensures { option_map (λ p. (p.0.now, p.1)) result ≡ find_part self.now name.now }
    {
        match self.find(name) {
            Some((def, part)) => Some((def.get(), part)),
            None => None,
        }
    }

    /// Adds the definition of a new table behind the others. For want of memory nothing changes.
    pub(crate) fn push(&mut self, alloc: Global, def: Shared<TableDef>) -> Result<(), Memory>
        requires { HasNewNames self.old def }
        ensures ok { OnOk result (self.new ≡ self.old ++ def ∷ []) }
        ensures err { OnErr result (self.new ≡ self.old) }
    {
        self.defs.reserve(1)?;
        let mut names = names_of(alloc, self.defs.len(), def.get())?;
        let added = self.names.append(&mut names);
        drop(names);
        added?;
        self.defs.push_reserved(def);
        Ok(())
    }

    /// Takes the last definition away, with its names. Takes no memory.
    pub(crate) fn pop(&mut self)
        ensures { self.new ≡ take (length self.old - 1) self.old }
    {
        if let Some(def) = self.defs.pop() {
            self.names
                .truncate(self.names.len() - count_names(def.get()));
        }
    }

    /// The names of all tables, once this definition with new names stands at its place.
    pub(crate) fn names_with(
        &self,
        alloc: Global,
        place: usize,
        def: &TableDef,
    ) -> Result<Names, Memory>
        requires { HasNewNames self.now def.now }
        ensures { IfOk result (λ names. names.entries ≡ names_from 0 (slice_set self.now place def.now)) }
    {
        let mut names = IndexMap::with_capacity(alloc, self.names.len())?;
        add_all_names(&mut names, &self.defs, place, def)?;
        Ok(names)
    }

    /// Puts a definition in its place, and the names that come with it in that of those before, and gives what
    /// was there, which may come back. Takes no memory.
    pub(crate) fn replace(&mut self, new: PlacedDef) -> PlacedDef
        requires { MayReplace self.old new }
        ensures after { self.new ≡ slice_set self.old new.place new.def }
        ensures place { result.place ≡ new.place }
        ensures before { result.def ≡ get_or self.old new.place result.def }
        ensures back { MayReplace self.new result }
    {
        let PlacedDef { place, def, names } = new;
        let def = mem::replace(&mut self.defs[place], def);
        let names = replace_names(&mut self.names, names);
        PlacedDef { place, def, names }
    }
}

impl Definitions for NamedDefs {
    ghost defs = { λ d. d };

    fn count(&self) -> usize {
        self.defs.len()
    }

    fn is_used(&self, name: &Name) -> bool {
        self.find(name).is_some()
    }
}

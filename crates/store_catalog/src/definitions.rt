//! The last change of the definitions: who made it, and how it is taken back. `drop` lets each type go by a
//! function of its own, which is proved once; where a value goes by itself, that is proved there of each of its parts.

ghost use Rattle.std.specs.Prelude.{◌≡◌, ◌<◌, ◌++◌, ◌∷◌, [], IfOk, OnOk, length, slice_set};
ghost use Rattle.spec_model.specs.Catalog.{Defs};
ghost use Rattle.spec_protocol.specs.UndoVisits.{creator_left, defs_before};
ghost use Rattle.store_catalog.specs.Definitions.{before, creator_seen, is_creator, AreFormed, IsPlace, MayTakeBack};

use crate::named_defs::{NamedDefs, PlacedDef};
use base_shared::Shared;
use base_types::{Memory, TxId};
use sql_system::copy_def;
use sql_types::TableDef;
use std::alloc::Global;
use std::mem;

/// The transaction that changed the definitions and hasn't released the catalog. It replaced a definition,
/// or added one behind the others.
#[derive(Drop)]
pub(crate) struct Creator {
    pub tx: TxId,
    pub replaced: Option<PlacedDef>,
}

// Puts a creator, or none, in the place of another.
pub(crate) fn put_creator(place: &mut Option<Creator>, creator: Option<Creator>)
    ensures { place.new ≡ creator }
{
    drop(mem::replace(place, creator));
}

// Adds a copy of a definition.
fn add_copy(alloc: Global, copies: &mut Vec<TableDef>, def: &TableDef) -> Result<(), Memory>
    ensures { OnOk result (copies.new.items ≡ copies.old.items ++ def.now ∷ []) }
{
    copies.push(copy_def(alloc, def)?)?;
    Ok(())
}

/// Copies of the definitions.
pub(crate) fn copy_defs(alloc: Global, defs: &[Shared<TableDef>]) -> Result<Vec<TableDef>, Memory>
    ensures { IfOk result (λ copies. copies.items ≡ defs.now) }
{
    let mut copies = Vec::with_capacity(alloc, defs.len())?;
    for def in defs {
        if let Err(Memory) = add_copy(alloc, &mut copies, def.get()) {
            drop(copies);
            return Err(Memory);
        }
    }
    Ok(copies)
}

// Copies of the definitions, with this one in its place.
fn copy_with(
    alloc: Global,
    defs: &[Shared<TableDef>],
    place: usize,
    def: &TableDef,
) -> Result<Vec<TableDef>, Memory>
    requires { place < length defs.now }
    ensures { IfOk result (λ copies. copies.items ≡ slice_set defs.now place def.now) }
{
    let def = copy_def(alloc, def)?;
    match copy_defs(alloc, defs) {
        Ok(mut copies) => {
            drop(mem::replace(&mut copies[place], def));
            Ok(copies)
        }
        Err(Memory) => {
            drop(def);
            Err(Memory)
        }
    }
}

/// Copies of the definitions as they were before the last one was added, or before one took the place of
/// another.
pub(crate) fn copy_before(
    alloc: Global,
    defs: &[Shared<TableDef>],
    replaced: &Option<PlacedDef>,
) -> Result<Vec<TableDef>, Memory>
    requires { IsPlace defs.now replaced.now }
    ensures { IfOk result (λ copies. copies.items ≡ before defs.now replaced.now) }
{
    match replaced {
        Some(PlacedDef { place, def, .. }) => copy_with(alloc, defs, *place, def.get()),
        None => {
            let mut copies = copy_defs(alloc, defs)?;
            drop(copies.pop());
            Ok(copies)
        }
    }
}

fn is_creator(creator: &Option<Creator>, tx: TxId) -> bool
    ensures { result ≡ is_creator tx creator.now }
{
    match creator {
        Some(creator) => creator.tx == tx,
        None => false,
    }
}

fn take_back(defs: &mut NamedDefs, replaced: Option<PlacedDef>)
    requires { IsPlace defs.old replaced }
    ensures { defs.new ≡ before defs.old replaced }
{
    match replaced {
        Some(replaced) => drop(defs.replace(replaced)),
        None => defs.pop(),
    }
}

/// Takes the change back, where it is the transaction's. Takes no memory.
pub(crate) fn undo_change(defs: &mut NamedDefs, creator: &mut Option<Creator>, tx: TxId)
    requires { MayTakeBack defs.old creator.old }
    ensures defs { defs.new ≡ defs_before tx (creator_seen defs.old creator.old) defs.old }
    ensures creator { creator_seen defs.new creator.new
        ≡ creator_left tx (creator_seen defs.old creator.old) }
    ensures formed { AreFormed defs.old → AreFormed defs.new }
    ensures back { MayTakeBack defs.new creator.new }
{
    if !is_creator(creator, tx) {
        return;
    }
    if let Some(Creator { replaced, .. }) = creator.take() {
        take_back(defs, replaced);
    }
}

/// The change stays, where it is the transaction's. Takes no memory.
pub(crate) fn keep_change(creator: &mut Option<Creator>, tx: TxId)
    ensures creator { (defs : Defs) → creator_seen defs creator.new
        ≡ creator_left tx (creator_seen defs creator.old) }
    ensures back { (defs : Defs) → MayTakeBack defs creator.old → MayTakeBack defs creator.new }
{
    if is_creator(creator, tx) {
        put_creator(creator, None);
    }
}

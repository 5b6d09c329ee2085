//! The places of entries, found by the ids of their transactions.

ghost use Rattle.std.specs.Prelude.{◌≡◌, IsSorted, IfOk, OnOk, Some};
ghost use Rattle.spec_model.specs.Lists.{sorted};
ghost use Rattle.spec_verify.specs.Order.{position_of};
ghost use Rattle.audit_columns.specs.Positions as spec;

use base_types::{Memory, TxId};
use sql_types::{EventId, TxEntry};
use std::alloc::Global;
use std::marker::Model;

/// The place of an event's entry, and the event's number: what comes before has the lower rank.
pub type Rank = (usize, u64);

/// An id and the place of its entry.
type PlacedId = (TxId, usize);

/// Entries, as contracts see them, with their places by the ids of their transactions.
#[derive(Debug, Drop)]
pub struct Positions<'a> {
    entries: &'a [TxEntry],
    by_id: Vec<PlacedId>,
}

impl<'a> Model for Positions<'a> {
    ghost use Rattle.std.specs.Prelude.{◌≡◌, List};
    ghost use Rattle.sql_types.specs.declared.entry.TxEntry.{TxEntry};
    ghost use Rattle.audit_columns.specs.Positions.{placed_by_id};

    ghost Value = { List TxEntry };

    ghost view = { λ p. p.entries.now };

    ghost invariant = { λ p. p.by_id.items ≡ placed_by_id p.entries.now };
}

impl<'a> Positions<'a> {
    /// Sorts the ids of the entries once.
    pub fn of(alloc: Global, entries: &'a [TxEntry]) -> Result<Positions<'a>, Memory>
        ensures { IfOk result (λ positions. positions ≡ entries.now) }
    {
        let mut by_id = placed_ids(alloc, entries)?;
        sort_by_id(&mut by_id)?;
        Ok(Positions { entries, by_id })
    }

    /// How many entries stand before the first with this id, found by halving; all, where it has none.
    pub fn position_of(&self, id: TxId) -> usize
        ensures { result ≡ position_of self.now id }
    {
        place_among(&self.by_id, id, self.entries.len())
    }

    /// The rank of a start or an end.
    pub fn rank_of(&self, event: EventId) -> Rank
        ensures { result ≡ spec.rank_of self.now event }
    {
        (self.position_of(event.tx), event.seq)
    }
}

fn placed_ids(alloc: Global, entries: &[TxEntry]) -> Result<Vec<PlacedId>, Memory>
    ensures { IfOk result (λ placed. placed.items ≡ spec.placed_from 0 entries.now) }
{
    let mut placed = Vec::with_capacity(alloc, entries.len())?;
    for (place, entry) in entries.iter().enumerate() {
        placed.push((entry.id, place))?;
    }
    Ok(placed)
}

fn sort_by_id(placed: &mut Vec<PlacedId>) -> Result<(), Memory>
    ensures { OnOk result (placed.new.items ≡ sorted spec.id_cmp placed.old.items) }
{
    placed.sort_by(|a, b| a.0.cmp(&b.0))?;
    Ok(())
}

/// The first place of this id, or that of none.
fn place_among(by_id: &[PlacedId], id: TxId, none: usize) -> usize
    requires { IsSorted spec.id_cmp by_id.now }
    ensures { result ≡ spec.place_in by_id.now id none }
{
    let at = by_id.partition_point(|placed| placed.0 < id);
    match by_id.get(at) {
        Some(placed) => place_of(*placed, id, none),
        None => none,
    }
}

/// The place, if it is of this id.
fn place_of(placed: PlacedId, id: TxId, none: usize) -> usize
    ensures { result ≡ spec.place_at (Some placed) id none }
{
    if placed.0 == id { placed.1 } else { none }
}

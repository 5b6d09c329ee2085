//! The entries of an image, found by their ids.

ghost use Rattle.std.specs.Prelude.{◌≡◌, ◌==◌, ℕ, IfOk, OnOk, take};
ghost use Rattle.std.specs.List.{filter};
ghost use Rattle.std.specs.List.Sorted.{IsNonDecreasingBy};
ghost use Rattle.spec_verify.specs.Entries.{has_id};
ghost use Rattle.audit_verify.specs.Entries.{AreFound, first_with, ids_from, place_at_head};

use base_types::{Memory, TxId};
use sql_types::TxEntry;
use std::alloc::Global;

/// Entries, in ledger order, that are found by their ids.
#[derive(Debug, Drop)]
pub struct Entries<'a> {
    pub all: &'a [TxEntry],
    /// Their ids, each with the place of the entry: by id, and of one id by place.
    pub by_id: Vec<(TxId, usize)>,
}

impl<'a> Entries<'a> {
    /// Takes the time of sorting the ids. The only error is want of memory.
    pub fn new(alloc: Global, all: &'a [TxEntry]) -> Result<Self, Memory>
        ensures found { IfOk result (λ entries. AreFound entries) }
        ensures all { IfOk result (λ entries. entries.all.now ≡ all.now) }
    {
        let mut by_id = ids_of(alloc, all)?;
        sort_by_id(&mut by_id)?;
        Ok(Entries { all, by_id })
    }

    /// The place of the first entry with this id, if one has it. Takes an ordered search.
    pub fn position(&self, id: TxId) -> Option<usize>
        requires { AreFound self.now }
        ensures { result ≡ first_with self.now.all.now id }
    {
        let ids = self.by_id.as_slice();
        let from = ids.partition_point(|entry| entry.0 < id);
        let (_, rest) = ids.split_at(from);
        place_at_head(rest, id)
    }

    /// Whether one has this id.
    pub fn has(&self, id: TxId) -> bool
        requires { AreFound self.now }
        ensures { result ≡ has_id self.now.all.now id }
    {
        self.position(id).is_some()
    }

    /// Whether one before place k has this id.
    pub fn has_before(&self, k: usize, id: TxId) -> bool
        requires { AreFound self.now }
        ensures { result ≡ has_id (take k self.now.all.now) id }
    {
        match self.position(id) {
            Some(first) => first < k,
            None => false,
        }
    }
}

fn ids_of(alloc: Global, entries: &[TxEntry]) -> Result<Vec<(TxId, usize)>, Memory>
    ensures { IfOk result (λ ids. ids.items ≡ ids_from 0 entries.now) }
{
    let mut ids = Vec::with_capacity(alloc, entries.len())?;
    for (k, entry) in entries.iter().enumerate() {
        ids.push((entry.id, k))?;
    }
    Ok(ids)
}

fn sort_by_id(ids: &mut Vec<(TxId, usize)>) -> Result<(), Memory>
    ensures rise { OnOk result (IsNonDecreasingBy (λ p. p.0) ids.new.items) }
    ensures same { OnOk result ((id : ℕ)
        → filter (λ p. p.0 == id) ids.new.items ≡ filter (λ p. p.0 == id) ids.old.items) }
{
    ids.sort_by_key(|entry| entry.0)?;
    Ok(())
}

fn place_at_head(ids: &[(TxId, usize)], id: TxId) -> Option<usize>
    ensures { result ≡ place_at_head id ids.now }
{
    match ids {
        [first, ..] if first.0 == id => Some(first.1),
        _ => None,
    }
}

//! One piece of a list of starts.

ghost use Rattle.std.specs.Prelude.{◌≡◌, ◌≤◌, ◌<◌, ◌-◌, ◌++◌, ◌∷◌, [], IfOk, length, slice_get, take};
ghost use Rattle.std.specs.List.{insert, remove};
ghost use Rattle.std.specs.Option.{option_copied};

use crate::entry::Entry;
use crate::lead::Lead;
use base_types::Memory;
use std::alloc::Global;
use std::collections::VecDeque;
use std::marker::Model;

/// How many starts a piece holds.
pub const PIECE: usize = 512;

/// At most as many starts as a piece holds, in a ring with room for all of them. Contracts see them as a list.
#[derive(Debug, Drop)]
pub struct Piece {
    starts: VecDeque<Entry>,
    // The lead of the first start, where a search over pieces looks into none of them.
    first: Option<Lead>,
}

impl Model for Piece {
    ghost use Rattle.std.specs.Prelude.{◌≤◌, List, length};
    ghost use Rattle.std.specs.VecDeque.{deque_capacity};
    ghost use Rattle.spec_model.specs.Rows.{EventId};
    ghost use Rattle.store_order.specs.declared.piece.TheConstants.{PIECE};

    ghost Value = { List EventId };

    ghost view = { λ p. p.starts.items };

    ghost invariant = { λ p. (length p.starts.items ≤ PIECE) × (PIECE ≤ deque_capacity p.starts) };
}

impl Piece {
    /// None. All the memory that the piece ever takes is taken here.
    pub fn new(alloc: Global) -> Result<Piece, Memory>
        ensures { IfOk result (λ piece. piece ≡ []) }
    {
        let starts = VecDeque::with_capacity(alloc, PIECE)?;
        Ok(Piece {
            starts,
            first: None,
        })
    }

    /// How many there are.
    pub fn len(&self) -> usize
        ensures { result ≡ length self.now }
    {
        self.starts.len()
    }

    /// The start at this place.
    pub fn get(&self, place: usize) -> Option<&Entry>
        ensures { option_copied result ≡ slice_get self.now place }
    {
        self.starts.get(place)
    }

    /// Whether the first start has a lead below this one.
    pub fn begins_below(&self, lead: Lead) -> bool {
        match self.first {
            Some(first) => first < lead,
            None => false,
        }
    }

    /// How many leads are below this one, if leads rise.
    pub fn leads_below(&self, lead: Lead) -> usize
        ensures { result ≤ PIECE }
    {
        self.starts.partition_point(|entry| entry.lead() < lead)
    }

    /// Puts a start at this place. Where the piece was full, the answer is what no longer fits at its end.
    /// Moves the starts before the place or those behind it, whichever are fewer.
    pub fn insert(&mut self, place: usize, start: Entry) -> Option<Entry>
        requires { place ≤ length self.old }
        ensures list { self.new ≡ take PIECE (insert self.old place start) }
        ensures left { result ≡ slice_get (insert self.old place start) PIECE }
    {
        let _ = &self.starts;
        if place == PIECE {
            return Some(start);
        }
        let last = self.make_way();
        self.put(place, start);
        last
    }

    // Takes the last start out of a full piece.
    fn make_way(&mut self) -> Option<Entry>
        ensures list { self.new ≡ take (PIECE - 1) self.old }
        ensures taken { result ≡ slice_get self.old (PIECE - 1) }
    {
        if self.starts.len() < PIECE {
            return None;
        }
        self.starts.pop_back()
    }

    // Puts a start at this place of a piece that isn't full.
    fn put(&mut self, place: usize, start: Entry)
        requires within { place ≤ length self.old }
        requires room { length self.old < PIECE }
        ensures { self.new ≡ insert self.old place start }
    {
        if place > 0 {
            self.starts.insert(place, start).unwrap();
        } else {
            self.first = Some(start.lead());
            self.starts.push_front(start).unwrap();
        }
    }

    /// Puts a start behind the others, where the piece isn't full.
    pub fn push(&mut self, start: Entry)
        ensures { self.new ≡ take PIECE (self.old ++ start ∷ []) }
    {
        let end = self.len();
        self.insert(end, start);
    }

    /// Takes out the start at this place, which is the answer. Moves those before it or those behind it,
    /// whichever are fewer.
    pub fn remove(&mut self, place: usize) -> Option<Entry>
        ensures list { self.new ≡ remove self.old place }
        ensures taken { result ≡ slice_get self.old place }
    {
        if place > 0 {
            return self.starts.remove(place);
        }
        let taken = self.starts.pop_front();
        self.first = self.front_lead();
        taken
    }

    fn front_lead(&self) -> Option<Lead> {
        match self.starts.front() {
            Some(entry) => Some(entry.lead()),
            None => None,
        }
    }
}

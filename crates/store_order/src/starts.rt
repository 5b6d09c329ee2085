//! Starts in pieces.

ghost use Rattle.std.specs.Prelude.{◌≡◌, ◌≤◌, ◌<◌, ◌+◌, [], true, false, Bool, IfSome, OnOk, Some, length, slice_get, slice_index_or};
ghost use Rattle.std.specs.Fn.{ComputesKey};
ghost use Rattle.std.specs.List.{insert, remove};
ghost use Rattle.std.specs.Option.{option_copied};
ghost use Rattle.std.specs.List.Sorted.{IsPartitionedBy, IsPartitionPoint};
ghost use Rattle.spec_model.specs.Rows.{EventId as SpecEventId};

use crate::entry::Entry;
use crate::lead::Lead;
use crate::piece::{PIECE, Piece};
use crate::pieces::{add_pieces, put, take_out};
use base_types::Memory;
use sql_types::EventId;
use std::alloc::Global;
use std::marker::Model;

// The most that room is made for. More fit into no memory.
const MOST: usize = usize::MAX - PIECE;

// How many starts with one lead are looked at for one of them.
const NEAR: usize = 8;

/// Starts in an order, in pieces that are packed. Contracts see them as a list, and how many there is room
/// for. Each has a lead, which should not fall from one start to the next: a search asks first about the
/// starts with its own lead and those next to them. Where leads fall it asks more often and finds the same.
#[derive(Debug, Drop)]
pub struct Starts {
    pieces: Vec<Piece>,
    len: usize,
}

impl Model for Starts {
    ghost use Rattle.std.specs.Prelude.{◌≡◌, ◌*◌, ◌^◌, ◌<◌, length};
    ghost use Rattle.store_order.specs.Packed.{IsPacked, flat};
    ghost use Rattle.store_order.specs.declared.piece.TheConstants.{PIECE};
    ghost use Rattle.store_order.specs.ReservedOrder.{ReservedOrder};

    ghost Value = { ReservedOrder };

    ghost view = { λ s. record { list = flat s.pieces.items; room = PIECE * length s.pieces.items } };

    ghost invariant = { λ s. record {
      packed : IsPacked PIECE s.pieces.items;
      len : s.len ≡ length (flat s.pieces.items);
      fits : PIECE * length s.pieces.items < 2 ^ 64;
    } };
}

impl Starts {
    /// None. Takes no memory.
    pub fn new(alloc: Global) -> Starts
        ensures { result.list ≡ [] }
    {
        Starts {
            pieces: Vec::new(alloc),
            len: 0,
        }
    }

    /// How many there are.
    pub fn len(&self) -> usize
        ensures { result ≡ length self.now.list }
    {
        self.len
    }

    /// The start at this place.
    pub fn get(&self, place: usize) -> Option<EventId>
        ensures { result ≡ slice_get self.now.list place }
    {
        match self.entry(place) {
            Some(entry) => Some(entry.start()),
            None => None,
        }
    }

    fn entry(&self, place: usize) -> Option<&Entry>
        ensures { option_copied result ≡ slice_get self.now.list place }
    {
        match self.pieces.get(place / PIECE) {
            Some(piece) => piece.get(place % PIECE),
            None => None,
        }
    }

    /// Makes room for so many in all, a piece at a time. Moves none. For want of memory there may be more
    /// room than before.
    pub fn reserve(&mut self, alloc: Global, count: usize) -> Result<(), Memory>
        ensures list { self.new.list ≡ self.old.list }
        ensures more { self.old.room ≤ self.new.room }
        ensures ok { OnOk result (count ≤ self.new.room) }
    {
        if count > MOST {
            return Err(Memory);
        }
        add_pieces(&mut self.pieces, alloc, count.div_ceil(PIECE))
    }

    /// Puts a start and its lead at this place, before those that stand there and behind. Moves at most half a
    /// piece, and one start of each piece behind it. Takes no memory.
    pub fn insert(&mut self, place: usize, start: EventId, lead: Lead)
        requires within { place ≤ length self.old.list }
        requires room { length self.old.list + 1 ≤ self.old.room }
        ensures list { self.new.list ≡ insert self.old.list place start }
        ensures room { self.new.room ≡ self.old.room }
    {
        put(&mut self.pieces, place, Entry::new(start, lead));
        self.len += 1;
    }

    /// Takes out the start at this place. Moves at most half a piece, and one start of each piece behind it.
    pub fn remove(&mut self, place: usize)
        requires within { place < length self.old.list }
        ensures list { self.new.list ≡ remove self.old.list place }
        ensures room { self.new.room ≡ self.old.room }
    {
        take_out(&mut self.pieces, place);
        self.len -= 1;
    }

    /// How many pass a test that all of the first so many pass, and none behind them. It asks about the starts
    /// with this lead, by halving between them, then about the one right behind them or right before them, and
    /// where the leads led astray, goes on by halving between all that are left.
    pub fn partition_point<P: FnMut(&EventId) -> bool>(&self, lead: Lead, mut pred: P) -> usize
        requires { P.IsAlwaysCallable pred }
        ensures bound { result ≤ length self.now.list }
        ensures partitioned { (p : SpecEventId → Bool) → ComputesKey P.FnMut p pred
            → IsPartitionedBy p self.now.list
            → IsPartitionPoint (λ y. p y ≡ true) (λ y. p y ≡ false) self.now.list result }
    {
        let guess = self.guess(lead);
        let mut low = 0;
        let mut high = self.len();
        while low < high {
            let middle = guess.probe(low, high);
            if pred(&self.at(middle)) {
                low = middle + 1;
            } else {
                high = middle;
            }
        }
        low
    }

    /// Where the start of this lead stands, if it is one of the first few that have this lead. Asks about none.
    /// None says nothing: it may stand elsewhere.
    pub fn find_near(&self, lead: Lead, start: EventId) -> Option<usize>
        ensures { IfSome result (λ place. slice_get self.now.list place ≡ Some start) }
    {
        let first = self.leads_below(lead);
        for place in first..first.saturating_add(NEAR) {
            if self.is_at(place, start) {
                return Some(place);
            }
        }
        None
    }

    // Whether this start is at this place.
    fn is_at(&self, place: usize, start: EventId) -> bool
        ensures { result ≡ true → slice_get self.now.list place ≡ Some start }
    {
        match self.get(place) {
            Some(other) => other == start,
            None => false,
        }
    }

    // The places between which the leads are this one, if leads rise.
    fn guess(&self, lead: Lead) -> Guess {
        let first = self.leads_below(lead);
        let behind = self.leads_up_to(lead, first);
        Guess { first, behind }
    }

    // How many leads are below this one, if leads rise: all of the pieces before the last one that begins with
    // such a lead, and some of this one.
    fn leads_below(&self, lead: Lead) -> usize {
        let begun = self
            .pieces
            .partition_point(|piece| piece.begins_below(lead));
        match begun.checked_sub(1) {
            Some(last) => last * PIECE + self.pieces[last].leads_below(lead),
            None => 0,
        }
    }

    // How many leads are this one or below, if leads rise and so many are below: by steps that double, since
    // few are alike, and then by halving.
    fn leads_up_to(&self, lead: Lead, below: usize) -> usize {
        let len = self.len();
        let mut low = below;
        let mut high = below;
        let mut step: usize = 1;
        while high < len && self.is_up_to(high, lead) {
            low = high + 1;
            high = low + step.min(len - low);
            step = step.saturating_mul(2);
        }
        self.up_to_between(lead, low, high)
    }

    // The same where it lies between these, by halving.
    fn up_to_between(&self, lead: Lead, low: usize, high: usize) -> usize {
        let mut low = low;
        let mut high = high;
        while low < high {
            let middle = low + (high - low) / 2;
            if self.is_up_to(middle, lead) {
                low = middle + 1;
            } else {
                high = middle;
            }
        }
        low
    }

    // Whether the lead at this place is at most this one.
    fn is_up_to(&self, place: usize, lead: Lead) -> bool {
        match self.entry(place) {
            Some(entry) => entry.lead() <= lead,
            None => false,
        }
    }

    // The start at this place, where there is one.
    fn at(&self, place: usize) -> EventId
        requires { place < length self.now.list }
        ensures { result ≡ slice_index_or self.now.list place result }
    {
        match self.get(place) {
            Some(start) => start,
            None => unreachable!(),
        }
    }
}

// Where the starts of one lead seem to stand: from the first place up to the one behind.
#[derive(Drop)]
struct Guess {
    first: usize,
    behind: usize,
}

impl Guess {
    // The place between these to ask about: halfway in what they have of the guess, right behind it, right
    // before it, or halfway in all.
    fn probe(&self, low: usize, high: usize) -> usize
        requires { low < high }
        ensures from { low ≤ result }
        ensures up_to { result < high }
    {
        let first = low.max(self.first);
        let behind = high.min(self.behind);
        if first < behind {
            first + (behind - first) / 2
        } else if low <= self.behind && self.behind < high {
            self.behind
        } else if low < self.first && self.first <= high {
            self.first - 1
        } else {
            low + (high - low) / 2
        }
    }
}

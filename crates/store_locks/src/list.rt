//! The list of locks.

ghost use Rattle.std.specs.Prelude.{◌≡◌, ◌≤◌, ◌++◌, ◌∷◌, [], length, take, OnOk, OnErr};
ghost use Rattle.store_locks.specs.Asked.{IsMeant, asked, refused_or};
ghost use Rattle.spec_model.specs.InTheWay.{barrier, first_conflict};
ghost use Rattle.spec_model.specs.Holds.{holds_any, holds_request, hold, with_request, holds_after, released};

use crate::conflict::{already_holds, barrier};
use crate::hold::{hold_of, holds_any, is_known};
use crate::index::{first_at, make_room, move_places, note_moves, places_of, stays};
use crate::item::copy_of_item;
use crate::lock_err::LockErr;
use base_types::{Memory, TxId};
use sql_types::{Hold, LockRequest, Mode};
use std::alloc::Global;
use std::marker::Model;

/// The locks of one cell. Contracts see the list of what is held, in the order in which it was taken.
#[derive(Debug, Drop)]
pub struct LockList {
    holds: Vec<Hold>,
    // The places of the holds, by item.
    places: Vec<usize>,
    // Room to note where holds move, so that a release takes no memory.
    moved: Vec<usize>,
    // The transactions that hold something.
    holders: Vec<TxId>,
}

impl Model for LockList {
    ghost use Rattle.std.specs.Prelude.{List};
    ghost use Rattle.sql_types.specs.declared.lock.Hold.{Hold};

    ghost Value = { List Hold };

    ghost use Rattle.store_locks.specs.Index.{Bookkeeping};

    ghost view = { λ l. l.holds.items };

    ghost invariant = { λ l. Bookkeeping l.holds.items l.places.items l.moved.items l.holders.items };
}

impl LockList {
    /// No locks. Takes no memory.
    pub fn new(alloc: Global) -> LockList
        ensures { result ≡ [] }
    {
        LockList {
            holds: Vec::new(alloc),
            places: Vec::new(alloc),
            moved: Vec::new(alloc),
            holders: Vec::new(alloc),
        }
    }

    /// Grants the transaction all that it wants, or nothing: what it doesn't hold yet comes behind what is
    /// held. The answer is whether it held nothing before. `Locked` where another transaction holds something
    /// that conflicts; the first such want decides, and the holder is the least transaction, with the least
    /// of its modes that conflict. After an error nothing has changed.
    ///
    /// For each want this looks at the locks on its item alone, which it finds by halving, and at the
    /// transactions that hold something. A lock that is new moves the places, a word each, of those on items
    /// behind its own.
    pub fn ask(&mut self, tx: TxId, requests: &[LockRequest]) -> Result<bool, LockErr>
        ensures answer { IsMeant (asked self.old tx requests.now) result }
        ensures ok { OnOk result (self.new ≡ holds_after self.old tx requests.now) }
        ensures err { OnErr result (self.new ≡ self.old) }
    {
        self.admit(tx, requests)?;
        let first = !self.holds_any(tx);
        let before = self.holds();
        if self.take_all(tx, requests).is_err() {
            self.back(before);
            return Err(LockErr::Memory);
        }
        Ok(first)
    }

    /// How many locks are held.
    pub fn holds(&self) -> u64
        ensures { result ≡ length self.now }
    {
        self.holds.len() as u64
    }

    /// Keeps the first so many locks. Where their number before an `ask` is given, and nothing else has
    /// changed since, the list is again as it was then. Takes no memory, and looks at the locks that stay
    /// once for each transaction that holds something.
    pub fn back(&mut self, holds: u64)
        requires { holds ≤ length self.old }
        ensures { self.new ≡ take holds self.old }
    {
        let kept = holds as usize;
        self.holds.truncate(kept);
        self.places.retain(|place| *place < kept);
        let holds = self.holds.as_slice();
        self.holders.retain(|holder| holds_any(holds, *holder));
    }

    /// Drops the locks of the transaction; those of others stay as they are. Takes no memory, and looks at
    /// each lock once.
    #[tactic(auto, unfolding(spec_model::specs::Holds::released))]
    pub fn release(&mut self, tx: TxId)
        ensures { self.new ≡ released self.old tx }
    {
        note_moves(&self.holds, &mut self.moved, tx);
        let holds = self.holds.as_slice();
        self.places.retain(|place| stays(holds, *place, tx));
        move_places(&mut self.places, &self.moved);
        self.holds.retain(|hold| hold.tx != tx);
        self.holders.retain(|holder| *holder != tx);
    }

    fn holds_any(&self, tx: TxId) -> bool
        ensures { result ≡ holds_any self.now tx }
    {
        is_known(&self.holders, tx)
    }

    fn holds_request(&self, tx: TxId, request: &LockRequest) -> bool
        ensures { result ≡ holds_request self.now tx request.now }
    {
        let places = places_of(&self.holds, &self.places, &request.item);
        already_holds(&self.holds, places, tx, request)
    }

    fn barrier(&self, tx: TxId, request: &LockRequest) -> Option<(TxId, Mode)>
        ensures { result ≡ barrier self.now tx request.now }
    {
        let places = places_of(&self.holds, &self.places, &request.item);
        barrier(&self.holds, places, tx, request)
    }

    // Refuses where a want is barred.
    fn admit(&self, tx: TxId, requests: &[LockRequest]) -> Result<(), LockErr>
        ensures { IsMeant (refused_or (first_conflict self.now tx requests.now) tt) result }
    {
        for request in requests {
            if let Some((holder, mode)) = self.barrier(tx, request) {
                let item = copy_of_item(self.alloc(), &request.item)?;
                return Err(LockErr::Locked { holder, item, mode });
            }
        }
        Ok(())
    }

    // After an error a part of the wants may be taken.
    fn take_all(&mut self, tx: TxId, requests: &[LockRequest]) -> Result<(), Memory>
        ensures ok { OnOk result (self.new ≡ holds_after self.old tx requests.now) }
        ensures grows { take (length self.old) self.new ≡ self.old }
    {
        for request in requests {
            self.take(tx, request)?;
        }
        Ok(())
    }

    fn take(&mut self, tx: TxId, request: &LockRequest) -> Result<(), Memory>
        ensures ok { OnOk result (self.new ≡ with_request self.old tx request.now) }
        ensures err { OnErr result (self.new ≡ self.old) }
    {
        if self.holds_request(tx, request) {
            return Ok(());
        }
        let hold = hold_of(self.alloc(), tx, request)?;
        self.add(hold)
    }

    fn add(&mut self, hold: Hold) -> Result<(), Memory>
        ensures ok { OnOk result (self.new ≡ self.old ++ hold ∷ []) }
        ensures err { OnErr result (self.new ≡ self.old) }
    {
        let tx = hold.tx;
        let place = self.holds.len();
        let at = first_at(&self.holds, &self.places, &hold.request.item);
        let known = is_known(&self.holders, tx);
        make_room(&mut self.moved, place)?;
        self.places.reserve(1)?;
        self.holders.reserve(1)?;
        self.holds.push(hold)?;
        self.places.insert(at, place).unwrap();
        if !known {
            self.holders.push(tx).unwrap();
        }
        Ok(())
    }

    fn alloc(&self) -> Global {
        *self.holds.allocator()
    }
}

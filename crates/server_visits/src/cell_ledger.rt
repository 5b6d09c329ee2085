//! The ledger's cell among cells: what is asked of it besides the visits of seats.

ghost use Rattle.std.specs.Prelude.{◌≡◌, length, OnErr, OnOk};
ghost use Rattle.server_visits.specs.Full.{ClosesFull, ClosesPending, IsLedger};
ghost use Rattle.server_session.specs.KeptCell.{Keeps};
ghost use Rattle.server_visit_ledger.specs.LedgerSeen.{ledger_seen};
ghost use Rattle.server_session.specs.Steps.{items_of};

use crate::cell::{Cell, Kind};
use base_merkle::Hash32;
use base_types::Memory;
use server_visit_ledger::LedgerCell;
use std::alloc::Global;

impl Cell {
    /// How many items the journal has; none in a cell that isn't the ledger's.
    pub fn item_count(&self) -> usize
        ensures { result ≡ length (items_of self.now.cell) }
    {
        match &self.kind {
            Kind::Ledger(ledger) => ledger.items().len(),
            Kind::Catalog(_) | Kind::Rows(_) => 0,
        }
    }

    /// Closes a block of the ledger's cell, if as many entries are pending as a block takes. For want of
    /// memory nothing changes.
    pub fn close_full<H: Hash32>(&mut self, alloc: Global, h: H) -> Result<(), Memory>
        requires { Keeps (H.digest h) self.old }
        ensures closes { OnOk result (ClosesFull (H.digest h) self.old.cell self.new.cell) }
        ensures keeps { Keeps (H.digest h) self.new }
        ensures err { OnErr result (self.new ≡ self.old) }
    {
        match &mut self.kind {
            Kind::Ledger(ledger) => close_full_block(alloc, h, ledger),
            Kind::Catalog(_) | Kind::Rows(_) => Ok(()),
        }
    }

    /// Closes a block of what is pending in the ledger's cell, of as many entries as a block takes or else of
    /// all, where any is. For want of memory nothing changes.
    pub fn close_pending<H: Hash32>(&mut self, alloc: Global, h: H) -> Result<(), Memory>
        requires { Keeps (H.digest h) self.old }
        ensures closes { OnOk result (ClosesPending (H.digest h) self.old.cell self.new.cell) }
        ensures keeps { Keeps (H.digest h) self.new }
        ensures err { OnErr result (self.new ≡ self.old) }
    {
        match &mut self.kind {
            Kind::Ledger(ledger) => close_next_block(alloc, h, ledger),
            Kind::Catalog(_) | Kind::Rows(_) => Ok(()),
        }
    }

    /// The ledger's cell by itself.
    pub fn into_ledger(self) -> LedgerCell
        requires { IsLedger self.cell }
        ensures { ledger_seen result ≡ self }
    {
        let Kind::Ledger(ledger) = self.kind else {
            unreachable!()
        };
        ledger
    }
}

fn close_full_block<H: Hash32>(alloc: Global, h: H, ledger: &mut LedgerCell) -> Result<(), Memory>
    requires { Keeps (H.digest h) (ledger_seen ledger.old) }
    ensures closes { OnOk result
        (ClosesFull (H.digest h) (ledger_seen ledger.old).cell (ledger_seen ledger.new).cell) }
    ensures keeps { Keeps (H.digest h) (ledger_seen ledger.new) }
    ensures err { OnErr result (ledger.new ≡ ledger.old) }
{
    let size = ledger.block_size();
    if ledger.pending() < u64::from(size) {
        return Ok(());
    }
    ledger.close_block(alloc, h, size)
}

fn close_next_block<H: Hash32>(alloc: Global, h: H, ledger: &mut LedgerCell) -> Result<(), Memory>
    requires { Keeps (H.digest h) (ledger_seen ledger.old) }
    ensures closes { OnOk result
        (ClosesPending (H.digest h) (ledger_seen ledger.old).cell (ledger_seen ledger.new).cell) }
    ensures keeps { Keeps (H.digest h) (ledger_seen ledger.new) }
    ensures err { OnErr result (ledger.new ≡ ledger.old) }
{
    if ledger.pending() == 0 {
        return Ok(());
    }
    let count = ledger.next_count();
    ledger.close_block(alloc, h, count)
}

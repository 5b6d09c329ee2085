//! The visits of a seat.

ghost use Rattle.server_session.specs.ControlPoints.{KeepsStatement};
ghost use Rattle.server_session.specs.Steps.{Among, ComesOn, Visits};

use crate::cell::{Cell, Kind};
use base_merkle::Hash32;
use server_session::Seat;
use server_visit_catalog::visit_catalog;
use server_visit_ledger::visit_ledger;
use server_visit_table::visit_rows;
use std::alloc::Global;

/// Visits the cell that the seat needs.
pub fn visit<H: Hash32>(seat: &mut Seat<H>, alloc: Global, cell: &mut Cell)
    requires { Among H.digest seat.old cell.old }
    ensures visits { Visits H.digest seat.old cell.old cell.new seat.new }
    ensures comes_on { ComesOn seat.old cell.old cell.new seat.new }
    ensures stays { KeepsStatement seat.old seat.new }
{
    match &mut cell.kind {
        Kind::Catalog(catalog) => visit_catalog(seat, alloc, catalog),
        Kind::Ledger(ledger) => visit_ledger(seat, alloc, ledger),
        Kind::Rows(rows) => visit_rows(seat, alloc, rows),
    }
}

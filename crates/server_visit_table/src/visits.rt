//! Visits of a table's cell.

ghost use Rattle.server_session.specs.KeptCell.{rows_seen};
ghost use Rattle.server_session.specs.ControlPoints.{KeepsStatement};
ghost use Rattle.server_session.specs.Steps.{Among, ComesOn, Visits};

use crate::rows_back::go_back;
use crate::rows_found::run_in_table;
use crate::rows_index::add_index;
use crate::rows_release::release_rows;
use base_merkle::Hash32;
use server_session::{ControlPoint, Seat, Stage};
use std::alloc::Global;
use store_table::TableCell;

/// A visit of a table's cell: a statement of rows, the way back, an index, or else a release.
pub fn visit_rows<H: Hash32>(seat: &mut Seat<H>, alloc: Global, rows: &mut TableCell)
    requires { Among H.digest seat.old (rows_seen rows.old) }
    ensures visits { Visits H.digest seat.old (rows_seen rows.old) (rows_seen rows.new) seat.new }
    ensures comes_on { ComesOn seat.old (rows_seen rows.old) (rows_seen rows.new) seat.new }
    ensures stays { KeepsStatement seat.old seat.new }
{
    match &seat.point {
        ControlPoint::Inside(Stage::Found { .. }) => run_in_table(seat, alloc, rows),
        ControlPoint::Inside(Stage::GoingBack { .. }) => go_back(seat, rows),
        ControlPoint::Inside(Stage::Made { .. }) => add_index(seat, alloc, rows),
        _ => release_rows(seat, rows),
    }
}

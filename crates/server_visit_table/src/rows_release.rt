//! The release of a table's cell.

ghost use Rattle.std.specs.Prelude.{◌≡◌, ◌∷◌, List, ℕ};
ghost use Rattle.server_session.specs.Seats.{OpenTransaction};
ghost use Rattle.server_session.specs.UndoVisits.{index_dropped, unlocked};
ghost use Rattle.server_session.specs.Represents.{Represents};
ghost use Rattle.server_visit_table.specs.InTable.{IsElsewhere, KeepsRest, def_to_drop, undone_by};
ghost use Rattle.server_session.specs.KeptCell.{rows_seen};
ghost use Rattle.server_session.specs.ControlPoints.{KeepsStatement};
ghost use Rattle.server_session.specs.Steps.{Among, ComesOn, Visits};

use base_merkle::Hash32;
use base_types::TxId;
use server_session::{Answering, ControlPoint, Running, Seat, Stage};
use sql_types::EndLine;
use store_table::TableCell;

/// Releases a table's cell, once the end is fixed.
pub(crate) fn release_rows<H: Hash32>(seat: &mut Seat<H>, rows: &mut TableCell)
    requires among { Among H.digest seat.old (rows_seen rows.old) }
    requires point { IsElsewhere seat.old.point }
    ensures visits { Visits H.digest seat.old (rows_seen rows.old) (rows_seen rows.new) seat.new }
    ensures comes_on { ComesOn seat.old (rows_seen rows.old) (rows_seen rows.new) seat.new }
    ensures stays { KeepsStatement seat.old seat.new }
{
    if let Some(running) = &mut seat.running {
        leave_rows(running, &seat.point, rows);
    }
}

// Takes back what isn't committed, drops the index of a refused CREATE INDEX, and drops the locks.
fn leave_rows<H: Hash32>(running: &mut Running<H>, point: &ControlPoint, rows: &mut TableCell)
    ensures cell { (h : H) (o : OpenTransaction) → Represents H.digest h running.old.context o
        → rows.new ≡ unlocked o.id (index_dropped (def_to_drop point.now)
        (undone_by running.old.end o.id rows.old)) }
    ensures context { running.new.context ≡ running.old.context }
    ensures left { (cell : ℕ) (rest : List ℕ) → running.old.visited.left ≡ cell ∷ rest
        → running.new.visited.left ≡ rest }
    ensures rest { KeepsRest running.old running.new }
{
    let id = running.context.id();
    undo_unless_committed(&running.end, id, rows);
    drop_refused(point, rows);
    rows.release(id);
    running.visited.release();
}

fn undo_unless_committed(end: &Option<EndLine>, id: TxId, rows: &mut TableCell)
    ensures { rows.new ≡ undone_by end.now id rows.old }
{
    if !matches!(end, Some(EndLine::Committed { .. })) {
        rows.undo(id);
    }
}

// Drops the index of a refused CREATE INDEX.
fn drop_refused(point: &ControlPoint, rows: &mut TableCell)
    ensures { rows.new ≡ index_dropped (def_to_drop point.now) rows.old }
{
    if let ControlPoint::Inside(Stage::Answering(Answering { def: Some(def), .. })) = point {
        rows.drop_index(def.get());
    }
}

//! The way back to a savepoint, in a table's cell.

ghost use Rattle.std.specs.Prelude.{◌≡◌, ◌<◌, ◌+◌, length};
ghost use Rattle.server_visit_table.specs.InTable.{IsGoingBack};
ghost use Rattle.server_session.specs.KeptCell.{rows_seen};
ghost use Rattle.server_session.specs.ControlPoints.{KeepsStatement};
ghost use Rattle.server_session.specs.Steps.{Among, ComesOn, Visits};
ghost use Rattle.server_visit_table.specs.TableStages.{back_stage};

use base_merkle::Hash32;
use server_session::{ControlPoint, Seat, Stage, VisitedCellList, not_catalog, put_point, said};
use sql_types::Reply;
use store_table::TableCell;

/// Takes back in a table's cell what the transaction did since the savepoint.
pub(crate) fn go_back<H: Hash32>(seat: &mut Seat<H>, rows: &mut TableCell)
    requires among { Among H.digest seat.old (rows_seen rows.old) }
    requires point { IsGoingBack seat.old.point }
    ensures visits { Visits H.digest seat.old (rows_seen rows.old) (rows_seen rows.new) seat.new }
    ensures comes_on { ComesOn seat.old (rows_seen rows.old) (rows_seen rows.new) seat.new }
    ensures stays { KeepsStatement seat.old seat.new }
{
    let ControlPoint::Inside(Stage::GoingBack { seq, passed }) = &seat.point else {
        unreachable!()
    };
    let Some(running) = &seat.running else {
        unreachable!()
    };
    rows.undo_to(running.context.id(), *seq);
    let stage = stage_behind(&running.visited, *seq, *passed);
    put_point(&mut seat.point, ControlPoint::Inside(stage));
}

// Where the seat stands once it went back in one cell more than in so many.
fn stage_behind(visited: &VisitedCellList, seq: u64, passed: usize) -> Stage
    requires { passed < length visited.now.left }
    ensures { result ≡ back_stage seq (passed + 1) visited.now.left }
{
    let passed = visited.one_more(passed);
    match not_catalog(visited.at(passed)) {
        Some(_) => Stage::GoingBack { seq, passed },
        None => said(Reply::Back),
    }
}

//! CREATE INDEX, in its table's cell.

ghost use Rattle.std.specs.Prelude.{◌≡◌, is_ok};
ghost use Rattle.server_visit_table.specs.InTable.{IsMade, KeepsRest};
ghost use Rattle.server_session.specs.KeptCell.{rows_seen};
ghost use Rattle.server_session.specs.ControlPoints.{KeepsStatement};
ghost use Rattle.server_session.specs.Steps.{Among, ComesOn, Visits};
ghost use Rattle.server_visit_table.specs.TableStages.{IndexMade, made_stage};
ghost use Rattle.store_table.specs.Calls.{IsTable, LacksLast};

use base_merkle::Hash32;
use base_types::Memory;
use server_session::{ControlPoint, Running, Seat, Shared, Stage, cell_of, put_point};
use sql_types::TableDef;
use std::alloc::Global;
use store_table::TableCell;

/// Adds the index of CREATE INDEX in its table's cell, if there is memory for it.
pub(crate) fn add_index<H: Hash32>(seat: &mut Seat<H>, alloc: Global, rows: &mut TableCell)
    requires among { Among H.digest seat.old (rows_seen rows.old) }
    requires point { IsMade seat.old.point }
    ensures visits { Visits H.digest seat.old (rows_seen rows.old) (rows_seen rows.new) seat.new }
    ensures comes_on { ComesOn seat.old (rows_seen rows.old) (rows_seen rows.new) seat.new }
    ensures stays { KeepsStatement seat.old seat.new }
{
    let ControlPoint::Inside(Stage::Made { def, .. }) = std::mem::replace(
        &mut seat.point,
        ControlPoint::Between,
    ) else {
        unreachable!()
    };
    let Some(running) = &mut seat.running else {
        unreachable!()
    };
    let added = add_last_index(running, alloc, rows, def.get()).is_ok();
    put_point(
        &mut seat.point,
        ControlPoint::Inside(stage_made(def, added)),
    );
}

// Adds the last index of the definition, if there is memory for it.
fn add_last_index<H: Hash32>(
    running: &mut Running<H>,
    alloc: Global,
    rows: &mut TableCell,
    def: &TableDef,
) -> Result<(), Memory>
    requires table { IsTable rows.old def.now }
    requires indexes { LacksLast rows.old def.now }
    ensures made { IndexMade rows.old running.old def.now rows.new running.new (is_ok result) }
    ensures context { running.new.context ≡ running.old.context }
    ensures rest { KeepsRest running.old running.new }
{
    running.visited.reserve()?;
    rows.add_index(alloc, def)?;
    running.visited.add(cell_of(def.id));
    Ok(())
}

fn stage_made(def: Shared<TableDef>, added: bool) -> Stage
    ensures { result ≡ made_stage def added }
{
    if added {
        Stage::Made { def, indexed: true }
    } else {
        Stage::LacksIndex { def }
    }
}

//! INSERT, UPDATE, DELETE and SELECT, in their table's cell.

ghost use Rattle.std.specs.Prelude.{◌≡◌, ◌<◌, OnOk};
ghost use Rattle.sql_types.specs.declared.statement.Stmt.TheVariants as stmt;
ghost use Rattle.server_visit_table.specs.InTable.{HasRun, IsFound, KeepsRest, MayChangeRows, MayRun};
ghost use Rattle.server_session.specs.KeptCell.{rows_seen};
ghost use Rattle.server_session.specs.ControlPoints.{KeepsStatement};
ghost use Rattle.server_session.specs.Steps.{Among, ComesOn, Visits};
ghost use Rattle.server_visit_table.specs.TableStages.{RunsInTableTo, changed_reply, read_reply, stopped_reply};
ghost use Rattle.store_table.specs.Calls.{IsTable};
ghost use Rattle.sql_types.specs.declared.table.Part.{Part};

use base_merkle::Hash32;
use base_types::Items;
use server_session::{
    ControlPoint, Running, Seat, Stage, TxCtx, cell_of, done, put_point, stopped_behind_lock,
};
use sql_locks::{query_requests, row_requests};
use sql_parts::{KeyedTable, key_places};
use sql_types::{Part, Reply, Row, RowStmt, Select, Stmt, TableDef};
use sql_value::Refusal;
use std::alloc::Global;
use store_table::{TableCell, TableErr};

/// Runs a statement of rows in its table's cell.
pub(crate) fn run_in_table<H: Hash32>(seat: &mut Seat<H>, alloc: Global, rows: &mut TableCell)
    requires among { Among H.digest seat.old (rows_seen rows.old) }
    requires point { IsFound seat.old.point }
    ensures visits { Visits H.digest seat.old (rows_seen rows.old) (rows_seen rows.new) seat.new }
    ensures comes_on { ComesOn seat.old (rows_seen rows.old) (rows_seen rows.new) seat.new }
    ensures stays { KeepsStatement seat.old seat.new }
{
    let ControlPoint::Inside(Stage::Found { def, part, fresh }) = &seat.point else {
        unreachable!()
    };
    let Some(stmt) = &seat.stmt else {
        unreachable!()
    };
    let Some(running) = &mut seat.running else {
        unreachable!()
    };
    let stage = run_found(running, alloc, rows, def.get(), *part, *fresh, stmt);
    put_point(&mut seat.point, ControlPoint::Inside(stage));
}

// Runs the statement, and says where its seat stands then.
fn run_found<H: Hash32>(
    running: &mut Running<H>,
    alloc: Global,
    rows: &mut TableCell,
    def: &TableDef,
    part: Part,
    fresh: bool,
    stmt: &Stmt,
) -> Stage
    requires { MayRun H.digest running.old.context rows.old (def.now, part) stmt.now }
    ensures { RunsInTableTo H.digest rows.old running.old (def.now, part) fresh stmt.now rows.new running.new result }
{
    match run(running, alloc, rows, def, part, stmt) {
        Ok(reply) => {
            running.visited.add(cell_of(def.id));
            done(running.explicit, reply)
        }
        Err(refusal) => stopped_behind_lock(fresh, refusal),
    }
}

// Runs the statement. For want of memory it is stopped.
fn run<H: Hash32>(
    running: &mut Running<H>,
    alloc: Global,
    rows: &mut TableCell,
    def: &TableDef,
    part: Part,
    stmt: &Stmt,
) -> Result<Reply, Refusal>
    requires { MayRun H.digest running.old.context rows.old (def.now, part) stmt.now }
    ensures run { HasRun H.digest rows.old running.old.context (def.now, part) stmt.now result rows.new
        running.new.context }
    ensures left { running.new.visited.left ≡ running.old.visited.left }
    ensures room { OnOk result (0 < running.new.visited.room) }
    ensures rest { KeepsRest running.old running.new }
{
    running.visited.reserve()?;
    match stmt {
        Stmt::Change(row) => change(alloc, &mut running.context, rows, def, row),
        Stmt::Select(q) => read(alloc, &running.context, rows, def, part, q),
        _ => unreachable!(),
    }
}

fn change<H: Hash32>(
    alloc: Global,
    context: &mut TxCtx<H>,
    rows: &mut TableCell,
    def: &TableDef,
    row: &RowStmt,
) -> Result<Reply, Refusal>
    requires { MayChangeRows H.digest context.old rows.old def.now row.now }
    ensures { (part : Part) → HasRun H.digest rows.old context.old (def.now, part) (stmt.Change row.now)
        result rows.new context.new }
{
    let places = key_places(alloc, def.columns.as_slice())?;
    let table = KeyedTable::new(def, &places);
    let requests = row_requests(alloc, &table, row)?;
    reply_changed(rows.change(alloc, context, &table, row, &requests))
}

fn read<H: Hash32>(
    alloc: Global,
    context: &TxCtx<H>,
    rows: &mut TableCell,
    def: &TableDef,
    part: Part,
    q: &Select,
) -> Result<Reply, Refusal>
    requires { IsTable rows.old def.now }
    ensures { HasRun H.digest rows.old context.now (def.now, part) (stmt.Select q.now) result rows.new
        context.now }
{
    let places = key_places(alloc, def.columns.as_slice())?;
    let table = KeyedTable::new(def, &places);
    let requests = query_requests(alloc, &table, part, q)?;
    reply_read(rows.read(alloc, context.id(), &table, part, q, &requests))
}

fn reply_changed(changed: Result<u64, TableErr>) -> Result<Reply, Refusal>
    ensures { result ≡ changed_reply changed }
{
    match changed {
        Ok(count) => Ok(Reply::Changed(count)),
        Err(stop) => reply_stopped(stop),
    }
}

fn reply_read(read: Result<Items<Row>, TableErr>) -> Result<Reply, Refusal>
    ensures { result ≡ read_reply read }
{
    match read {
        Ok(rows) => Ok(Reply::Rows(rows)),
        Err(stop) => reply_stopped(stop),
    }
}

// A refusal by rows is a reply that is certain, and the locks stay; else nothing is done.
fn reply_stopped(stop: TableErr) -> Result<Reply, Refusal>
    ensures { result ≡ stopped_reply stop }
{
    match stop {
        TableErr::Refused(refusal) => Ok(Reply::Refused(refusal)),
        TableErr::Locked { holder } => Err(Refusal::Locked { holder }),
        TableErr::Memory => Err(Refusal::NoMemory),
    }
}

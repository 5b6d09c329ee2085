//! Names that are looked up in the catalog.

ghost use Rattle.std.specs.Prelude.{◌≡◌, ◌<◌, ◌∷◌, [], IfErr, IfOk, OnErr, OnOk};
ghost use Rattle.sql_types.specs.declared.lock.Mode.TheVariants.{S};
ghost use Rattle.sql_types.specs.declared.reply.Reply.TheVariants as reply;
ghost use Rattle.sql_types.specs.declared.statement.Stmt.TheVariants as stmt;
ghost use Rattle.spec_model.specs.Locks as model;
ghost use Rattle.server_session.specs.Doing.{Stopped};
ghost use Rattle.server_session.specs.Seats.{OpenTransaction};
ghost use Rattle.store_catalog.specs.Calls.{LocksTaken};
ghost use Rattle.server_session.specs.Represents.{Represents};
ghost use Rattle.server_visit_catalog.specs.InCatalog as spec;
ghost use Rattle.server_visit_catalog.specs.InCatalog.{with_visited, Gets, LooksUp};

use crate::got::LookupResult;
use base_merkle::Hash32;
use server_session::{CATALOG, Running, Stage, done, stopped, stopped_behind_lock};
use sql_check::{check_select, check_stmt, table_of};
use sql_parts::Columns;
use sql_types::{Item, LockRequest, Mode, Part, Reply, RowStmt, Select};
use sql_value::Refusal;
use std::alloc::Global;
use store_catalog::CatalogCell;

// ---- stages

fn refused(explicit: bool, fresh: bool, e: Refusal) -> Stage
    ensures { result ≡ spec.refused_stage explicit fresh e }
{
    match e {
        Refusal::NoMemory => stopped_behind_lock(fresh, Refusal::NoMemory),
        e => done(explicit, Reply::Refused(e)),
    }
}

fn got_stage(explicit: bool, fresh: bool, got: Result<LookupResult, Refusal>) -> Stage
    ensures { result ≡ spec.got_stage explicit fresh got }
{
    match got {
        Ok(LookupResult::Table { def, part }) => Stage::Found { def, part, fresh },
        Ok(LookupResult::Rows(rows)) => done(explicit, Reply::Rows(rows)),
        Err(e) => refused(explicit, fresh, e),
    }
}

// ---- the lock

fn whole(mode: Mode) -> LockRequest
    ensures { result ≡ model.whole mode }
{
    LockRequest {
        item: Item::Whole,
        mode,
    }
}

/// Asks for a lock on the catalog, and answers whether it is the transaction's first there. Makes room first
/// to note the visit.
pub(crate) fn lock<H: Hash32>(
    running: &mut Running<H>,
    mode: Mode,
    catalog: &mut CatalogCell,
) -> Result<bool, Refusal>
    ensures ok { IfOk result (λ fresh. (h : H) (o : OpenTransaction)
        → Represents H.digest h running.old.context o
        → LocksTaken catalog.old o.id (model.whole mode ∷ []) fresh catalog.new) }
    ensures stopped { IfErr result (λ e. (h : H) (o : OpenTransaction)
        → Represents H.digest h running.old.context o
        → Stopped catalog.old.holds o.id (model.whole mode ∷ []) (reply.Refused e)) }
    ensures err { OnErr result (catalog.new ≡ catalog.old) }
    ensures room { OnOk result (0 < running.new.visited.room) }
    ensures left { running.new.visited.left ≡ running.old.visited.left }
    ensures same { running.new ≡ with_visited running.new.visited running.old }
{
    running.visited.reserve()?;
    catalog.lock(running.context.id(), &[whole(mode)])
}

// ---- what a statement gets

/// The table that INSERT, UPDATE or DELETE names, where it passes what is checked before any row.
pub(crate) fn look_up_for_change(
    alloc: Global,
    row: &RowStmt,
    catalog: &CatalogCell,
) -> Result<LookupResult, Refusal>
    ensures { Gets catalog.now (stmt.Change row.now) result }
{
    let Some((def, part)) = catalog.look(table_of(row)) else {
        return Err(Refusal::NoSuchTable);
    };
    check_stmt(alloc, row, def.get(), part)?;
    let def = def.share()?;
    Ok(LookupResult::Table { def, part })
}

fn is_system(part: Part) -> bool
    ensures { result ≡ spec.is_system part }
{
    matches!(part, Part::System)
}

/// The table that SELECT names, where it passes its checks, or the rows that it shows of a system table.
pub(crate) fn look_up_for_select(
    alloc: Global,
    q: &Select,
    catalog: &CatalogCell,
) -> Result<LookupResult, Refusal>
    ensures { Gets catalog.now (stmt.Select q.now) result }
{
    let Some((def, part)) = catalog.look(&q.table) else {
        return Err(Refusal::NoSuchTable);
    };
    if is_system(part) {
        return Ok(LookupResult::Rows(catalog.read(alloc, q)?));
    }
    check_select(q, &Columns::of(def.get(), part))?;
    let def = def.share()?;
    Ok(LookupResult::Table { def, part })
}

// ---- looking up

/// INSERT, UPDATE or DELETE looks its table up, under S.
pub(crate) fn look_for_change<H: Hash32>(
    alloc: Global,
    running: &mut Running<H>,
    row: &RowStmt,
    catalog: &mut CatalogCell,
) -> Stage
    ensures { LooksUp H.digest (stmt.Change row.now) running.old catalog.old running.new catalog.new result }
{
    match lock(running, Mode::S, catalog) {
        Ok(fresh) => {
            running.visited.add(CATALOG);
            got_stage(
                running.explicit,
                fresh,
                look_up_for_change(alloc, row, catalog),
            )
        }
        Err(e) => stopped(e),
    }
}

/// SELECT looks its table up, under S, and shows the rows of a system table.
pub(crate) fn look_for_select<H: Hash32>(
    alloc: Global,
    running: &mut Running<H>,
    q: &Select,
    catalog: &mut CatalogCell,
) -> Stage
    ensures { LooksUp H.digest (stmt.Select q.now) running.old catalog.old running.new catalog.new result }
{
    match lock(running, Mode::S, catalog) {
        Ok(fresh) => {
            running.visited.add(CATALOG);
            got_stage(
                running.explicit,
                fresh,
                look_up_for_select(alloc, q, catalog),
            )
        }
        Err(e) => stopped(e),
    }
}

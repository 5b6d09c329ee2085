//! CREATE TABLE and CREATE INDEX in the catalog.

ghost use Rattle.std.specs.Prelude.{◌<◌};
ghost use Rattle.sql_types.specs.declared.statement.Stmt.TheVariants as stmt;
ghost use Rattle.store_catalog.specs.Calls.{MayCreate};
ghost use Rattle.server_visit_catalog.specs.InCatalog.{MakesIndex, MakesTable, IsRefused};

use crate::catalog_look::lock;
use base_merkle::Hash32;
use server_session::{CATALOG, Running, Stage, stopped};
use sql_types::{CreateIndex, CreateTable, Mode, Reply};
use sql_value::Refusal;
use std::alloc::Global;
use store_catalog::CatalogCell;

/// A statement that creates, alters or drops keeps its X where its checks refuse it; where there is no memory, the X
/// goes again.
pub(crate) fn refuse<H: Hash32>(
    running: &mut Running<H>,
    catalog: &mut CatalogCell,
    e: Refusal,
) -> Stage
    requires { 0 < running.old.visited.room }
    ensures { IsRefused H.digest e running.old catalog.old running.new catalog.new result }
{
    match e {
        Refusal::NoMemory => {
            catalog.give_back(running.context.id());
            stopped(Refusal::NoMemory)
        }
        e => {
            running.visited.add(CATALOG);
            Stage::Replied(Reply::Refused(e))
        }
    }
}

/// CREATE TABLE, under X.
pub(crate) fn make_table<H: Hash32>(
    alloc: Global,
    running: &mut Running<H>,
    create: &CreateTable,
    catalog: &mut CatalogCell,
) -> Stage
    requires { MayCreate H.digest running.old.context catalog.old }
    ensures { MakesTable H.digest create.now running.old catalog.old running.new catalog.new result }
{
    if let Err(e) = lock(running, Mode::X, catalog) {
        return stopped(e);
    }
    match catalog.create_table(alloc, &mut running.context, create) {
        Ok(()) => {
            running.visited.add(CATALOG);
            Stage::Replied(Reply::Made)
        }
        Err(e) => refuse(running, catalog, e),
    }
}

/// CREATE INDEX, under X; its table's cell is visited next.
pub(crate) fn make_index<H: Hash32>(
    alloc: Global,
    running: &mut Running<H>,
    create: &CreateIndex,
    catalog: &mut CatalogCell,
) -> Stage
    requires { MayCreate H.digest running.old.context catalog.old }
    ensures { MakesIndex H.digest create.now running.old catalog.old running.new catalog.new result }
{
    if let Err(e) = lock(running, Mode::X, catalog) {
        return stopped(e);
    }
    match catalog.create_index(alloc, &mut running.context, create) {
        Ok(def) => {
            running.visited.add(CATALOG);
            Stage::Made {
                def,
                indexed: false,
            }
        }
        Err(e) => refuse(running, catalog, e),
    }
}

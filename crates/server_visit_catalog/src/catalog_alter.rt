//! ALTER TABLE and DROP TABLE in the catalog.

ghost use Rattle.store_catalog.specs.Calls.{MayCreate};
ghost use Rattle.server_visit_catalog.specs.InCatalog.{by_alter, by_drop, Alters};

use crate::catalog_create::refuse;
use crate::catalog_look::lock;
use base_merkle::Hash32;
use base_types::Name;
use server_session::{CATALOG, Running, Stage, stopped};
use sql_types::{Alter, Mode, Reply};
use std::alloc::Global;
use store_catalog::CatalogCell;

/// ALTER TABLE, under X; the table's own cell is left as it is.
pub(crate) fn alter_table<H: Hash32>(
    alloc: Global,
    running: &mut Running<H>,
    alter: &Alter,
    catalog: &mut CatalogCell,
) -> Stage
    requires { MayCreate H.digest running.old.context catalog.old }
    ensures { Alters H.digest (by_alter alter.now) running.old catalog.old running.new catalog.new result }
{
    if let Err(e) = lock(running, Mode::X, catalog) {
        return stopped(e);
    }
    match catalog.alter_table(alloc, &mut running.context, alter) {
        Ok(()) => {
            running.visited.add(CATALOG);
            Stage::Replied(Reply::Made)
        }
        Err(e) => refuse(running, catalog, e),
    }
}

/// DROP TABLE, under X; the table's own cell is left as it is.
pub(crate) fn drop_table<H: Hash32>(
    alloc: Global,
    running: &mut Running<H>,
    name: &Name,
    catalog: &mut CatalogCell,
) -> Stage
    requires { MayCreate H.digest running.old.context catalog.old }
    ensures { Alters H.digest (by_drop name.now) running.old catalog.old running.new catalog.new result }
{
    if let Err(e) = lock(running, Mode::X, catalog) {
        return stopped(e);
    }
    match catalog.drop_table(alloc, &mut running.context, name) {
        Ok(()) => {
            running.visited.add(CATALOG);
            Stage::Replied(Reply::Made)
        }
        Err(e) => refuse(running, catalog, e),
    }
}

//! Visits of the catalog's cell.

ghost use Rattle.std.specs.Prelude.{◌≡◌};
ghost use Rattle.server_visit_catalog.specs.InCatalog.{with_stage, Looked, MayLookFor, ReleasesNext};
ghost use Rattle.server_session.specs.KeptCell.{catalog_seen};
ghost use Rattle.server_session.specs.ControlPoints.{KeepsStatement};
ghost use Rattle.server_session.specs.Steps.{Among, ComesOn, Visits};
ghost use Rattle.server_session.specs.declared.stage.ControlPoint.TheVariants.{Inside};
ghost use Rattle.server_session.specs.declared.stage.Stage.TheVariants.{GivingBack, Looking};

use crate::catalog_alter::{alter_table, drop_table};
use crate::catalog_create::{make_index, make_table};
use crate::catalog_look::{look_for_change, look_for_select};
use crate::catalog_release::leave_catalog;
use base_merkle::Hash32;
use server_session::{ControlPoint, Running, Seat, Stage, put_point, stopped};
use sql_types::Stmt;
use sql_value::Refusal;
use std::alloc::Global;
use store_catalog::CatalogCell;

// What a table statement comes to in the catalog.
fn look_for<H: Hash32>(
    alloc: Global,
    running: &mut Running<H>,
    stmt: &Stmt,
    catalog: &mut CatalogCell,
) -> Stage
    requires { MayLookFor H.digest stmt.now running.old catalog.old }
    ensures { Looked H.digest stmt.now running.old catalog.old running.new catalog.new result }
{
    match stmt {
        Stmt::Create(create) => make_table(alloc, running, create, catalog),
        Stmt::Index(create) => make_index(alloc, running, create, catalog),
        Stmt::Alter(alter) => alter_table(alloc, running, alter, catalog),
        Stmt::Drop(name) => drop_table(alloc, running, name, catalog),
        Stmt::Change(row) => look_for_change(alloc, running, row, catalog),
        Stmt::Select(q) => look_for_select(alloc, running, q, catalog),
        _ => unreachable!(),
    }
}

/// A visit of the catalog's cell.
pub fn visit_catalog<H: Hash32>(seat: &mut Seat<H>, alloc: Global, catalog: &mut CatalogCell)
    requires { Among H.digest seat.old (catalog_seen catalog.old) }
    ensures visits { Visits H.digest seat.old (catalog_seen catalog.old) (catalog_seen catalog.new) seat.new }
    ensures comes_on { ComesOn seat.old (catalog_seen catalog.old) (catalog_seen catalog.new) seat.new }
    ensures stays { KeepsStatement seat.old seat.new }
{
    match seat.point {
        ControlPoint::Inside(Stage::Looking) => look(seat, alloc, catalog),
        ControlPoint::Inside(Stage::GivingBack(refusal)) => give_back(seat, refusal, catalog),
        _ => release_catalog(seat, catalog),
    }
}

// The statement looks its table up, or creates, alters or drops it, or creates an index.
fn look<H: Hash32>(seat: &mut Seat<H>, alloc: Global, catalog: &mut CatalogCell)
    requires among { Among H.digest seat.old (catalog_seen catalog.old) }
    requires here { seat.old.point ≡ Inside Looking }
    ensures visits { Visits H.digest seat.old (catalog_seen catalog.old) (catalog_seen catalog.new) seat.new }
    ensures comes_on { ComesOn seat.old (catalog_seen catalog.old) (catalog_seen catalog.new) seat.new }
    ensures stays { KeepsStatement seat.old seat.new }
{
    let Some(running) = &mut seat.running else {
        unreachable!()
    };
    let Some(stmt) = &seat.stmt else {
        unreachable!()
    };
    let stage = look_for(alloc, running, stmt, catalog);
    set_stage(seat, stage);
}

fn set_stage<H: Hash32>(seat: &mut Seat<H>, stage: Stage)
    ensures { seat.new ≡ with_stage stage seat.old }
{
    put_point(&mut seat.point, ControlPoint::Inside(stage));
}

// A refused statement gives the catalog's lock back.
fn give_back<H: Hash32>(seat: &mut Seat<H>, refusal: Refusal, catalog: &mut CatalogCell)
    requires among { Among H.digest seat.old (catalog_seen catalog.old) }
    requires here { seat.old.point ≡ Inside (GivingBack refusal) }
    ensures visits { Visits H.digest seat.old (catalog_seen catalog.old) (catalog_seen catalog.new) seat.new }
    ensures comes_on { ComesOn seat.old (catalog_seen catalog.old) (catalog_seen catalog.new) seat.new }
    ensures stays { KeepsStatement seat.old seat.new }
{
    let Some(running) = &seat.running else {
        unreachable!()
    };
    catalog.give_back(running.context.id());
    set_stage(seat, stopped(refusal));
}

// The catalog comes last of the cells that a transaction releases.
fn release_catalog<H: Hash32>(seat: &mut Seat<H>, catalog: &mut CatalogCell)
    requires among { Among H.digest seat.old (catalog_seen catalog.old) }
    requires here { ReleasesNext seat.old.point }
    ensures visits { Visits H.digest seat.old (catalog_seen catalog.old) (catalog_seen catalog.new) seat.new }
    ensures comes_on { ComesOn seat.old (catalog_seen catalog.old) (catalog_seen catalog.new) seat.new }
    ensures stays { KeepsStatement seat.old seat.new }
{
    let Some(running) = &mut seat.running else {
        unreachable!()
    };
    leave_catalog(running, catalog);
}

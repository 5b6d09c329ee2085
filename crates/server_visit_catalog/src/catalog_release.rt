//! The release of the catalog.

ghost use Rattle.std.specs.Prelude.{◌≡◌};
ghost use Rattle.server_session.specs.Seats.{OpenTransaction};
ghost use Rattle.server_session.specs.Represents.{Represents};
ghost use Rattle.server_visit_catalog.specs.InCatalog.{is_committed, released_by, with_visited, Passes};

use base_merkle::Hash32;
use server_session::Running;
use sql_types::EndLine;
use store_catalog::CatalogCell;

fn is_committed(end: &Option<EndLine>) -> bool
    ensures { result ≡ is_committed end.now }
{
    matches!(end, Some(EndLine::Committed { id: _, place: _ }))
}

/// Drops the locks of a transaction whose end is fixed; what it made is undone unless it was committed.
pub(crate) fn leave_catalog<H: Hash32>(running: &mut Running<H>, catalog: &mut CatalogCell)
    ensures cell { (h : H) (o : OpenTransaction) → Represents H.digest h running.old.context o
        → catalog.new ≡ released_by running.old.end o.id catalog.old }
    ensures left { Passes running.old.visited running.new.visited }
    ensures same { running.new ≡ with_visited running.new.visited running.old }
{
    let id = running.context.id();
    if !is_committed(&running.end) {
        catalog.undo(id);
    }
    catalog.release(id);
    running.visited.release();
}

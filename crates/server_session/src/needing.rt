//! What a seat needs next, by where it stands.

ghost use Rattle.std.specs.Prelude.{◌≡◌};
ghost use Rattle.server_session.specs.Needs as spec;
ghost use Rattle.server_session.specs.VisitedCells as visited;

use crate::need::NextVisit;
use crate::running::Running;
use crate::stage::Stage;
use base_merkle::Hash32;
use base_types::TableId;

/// The number of the catalog's cell.
pub const CATALOG: usize = 0;

/// The number of the ledger's cell.
pub const LEDGER: usize = 1;

/// The cell of the table with this id; the tables of the system lie in the catalog.
pub fn cell_of(id: TableId) -> usize
    ensures { result ≡ visited.table_cell id }
{
    if id <= 2 { CATALOG } else { id as usize - 1 }
}

fn cell_or_done(cell: Option<usize>) -> NextVisit
    ensures { result ≡ spec.cell_or_done cell }
{
    match cell {
        Some(cell) => NextVisit::Cell(cell),
        None => NextVisit::Done,
    }
}

/// A cell that is visited on the way back to a savepoint, where there is one.
pub fn not_catalog(cell: Option<usize>) -> Option<usize>
    ensures { result ≡ visited.not_catalog cell }
{
    match cell {
        Some(cell) => if cell == CATALOG { None } else { Some(cell) },
        None => None,
    }
}

// Until the end is fixed the ledger's cell, unless the transaction goes on, and then the cells to be
// released.
fn end_need<H: Hash32>(goes_on: bool, running: &Running<H>) -> NextVisit
    ensures { result ≡ spec.end_need goes_on running.now.end running.now.visited.left }
{
    if running.end.is_some() {
        return cell_or_done(running.visited.at(0));
    }
    if goes_on {
        NextVisit::Done
    } else {
        NextVisit::Cell(LEDGER)
    }
}

/// What is needed once the reply is certain.
fn answer_need<H: Hash32>(running: &Option<Running<H>>) -> NextVisit
    ensures { result ≡ spec.answer_need running.now }
{
    match running {
        Some(running) => end_need(running.explicit, running),
        None => NextVisit::Done,
    }
}

/// What is needed at the session's end.
pub(crate) fn leaving_need<H: Hash32>(running: &Option<Running<H>>) -> NextVisit
    ensures { result ≡ spec.leaving_need running.now }
{
    match running {
        Some(running) => end_need(false, running),
        None => NextVisit::Done,
    }
}

/// What is needed inside a statement.
pub(crate) fn stage_need<H: Hash32>(stage: &Stage, running: &Option<Running<H>>) -> NextVisit
    ensures { result ≡ spec.stage_need stage.now running.now }
{
    match stage {
        Stage::Begun => NextVisit::Done,
        Stage::Keeping => NextVisit::All,
        Stage::Looking | Stage::GivingBack(_) => NextVisit::Cell(CATALOG),
        Stage::Found {
            def,
            part: _,
            fresh: _,
        } => NextVisit::Cell(cell_of(def.get().id)),
        Stage::Made { def, indexed } => if *indexed {
            NextVisit::Cell(LEDGER)
        } else {
            NextVisit::Cell(cell_of(def.get().id))
        },
        Stage::GoingBack { seq: _, passed } => cell_or_done(next_back(running, *passed)),
        Stage::Answering(_) => answer_need(running),
        Stage::AssigningId { explicit: _ } | Stage::Committing | Stage::RollingBack =>
            NextVisit::Cell(LEDGER),
        Stage::Issuing | Stage::Replied(_) | Stage::LacksIndex { def: _ } => NextVisit::Cell(
            LEDGER,
        ),
    }
}

fn next_back<H: Hash32>(running: &Option<Running<H>>, passed: usize) -> Option<usize>
    ensures { result ≡ spec.back_need running.now passed }
{
    match running {
        Some(running) => not_catalog(running.visited.at(passed)),
        None => None,
    }
}

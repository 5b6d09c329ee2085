//! The id of a transaction, drawn in the ledger's cell.

ghost use Rattle.std.specs.Prelude.{◌≡◌, ◌<◌, [], true, IfOk, vec_capacity};
ghost use Rattle.server_visit_ledger.specs.Drew.{Drew};
ghost use Rattle.server_visit_ledger.specs.AssigningId as drawing;
ghost use Rattle.server_visit_ledger.specs.LedgerSeen.{ledger_seen};
ghost use Rattle.server_visit_ledger.specs.LedgerMoves.{HasAssignedId, VisitsOn, work_of as work_at};
ghost use Rattle.server_session.specs.Steps.{Among};
ghost use Rattle.server_visit_ledger.specs.declared.ledger_work.LedgerWork.TheVariants.{AssignId};

use base_merkle::Hash32;
use base_types::{Memory, Text, TxId, is_tx_id};
use server_session::{
    ControlPoint, Running, Seat, Stage, TxCtx, VisitedCellList, put_point, stopped, unsaid,
};
use sql_types::Reply;
use sql_value::Refusal;
use std::alloc::Global;
use std::mem;
use store_ledger::LedgerCell;

/// Draws an id for BEGIN, or else for a transaction of the statement's own. Without one, or without
/// memory, the statement is refused with NoMemory.
pub(crate) fn assign_id<H: Hash32>(
    seat: &mut Seat<H>,
    alloc: Global,
    ledger: &mut LedgerCell,
    explicit: bool,
)
    requires among { Among H.digest seat.old (ledger_seen ledger.old) }
    requires work { work_at seat.old.point ≡ AssignId explicit }
    ensures { VisitsOn H.digest seat.old (ledger_seen ledger.old) (ledger_seen ledger.new) seat.new }
{
    let drawn = assign_next_id(alloc, seat.hasher, ledger, explicit);
    go_on_with(seat, drawn, explicit);
}

// Goes on with a transaction that is new, or is refused without one.
fn go_on_with<H: Hash32>(seat: &mut Seat<H>, drawn: Option<Running<H>>, explicit: bool)
    ensures { HasAssignedId H.digest explicit drawn seat.old seat.new }
{
    match drawn {
        Some(running) => {
            let id = running.context.id();
            drop(mem::replace(&mut seat.running, Some(running)));
            put_point(
                &mut seat.point,
                ControlPoint::Inside(assigned_id_stage(explicit, id)),
            );
        }
        None => put_point(
            &mut seat.point,
            ControlPoint::Inside(stopped(Refusal::NoMemory)),
        ),
    }
}

// The transaction with the next id. None, and nothing is drawn, where ids are at their end, or where BEGIN
// opens it and there is no memory for its first statement.
fn assign_next_id<H: Hash32>(
    alloc: Global,
    hasher: H,
    ledger: &mut LedgerCell,
    explicit: bool,
) -> Option<Running<H>>
    ensures { Drew H.digest hasher explicit ledger.old ledger.new result }
{
    let Ok(script) = empty_script(alloc, explicit) else {
        return None;
    };
    if !is_tx_id(ledger.next_id()) {
        return None;
    }
    let id = ledger.begin();
    Some(Running {
        context: TxCtx::new(alloc, hasher, id, explicit),
        script,
        visited: VisitedCellList::new(alloc),
        explicit,
        end: None,
    })
}

// A script without statements, with room for the first where BEGIN opened its transaction.
fn empty_script(alloc: Global, explicit: bool) -> Result<Vec<(Text, Reply)>, Memory>
    ensures items { IfOk result (λ script. script.items ≡ []) }
    ensures room { IfOk result (λ script. explicit ≡ true → 0 < vec_capacity script) }
{
    let mut script = Vec::new(alloc);
    if explicit {
        script.reserve(1)?;
    }
    Ok(script)
}

fn assigned_id_stage(explicit: bool, id: TxId) -> Stage
    ensures { result ≡ drawing.assigned_id_stage explicit id }
{
    if explicit {
        unsaid(Reply::Begun(id))
    } else {
        Stage::Looking
    }
}

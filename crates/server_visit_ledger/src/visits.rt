//! Visits of the ledger's cell.

ghost use Rattle.server_visit_ledger.specs.LedgerSeen.{ledger_seen};
ghost use Rattle.server_session.specs.ControlPoints.{KeepsStatement};
ghost use Rattle.server_session.specs.Steps.{Among, ComesOn, Visits};

use crate::ledger_assign::assign_id;
use crate::ledger_commit::commit;
use crate::ledger_end::end_uncommitted;
use crate::ledger_issue::issue;
use crate::ledger_work::{LedgerWork, work_of};
use base_merkle::Hash32;
use server_session::Seat;
use std::alloc::Global;
use store_ledger::LedgerCell;

/// A visit of the ledger's cell: an id is drawn, the end of a transaction is fixed, or a digest is
/// issued.
pub fn visit_ledger<H: Hash32>(seat: &mut Seat<H>, alloc: Global, ledger: &mut LedgerCell)
    requires { Among H.digest seat.old (ledger_seen ledger.old) }
    ensures visits { Visits H.digest seat.old (ledger_seen ledger.old) (ledger_seen ledger.new) seat.new }
    ensures comes_on { ComesOn seat.old (ledger_seen ledger.old) (ledger_seen ledger.new) seat.new }
    ensures stays { KeepsStatement seat.old seat.new }
{
    match work_of(&seat.point) {
        LedgerWork::AssignId { explicit } => assign_id(seat, alloc, ledger, explicit),
        LedgerWork::Commit => commit(seat, alloc, ledger),
        LedgerWork::Issue => issue(seat, alloc, ledger),
        LedgerWork::End => end_uncommitted(seat, ledger),
    }
}
